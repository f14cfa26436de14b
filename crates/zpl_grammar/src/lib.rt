//! The texts of programs: how the tokens of a text are the words that a tree is written as.
//!
//! The definitions stand in `specs/`; what runs is elsewhere. A function here does nothing: it has
//! a law of the
//! definitions as its contract, and a call brings the law into a proof.
#![tactic(auto)]

ghost use Rattle.std.specs.Prelude.{◌≡◌, ◌≤◌, ℕ, false, List, ◌∷◌, ◌++◌, length, sum_by};
ghost use Rattle.zpl_text.specs.declared.tokens.Token.{Token};
ghost use Rattle.zpl_text.specs.Tokens.{IsTokens};
ghost use Rattle.zpl_tree.specs.Depth.{depth};
ghost use Rattle.zpl_tree.specs.Grammar.{Spells};
ghost use Rattle.zpl_tree.specs.Spelling.{program_words};
ghost use Rattle.zpl_tree.specs.Syntax.{Program};
ghost use Rattle.zpl_tree.specs.Word.{Word, word_text, printed_text};
ghost use Rattle.zpl_grammar.specs.Written.{AreWords};
ghost use Rattle.zpl_grammar.specs.Texts.{most_deep, IsSyntaxFault, IsTooDeep, TextSpells};
ghost use Rattle.zpl_grammar.specs.Texts.{TokensSpell};
ghost use Rattle.zpl_grammar.specs.Writable.{AreWritable, EachIsWritable, HasWords};

/// The words of a text take no more bytes than the text.
pub fn words_fit_their_text()
    ensures { (text : List ℕ) (tokens : List Token) (words : List Word) → IsTokens text tokens
        → AreWords text tokens words →
        sum_by (λ word. length (word_text word)) words ≤ length text }
{
    zpl_text::tokens_are_in_order();
}

/// The words before a token of a text are writable, each where it stands.
pub fn words_before_a_token_are_writable()
    ensures { (text : List ℕ) (tokens front back : List Token) (token : Token) (words : List Word)
        → IsTokens text tokens
        → tokens ≡ front ++ token ∷ back → AreWords text front words → EachIsWritable false words }
{
    zpl_text::tokens_are_in_order();
}

/// Writable words are read back from what they are printed as. The words of each text are writable,
/// and they are its
/// only words.
pub fn writable_words_are_read_back()
    ensures printed { (words : List Word) → AreWritable words
        → HasWords (printed_text words) words }
    ensures any { (text : List ℕ) (words : List Word) → HasWords text words → AreWritable words }
    ensures one { (text : List ℕ) (words others : List Word) → HasWords text words
        → HasWords text others → words ≡ others }
{
    zpl_text::tokens_are_in_order();
    zpl_text::text_is_cut_one_way();
}

/// The words that a tree is printed as are writable where another spelling of the tree is.
pub fn printed_words_are_writable()
    ensures { (program : Program) (words : List Word) → Spells program words → AreWritable words
        → AreWritable (program_words program) }
{}

/// A tree that some text spells is read back from what it is printed as: the printed text has just
/// the words
/// that were printed, and so it spells the tree.
pub fn printed_trees_are_read_back()
    ensures words { (text : List ℕ) (program : Program) → TextSpells text program
        → HasWords (printed_text (program_words program)) (program_words program) }
    ensures tree { (text : List ℕ) (program : Program) → TextSpells text program
        → TextSpells (printed_text (program_words program)) program }
{
    writable_words_are_read_back();
    printed_words_are_writable();
    zpl_tree::printed_words_are_a_spelling();
}

/// A text whose tokens spell a tree has no fault of syntax, and it is not too deep where the tree
/// isn't.
pub fn texts_with_a_tree_have_no_fault()
    ensures syntax { (text : List ℕ) (tokens : List Token) (program : Program) (at : ℕ)
        → TokensSpell text tokens program → ¬ IsSyntaxFault text tokens at }
    ensures too_deep { (text : List ℕ) (tokens : List Token) (program : Program)
        → TokensSpell text tokens program → depth program ≤ most_deep
        → ¬ IsTooDeep text tokens }
{}

/// A fault of syntax has one place.
pub fn syntax_faults_have_one_place()
    ensures { (text : List ℕ) (tokens : List Token) (at other : ℕ)
        → IsSyntaxFault text tokens at → IsSyntaxFault text tokens other → at ≡ other }
{}
