//! The laws of texts and their trees.
//!
//! Each law is the contract of a function that does nothing: a call brings the law into a proof.
ghost use Rattle.std.specs.Prelude.{◌≡◌, ◌<◌, ◌⊎◌, ℕ, List, length};
ghost use Rattle.zpl_text.specs.declared.tokens.Token.{Token};
ghost use Rattle.zpl_text.specs.Tokens.{IsTokens};
ghost use Rattle.zpl_tree.specs.Shape.{SameShape};
ghost use Rattle.zpl_tree.specs.Spelling.{program_words};
ghost use Rattle.zpl_tree.specs.Syntax.{Program};
ghost use Rattle.zpl_tree.specs.Word.{printed_text};
ghost use Rattle.zpl_grammar.specs.Lexeme.{Lexeme, lexemes_of};
ghost use Rattle.zpl_grammar.specs.Texts.{IsTreeOf, TextSpells, TokensSpell};
ghost use Rattle.zpl_grammar.specs.Texts.{IsShallowTree, IsSyntaxFault, IsTooDeep};
ghost use Rattle.zpl_parse.specs.declared.faults.ParseFault.TheVariants.{Syntax, TooDeep};
ghost use Rattle.zpl_parse.specs.Declarations.{program};
ghost use Rattle.zpl_parse.specs.Following.{IsFaultOf};
ghost use Rattle.zpl_parse.specs.Outcome.{Done};

/// A text has at most one tree, however deep it is. Trees that its tokens spell differ in offsets
/// and source alone.
pub fn texts_have_one_tree()
    ensures tree { (text : List ℕ) (tokens : List Token) (tree other : Program)
        → IsTreeOf text tokens tree → IsTreeOf text tokens other → tree ≡ other }
    ensures shape { (text : List ℕ) (tokens : List Token) (tree other : Program)
        → TokensSpell text tokens tree → TokensSpell text tokens other → SameShape tree other }
{}

/// What the rule of programs makes of a text's tokens is the tree of the text, or a fault of it.
pub fn rules_tell_trees_and_faults()
    ensures tree { (text : List ℕ) (tokens : List Token) (most : ℕ) (tree : Program)
        (rest : List Lexeme) → IsTokens text tokens
        → program text most (lexemes_of text tokens) ≡ Done tree rest
        → IsShallowTree text tokens tree }
    ensures syntax { (text : List ℕ) (tokens : List Token) (at : ℕ) → IsTokens text tokens
        → ((most : ℕ) → length tokens < most
        → IsFaultOf (Syntax at) (program text most (lexemes_of text tokens)))
        → IsSyntaxFault text tokens at }
    ensures too_deep { (text : List ℕ) (tokens : List Token) → IsTokens text tokens
        → ((most : ℕ) → length tokens < most
        → IsFaultOf TooDeep (program text most (lexemes_of text tokens)))
        → IsTooDeep text tokens }
{
    zpl_text::tokens_are_in_order();
    zpl_grammar::words_before_a_token_are_writable();
}

/// Nothing is in between: the tokens of a text have a tree that isn't too deep, or a fault of
/// syntax, or they are too deep.
pub fn texts_are_read_or_refused()
    ensures { (text : List ℕ) (tokens : List Token) → IsTokens text tokens
        → ((tree : Program) × IsShallowTree text tokens tree)
        ⊎ (((at : ℕ) × IsSyntaxFault text tokens at) ⊎ IsTooDeep text tokens) }
{
    rules_tell_trees_and_faults();
}

/// What is printed of a tree that a text spells spells that tree and no other, up to offsets and
/// source.
pub fn printed_trees_are_parsed_again()
    ensures tree { (text : List ℕ) (program : Program) → TextSpells text program
        → TextSpells (printed_text (program_words program)) program }
    ensures one { (text : List ℕ) (program tree : Program) (tokens : List Token)
        → TextSpells text program → IsTokens (printed_text (program_words program)) tokens
        → TokensSpell (printed_text (program_words program)) tokens tree
        → SameShape program tree }
{
    zpl_grammar::printed_trees_are_read_back();
    zpl_text::text_is_cut_one_way();
}
