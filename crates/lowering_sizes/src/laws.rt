//! The laws of the sizes of lowered programs.
ghost use Rattle.std.specs.Prelude.{All, Contains, List, length, sum_by, ℕ, ◌*◌, ◌+◌, ◌≤◌};
ghost use Rattle.std.specs.List.{IsDistinct};
ghost use Rattle.std.specs.Str.{bytes_eq};
ghost use Rattle.zpl_text.specs.declared.tokens.Token.{Token};
ghost use Rattle.zpl_text.specs.Tokens.{IsTokens};
ghost use Rattle.zpl_tree.specs.Syntax.{Program};
ghost use Rattle.zpl_grammar.specs.Texts.{IsTreeOf};
ghost use Rattle.zpl_names.specs.Accepted.{IsFaultless};
ghost use Rattle.zpl_names.specs.Expansion.{other_size, plain_assignments, source_size};
ghost use Rattle.zpl_binding.specs.Settings.{Setting};
ghost use Rattle.code_parts.specs.Counts.{code_size, count_of, is_counted};
ghost use Rattle.zpl_lowering.specs.Program.{lowered_program};
ghost use Rattle.zpl_lowering.specs.Tables.{flat_tables, rows_of};
ghost use Rattle.lowering_sizes.specs.Sizes.{HasTokens, HoldsItsWords};
ghost use Rattle.lowering_sizes.specs.Texts.{texts_of};
ghost use Rattle.lowering_sizes.specs.Themselves.{rows_on_themselves};

use zpl_grammar::words_fit_their_text;

/// The tables of a program without faults are at most 32 times as large as the program with its
/// calls expanded.
pub fn sizes()
    ensures { (program : Program) (settings : List Setting) → IsFaultless program →
        HoldsItsWords program → code_size (flat_tables program settings) ≤
        32 * (source_size program + 1) }
{}

/// Each text of the tables is a newline or what a string of the program stands for, and of such
/// texts those that differ have no more bytes than the source has, and one: that of the newline.
pub fn texts_are_strings()
    ensures strings { (program : Program) (settings : List Setting) → IsFaultless program →
        HoldsItsWords program →
        All (λ text. Contains (texts_of program) text) (flat_tables program settings).texts }
    ensures different { (program : Program) (texts : List (List ℕ)) → HoldsItsWords program →
        All (λ text. Contains (texts_of program) text) texts → IsDistinct bytes_eq texts →
        sum_by length texts ≤ length program.source + 1 }
{}

/// Of its rows, those that statements are made of, and two more for each loop that reads with a
/// shift what it puts, are at most one for each plain assignment, and 32 for each token, parameter
/// and local name that stands in none, where there are at least as many tokens as words that the
/// tree is written as.
pub fn counted()
    ensures { (program : Program) (settings : List Setting) (tokens : ℕ) → IsFaultless program →
        HasTokens program tokens →
        count_of is_counted (flat_tables program settings) +
        2 * rows_on_themselves (rows_of (lowered_program program settings)) ≤
        plain_assignments program + 32 * (other_size program tokens + 1) }
{}

/// The tree of a text is written as the text's tokens: so the text holds its words, and has its
/// tokens.
pub fn texts_hold_their_words()
    ensures words { (text : List ℕ) (tokens : List Token) (program : Program) →
        IsTokens text tokens → IsTreeOf text tokens program → HoldsItsWords program }
    ensures tokens { (text : List ℕ) (tokens : List Token) (program : Program) →
        IsTreeOf text tokens program → HasTokens program (length tokens) }
{
    words_fit_their_text();
}
