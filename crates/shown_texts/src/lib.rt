//! What the tree of a text has by itself of what the theorem on whole programs asks: numbers are of
//! 64 bits.
//!
//! The definitions stand in `specs/`. The functions here do nothing: each has a law of the
//! definitions as its contract, and a call brings the law into a proof.
#![tactic(auto)]

ghost use Rattle.std.specs.Prelude.{ℕ, pos, List};
ghost use Rattle.zpl_nums.specs.Integer.{IsInteger};
ghost use Rattle.zpl_text.specs.declared.tokens.Token.{Token};
ghost use Rattle.zpl_text.specs.Tokens.{IsTokens};
ghost use Rattle.zpl_tree.specs.Syntax.{Program};
ghost use Rattle.zpl_grammar.specs.Texts.{IsTreeOf};
ghost use Rattle.zpl_binding.specs.Declarations.{known_of};
ghost use Rattle.zpl_binding.specs.Outcome.{outcome_of, value_or};
ghost use Rattle.zpl_binding.specs.Settings.{Setting};
ghost use Rattle.shown_programs.specs.Text.{IsShownProgram};
ghost use Rattle.shown_texts.specs.Forms.{HasShownForms};
ghost use Rattle.shown_texts.specs.Numerals.{HasSmallNumerals};

pub use shown_programs;

/// All numerals in the tree of a text are of 64 bits.
pub fn numbers_are_small()
    ensures { (text : List ℕ) (tokens : List Token) (program : Program) → IsTokens text tokens →
        IsTreeOf text tokens program → HasSmallNumerals program }
{}

/// Where all numerals in the tree of a program are of 64 bits, so are the values of configs and
/// constants, with any settings. (0 stands for the value of a name that has none.)
pub fn values_are_small()
    ensures { (program : Program) (settings : List Setting) → HasSmallNumerals program →
        (text : List ℕ) → IsInteger
        (value_or (pos 0) (outcome_of (pos 0) (known_of program settings).values text)) }
{}

/// The program of a text, whose statements are of the forms that are proved, is one that is shown,
/// with any settings: nothing is asked of its numbers.
pub fn texts_of_shown_forms_are_shown()
    ensures { (text : List ℕ) (tokens : List Token) (program : Program)
        (settings : List Setting) → IsTokens text tokens → IsTreeOf text tokens program →
        HasShownForms program → IsShownProgram program settings }
{}
