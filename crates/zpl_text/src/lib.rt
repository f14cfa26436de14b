//! Cuts the text of a program into tokens.
//!
//! White space and comments stand between tokens: `--` and the rest of the line, or `/*` up to the
//! next `*/`. Of the fronts of the text that are a token, the longest is cut off. Two rules stand
//! beside that: where three bars stand together, the first is a token by itself, and a `"` directly
//! behind the token `[`, `of` or `in` is a ditto, and never begins a string.
//!
//! Besides the tokens there are the lines of a text, and what its strings stand for.
#![tactic(auto)]

mod escapes;
mod faults;
mod gaps;
mod laws;
mod lexer;
mod lines;
mod numbers;
mod strings;
mod symbols;
mod tokens;
mod words;

pub use escapes::unescape;
pub use faults::LexFault;
pub use laws::{
    faults_are_in_the_text, found_is_a_front, text_has_tokens_or_a_fault, text_is_cut_one_way,
    tokens_are_in_order,
};
pub use lexer::lex;
pub use lines::{Lines, line_at};
pub use tokens::Token;
pub use zpl_tokens::{Key, Kind, Sym};

/// The most bytes of a source text.
pub const MOST_SOURCE: u64 = 1_048_576;
