//! The kinds of token that a program's text is cut into, and how symbols and keywords are written.
#![tactic(auto)]

mod keywords;
mod symbols;

pub use keywords::Key;
pub use symbols::Sym;

/// What a token is. Names and strings have their text in the program's bytes.
#[derive(Clone, Copy, Debug, PartialEq, Eq)]
pub enum Kind {
    /// A letter or `_`, then letters, digits and `_`, where that is no keyword.
    Name,
    /// Digits, with their value.
    Number(i64),
    /// A text in quotes.
    Str,
    /// A `"` that stands for the current region.
    Ditto,
    /// One of the symbols.
    Symbol(Sym),
    /// One of the keywords.
    Word(Key),
    /// The end of the text.
    End,
}
