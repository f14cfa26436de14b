//! Tokens of a text.
ghost use Rattle.std.specs.Prelude.{◌≡◌, ◌≤◌, length};
ghost use Rattle.zpl_text.specs.declared.TheConstants.{MOST_SOURCE};
ghost use Rattle.zpl_text.specs.Cutting.{offset_of};

use zpl_tokens::Kind;

/// A token, which stands from the byte `from` of the text up to the byte `to`.
#[derive(Clone, Copy, Debug, PartialEq, Eq)]
pub struct Token {
    /// What it is.
    pub kind: Kind,
    /// The offset of its first byte.
    pub from: u32,
    /// The offset behind its last byte.
    pub to: u32,
}

/// How many bytes of the text stand before its rest.
pub fn offset_of(text: &[u8], rest: &[u8]) -> u32
    requires within { length rest.now ≤ length text.now }
    requires limit { length text.now ≤ MOST_SOURCE }
    ensures { result ≡ offset_of text.now rest.now }
{
    (text.len() - rest.len()) as u32
}
