//! Names, as they stand in a program's text.

/// A name and where it stands.
#[derive(Clone, Copy)]
pub struct Name<'a> {
    /// The name's bytes.
    pub text: &'a [u8],
    /// The offset of its first byte.
    pub at: u32,
}
