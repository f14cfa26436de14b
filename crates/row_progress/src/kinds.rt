//! Which words rows keep.

/// Which words a row keeps.
#[derive(Clone, Copy)]
pub(crate) enum Keeping {
    /// None.
    Nothing,
    /// Those of all messages, until its last turn.
    Words,
    /// Those of requests, until they are answered.
    Requests,
}
