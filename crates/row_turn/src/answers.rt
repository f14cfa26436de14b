//! What a row comes to.

use zpl_io::Bytes;

/// What a processor makes of its next row by itself, without a message.
#[derive(Drop)]
pub enum OwnTurn {
    /// It makes a move that prints nothing.
    Moves,
    /// It is to print these bytes, at least one, and then go on to the next row. Nothing has
    /// changed yet.
    Prints(Bytes),
    /// It is stuck at a place that it doesn't hold. Nothing has changed.
    Unheld,
}

/// What becomes of a message that a processor awaited. Where it is refused nothing has changed.
#[derive(Clone, Copy, Debug, PartialEq, Eq)]
pub enum Receipt {
    /// Its words are used or kept.
    Accepted,
    /// Its tag is another one.
    Tag,
    /// It has another number of words than are awaited.
    Length,
    /// A word is for a place that isn't held.
    Unheld,
}
