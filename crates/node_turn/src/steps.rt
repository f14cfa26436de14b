//! What a turn of a processor comes to.

use zpl_io::Bytes;

/// What a move does on links.
#[derive(Clone, Copy, Debug, PartialEq, Eq)]
pub enum Traffic {
    /// Nothing.
    Quiet,
    /// It sends a message with so many words to this processor.
    Sent { to: u32, words: u64 },
    /// It takes a message from this processor.
    Took { from: u32 },
}

/// How a processor, or a grid, is stuck.
#[derive(Clone, Copy, Debug, PartialEq, Eq)]
pub enum StuckKind {
    /// A message has another tag than the one that is awaited.
    Tag,
    /// A message has another number of words than is awaited.
    Length,
    /// A place isn't held.
    Unheld,
    /// No processor can move, and not all have ended: said of grids, never of one processor's turn.
    Idle,
}

/// What a turn comes to. All but `Moved` leave the processor and the links as they were.
#[derive(Drop)]
pub enum Step {
    /// A move was made that prints nothing.
    Moved(Traffic),
    /// The turn is a move that prints these bytes, at least one; it is made by
    /// [`printed`](crate::printed), once they are printed.
    Prints(Bytes),
    /// The processor awaits a message, or room for one.
    Waiting,
    /// It has ended.
    Over,
    /// It meets what it can't go on with.
    Stuck(StuckKind),
}
