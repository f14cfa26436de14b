//! What a row does in one of its turns.

/// What a processor does in its next turn of a row in which processors work together.
#[derive(Clone, Copy, Debug)]
pub enum Stage {
    /// It changes its own state.
    Alone,
    /// It sends a message to this processor.
    Sends(u32),
    /// It takes a message from this processor.
    TakesFrom(u32),
    /// It leaves the row.
    Last,
}
