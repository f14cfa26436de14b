//! Where moves stand.

/// A move, by the stretch that it stands in and its number among its processor's moves.
#[derive(Clone, Copy)]
pub(crate) struct Place {
    pub(crate) stretch: usize,
    pub(crate) number: u64,
}

/// Moves of one processor at one tick after another. What made the first of them stand no earlier
/// is the message that it takes, sent by the move that is the cause; without one it is the
/// processor's first move, at tick 0.
#[derive(Clone, Copy)]
pub(crate) struct Stretch {
    pub(crate) processor: u32,
    pub(crate) first: u64,
    pub(crate) tick: u64,
    pub(crate) cause: Option<Place>,
}

/// How many moves a processor has made, and the stretch that the next one goes on with.
#[derive(Clone, Copy)]
pub(crate) struct Lane {
    pub(crate) made: u64,
    pub(crate) stretch: usize,
}
