//! Limits of commands.

/// The most digits of a number in a command.
pub const MOST_DIGITS: usize = 19;

/// The most turns that a command may ask for, and those without a word: 2^61.
pub const MOST_TURNS: u64 = 2_305_843_009_213_693_952;

/// The most messages that a word may let a link hold.
pub const MOST_LINKS: u32 = 1_000_000;

/// The most ticks that a word may have a message be on its way.
pub const MOST_LATENCY: u64 = 1_000_000;

/// The greatest number that a program is drawn from.
pub const MOST_SEED: u32 = 1_000_000;

/// The most digits of a factor of a grid.
pub const MOST_FACTOR_DIGITS: usize = 4;
