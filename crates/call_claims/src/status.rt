//! The statuses that the program ends with.

/// The work was done; a run is over and ended normally.
pub const DONE: u8 = 0;
/// The words are no command.
pub const USAGE: u8 = 1;
/// A file can't be read.
pub const UNREADABLE: u8 = 2;
/// A file is longer than its limit.
pub const TOO_LONG: u8 = 3;
/// A text has a fault, or its program is too much to compile.
pub const REFUSED: u8 = 4;
/// The grid is none, settings or declarations have a fault, or arrays have no room.
pub const UNBOUND: u8 = 5;
/// A run is over with a trap.
pub const TRAPPED: u8 = 7;
/// All turns were given, and the run isn't over.
pub const TURN_LIMIT: u8 = 8;
/// A put failed.
pub const PUT_FAILED: u8 = 9;
/// Memory was wanting.
pub const NO_MEMORY: u8 = 10;
