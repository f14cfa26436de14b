//! The statuses that only runs of listings and of orders end with. The others are those of
//! `call_claims`.

/// The file of an order holds none.
pub const ORDER_REFUSED: u8 = 6;
/// A file holds no listing.
pub const LISTING_REFUSED: u8 = 11;
/// The next turn is stuck, or no processor can move and not all have ended.
pub const STUCK: u8 = 12;
/// Code isn't sound: the demand of an instruction isn't met.
pub const UNSOUND: u8 = 13;
/// Code is too large for a check.
pub const CHECK_LIMIT: u8 = 14;
/// A run whose time is told makes more moves than a timetable takes.
pub const TOO_MANY_MOVES: u8 = 15;
/// A file holds no saved grid.
pub const SAVE_REFUSED: u8 = 16;
