//! Where the listing of a saved grid ends.
ghost use Rattle.std.specs.Prelude.{◌≡◌, ◌^◌, ◌<◌, ◌≤◌, ◌↔◌, IsTrue, drop, length, take};
ghost use Rattle.grid_save.specs.Fault.{BeginsState, EndsLine, IsCut};
ghost use Rattle.save_texts.specs.Newlines.{newlines};

use crate::heads::behind_text;

/// Whether a line ends in front of this place, or it is the first one.
fn begins_line(bytes: &[u8], at: usize) -> bool
    requires { at ≤ length bytes.now }
    ensures { IsTrue result ↔ EndsLine (take at bytes.now) }
{
    if at == 0 {
        return true;
    }
    bytes[at - 1] == b'\n'
}

/// Whether the bytes begin with the keyword of the first line of a state.
fn begins_state(bytes: &[u8]) -> bool
    ensures { IsTrue result ↔ BeginsState bytes.now }
{
    match behind_text(bytes, b"proc ") {
        Some(_) => true,
        None => false,
    }
}

/// Where the first line begins that has the keyword of the first line of a state, or the end.
pub(crate) fn listing_len(bytes: &[u8]) -> usize
    ensures within { result ≤ length bytes.now }
    ensures cut { IsCut bytes.now (take result bytes.now) (drop result bytes.now) }
{
    for at in 0..bytes.len() {
        if begins_line(bytes, at) && begins_state(&bytes[at..]) {
            return at;
        }
    }
    bytes.len()
}

/// How many newlines there are.
pub(crate) fn line_count(bytes: &[u8]) -> u32
    requires { length bytes.now < 2 ^ 32 }
    ensures { result ≡ newlines bytes.now }
{
    let mut count = 0;
    for byte in bytes {
        if *byte == b'\n' {
            count += 1;
        }
    }
    count
}
