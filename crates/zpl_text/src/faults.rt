//! Why a text has no tokens.
ghost use Rattle.std.specs.Prelude.{◌≡◌};
ghost use Rattle.zpl_text.specs.declared.faults.LexFault.TheVariants.{NoMemory};
ghost use Rattle.zpl_text.specs.Faults.{lexical_name, lexical_offset};

use std::alloc::AllocFailed;

/// What is wrong with a text, with the offset of the place, counted in bytes from 0.
#[derive(Clone, Copy, Debug, PartialEq, Eq)]
pub enum LexFault {
    /// No token begins with this byte, or it is the backslash of an unknown escape.
    BadByte(u32),
    /// The comment that begins here isn't closed.
    OpenComment(u32),
    /// The line or the text ends before the string that begins here.
    OpenString(u32),
    /// The number that begins here is over 2^63 - 1.
    NumberTooLarge(u32),
    /// The number that begins here goes on as a float does.
    FloatText(u32),
    /// There was no memory for a token.
    NoMemory,
}

impl LexFault {
    /// How the fault is called, as its variant is.
    pub fn name(self) -> &'static str
        ensures { result.now ≡ lexical_name self }
    {
        match self {
            LexFault::BadByte(_) => "BadByte",
            LexFault::OpenComment(_) => "OpenComment",
            LexFault::OpenString(_) => "OpenString",
            LexFault::NumberTooLarge(_) => "NumberTooLarge",
            LexFault::FloatText(_) => "FloatText",
            LexFault::NoMemory => "NoMemory",
        }
    }

    /// The offset of its place, counted in bytes from 0. Want of memory has no place, and answers
    /// 0.
    pub fn at(self) -> u32
        ensures { result ≡ lexical_offset self }
    {
        match self {
            LexFault::BadByte(at)
            | LexFault::OpenComment(at)
            | LexFault::OpenString(at)
            | LexFault::NumberTooLarge(at)
            | LexFault::FloatText(at) => at,
            LexFault::NoMemory => 0,
        }
    }
}

impl<T: Drop> From<AllocFailed<T>> for LexFault {
    ghost from_gives = { λ _ e. e ≡ NoMemory };

    fn from(_failed: AllocFailed<T>) -> LexFault {
        LexFault::NoMemory
    }
}
