//! The text of how long a run takes.
#![tactic(auto)]

ghost use Rattle.std.specs.Prelude.{◌≡◌, ◌++◌, IfOk, OnOk};
ghost use Rattle.std.specs.Fmt.{decimal};
ghost use Rattle.time_text.specs.Text.{
  moves_text,
  segment_line,
  tick_text,
  time_text,
  total_line,
};

use grid_timetable::Segment;
use itoa::Buffer;
use std::alloc::{AllocError, Global};

/// Appends the number in decimal digits, with no leading zero.
fn append_decimal(number: u64, into: &mut Vec<u8>) -> Result<(), AllocError>
    ensures { OnOk result (into.new.items ≡ into.old.items ++ decimal number) }
{
    let mut buffer = Buffer::new();
    into.extend_from_slice(buffer.format(number).as_bytes())
}

/// Appends the line with the moves and the ticks.
fn append_total(moves: u64, ticks: u64, into: &mut Vec<u8>) -> Result<(), AllocError>
    ensures { OnOk result (into.new.items ≡ into.old.items ++ total_line moves ticks) }
{
    into.extend_from_slice(b"moves ")?;
    append_decimal(moves, into)?;
    into.extend_from_slice(b" ticks ")?;
    append_decimal(ticks, into)?;
    into.extend_from_slice(b"\n")
}

/// Appends the numbers of a segment's moves.
fn append_moves(segment: &Segment, into: &mut Vec<u8>) -> Result<(), AllocError>
    ensures { OnOk result (into.new.items ≡ into.old.items ++ moves_text segment.now) }
{
    append_decimal(segment.first, into)?;
    into.extend_from_slice(b"..")?;
    append_decimal(segment.last, into)
}

/// Appends the tick that a segment begins at.
fn append_tick(segment: &Segment, into: &mut Vec<u8>) -> Result<(), AllocError>
    ensures { OnOk result (into.new.items ≡ into.old.items ++ tick_text segment.now) }
{
    into.extend_from_slice(b" from tick ")?;
    append_decimal(segment.tick, into)?;
    into.extend_from_slice(b"\n")
}

/// Appends the line of a segment.
fn append_segment(segment: &Segment, into: &mut Vec<u8>) -> Result<(), AllocError>
    ensures { OnOk result (into.new.items ≡ into.old.items ++ segment_line segment.now) }
{
    into.extend_from_slice(b"processor ")?;
    append_decimal(u64::from(segment.processor), into)?;
    into.extend_from_slice(b" moves ")?;
    append_moves(segment, into)?;
    append_tick(segment, into)
}

/// The text of so many moves, which take so many ticks at least, and of a chain that takes as
/// many.
pub fn time_text(
    alloc: Global,
    moves: u64,
    ticks: u64,
    chain: &[Segment],
) -> Result<Vec<u8>, AllocError>
    ensures { IfOk result (λ text. text.items ≡ time_text moves ticks chain.now) }
{
    let mut text = Vec::new(alloc);
    append_total(moves, ticks, &mut text)?;
    for segment in chain {
        append_segment(segment, &mut text)?;
    }
    Ok(text)
}
