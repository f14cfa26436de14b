//! The lines of messages.
ghost use Rattle.std.specs.Prelude.{◌≡◌, ◌+◌, ◌^◌, ◌<◌, ◌≤◌, ◌≢◌, [], ℕ, List, IfErr};
ghost use Rattle.std.specs.Prelude.{IfOk, IfSome, Some, drop, length, map, pos};
ghost use Rattle.std.specs.Option.{option_map};
ghost use Rattle.grid_links.specs.declared.messages.Message.{Message as OneMessage};
ghost use Rattle.grid_meaning.specs.Local.{processors};
ghost use Rattle.grid_meaning.specs.Stored.{arrangement_of};
ghost use Rattle.save_lines.specs.Line.{AreSavedLines, IsSavedLine};
ghost use Rattle.grid_save.specs.Reads.{IsMessageLine, Run, RunBreaks, is_message};
ghost use Rattle.save_reading.specs.Fault.{FaultAt};
ghost use Rattle.save_reading.specs.Sent.{IsFrom, sent_pair};

use crate::faults::{StateFault, bad_state};
use crate::lines::{keep, message_at};
use crate::places::count_in;
use grid_layout::Layout;
use grid_links::{Message, Words};
use node_form::Tables;
use save_lines::SavedLine;
use std::alloc::{AllocError, Global};

/// A message on its way to a processor.
#[derive(Drop)]
pub struct Sent {
    pub to: u32,
    pub message: Message,
}

/// The receiver with this number, of so many processors, from one of them on.
fn receiver_in(number: i128, count: u32, p: u32, least: u32) -> Option<u32>
    ensures found { (to : ℕ) → number ≡ pos to → to < count → to ≢ p → least ≤ to → result
        ≡ Some to }
    ensures right { IfSome result (λ to. (number ≡ pos to) × (to < count) × (to ≢ p)
        × (least ≤ to)) }
{
    if number < i128::from(least) || number >= i128::from(count) || number == i128::from(p) {
        return None;
    }
    Some(number as u32)
}

/// The message that this line tells, if it is to a processor from this one on.
fn read_message(
    alloc: Global,
    count: u32,
    p: u32,
    least: u32,
    line: &SavedLine,
) -> Result<Option<Sent>, AllocError>
    requires { IsSavedLine line.now }
    ensures found { IfOk result (λ found. (sent : ℕ × OneMessage) →
        IsFrom count p least line.now sent → option_map sent_pair found ≡ Some sent) }
    ensures right { IfOk result (λ found. IfSome found (λ sent.
        IsFrom count p least line.now (sent_pair sent))) }
{
    let SavedLine::Msg(to, tag, words) = line else {
        return Ok(None);
    };
    let Some(to) = receiver_in(*to, count, p, least) else {
        return Ok(None);
    };
    let Some(tag) = count_in(*tag) else {
        return Ok(None);
    };
    let words = Words::of(Vec::from_slice(alloc, words.as_slice())?);
    Ok(Some(Sent {
        to,
        message: Message { tag, words },
    }))
}

/// How many processors there are.
pub fn processor_count(_code: &Tables, layout: &Layout) -> u32
    requires { layout.now ≡ arrangement_of _code.now }
    ensures { result ≡ processors _code.now }
{
    layout.grid().count()
}

/// The messages that a processor sent, from a line on, and the place behind them.
pub fn take_messages(
    alloc: Global,
    _code: &Tables,
    layout: &Layout,
    p: u32,
    lines: &[SavedLine],
    from: usize,
) -> Result<(Vec<Sent>, usize), StateFault>
    requires layout { layout.now ≡ arrangement_of _code.now }
    requires lines { AreSavedLines lines.now }
    requires few { length lines.now + 1 < 2 ^ 32 }
    requires inside { from ≤ length lines.now }
    ensures ok { IfOk result (λ found. Run is_message (IsMessageLine _code.now p) []
        (drop from lines.now) (map sent_pair found.0.items) (drop found.1 lines.now)) }
    ensures inside { IfOk result (λ found. found.1 ≤ length lines.now) }
    ensures err { IfErr result (FaultAt
        (RunBreaks is_message (IsMessageLine _code.now p) [] (drop from lines.now)) lines.now) }
{
    let count = processor_count(_code, layout);
    let mut sent = Vec::new(alloc);
    let mut least = 0;
    let mut at = from;
    while let Some(line) = message_at(lines, at) {
        let Some(one) = read_message(alloc, count, p, least, line)? else {
            return Err(bad_state(at));
        };
        least = one.to;
        keep(&mut sent, one)?;
        at += 1;
    }
    Ok((sent, at))
}
