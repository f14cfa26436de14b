//! The lines of words that are kept.
ghost use Rattle.std.specs.Prelude.{◌≡◌, ◌+◌, ◌^◌, ◌<◌, ◌≤◌, ◌∷◌, [], ℕ, ℤ, List, IfErr, IfOk};
ghost use Rattle.std.specs.Prelude.{IfSome, MatchOption, Some, drop, false, is_some, length, map};
ghost use Rattle.std.specs.Prelude.{pos, true};
ghost use Rattle.std.specs.Option.{option_map};
ghost use Rattle.grid_meaning.specs.Stored.{arrangement_of};
ghost use Rattle.node_local.specs.Standing.{entry_of};
ghost use Rattle.save_reading.specs.of_grid_save.Reads.{IsFar, IsKeptLine, Run, RunBreaks};
ghost use Rattle.save_reading.specs.of_grid_save.Reads.{begins, is_kept, told_kept};
ghost use Rattle.save_reading.specs.of_grid_save.Written.{kept_line};
ghost use Rattle.save_reading.specs.Fault.{FaultAt};
ghost use Rattle.row_progress.specs.Begun.{AreTold, IsBegun, stands};

use grid_layout::Layout;
use grid_links::Words;
use node_form::NodeProgram;
use node_local::{Kept, Local};
use row_progress::{Progress, begins_kept};
use save_lines::SavedLine;
use save_reading::{StateFault, bad_state, keep, processor_count};
use std::alloc::{AllocError, Global};

fn is_kept(line: &SavedLine) -> bool
    ensures { result ≡ is_kept line.now }
{
    matches!(line, SavedLine::Kept(..))
}

/// The line at this place, if it tells words that are kept.
fn kept_at(lines: &[SavedLine], at: usize) -> Option<&SavedLine>
    ensures { MatchOption result
        (begins is_kept (drop at lines.now) ≡ false)
        (λ line. (is_kept line.now ≡ true)
        × (drop at lines.now ≡ line.now ∷ drop (at + 1) lines.now)
        × (at < length lines.now)) }
{
    match lines.get(at) {
        Some(line) if is_kept(line) => Some(line),
        _ => None,
    }
}

/// How many lines from a place on tell words that are kept.
pub(crate) fn told_count(lines: &[SavedLine], from: usize) -> usize
    requires { from ≤ length lines.now }
    ensures { result ≡ length (told_kept (drop from lines.now)) }
{
    let mut at = from;
    while let Some(_) = kept_at(lines, at) {
        at += 1;
    }
    at - from
}

/// The sender with this number, of so many processors.
fn sender_in(number: i128, count: u32) -> Option<u32>
    ensures found { (from : ℕ) → number ≡ pos from → from < count → result ≡ Some from }
    ensures right { IfSome result (λ from. number ≡ pos from) }
{
    if number < 0 || number >= i128::from(count) {
        return None;
    }
    Some(number as u32)
}

/// The words that this line says are kept, if they are those of one of so many processors.
fn read_words(alloc: Global, count: u32, line: &SavedLine) -> Result<Option<Kept>, AllocError>
    ensures found { IfOk result (λ found. (entry : ℕ × List ℤ) → line.now ≡ kept_line entry →
        entry.0 < count → option_map entry_of found ≡ Some entry) }
    ensures right { IfOk result (λ found. IfSome found (λ kept.
        line.now ≡ kept_line (entry_of kept))) }
{
    let SavedLine::Kept(from, words) = line else {
        return Ok(None);
    };
    let Some(from) = sender_in(*from, count) else {
        return Ok(None);
    };
    let words = Words::of(Vec::from_slice(alloc, words.as_slice())?);
    Ok(Some(Kept { from, words }))
}

/// The words that a processor so far in its row keeps, from a line on, and the place behind them.
pub(crate) fn take_kept(
    alloc: Global,
    code: &NodeProgram,
    layout: &Layout,
    p: u32,
    begun: &mut Local,
    far: &Progress,
    lines: &[SavedLine],
    from: usize,
) -> Result<(Vec<Kept>, usize), StateFault>
    requires layout { layout.now ≡ arrangement_of code.now }
    requires begun { IsBegun code.now p begun.old }
    requires told { AreTold code.now p (stands begun.old.local far.now) }
    requires far { IsFar code.now p (stands begun.old.local far.now)
        (told_kept (drop from lines.now)) (is_some begun.old.local.ended) }
    requires few { length lines.now + 1 < 2 ^ 32 }
    requires inside { from ≤ length lines.now }
    ensures ok { IfOk result (λ found.
        Run is_kept (IsKeptLine code.now p (stands begun.old.local far.now)) []
        (drop from lines.now) (map entry_of found.0.items) (drop found.1 lines.now)) }
    ensures inside { IfOk result (λ found. found.1 ≤ length lines.now) }
    ensures same { IfOk result (λ _. begun.new ≡ begun.old) }
    ensures err { IfErr result (FaultAt
        (RunBreaks is_kept (IsKeptLine code.now p (stands begun.old.local far.now)) []
        (drop from lines.now)) lines.now) }
{
    let count = processor_count(code.tables(), layout);
    let mut kept = Vec::new(alloc);
    let mut at = from;
    while let Some(line) = kept_at(lines, at) {
        let Some(one) = read_words(alloc, count, line)? else {
            return Err(bad_state(at));
        };
        keep(&mut kept, one)?;
        let begins = begins_kept(alloc, code, layout, p, begun, far, kept.as_slice())?;
        if !begins {
            return Err(bad_state(at));
        }
        at += 1;
    }
    Ok((kept, at))
}
