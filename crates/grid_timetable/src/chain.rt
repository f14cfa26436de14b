//! The chain that a run's length comes from.
ghost use Rattle.std.specs.Prelude.{◌≡◌, ◌≢◌, ◌<◌, ℕ, [], length, IfSome, None, OnErr, OnOk};
ghost use Rattle.grid_timetable.specs.Chain.{IsLongestChain};
ghost use Rattle.grid_timetable.specs.History.{History, run_of};
ghost use Rattle.grid_timetable.specs.Ledger.{ledger_of, next_place, tick_at};
ghost use Rattle.grid_timetable.specs.Reading.{CanReadNext};
ghost use Rattle.grid_timetable.specs.Table.{IsTableOf};
ghost use Rattle.grid_timetable.specs.Trace.{
  AreCaused,
  IsLastPlace,
  IsLastProcessor,
  IsSomeTable,
  IsTrace,
  segment_to,
};

use crate::places::{Place, Stretch};
use crate::segments::Segment;
use crate::table::{Table, tick_of};
use std::alloc::{AllocError, Global};

/// The moves of a stretch up to a place.
fn segment_to(stretches: &[Stretch], place: Place) -> Segment
    requires { place.stretch < length stretches.now }
    ensures { result ≡ segment_to stretches.now place }
{
    let stretch = stretches[place.stretch];
    Segment {
        processor: stretch.processor,
        first: stretch.first,
        last: place.number,
        tick: stretch.tick,
    }
}

/// The segments from a place back to one that waits for nothing, the last one first.
fn trace(stretches: &[Stretch], last: Place, into: &mut Vec<Segment>) -> Result<(), AllocError>
    requires there { last.stretch < length stretches.now }
    requires caused { AreCaused stretches.now }
    requires empty { into.old.items ≡ [] }
    ensures { OnOk result (IsTrace stretches.now last into.new.items) }
{
    let mut next = Some(last);
    while let Some(place) = next {
        into.push(segment_to(stretches, place))?;
        next = stretches[place.stretch].cause;
    }
    Ok(())
}

impl Table {
    /// The tick behind the last move of a processor.
    fn end_of(&self, p: u32) -> u64
        requires { CanReadNext (ledger_of self.now) p }
        ensures { result ≡ tick_at self.now.stretches.items (next_place (ledger_of self.now) p) }
    {
        tick_of(self.stretches.as_slice(), self.next_place(p))
    }

    /// The least processor whose last move ends last.
    fn last_processor(&self) -> Option<u32>
        requires { IsSomeTable self.now }
        ensures some { IfSome result (IsLastProcessor (ledger_of self.now)) }
        ensures none { result ≡ None → (p : ℕ) → p < self.now.count
            → tick_at self.now.stretches.items (next_place (ledger_of self.now) p)
            ≢ self.now.ticks }
    {
        for p in 0..self.count {
            if self.end_of(p) == self.ticks {
                return Some(p);
            }
        }
        None
    }

    /// Where its last move stands; none where there are no moves.
    fn last_place(&self) -> Option<Place>
        requires { IsSomeTable self.now }
        ensures some { IfSome result (IsLastPlace (ledger_of self.now)) }
        ensures none { result ≡ None → self.now.ticks ≡ 0 }
    {
        if self.ticks == 0 {
            return None;
        }
        let p = self.last_processor()?;
        let lane = self.lanes[p as usize];
        Some(Place {
            stretch: lane.stretch,
            number: lane.made,
        })
    }

    /// A chain as long as the shortest timetable, which ends with the last move of the least
    /// processor whose last move ends last. It takes the place of what `into` held, and for want of
    /// memory nothing does.
    pub fn chain(&self, _alloc: Global, into: &mut Vec<Segment>) -> Result<(), AllocError>
        requires { IsSomeTable self.now }
        ensures chain { OnOk result ((history : History) → IsTableOf self.now history
            → IsLongestChain (run_of history) into.new.items) }
        ensures emptied { OnErr result (into.new.items ≡ []) }
    {
        into.clear();
        let Some(last) = self.last_place() else {
            return Ok(());
        };
        if let Err(fault) = trace(self.stretches.as_slice(), last, into) {
            into.clear();
            return Err(fault);
        }
        into.reverse();
        Ok(())
    }
}
