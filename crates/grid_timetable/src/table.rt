//! Tables of moves.
ghost use Rattle.std.specs.Prelude.{◌≡◌, ◌<◌, ◌≤◌, ℕ, length, IfOk, OnErr, OnOk, Some};
ghost use Rattle.grid_timetable.specs.Adding.{IsAdded, MayAdd, move_of};
ghost use Rattle.grid_timetable.specs.History.{History, no_moves, run_of};
ghost use Rattle.grid_timetable.specs.Ledger.{
  ledger_of,
  next_place,
  opened,
  late,
  place_in,
  settled,
  tick_at,
  with_mail,
  with_stretch,
  with_mail_taken,
};
ghost use Rattle.grid_timetable.specs.Mail.{HasLink};
ghost use Rattle.grid_timetable.specs.Reading.{
  AreFirstLanes,
  AreFirstStretches,
  CanOpen,
  CanRead,
  CanReadNext,
  CanSend,
  CanSettle,
  CanTake,
};
ghost use Rattle.grid_timetable.specs.Run.{IsLeastLength};
ghost use Rattle.grid_timetable.specs.Table.{IsTableOf};

use crate::mail::Mail;
use crate::places::{Lane, Place, Stretch};
use std::alloc::{AllocError, Global};

/// The most moves that a table takes.
pub const MOST_MOVES: u64 = 4_194_304;

/// Why a move was not added.
#[derive(Clone, Copy, Debug, PartialEq, Eq)]
pub enum TableFault {
    /// The table has as many moves as it takes.
    TooManyMoves,
    /// Memory was wanting.
    NoMemory,
}

impl From<AllocError> for TableFault {
    ghost from_gives = { λ _ fault. fault ≡ NoMemory };

    ghost use Rattle.grid_timetable.specs.declared.table.TableFault.TheVariants.{NoMemory};

    fn from(_error: AllocError) -> TableFault {
        TableFault::NoMemory
    }
}

/// The moves of a run, each as early as may be where all processors work at once.
///
/// A processor's moves stand at one tick after another, but where one takes a message that comes
/// later: there a stretch of its own begins. Memory is taken for these stretches and for the
/// messages on their way, and for no other move.
#[derive(Drop)]
pub struct Table {
    pub(crate) count: u32,
    pub(crate) latency: u64,
    pub(crate) made: u64,
    pub(crate) ticks: u64,
    pub(crate) lanes: Vec<Lane>,
    pub(crate) stretches: Vec<Stretch>,
    pub(crate) mail: Mail,
}

/// The tick that a place stands for.
pub(crate) fn tick_of(stretches: &[Stretch], place: Place) -> u64
    requires { CanRead stretches.now place }
    ensures { result ≡ tick_at stretches.now place }
{
    let stretch = stretches[place.stretch];
    stretch.tick + (place.number - stretch.first)
}

/// No processor has made a move.
fn first_lanes(alloc: Global, count: u32) -> Result<Vec<Lane>, AllocError>
    ensures { IfOk result (λ lanes. AreFirstLanes count lanes.items) }
{
    let mut lanes = Vec::with_capacity(alloc, count as usize)?;
    for p in 0..count {
        lanes.push(Lane {
            made: 0,
            stretch: p as usize,
        })?;
    }
    Ok(lanes)
}

/// For each processor a stretch from tick 0 on.
fn first_stretches(alloc: Global, count: u32) -> Result<Vec<Stretch>, AllocError>
    ensures { IfOk result (λ stretches. AreFirstStretches count stretches.items) }
{
    let mut stretches = Vec::with_capacity(alloc, count as usize)?;
    for p in 0..count {
        stretches.push(Stretch {
            processor: p,
            first: 1,
            tick: 0,
            cause: None,
        })?;
    }
    Ok(stretches)
}

impl Table {
    /// The table without moves, for so many processors and messages that are on their way for
    /// `latency` ticks.
    pub fn new(alloc: Global, count: u32, latency: u64) -> Result<Table, AllocError>
        requires { latency ≤ 1000000 }
        ensures { IfOk result (λ table. IsTableOf table (no_moves count latency)) }
    {
        let mail = Mail::new(alloc, count)?;
        let lanes = first_lanes(alloc, count)?;
        let stretches = first_stretches(alloc, count)?;
        Ok(Table {
            count,
            latency,
            made: 0,
            ticks: 0,
            lanes,
            stretches,
            mail,
        })
    }

    /// How many moves were added. It takes no memory.
    pub fn moves(&self) -> u64
        ensures { (history : History) → IsTableOf self.now history
            → result ≡ length history.moves }
    {
        self.made
    }

    /// The length of the shortest timetable of the moves that were added. It takes no memory.
    pub fn ticks(&self) -> u64
        ensures { (history : History) → IsTableOf self.now history
            → IsLeastLength (run_of history) result }
    {
        self.ticks
    }

    /// Where a processor's next move stands that goes on behind the one before.
    pub(crate) fn next_place(&self, p: u32) -> Place
        requires { CanReadNext (ledger_of self.now) p }
        ensures { result ≡ next_place (ledger_of self.now) p }
    {
        let lane = self.lanes[p as usize];
        Place {
            stretch: lane.stretch,
            number: lane.made + 1,
        }
    }

    /// The stretch that a move opens, where it takes a message that comes too late to go on.
    fn late(&self, p: u32, cause: Place) -> Option<Stretch>
        requires next { CanReadNext (ledger_of self.now) p }
        requires cause { CanRead self.now.stretches.items cause }
        requires soon { self.now.latency ≤ 1000000 }
        ensures { result ≡ late (ledger_of self.now) p (Some cause) }
    {
        let next = self.next_place(p);
        let arrival = tick_of(self.stretches.as_slice(), cause) + 1 + self.latency;
        if tick_of(self.stretches.as_slice(), next) < arrival {
            return Some(Stretch {
                processor: p,
                first: next.number,
                tick: arrival,
                cause: Some(cause),
            });
        }
        None
    }

    /// The stretch that a move opens, if it opens one.
    fn opened(&self, p: u32, took: Option<u32>) -> Option<Stretch>
        requires { CanOpen (ledger_of self.now) p took }
        ensures { result ≡ opened (ledger_of self.now) p took }
    {
        let from = took?;
        let cause = *self.mail.head(from, p)?;
        self.late(p, cause)
    }

    /// Where a move stands, by the stretch that it opens.
    fn place_in(&self, p: u32, stretch: Option<Stretch>) -> Place
        requires { CanReadNext (ledger_of self.now) p }
        ensures { result ≡ place_in (ledger_of self.now) p stretch }
    {
        match stretch {
            None => self.next_place(p),
            Some(stretch) => Place {
                stretch: self.stretches.len(),
                number: stretch.first,
            },
        }
    }

    /// Opens a stretch, if there is one to open.
    fn open(&mut self, stretch: Option<Stretch>) -> Result<(), AllocError>
        ensures done { OnOk result
            (ledger_of self.new ≡ with_stretch (ledger_of self.old) stretch) }
        ensures kept { OnErr result (ledger_of self.new ≡ ledger_of self.old) }
    {
        if let Some(stretch) = stretch {
            self.stretches.push(stretch)?;
        }
        Ok(())
    }

    /// Sends a message, if there is one to send.
    fn post(&mut self, p: u32, sent: Option<u32>, place: Place) -> Result<(), AllocError>
        requires { CanSend (ledger_of self.old) p sent }
        ensures done { OnOk result
            (ledger_of self.new ≡ with_mail (ledger_of self.old) p sent place) }
        ensures kept { OnErr result (ledger_of self.new ≡ ledger_of self.old) }
    {
        if let Some(to) = sent {
            self.mail.send(p, to, place)?;
        }
        Ok(())
    }

    /// Opens a stretch and sends a message, or does neither.
    fn enter(
        &mut self,
        p: u32,
        sent: Option<u32>,
        stretch: Option<Stretch>,
        place: Place,
    ) -> Result<(), AllocError>
        requires { CanSend (ledger_of self.old) p sent }
        ensures done { OnOk result
            (ledger_of self.new
            ≡ with_mail (with_stretch (ledger_of self.old) stretch) p sent place) }
        ensures kept { OnErr result (ledger_of self.new ≡ ledger_of self.old) }
    {
        let before = self.stretches.len();
        self.open(stretch)?;
        if let Err(fault) = self.post(p, sent, place) {
            self.stretches.truncate(before);
            return Err(fault);
        }
        Ok(())
    }

    /// Takes a message off its link, if there is one to take.
    fn collect(&mut self, p: u32, took: Option<u32>)
        requires { CanTake (ledger_of self.old) p took }
        ensures { ledger_of self.new ≡ with_mail_taken (ledger_of self.old) p took }
    {
        if let Some(from) = took {
            self.mail.take(from, p);
        }
    }

    /// Counts a move of a processor that stands there.
    fn settle(&mut self, p: u32, took: Option<u32>, place: Place)
        requires { CanSettle (ledger_of self.old) p took place }
        ensures { ledger_of self.new ≡ settled (ledger_of self.old) p took place }
    {
        self.collect(p, took);
        self.made += 1;
        let end = tick_of(self.stretches.as_slice(), place) + 1;
        self.ticks = self.ticks.max(end);
        self.lanes[p as usize] = Lane {
            made: place.number,
            stretch: place.stretch,
        };
    }

    /// Adds the next move of processor `p`, with the receiver of the message that it sent and the
    /// sender of the one that it took. A refusal leaves the table as before.
    pub fn add(
        &mut self,
        _alloc: Global,
        p: u32,
        sent: Option<u32>,
        took: Option<u32>,
    ) -> Result<(), TableFault>
        requires { MayAdd self.old (move_of p sent took) }
        ensures added { (history : History) → IsTableOf self.old history
            → IsAdded self.new history (move_of p sent took) result }
        ensures kept { OnErr result (ledger_of self.new ≡ ledger_of self.old) }
    {
        if self.made == MOST_MOVES {
            return Err(TableFault::TooManyMoves);
        }
        let stretch = self.opened(p, took);
        let place = self.place_in(p, stretch);
        self.enter(p, sent, stretch, place)?;
        self.settle(p, took, place);
        Ok(())
    }
}
