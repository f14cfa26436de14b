//! What the rows of a stretch stop.
ghost use Rattle.std.specs.Prelude.{◌≡◌, ◌<◌, ◌^◌, ℕ, OnOk};
ghost use Rattle.last_writes.specs.of_code_parts.Uses.{divides_in, may_divide};
ghost use Rattle.last_writes.specs.Last.{AreNoted, noted};
ghost use Rattle.comm_early.specs.Place.{
  IsNewStretch,
  IsNotedRow,
  finished_by,
  place_by,
  stops_all,
};

use crate::load::Load;
use last_writes::node_form::{ExprOp, Instr, Item, Tables};
use last_writes::plan_form::words_of;
use last_writes::{LastWrites, Noted};
use std::alloc::{AllocError, Global};
use zpl_nums::Op;

/// The rows of a stretch that starts don't cross, numbered from 1.
#[derive(Drop)]
pub struct Stretch {
    /// The last that no start crosses, or 0.
    pub least: u64,
    /// The last that write each array and each slot.
    pub written: LastWrites,
    /// The last finish of each exchange.
    pub finished: Noted,
    /// The last that links hold no more messages for.
    pub load: Load,
}

impl Stretch {
    /// No rows. It takes no memory.
    pub fn new(alloc: Global, links: Option<u32>) -> Stretch
        ensures { IsNewStretch links result }
    {
        Stretch {
            least: 0,
            written: LastWrites::new(alloc),
            finished: Noted::new(alloc),
            load: Load::new(alloc, links),
        }
    }

    /// Behind these rows another stretch begins.
    pub fn forget(&mut self, alloc: Global)
        ensures { IsNewStretch self.old.load.links self.new }
    {
        *self = Stretch::new(alloc, self.load.links);
    }

    /// Notes a row. It takes a time linear in the members of its group, the items of its exchange
    /// and the words of its expression.
    pub fn note(&mut self, tables: &Tables, row: Instr, number: u64) -> Result<(), AllocError>
        requires opened { self.old.load.opened < 2 ^ 32 }
        requires starts { self.old.load.starts < 2 ^ 32 }
        requires times { (exchange : ℕ) → noted self.old.load.times exchange < 2 ^ 32 }
        ensures { OnOk result (IsNotedRow tables.now row self.old number self.new) }
    {
        if stops_all(tables, row) {
            self.least = number;
        }
        self.written.note(tables, row, number)?;
        note_finish(&mut self.finished, row, number)?;
        self.load.note(row, number)
    }

    /// The place of the start of an exchange: behind the last row that it doesn't cross. It takes a
    /// time linear in the items.
    pub fn place_of(&self, exchange: u32, items: &[Item]) -> u64
        ensures { result ≡ place_by self.now exchange items.now }
    {
        let finished = self.finished.of(u64::from(exchange));
        let mut place = self.least.max(self.load.full).max(finished);
        for item in items {
            place = place.max(self.written.of(item));
        }
        place
    }
}

fn note_finish(finished: &mut Noted, row: Instr, number: u64) -> Result<(), AllocError>
    ensures { OnOk result (AreNoted finished.old (finished_by row) number finished.new) }
{
    match row {
        Instr::Finish { exchange } => finished.note(u64::from(exchange), number),
        _ => Ok(()),
    }
}

// Whether no start crosses the row, whatever its items are.
fn stops_all(tables: &Tables, row: Instr) -> bool
    ensures { result ≡ stops_all tables.now row }
{
    match row {
        Instr::Fix { .. }
        | Instr::Room { .. }
        | Instr::Clear { .. }
        | Instr::Loop { .. }
        | Instr::Print { .. }
        | Instr::Start { .. }
        | Instr::Finish { .. } => false,
        Instr::Set { expr, .. } | Instr::Number { expr } | Instr::Truth { expr } => {
            may_divide(tables, expr)
        }
        _ => true,
    }
}

fn may_divide(tables: &Tables, expr: u32) -> bool
    ensures { result ≡ may_divide tables.now expr }
{
    for word in words_of(tables, expr) {
        if divides_in(word) {
            return true;
        }
    }
    false
}

fn divides_in(word: &ExprOp) -> bool
    ensures { result ≡ divides_in word.now }
{
    match *word {
        ExprOp::Pair(Op::Div) | ExprOp::Pair(Op::Rem) => true,
        _ => false,
    }
}
