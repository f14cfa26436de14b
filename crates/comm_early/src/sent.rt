//! Rows in the order in which they are sent.
ghost use Rattle.std.specs.Prelude.{◌≡◌, ◌++◌, [], OnOk};
ghost use Rattle.comm_early.specs.Written.{IsWrittenTo, other_at};

use last_writes::node_form::{Code, Instr, Rows};
use std::alloc::{AllocError, Global};

/// The rows that are written, and how many rows of the plan they are made of, starts behind these
/// aside.
#[derive(Drop)]
pub struct Sent {
    pub code: Code,
    pub done: u64,
}

impl Sent {
    /// No rows. It takes no memory.
    pub fn new(alloc: Global) -> Sent
        ensures code { result.code ≡ [] }
        ensures done { result.done ≡ 0 }
    {
        Sent {
            code: Rows::new(alloc),
            done: 0,
        }
    }

    /// Writes the rows of the code up to a number, all but the starts.
    pub fn write_to(&mut self, alloc: Global, code: &Code, to: u64) -> Result<(), AllocError>
        ensures { OnOk result (IsWrittenTo code.now self.old to self.new) }
    {
        if to <= self.done {
            return Ok(());
        }
        for i in self.done..to {
            push_other(alloc, &mut self.code, code.get(i).copied())?;
        }
        self.done = to;
        Ok(())
    }
}

fn push_other(alloc: Global, code: &mut Code, row: Option<Instr>) -> Result<(), AllocError>
    ensures { OnOk result (code.new ≡ code.old ++ other_at row) }
{
    match row {
        None | Some(Instr::Start { .. }) => Ok(()),
        Some(other) => code.push(alloc, other),
    }
}
