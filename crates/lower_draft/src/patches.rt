//! Tests and jumps, whose goals are filled in later.
ghost use Rattle.std.specs.Prelude.{◌≡◌, ◌+◌, IfOk, OnOk, length};
ghost use Rattle.zpl_lowering.specs.of_flat_form.Row as flat;
ghost use Rattle.lower_draft.specs.Drafted.{begun, closed, looped, opened, pushed, turned, until};

use crate::draft::{Draft, more, number_of};
use crate::rows::FlatRow;
use std::alloc::AllocError;
use zpl_lowering::node_form::{ExprRow, Instr};

/// A test or a jump that has no goal yet.
#[derive(Clone, Copy, Debug)]
pub struct Pending {
    at: u32,
}

/// The row with another goal, where it has one.
fn with_goal(row: Instr, goal: u32) -> Instr
    ensures { result ≡ flat.with_goal goal row }
{
    match row {
        Instr::Jump { .. } => Instr::Jump { goal },
        Instr::Unless { expr, line, .. } => Instr::Unless { expr, goal, line },
        other => other,
    }
}

impl Draft {
    /// The number of the next row.
    pub fn here(&self) -> Result<u32, AllocError>
        ensures { IfOk result (λ number. number ≡ length self.now.tables.code) }
    {
        number_of(self.tables.code.len())
    }

    /// Appends a test that goes to a row where it is false.
    fn add_test(&mut self, test: ExprRow, goal: u32, line: u32) -> Result<(), AllocError>
        ensures { OnOk result (self.new ≡ pushed self.old (flat.Unless test goal line)) }
    {
        let expr = self.add_expr(test)?;
        self.add_row(Instr::Unless { expr, goal, line })
    }

    /// Appends a test, for now with the first row as its goal.
    pub fn open(&mut self, test: ExprRow, line: u32) -> Result<Pending, AllocError>
        ensures pending { IfOk result (λ pending. pending.at ≡ length self.old.tables.code) }
        ensures opened { OnOk result (self.new
            ≡ opened self.old (record { expr = test; line = line })) }
    {
        let at = self.here()?;
        self.add_test(test, 0, line)?;
        Ok(Pending { at })
    }

    /// Lets a test or a jump go to behind the last row.
    pub fn close(&mut self, pending: Pending) -> Result<(), AllocError>
        ensures { OnOk result (self.new ≡ closed self.old pending.at) }
    {
        let goal = self.here()?;
        let at = u64::from(pending.at);
        if let Some(row) = self.tables.code.get(at) {
            let patched = with_goal(*row, goal);
            self.tables.code.set(at, patched);
        }
        Ok(())
    }

    /// Appends a jump, for now to the first row, and lets a test go to behind it.
    pub fn turn(&mut self, test: Pending) -> Result<Pending, AllocError>
        ensures pending { IfOk result (λ jump. jump.at ≡ length self.old.tables.code) }
        ensures turned { OnOk result (self.new ≡ turned self.old test.at) }
    {
        let at = self.here()?;
        self.push(FlatRow::Plain(Instr::Jump { goal: 0 }))?;
        self.close(test)?;
        Ok(Pending { at })
    }

    /// Appends a jump back to the row `start`, and lets a test go to behind it.
    pub fn close_loop(&mut self, start: u32, test: Pending) -> Result<(), AllocError>
        ensures { OnOk result (self.new ≡ looped self.old start test.at) }
    {
        self.push(FlatRow::Plain(Instr::Jump { goal: start }))?;
        self.close(test)
    }

    /// Begins a loop that tests behind its turns, by a jump to the next row, and gives that row's
    /// number.
    pub fn begin_turns(&mut self) -> Result<u32, AllocError>
        ensures start { IfOk result (λ start. start ≡ length self.old.tables.code + 1) }
        ensures begun { OnOk result (self.new ≡ begun self.old) }
    {
        let here = self.here()?;
        let start = more(here, 1)?;
        self.push(FlatRow::Plain(Instr::Jump { goal: start }))?;
        Ok(start)
    }

    /// Ends such a loop by a test that goes back to the row `start` where it is false.
    pub fn until(&mut self, start: u32, test: ExprRow, line: u32) -> Result<(), AllocError>
        ensures { OnOk result (self.new
            ≡ until self.old start (record { expr = test; line = line })) }
    {
        self.add_test(test, start, line)
    }
}
