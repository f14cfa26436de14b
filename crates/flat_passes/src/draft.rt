//! New code while it is written.
ghost use Rattle.std.specs.Prelude.{◌≡◌, ◌∷◌, [], ◌++◌, IfOk, OnOk, length};
ghost use Rattle.flat_passes.specs.Draft.{empty_draft, moved_draft, with_loop, with_row};

use crate::numbers::{NewNumbers, number_of};
use flat_form::node_form::{Code, GroupRow, Groups, Instr, Member, Rows};
use std::alloc::{AllocError, Global};

/// The rows of new code, and the groups of its loops: each loop has one of its own, in the order
/// of the code.
#[derive(Drop)]
pub struct Draft {
    pub code: Code,
    pub groups: Groups,
}

impl Draft {
    /// No rows. It takes no memory.
    pub fn new(alloc: Global) -> Draft
        ensures { result ≡ empty_draft }
    {
        Draft {
            code: Rows::new(alloc),
            groups: Rows::new(alloc),
        }
    }

    /// Appends a row that is no loop.
    pub fn push(&mut self, alloc: Global, row: Instr) -> Result<(), AllocError>
        ensures { OnOk result (self.new ≡ with_row self.old row) }
    {
        self.code.push(alloc, row)?;
        Ok(())
    }

    /// Appends a loop over the slot with a group of these members.
    pub fn push_loop(
        &mut self,
        alloc: Global,
        slot: u32,
        members: &[Member],
    ) -> Result<(), AllocError>
        ensures { OnOk result (self.new ≡ with_loop self.old slot members.now) }
    {
        let group = number_of(self.groups.len())?;
        let members = Vec::from_slice(alloc, members)?;
        self.groups.push(alloc, GroupRow::of(members))?;
        self.code.push(alloc, Instr::Loop { slot, group })?;
        Ok(())
    }

    /// Lets the jumps and tests lead to the new numbers of their goals.
    pub fn move_goals(&mut self, numbers: &NewNumbers) -> Result<(), AllocError>
        ensures { OnOk result (self.new ≡ moved_draft numbers.now self.old) }
    {
        numbers.move_goals(&mut self.code)
    }
}
