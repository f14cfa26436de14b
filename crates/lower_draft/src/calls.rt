//! Calls: whose copies stand where.
ghost use Rattle.std.specs.Prelude.{◌≡◌, IfOk, OnOk, drop};
ghost use Rattle.lower_draft.specs.Call.{call_at, entered, left};

use crate::draft::{Draft, more, number_of};
use std::alloc::AllocError;
use zpl_region::Region;

/// A call that has begun: the numbers of copies that were free there, and how many there were.
#[derive(Clone, Copy, Debug)]
pub struct Call {
    copies: u32,
    later: u32,
    own: usize,
    others: usize,
}

/// The storages from a number on.
fn tail(storages: &[Region], from: usize) -> &[Region]
    ensures { result.now ≡ drop from storages.now }
{
    if from <= storages.len() {
        &storages[from..]
    } else {
        &[]
    }
}

impl Draft {
    /// Goes into a call of a procedure whose text has so many reads that wrap round: their copies
    /// get numbers behind those of all that was called before, and what the procedure calls gets
    /// numbers behind these.
    pub fn enter(&mut self, reads: u32) -> Result<Call, AllocError>
        ensures call { IfOk result (λ call. call ≡ call_at self.old) }
        ensures entered { OnOk result (self.new ≡ entered self.old reads) }
    {
        let call = Call {
            copies: self.next.copies,
            later: self.next.later,
            own: self.copies.len(),
            others: self.later.len(),
        };
        self.next.copies = call.later;
        self.next.later = more(call.later, reads)?;
        Ok(call)
    }

    /// Goes out of a call: its copies are those of a call from now on, in front of those of the
    /// calls in it.
    pub fn leave(&mut self, call: Call) -> Result<(), AllocError>
        ensures { OnOk result (self.new ≡ left self.old call) }
    {
        let mut behind = Vec::from_slice(self.alloc, tail(self.copies.as_slice(), call.own))?;
        behind.extend_from_slice(tail(self.later.as_slice(), call.others))?;
        let count = number_of(behind.len() as u64)?;
        self.next.copies = call.copies;
        self.next.later = more(call.later, count)?;
        self.copies.truncate(call.own);
        self.later.truncate(call.others);
        self.later.extend_from_slice(behind.as_slice())?;
        Ok(())
    }
}
