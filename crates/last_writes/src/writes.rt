//! The last writes of arrays and slots.
ghost use Rattle.std.specs.Prelude.{◌≡◌, ℕ, OnOk};
ghost use Rattle.plan_form.specs.of_code_parts.Uses.{written_arrays, written_slots};
ghost use Rattle.last_writes.specs.Last.{AreNoted, last_change, noted};

use crate::numbers::Noted;
use plan_form::node_form::{Instr, Item, Tables};
use plan_form::{items_of, members_of};
use std::alloc::{AllocError, Global};

/// For each array and each slot the last row that writes it, numbered from 1, and 0 for one that no
/// row has written.
#[derive(Drop)]
pub struct LastWrites {
    pub arrays: Noted,
    pub slots: Noted,
}

impl LastWrites {
    /// Nothing has been written. It takes no memory.
    pub fn new(alloc: Global) -> LastWrites
        ensures arrays { (array : ℕ) → noted result.arrays array ≡ 0 }
        ensures slots { (slot : ℕ) → noted result.slots slot ≡ 0 }
    {
        LastWrites {
            arrays: Noted::new(alloc),
            slots: Noted::new(alloc),
        }
    }

    /// The last row that writes the item's array or its slot, or 0.
    pub fn of(&self, item: &Item) -> u64
        ensures { result ≡ last_change self.now item.now }
    {
        self.arrays
            .of(u64::from(item.array))
            .max(self.slots.of(u64::from(item.slot)))
    }

    /// Notes what a row writes. It takes a time linear in the members of its group, or the items of
    /// its exchange.
    pub fn note(&mut self, tables: &Tables, row: Instr, number: u64) -> Result<(), AllocError>
        ensures arrays { OnOk result
            (AreNoted self.old.arrays (written_arrays tables.now row) number self.new.arrays) }
        ensures slots { OnOk result
            (AreNoted self.old.slots (written_slots row) number self.new.slots) }
    {
        match row {
            Instr::Room { array, .. }
            | Instr::Clear { array }
            | Instr::Edge { array, .. }
            | Instr::Flood { array, .. }
            | Instr::Part { array, .. }
            | Instr::Scan { array, .. }
            | Instr::Remap { array, .. } => self.arrays.note(u64::from(array), number),
            Instr::Loop { group, .. } => self.arrays.note_puts(members_of(tables, group), number),
            Instr::Finish { exchange } => self
                .arrays
                .note_items(items_of(tables, exchange), number),
            Instr::Fix { slot, .. } | Instr::Dims { slot, .. } | Instr::Formed { slot, .. } => {
                self.slots.note(u64::from(slot), number)
            }
            _ => Ok(()),
        }
    }
}
