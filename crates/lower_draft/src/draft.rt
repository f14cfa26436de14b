//! A draft: the tables, and what code has of its own.
ghost use Rattle.std.specs.Prelude.{◌≡◌, ◌+◌, ◌∷◌, [], IfOk, OnOk, All, length};
ghost use Rattle.zpl_region.specs.Dim.{IsUpTo};
ghost use Rattle.lower_draft.specs.Drafted.{empty, next_of, with_array, with_code, with_copy};
ghost use Rattle.lower_draft.specs.Drafted.{with_exprs, with_group, with_scalars, with_shift};
ghost use Rattle.lower_draft.specs.Drafted.{with_slot, with_temp, with_text};

use crate::floods::Flood;
use crate::numbers::Next;
use crate::shifts::Shifted;
use std::alloc::{AllocError, Global};
use std::marker::Model;
use zpl_lowering::node_form::{ExprRow, GroupRow, Instr, Tables, TextRow};
use zpl_region::{Region, Vec3};

/// The tables of a program while they grow, and what its code has of its own.
///
/// Contracts see it as a record of the tables, the numbers that are free, and the lists of what the
/// code has of its own. A number of 2^32 and more has no room in a row, and is an `AllocError`: no
/// program whose tables fit into memory comes to one.
#[derive(Drop)]
pub struct Draft {
    pub(crate) alloc: Global,
    pub(crate) tables: Tables,
    pub(crate) next: Next,
    pub(crate) slots: Vec<u8>,
    pub(crate) arrays: Vec<Region>,
    pub(crate) copies: Vec<Region>,
    pub(crate) later: Vec<Region>,
    pub(crate) temps: Vec<Flood>,
    pub(crate) shifts: Vec<Shifted>,
}

impl Model for Draft {
    ghost use Rattle.lower_draft.specs.Drafted.{Drafted, next_of};

    ghost Value = { Drafted };

    ghost view = { λ draft. record {
      tables = draft.tables;
      next = next_of draft.next;
      slots = draft.slots.items;
      arrays = draft.arrays.items;
      copies = draft.copies.items;
      later = draft.later.items;
      temps = draft.temps.items;
      shifts = draft.shifts.items;
    } };
}

impl Draft {
    /// A draft without rows, where these numbers are free. It takes no memory.
    pub fn new(alloc: Global, next: Next) -> Draft
        ensures { result ≡ empty (next_of next) }
    {
        Draft {
            alloc,
            tables: Tables::new(alloc, [1, 0, 0]),
            next,
            slots: Vec::new(alloc),
            arrays: Vec::new(alloc),
            copies: Vec::new(alloc),
            later: Vec::new(alloc),
            temps: Vec::new(alloc),
            shifts: Vec::new(alloc),
        }
    }

    /// The allocator of the tables.
    pub fn alloc(&self) -> Global {
        self.alloc
    }

    /// The numbers that are free.
    pub fn next(&self) -> Next
        ensures { next_of result ≡ self.now.next }
    {
        self.next
    }

    /// Gives the number of one more scalar.
    pub fn add_scalar(&mut self) -> Result<u32, AllocError>
        ensures number { IfOk result (λ number. number ≡ self.old.next.scalars) }
        ensures added { OnOk result (self.new ≡ with_scalars self.old 1) }
    {
        let number = self.next.scalars;
        self.next.scalars = more(number, 1)?;
        Ok(number)
    }

    /// Gives the number of one more slot, for regions of this rank.
    pub fn add_slot(&mut self, rank: u8) -> Result<u32, AllocError>
        ensures number { IfOk result (λ number. number ≡ self.old.next.slots) }
        ensures added { OnOk result (self.new ≡ with_slot self.old rank) }
    {
        let number = self.next.slots;
        self.next.slots = more(number, 1)?;
        self.slots.push(rank)?;
        Ok(number)
    }

    /// Gives the number of one more array, with this storage.
    pub fn add_array(&mut self, storage: Region) -> Result<u32, AllocError>
        ensures number { IfOk result (λ number. number ≡ self.old.next.arrays) }
        ensures added { OnOk result (self.new ≡ with_array self.old storage) }
    {
        let number = self.next.arrays;
        self.next.arrays = more(number, 1)?;
        self.arrays.push(storage)?;
        Ok(number)
    }

    /// Gives the number of one more copy for reads that wrap round, with this storage.
    pub fn add_copy(&mut self, storage: Region) -> Result<u32, AllocError>
        ensures number { IfOk result (λ number. number ≡ self.old.next.copies) }
        ensures added { OnOk result (self.new ≡ with_copy self.old storage) }
    {
        let number = self.next.copies;
        self.next.copies = more(number, 1)?;
        self.copies.push(storage)?;
        Ok(number)
    }

    /// Gives the number of one more temporary, with these flood dimensions.
    pub fn add_temp(&mut self, flood: Flood) -> Result<u32, AllocError>
        ensures number { IfOk result (λ number. number ≡ self.old.next.temps) }
        ensures added { OnOk result (self.new ≡ with_temp self.old flood) }
    {
        let number = self.next.temps;
        self.next.temps = more(number, 1)?;
        self.temps.push(flood)?;
        Ok(number)
    }

    /// Keeps the shift with which an array is read.
    pub fn add_shift(&mut self, array: u32, shift: Vec3) -> Result<(), AllocError>
        requires { All (IsUpTo 41) shift }
        ensures { OnOk result (self.new ≡ with_shift self.old
            (record { array = array; shift = shift })) }
    {
        self.shifts.push(Shifted { array, shift })?;
        Ok(())
    }

    /// Appends an expression, and gives its number.
    pub(crate) fn add_expr(&mut self, expr: ExprRow) -> Result<u32, AllocError>
        ensures number { IfOk result (λ number. number ≡ length self.old.tables.exprs) }
        ensures added { OnOk result (self.new ≡ with_exprs self.old (expr ∷ [])) }
    {
        let number = number_of(self.tables.exprs.len())?;
        self.tables.exprs.push(self.alloc, expr)?;
        Ok(number)
    }

    /// Appends a group, and gives its number.
    pub(crate) fn add_group(&mut self, group: GroupRow) -> Result<u32, AllocError>
        ensures number { IfOk result (λ number. number ≡ length self.old.tables.groups) }
        ensures added { OnOk result (self.new ≡ with_group self.old group) }
    {
        let number = number_of(self.tables.groups.len())?;
        self.tables.groups.push(self.alloc, group)?;
        Ok(number)
    }

    /// Appends a text, and gives its number.
    pub(crate) fn add_text(&mut self, text: TextRow) -> Result<u32, AllocError>
        ensures number { IfOk result (λ number. number ≡ length self.old.tables.texts) }
        ensures added { OnOk result (self.new ≡ with_text self.old text) }
    {
        let number = number_of(self.tables.texts.len())?;
        self.tables.texts.push(self.alloc, text)?;
        Ok(number)
    }

    /// Appends a row by numbers.
    pub(crate) fn add_row(&mut self, row: Instr) -> Result<(), AllocError>
        ensures { OnOk result (self.new ≡ with_code self.old row) }
    {
        self.tables.code.push(self.alloc, row)
    }
}

/// The number of a row behind so many others.
pub(crate) fn number_of(rows: u64) -> Result<u32, AllocError>
    ensures { IfOk result (λ number. number ≡ rows) }
{
    u32::try_from(rows).map_err(|_| AllocError)
}

/// The number behind so many more.
pub(crate) fn more(number: u32, count: u32) -> Result<u32, AllocError>
    ensures { IfOk result (λ sum. sum ≡ number + count) }
{
    number.checked_add(count).ok_or(AllocError)
}
