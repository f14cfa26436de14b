//! What the rows of a program write into slots.
ghost use Rattle.std.specs.Prelude.{◌≡◌, ◌<◌, [], IfOk, OnOk, length, replicate};
ghost use Rattle.std.specs.Prelude.{slice_index_or};
ghost use Rattle.bound_check.specs.Writes.{all_noted, noted, with_write, write_of};

use flat_passes::node_form::{Instr, Tables};
use std::alloc::{AllocError, Global};
use std::marker::Model;
use zpl_region::Region;

/// What a row writes into a slot: the region of a `fix`, or one that isn't known before the run.
#[derive(Clone, Copy, Debug)]
pub(crate) struct Write {
    pub slot: u32,
    pub region: Option<Region>,
}

/// What the rows write into each slot, in their order. Contracts see a list for each slot.
#[derive(Drop)]
pub struct Writes {
    lists: Vec<Vec<Option<Region>>>,
}

impl Model for Writes {
    ghost use Rattle.std.specs.Prelude.{List, map};
    ghost use Rattle.std.specs.Prelude.{Option};
    ghost use Rattle.zpl_region.specs.declared.regions.Region.{Region};

    ghost Value = { List (List (Option Region)) };

    ghost view = { λ writes. map (λ list. list.items) writes.lists.items };
}

impl Writes {
    /// No writes into so many slots.
    fn new(alloc: Global, slots: u64) -> Result<Writes, AllocError>
        ensures { IfOk result (λ writes. writes ≡ replicate slots []) }
    {
        let mut lists = Vec::new(alloc);
        for _ in 0..slots {
            lists.push(Vec::new(alloc))?;
        }
        Ok(Writes { lists })
    }

    /// What the code writes into each slot. One walk over it finds all.
    pub fn of(alloc: Global, tables: &Tables) -> Result<Writes, AllocError>
        ensures { IfOk result (λ writes.
            writes ≡ all_noted (length tables.now.slots) tables.now.code) }
    {
        let mut writes = Writes::new(alloc, tables.slots.len())?;
        for i in 0..tables.code.len() {
            let row = *tables.code.get(i).unwrap();
            writes.note(write_of(row))?;
        }
        Ok(writes)
    }

    fn note(&mut self, write: Option<Write>) -> Result<(), AllocError>
        ensures { OnOk result (self.new ≡ noted self.old write) }
    {
        let Some(Write { slot, region }) = write else {
            return Ok(());
        };
        if (slot as usize) < self.lists.len() {
            self.push(slot, region)
        } else {
            Ok(())
        }
    }

    fn push(&mut self, slot: u32, region: Option<Region>) -> Result<(), AllocError>
        requires { slot < length self.old }
        ensures { OnOk result (self.new ≡ with_write self.old slot region) }
    {
        let list = &mut self.lists[slot as usize];
        list.push(region)?;
        Ok(())
    }

    /// What is written into the slot.
    pub(crate) fn list(&self, slot: u32) -> &[Option<Region>]
        requires { slot < length self.now }
        ensures { result.now ≡ slice_index_or self.now slot [] }
    {
        &self.lists[slot as usize]
    }
}

fn write_of(row: Instr) -> Option<Write>
    ensures { result ≡ write_of row }
{
    match row {
        Instr::Fix { slot, region } => Some(Write {
            slot,
            region: Some(region),
        }),
        Instr::Dims { slot, .. } | Instr::Formed { slot, .. } => Some(Write { slot, region: None }),
        _ => None,
    }
}
