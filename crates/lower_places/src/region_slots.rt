//! The slots of declared regions.
ghost use Rattle.std.specs.Prelude.{◌≡◌, IfOk, map};
ghost use Rattle.zpl_bind.specs.Known.{known_in};
ghost use Rattle.zpl_bind.specs.Tables.{IsTable, listed};
ghost use Rattle.lower_places.specs.RegionSlots.{region_names, slot_in, slots_from};

use std::alloc::{AllocError, Global};
use std::marker::Model;
use zpl_bind::{Known, Table};
use zpl_region::Region;
use zpl_tree::Name;

/// The names of declared regions, each with its slot. A name is found by its hash.
#[derive(Drop)]
pub struct RegionSlots<'n> {
    table: Table<'n, u32>,
}

impl<'n> Model for RegionSlots<'n> {
    ghost use Rattle.std.specs.Prelude.{ℕ, List, map};
    ghost use Rattle.zpl_bind.specs.Tables.{listed};
    ghost use Rattle.lower_places.specs.RegionSlots.{AreSlots};

    ghost Value = { List (List ℕ) };

    ghost view = { λ slots. map (λ entry. entry.0) (listed slots.table) };

    ghost invariant = { λ slots. AreSlots slots.table };
}

impl<'n> RegionSlots<'n> {
    /// The slots of all declared regions, in the order of the text.
    pub fn of(alloc: Global, known: &Known<'n>) -> Result<RegionSlots<'n>, AllocError>
        ensures { IfOk result (λ slots. slots ≡ region_names (known_in known.now)) }
    {
        let table = slots_of(alloc, &known.regions)?;
        Ok(RegionSlots { table })
    }

    /// The slot of a declared region. What isn't declared counts as the first.
    pub fn find(&self, name: &Name<'_>) -> u32
        ensures { result ≡ slot_in self.now name.now.text.now }
    {
        self.table.find(name.text).unwrap_or(0)
    }
}

/// Names with their slots, in the order of the text.
fn slots_of<'n>(alloc: Global, regions: &Table<'n, Region>) -> Result<Table<'n, u32>, AllocError>
    ensures table { IfOk result IsTable }
    ensures slots { IfOk result (λ table. listed table
        ≡ slots_from 0 (map (λ entry. entry.0) (listed regions.now))) }
{
    let mut slot = 0_u32;
    let mut table = Table::new(alloc);
    for entry in &regions.entries {
        table.add(entry.0, slot)?;
        slot = slot.checked_add(1).ok_or(AllocError)?;
    }
    Ok(table)
}
