//! The items that are fresh.
ghost use Rattle.std.specs.Prelude.{◌≡◌, ◌∷◌, [], IfOk, OnOk, filter, not};
ghost use Rattle.comm_combine.specs.Fresh.{AreExchanged, IsNew, IsWrittenBy, is_fresh, stale_by};

use last_writes::LastWrites;
use last_writes::node_form::{Instr, Item, Tables};
use std::alloc::{AllocError, Global};
use std::collections::HashMap;
use zpl_region::Vec3;

/// An item, as it is told from others.
#[derive(Clone, Copy, PartialEq, Eq, Hash)]
pub struct ItemKey {
    pub array: u32,
    pub slot: u32,
    pub shift: Vec3,
}

/// The rows of a stretch, numbered from 1, that exchanged each item and wrote each array and slot
/// last.
#[derive(Drop)]
pub struct Fresh {
    pub exchanged: HashMap<ItemKey, u64>,
    pub written: LastWrites,
}

impl Fresh {
    /// Nothing is fresh. It takes no memory.
    pub fn new(alloc: Global) -> Fresh
        ensures { IsNew result }
    {
        Fresh {
            exchanged: HashMap::new(alloc),
            written: LastWrites::new(alloc),
        }
    }

    /// Whether the item is fresh: its array and its slot haven't been written since it was
    /// exchanged.
    pub fn has(&self, item: &Item) -> bool
        ensures { result ≡ is_fresh self.now item.now }
    {
        let Item { array, slot, shift } = *item;
        let key = ItemKey { array, slot, shift };
        let exchanged = self.exchanged.get(&key).copied().unwrap_or(0);
        self.written.of(item) < exchanged
    }

    /// Those of the items that aren't fresh.
    pub fn stale_of(&self, alloc: Global, items: &[Item]) -> Result<Vec<Item>, AllocError>
        ensures { IfOk result (λ stale. stale.items ≡ stale_by (is_fresh self.now) items.now) }
    {
        let mut stale = Vec::new(alloc);
        for item in items {
            if !self.has(item) {
                stale.push(*item)?;
            }
        }
        Ok(stale)
    }

    /// Notes that a row exchanges these items.
    pub fn exchange_all(&mut self, items: &[Item], number: u64) -> Result<(), AllocError>
        ensures { OnOk result (AreExchanged self.old items.now number self.new) }
    {
        for item in items {
            self.exchange(item, number)?;
        }
        Ok(())
    }

    fn exchange(&mut self, item: &Item, number: u64) -> Result<(), AllocError>
        ensures { OnOk result (AreExchanged self.old (item.now ∷ []) number self.new) }
    {
        let Item { array, slot, shift } = *item;
        self.exchanged
            .insert(ItemKey { array, slot, shift }, number)?;
        Ok(())
    }

    /// Notes what a row writes.
    pub fn write(&mut self, tables: &Tables, row: Instr, number: u64) -> Result<(), AllocError>
        ensures { OnOk result (IsWrittenBy tables.now row self.old number self.new) }
    {
        self.written.note(tables, row, number)
    }
}
