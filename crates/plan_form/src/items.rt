//! The items of an exchange, each once.
ghost use Rattle.std.specs.Prelude.{◌≡◌, [], IfOk, OnOk, fold, length, slice_get};
ghost use Rattle.plan_form.specs.Units.{with_item};

use flat_passes::node_form::{ExchangeRow, Item};
use flat_passes::zpl_region::Vec3;
use indexmap::IndexSet;
use std::alloc::{AllocError, Global};
use std::marker::Model;

/// An item, as it is told from others.
#[derive(Clone, Copy, PartialEq, Eq, Hash)]
pub struct ItemKey {
    pub array: u32,
    pub slot: u32,
    pub shift: Vec3,
}

/// Items, each once, in the order in which they came. Contracts see it as their list.
#[derive(Drop)]
pub struct ItemSet {
    items: IndexSet<ItemKey>,
}

impl Model for ItemSet {
    ghost use Rattle.std.specs.Prelude.{List, map};
    ghost use Rattle.flat_passes.specs.of_node_form.declared.arrays.Item.{Item};
    ghost use Rattle.plan_form.specs.Items.{item_of};

    ghost Value = { List Item };

    ghost view = { λ set. map item_of set.items.keys };
}

impl ItemSet {
    /// No items. It takes no memory.
    pub fn new(alloc: Global) -> ItemSet
        ensures { result ≡ [] }
    {
        ItemSet {
            items: IndexSet::new(alloc),
        }
    }

    /// Adds an item, unless it is there.
    pub fn add(&mut self, item: Item) -> Result<(), AllocError>
        ensures { OnOk result (self.new ≡ with_item self.old item) }
    {
        let Item { array, slot, shift } = item;
        self.items.insert(ItemKey { array, slot, shift })?;
        Ok(())
    }

    /// Adds each of these, unless it is there.
    pub fn add_all(&mut self, items: &[Item]) -> Result<(), AllocError>
        ensures { OnOk result (self.new ≡ fold with_item self.old items.now) }
    {
        for item in items {
            self.add(*item)?;
        }
        Ok(())
    }

    /// How many there are.
    pub fn len(&self) -> u64
        ensures { result ≡ length self.now }
    {
        self.items.len() as u64
    }

    /// The item with a number, counted from 0.
    pub fn get(&self, i: u64) -> Option<Item>
        ensures { result ≡ slice_get self.now i }
    {
        let ItemKey { array, slot, shift } = *self.items.get_index(i as usize)?;
        Some(Item { array, slot, shift })
    }

    /// The items as those of an exchange.
    pub fn to_row(&self, alloc: Global) -> Result<ExchangeRow, AllocError>
        ensures { IfOk result (λ items. items ≡ self.now) }
    {
        let mut items = Vec::new(alloc);
        for i in 0..self.len() {
            items.push(self.get(i).unwrap())?;
        }
        Ok(ExchangeRow::of(items))
    }
}
