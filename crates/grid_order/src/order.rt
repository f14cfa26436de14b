//! What is left of an order.
ghost use Rattle.std.specs.Prelude.{◌≡◌, ◌≤◌, [], ◌++◌, drop, slice_get, OnErr, OnOk};
ghost use Rattle.grid_order.specs.Item.{turns_of};

use std::alloc::{AllocError, Global};
use std::marker::Model;

/// An item of an order: a processor and how many turns it is given.
#[derive(Clone, Copy)]
pub(crate) struct Item {
    pub(crate) processor: u32,
    pub(crate) times: u32,
}

/// An order of turns, seen as the list of the processors' numbers that are left of it.
///
/// An item that repeats a processor is kept with its number of times, so the memory goes by the
/// items and not by the turns.
#[derive(Drop)]
pub struct Order {
    items: Vec<Item>,
    at: usize,
}

impl Model for Order {
    ghost use Rattle.std.specs.Prelude.{ℕ, List};

    ghost Value = { List ℕ };

    ghost use Rattle.grid_order.specs.Inside.{turns_left, IsGoing};

    ghost view = { turns_left };

    ghost invariant = { IsGoing };
}

impl Order {
    /// The order without turns.
    pub(crate) fn new(alloc: Global) -> Order
        ensures { result ≡ [] }
    {
        Order {
            items: Vec::new(alloc),
            at: 0,
        }
    }

    /// Adds the turns of an item at the end.
    pub(crate) fn push(&mut self, item: Item) -> Result<(), AllocError>
        ensures added { OnOk result (self.new ≡ self.old ++ turns_of item) }
        ensures kept { OnErr result (self.new ≡ self.old) }
    {
        if item.times == 0 {
            return Ok(());
        }
        self.items.push(item)?;
        Ok(())
    }

    /// Takes the next turn off the order: the number of the processor that it is given to, or
    /// `None` exactly at the order's end. It takes no memory.
    pub fn next(&mut self) -> Option<u32>
        ensures next { result ≡ slice_get self.old 0 }
        ensures rest { self.new ≡ drop 1 self.old }
    {
        let item = *self.items.get(self.at)?;
        if item.times > 1 {
            self.items[self.at].times = item.times - 1;
        } else {
            self.at += 1;
        }
        Some(item.processor)
    }
}
