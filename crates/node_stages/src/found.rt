//! Processors that were found, in ascending order.
ghost use Rattle.std.specs.Prelude.{◌≡◌, ◌<◌, ◌++◌, [], ◌∷◌, length};
ghost use Rattle.node_stages.specs.Place.{IsNth};

use crate::partners::{MOST, Place};
use std::marker::Model;

/// Processors in ascending order, at most as many as a grid has: contracts see the list of them.
#[derive(Drop)]
pub(crate) struct Found {
    numbers: [u8; MOST],
    many: usize,
}

impl Model for Found {
    ghost use Rattle.std.specs.Prelude.{◌≡◌, ◌≤◌, ℕ, List, length, take};

    ghost Value = { List ℕ };

    ghost view = { λ a. take a.many a.numbers };

    ghost invariant = { λ a. (a.many ≤ 64) × (length a.numbers ≡ 64) };
}

impl Found {
    /// None.
    pub(crate) fn none() -> Found
        ensures { result ≡ [] }
    {
        Found {
            numbers: [0; MOST],
            many: 0,
        }
    }

    /// The same ones once more.
    pub(crate) fn copied(&self) -> Found
        ensures { result ≡ self.now }
    {
        Found {
            numbers: self.numbers,
            many: self.many,
        }
    }

    /// One more, behind the others.
    pub(crate) fn add(&mut self, q: u32)
        requires room { length self.old < 64 }
        requires few { q < 64 }
        ensures { self.new ≡ self.old ++ q ∷ [] }
    {
        self.numbers[self.many] = q as u8;
        self.many += 1;
    }

    /// The one at a place.
    pub(crate) fn nth(&self, place: u64) -> Place
        ensures { IsNth self.now place result }
    {
        let many = self.many as u64;
        if place < many {
            Place::There(u32::from(self.numbers[place as usize]))
        } else {
            Place::Behind(place - many)
        }
    }
}
