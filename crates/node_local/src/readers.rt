//! What a processor's state tells. Nothing here takes memory.
ghost use Rattle.std.specs.Prelude.{◌≡◌, find, ◌==◌, option_and_then, slice_get};
ghost use Rattle.std.specs.Option.{option_copied, option_map};
ghost use Rattle.node_local.specs.Reading.{boxed_value};

use crate::locals::Local;
use grid_meaning::grid_links::Words;
use grid_meaning::zpl_nums::End;
use grid_meaning::zpl_region::{Region, Vec3};

impl Local {
    /// The number of the next instruction; behind the last one that of instructions.
    pub fn at(&self) -> u64
        ensures { result ≡ self.now.local.at }
    {
        self.at
    }

    /// How many turns were made in it. In a loop that is 0.
    pub fn made(&self) -> u64
        ensures { result ≡ self.now.local.made }
    {
        self.made
    }

    /// How many indices of a loop are done. Outside a loop that is 0.
    pub fn index(&self) -> u64
        ensures { result ≡ self.now.local.index }
    {
        self.index
    }

    /// The member of a loop with which the next turn begins, 0 at a new index and outside a loop.
    pub fn member(&self) -> u64
        ensures { result ≡ self.now.local.member }
    {
        self.member
    }

    /// The least member that met a zero divisor, until a vote.
    pub fn flag(&self) -> Option<u64>
        ensures { result ≡ self.now.local.flag }
    {
        self.flag
    }

    /// How the processor ended, once it has.
    pub fn ending(&self) -> Option<End>
        ensures { result ≡ self.now.local.ended }
    {
        self.ended
    }

    /// A scalar; none exactly where there is no such scalar.
    pub fn scalar(&self, i: u32) -> Option<i64>
        ensures { result ≡ slice_get self.now.local.scalars i }
    {
        self.memory.scalar(i)
    }

    /// The region of a slot; none exactly where there is no such slot.
    pub fn slot(&self, i: u32) -> Option<Region>
        ensures { result ≡ slice_get self.now.local.slots i }
    {
        self.slots.as_slice().get(i as usize).copied()
    }

    /// The regions of all slots.
    pub fn slots(&self) -> &[Region]
        ensures { result.now ≡ self.now.local.slots }
    {
        self.slots.as_slice()
    }

    /// A cell; none exactly where there is no such cell.
    pub fn cell(&self, i: u32) -> Option<i64>
        ensures { result ≡ slice_get self.now.local.cells i }
    {
        self.memory.cell(i)
    }

    /// The box of an array that the processor holds; none exactly where there is no such array. It
    /// is `1..0` in every dimension of a temporary that holds no place.
    pub fn shape(&self, array: u32) -> Option<Region>
        ensures { result ≡ option_map (λ store. store.storage)
            (slice_get self.now.local.stores array) }
    {
        let store = self.memory.stores.as_slice().get(array as usize)?;
        Some(store.shape())
    }

    /// The value of an array at a tuple of its box; none exactly where there is no such array, or
    /// the tuple isn't in the box. The coordinate of a flood dimension is 0.
    pub fn value(&self, array: u32, x: Vec3) -> Option<i64>
        ensures { result ≡ option_and_then (boxed_value x)
            (slice_get self.now.local.stores array) }
    {
        let store = self.memory.stores.as_slice().get(array as usize)?;
        store.boxed_value(&x)
    }

    /// The words that are kept of a processor's message; none exactly where there are none.
    pub fn kept(&self, from: u32) -> Option<&Words>
        ensures { option_copied result ≡ option_map (λ entry. entry.1)
            (find (λ entry. entry.0 == from) self.now.local.kept) }
    {
        for kept in self.kept.as_slice() {
            if kept.from == from {
                return Some(&kept.words);
            }
        }
        None
    }
}
