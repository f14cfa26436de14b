//! Steps from row to row, and what rows change: each is an equation of states.
ghost use Rattle.std.specs.Prelude.{◌≡◌, ◌<◌, ◌≤◌, ◌+◌, ◌^◌, length, map, OnOk, OnErr};
ghost use Rattle.std.specs.Prelude.{slice_set, if◌then◌else◌, Some, None, false, ℤ, List, insert};
ghost use Rattle.grid_meaning.specs.Action.{ended_as, goes_on};
ghost use Rattle.grid_meaning.specs.Collective.{keeping, kept_with};
ghost use Rattle.grid_meaning.specs.Local.{left};
ghost use Rattle.grid_meaning.specs.Place.{value_at, with_value};
ghost use Rattle.node_local.specs.Computing.{computed_by, value_here};
ghost use Rattle.node_local.specs.Standing.{entry_of};

use crate::locals::Local;
use crate::standings::Kept;
use crate::values::{NoValue, evaluate};
use grid_meaning::grid_links::Words;
use grid_meaning::node_form::ExprOp;
use grid_meaning::zpl_nums::End;
use grid_meaning::zpl_region::{Region, Vec3};
use std::alloc::{AllocError, Global};

/// The place of a sender's words among those that are kept.
fn place_for(kept: &[Kept], from: u32) -> usize
    ensures place { (words : List ℤ) → kept_with from words (map entry_of kept.now)
        ≡ insert (map entry_of kept.now) result (from, words) }
    ensures within { result ≤ length kept.now }
{
    for i in 0..kept.len() {
        if from < kept[i].from {
            return i;
        }
    }
    kept.len()
}

impl Local {
    // ---- from row to row

    /// Goes to the instruction with this number; of the turns in the old one nothing stays.
    pub fn go_to(&mut self, at: u64)
        ensures { self.new ≡ record self.old { local = left self.old.local at } }
    {
        self.at = at;
        self.made = 0;
        self.index = 0;
        self.member = 0;
        self.kept.clear();
    }

    /// Goes to the next instruction.
    pub fn go_on(&mut self)
        requires { self.old.local.at + 1 < 2 ^ 64 }
        ensures { self.new ≡ record self.old { local = goes_on self.old.local } }
    {
        self.go_to(self.at + 1);
    }

    /// Ends the processor; it stays where it stands.
    pub fn end(&mut self, ending: End)
        ensures { self.new ≡ record self.old { local = ended_as self.old.local ending } }
    {
        self.go_to(self.at);
        self.ended = Some(ending);
    }

    /// Counts a turn more in the row.
    pub fn count_turn(&mut self)
        requires { self.old.local.made + 1 < 2 ^ 64 }
        ensures { self.new ≡ record self.old {
          local = record self.old.local { made = self.old.local.made + 1 };
        } }
    {
        self.made += 1;
    }

    // ---- parts

    /// Sets a scalar.
    pub fn set_scalar(&mut self, scalar: u32, value: i64)
        requires { scalar < length self.old.local.scalars }
        ensures { self.new ≡ record self.old {
          local = record self.old.local {
            scalars = slice_set self.old.local.scalars scalar value;
          };
        } }
    {
        self.memory.scalars[scalar as usize] = value;
    }

    /// Sets a slot.
    pub fn set_slot(&mut self, slot: u32, region: Region)
        requires { slot < length self.old.local.slots }
        ensures { self.new ≡ record self.old {
          local = record self.old.local { slots = slice_set self.old.local.slots slot region };
        } }
    {
        self.slots[slot as usize] = region;
    }

    /// Sets or clears the flag.
    pub fn set_flag(&mut self, flag: Option<u64>)
        ensures { self.new ≡ record self.old { local = record self.old.local { flag = flag } } }
    {
        self.flag = flag;
    }

    /// Keeps the words of a message, in the order of senders. For want of memory the words are
    /// dropped, and nothing changes.
    pub fn keep(&mut self, from: u32, words: Words) -> Result<(), AllocError>
        ensures kept { OnOk result (self.new ≡ record self.old {
          local = keeping self.old.local from words;
        }) }
        ensures same { OnErr result (self.new ≡ self.old) }
    {
        let place = place_for(self.kept.as_slice(), from);
        self.kept.insert(place, Kept { from, words })?;
        Ok(())
    }

    /// The words that are kept, by ascending senders.
    pub fn kept_words(&self) -> &[Kept]
        ensures { map entry_of result.now ≡ self.now.local.kept }
    {
        self.kept.as_slice()
    }

    // ---- places

    /// The value of an array at a tuple, where that place is held: in a flood dimension whatever
    /// the coordinate is.
    pub fn value_at(&self, array: u32, x: &Vec3) -> Option<i64>
        ensures { result ≡ value_at self.now.local.stores array x.now }
    {
        self.memory.value_at(array, x)
    }

    /// Puts a value at a tuple of an array, where that place is held; answers whether it is.
    pub fn set_value(&mut self, array: u32, x: &Vec3, value: i64) -> bool
        ensures held { with_value self.old.local.stores array x.now value
            ≡ (if result then Some self.new.local.stores else None) }
        ensures stores { self.new ≡ record self.old {
          local = record self.old.local { stores = self.new.local.stores };
        } }
        ensures same { (result ≡ false) → self.new ≡ self.old }
    {
        match self.memory.set_value(array, x, value) {
            Some(_) => true,
            None => false,
        }
    }

    // ---- values

    /// The value of an expression at an index. It takes no memory.
    pub fn value_here(&mut self, words: &[ExprOp], index: &Vec3) -> Result<i64, NoValue>
        requires { length words.now ≤ self.old.depth }
        ensures value { value_here self.old.local index.now words.now ≡ computed_by result }
        ensures same { self.new ≡ self.old }
    {
        evaluate(words, &self.memory, index, self.stack.as_mut_slice())
    }
}
