//! The line totals of all processors.
ghost use Rattle.std.specs.Prelude.{◌≡◌, ◌<◌, [], IfOk, length, replicate, slice_index_or};
ghost use Rattle.std.specs.Prelude.{slice_set};

use std::alloc::{AllocError, Global};
use std::marker::Model;

/// The line totals of all processors. Contracts see a list of each processor.
#[derive(Drop)]
pub struct Totals {
    lists: Vec<Vec<i64>>,
}

impl Model for Totals {
    ghost use Rattle.std.specs.Prelude.{ℤ, List, map};

    ghost Value = { List (List ℤ) };

    ghost view = { λ t. map (λ list. list.items) t.lists.items };
}

impl Totals {
    /// Empty lists for so many processors.
    pub fn new(alloc: Global, count: u32) -> Result<Totals, AllocError>
        ensures { IfOk result (λ all. all ≡ replicate count []) }
    {
        let mut lists = Vec::with_capacity(alloc, count as usize)?;
        for _ in 0..count {
            lists.push(Vec::new(alloc))?;
        }
        Ok(Totals { lists })
    }

    /// Gives a processor its list.
    pub fn set(&mut self, p: u32, list: Vec<i64>)
        requires { p < length self.old }
        ensures { self.new ≡ slice_set self.old p list.items }
    {
        self.lists[p as usize] = list;
    }

    /// The list of a processor.
    pub fn list(&self, p: u32) -> &[i64]
        requires { p < length self.now }
        ensures { result.now ≡ slice_index_or self.now p [] }
    {
        &self.lists[p as usize]
    }
}
