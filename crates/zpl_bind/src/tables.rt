//! Tables of what was computed for names.
ghost use Rattle.std.specs.Prelude.{◌≡◌, ◌∷◌, ◌++◌, [], IfOk, OnOk, map};
ghost use Rattle.zpl_parts.specs.of_zpl_binding.Outcome.{Gives};
ghost use Rattle.zpl_bind.specs.Tables.{IsTable, computed, found, listed};

use std::alloc::{AllocError, Global};
use std::collections::HashMap;

/// Names with what was computed for each, in the order of the text.
#[derive(Drop)]
pub struct Table<'a, T> {
    /// All of them.
    pub entries: Vec<(&'a [u8], T)>,
    /// Of each name the first.
    pub first: HashMap<&'a [u8], T>,
}

impl<'a, T: Copy + Drop> Table<'a, T> {
    /// A table without names. It takes no memory.
    pub fn new(alloc: Global) -> Table<'a, T>
        ensures none { listed result ≡ [] }
        ensures table { IsTable result }
    {
        Table {
            entries: Vec::new(alloc),
            first: HashMap::new(alloc),
        }
    }

    /// Adds what was computed for a name.
    pub fn add(&mut self, name: &'a [u8], value: T) -> Result<(), AllocError>
        requires { IsTable self.old }
        ensures added { OnOk result (listed self.new
            ≡ listed self.old ++ (name.entry.now, value) ∷ []) }
        ensures table { OnOk result (IsTable self.new) }
    {
        self.entries.push((name, value))?;
        if !self.first.contains_key(name) {
            self.first.insert(name, value)?;
        }
        Ok(())
    }

    /// What was computed for a name.
    pub fn find(&self, name: &[u8]) -> Option<T>
        requires { IsTable self.now }
        ensures { result ≡ found (listed self.now) name.now }
    {
        self.first.get(name).copied()
    }

    /// All that was computed, in the order of the text.
    pub fn values(&self, alloc: Global) -> Result<Vec<T>, AllocError>
        ensures { IfOk result (λ values. map Gives values.items
            ≡ map (λ one. one.outcome) (computed (listed self.now))) }
    {
        let mut values = Vec::new(alloc);
        for entry in &self.entries {
            values.push(entry.1)?;
        }
        Ok(values)
    }
}
