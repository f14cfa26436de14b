//! Settings, which take the place of configs' defaults.
ghost use Rattle.std.specs.Prelude.{◌≡◌, ◌∷◌, ◌++◌, [], OnOk, OnErr, map};

use std::alloc::{AllocError, Global};
use std::marker::Model;

/// Pairs of a config's name and the text of its value.
#[derive(Drop)]
pub struct Settings {
    pairs: Vec<(Vec<u8>, Vec<u8>)>,
}

impl Model for Settings {
    ghost use Rattle.std.specs.Prelude.{ℕ, List, map};

    ghost Value = { List (List ℕ × List ℕ) };

    ghost view = { λ settings. map (λ pair. (pair.0.items, pair.1.items)) settings.pairs.items };
}

impl Settings {
    /// No settings. They take no memory.
    pub fn new(alloc: Global) -> Settings
        ensures { result ≡ [] }
    {
        Settings {
            pairs: Vec::new(alloc),
        }
    }

    /// Adds a setting behind the others.
    pub fn add(&mut self, alloc: Global, name: &[u8], value: &[u8]) -> Result<(), AllocError>
        ensures ok { OnOk result (self.new ≡ self.old ++ (name.now, value.now) ∷ []) }
        ensures err { OnErr result (self.new ≡ self.old) }
    {
        let name = Vec::from_slice(alloc, name)?;
        let value = Vec::from_slice(alloc, value)?;
        self.pairs.push((name, value))?;
        Ok(())
    }

    /// The pairs.
    pub(crate) fn pairs(&self) -> &[(Vec<u8>, Vec<u8>)]
        ensures { map (λ pair. (pair.0.items, pair.1.items)) result.now ≡ self.now }
    {
        &self.pairs
    }
}
