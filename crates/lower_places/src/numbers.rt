//! What the store's places are in the tables.
ghost use Rattle.std.specs.Prelude.{◌≡◌, ◌∷◌, ◌++◌, [], IfOk, OnOk, length, slice_get};
ghost use Rattle.std.specs.Option.{option_map};
ghost use Rattle.lower_places.specs.Numbers.{no_numbers, stored_of};

use crate::stored::Stored;
use std::alloc::{AllocError, Global};
use std::marker::Model;

/// The numbers of scalars, and arrays with their storages, by the store's places.
#[derive(Drop)]
pub struct Numbers {
    scalars: Vec<u32>,
    arrays: Vec<Stored>,
}

impl Model for Numbers {
    ghost use Rattle.lower_draft.specs.of_zpl_lowering.Where.{Numbers as Plain};
    ghost use Rattle.lower_places.specs.Numbers.{numbers_in};

    ghost Value = { Plain };

    ghost view = { λ numbers. numbers_in numbers.scalars.items numbers.arrays.items };
}

impl Numbers {
    /// No numbers. It takes no memory.
    pub fn new(alloc: Global) -> Numbers
        ensures { result ≡ no_numbers }
    {
        Numbers {
            scalars: Vec::new(alloc),
            arrays: Vec::new(alloc),
        }
    }

    /// The same numbers, in memory of their own.
    pub fn copied(&self, alloc: Global) -> Result<Numbers, AllocError>
        ensures { IfOk result (λ numbers. numbers ≡ self.now) }
    {
        let scalars = self.scalars.as_slice().to_vec(alloc)?;
        let arrays = self.arrays.as_slice().to_vec(alloc)?;
        Ok(Numbers { scalars, arrays })
    }

    /// The number of the scalar at a place, if there is one.
    pub fn scalar(&self, place: usize) -> Option<u32>
        ensures { result ≡ slice_get self.now.scalars place }
    {
        self.scalars.get(place).copied()
    }

    /// The array at a place, if there is one.
    pub fn array(&self, place: usize) -> Option<Stored>
        ensures { option_map stored_of result ≡ slice_get self.now.arrays place }
    {
        self.arrays.get(place).copied()
    }

    /// How many scalars there are.
    pub fn scalar_count(&self) -> usize
        ensures { result ≡ length self.now.scalars }
    {
        self.scalars.len()
    }

    /// How many arrays there are.
    pub fn array_count(&self) -> usize
        ensures { result ≡ length self.now.arrays }
    {
        self.arrays.len()
    }

    /// A scalar more.
    pub fn add_scalar(&mut self, scalar: u32) -> Result<(), AllocError>
        ensures { OnOk result (self.new
            ≡ record self.old { scalars = self.old.scalars ++ scalar ∷ [] }) }
    {
        self.scalars.push(scalar)?;
        Ok(())
    }

    /// An array more.
    pub fn add_array(&mut self, stored: Stored) -> Result<(), AllocError>
        ensures { OnOk result (self.new
            ≡ record self.old { arrays = self.old.arrays ++ stored_of stored ∷ [] }) }
    {
        self.arrays.push(stored)?;
        Ok(())
    }
}
