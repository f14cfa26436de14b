//! What a program is bound to.
ghost use Rattle.std.specs.Prelude.{◌≡◌};

use crate::known::Known;
use std::marker::Model;
use zpl_parts::Parts;
use zpl_region::{Region, Vec3};

/// What a program is bound to by settings: four lists, each in text order, and what they were made
/// of.
#[derive(Drop)]
pub struct Bound<'a> {
    /// The values of configs and constants.
    pub values: Values,
    /// The declared regions.
    pub regions: Regions,
    /// The directions, and then the vectors in statements.
    pub vectors: Vectors,
    /// The storages of global arrays, and then those of local arrays.
    pub storages: Regions,
    /// What is known of the declared names.
    pub known: Known<'a>,
    /// The parts of the text.
    pub parts: Parts<'a>,
}

/// A list of values.
#[derive(Drop)]
pub struct Values {
    items: Vec<i64>,
}

impl Model for Values {
    ghost use Rattle.std.specs.Prelude.{ℤ, List};

    ghost Value = { List ℤ };

    ghost view = { λ list. list.items.items };
}

impl Values {
    /// The list of the vector's items.
    pub fn of(items: Vec<i64>) -> Values
        ensures { result ≡ items.items }
    {
        Values { items }
    }

    /// All the values.
    pub fn as_slice(&self) -> &[i64]
        ensures { result.now ≡ self.now }
    {
        self.items.as_slice()
    }
}

/// A list of regions.
#[derive(Drop)]
pub struct Regions {
    items: Vec<Region>,
}

impl Model for Regions {
    ghost use Rattle.std.specs.Prelude.{List};
    ghost use Rattle.zpl_region.specs.declared.regions.Region.{Region as Tuples};

    ghost Value = { List Tuples };

    ghost view = { λ list. list.items.items };
}

impl Regions {
    /// The list of the vector's items.
    pub fn of(items: Vec<Region>) -> Regions
        ensures { result ≡ items.items }
    {
        Regions { items }
    }

    /// All the regions.
    pub fn as_slice(&self) -> &[Region]
        ensures { result.now ≡ self.now }
    {
        self.items.as_slice()
    }
}

/// A list of vectors.
#[derive(Drop)]
pub struct Vectors {
    items: Vec<Vec3>,
}

impl Model for Vectors {
    ghost use Rattle.std.specs.Prelude.{ℤ, List};

    ghost Value = { List (List ℤ) };

    ghost view = { λ list. list.items.items };
}

impl Vectors {
    /// The list of the vector's items.
    pub fn of(items: Vec<Vec3>) -> Vectors
        ensures { result ≡ items.items }
    {
        Vectors { items }
    }

    /// All the vectors.
    pub fn as_slice(&self) -> &[Vec3]
        ensures { result.now ≡ self.now }
    {
        self.items.as_slice()
    }
}
