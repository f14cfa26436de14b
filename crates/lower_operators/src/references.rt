//! References to arrays, and the rows that see whether they lie in the storages.
ghost use Rattle.std.specs.Prelude.{◌≡◌, [], ◌∷◌, OnOk, map};
ghost use Rattle.std.specs.Option.{option_map};
ghost use Rattle.lower_regions.specs.of_zpl_lowering.Lowered.{rows_alone};
ghost use Rattle.lower_regions.specs.of_zpl_lowering.Reference as plain;
ghost use Rattle.lower_regions.specs.of_lower_draft.Drafted.{grown};
ghost use Rattle.lower_regions.specs.of_lower_places.Numbers.{stored_of};
ghost use Rattle.lower_regions.specs.of_lower_places.View.{slotted_of};
ghost use Rattle.lower_operators.specs.Once.{optional, reference_of, with_reference, with_references};

use indexmap::IndexSet;
use lower_regions::lower_draft::{Draft, FlatRow};
use lower_regions::lower_places::{Numbers, Slotted, Stored};
use node_form::Instr;
use std::alloc::{AllocError, Global};
use std::marker::Model;
use zpl_region::Vec3;

/// An array that is read or written under a slot's region, moved by a vector.
#[derive(Clone, Copy, Debug, PartialEq, Eq, Hash)]
pub struct Reference {
    /// The slot.
    pub slot: u32,
    /// The number of the array.
    pub array: u32,
    /// The vector.
    pub shift: Vec3,
}

/// References, each once, in the order in which they first came. Contracts see them as that list.
#[derive(Drop)]
pub struct References {
    items: IndexSet<Reference>,
}

impl Model for References {
    ghost use Rattle.std.specs.Prelude.{List, map};
    ghost use Rattle.lower_regions.specs.of_zpl_lowering.Reference.{Reference as Plain};
    ghost use Rattle.lower_operators.specs.Once.{reference_of};

    ghost Value = { List Plain };

    ghost view = { λ references. map reference_of references.items.keys };
}

impl References {
    /// None. They take no memory.
    pub fn new(alloc: Global) -> References
        ensures { result ≡ [] }
    {
        References {
            items: IndexSet::new(alloc),
        }
    }

    /// Adds one, unless it is there.
    pub fn add(&mut self, one: Reference) -> Result<(), AllocError>
        ensures { OnOk result (self.new ≡ with_reference self.old (reference_of one)) }
    {
        self.items.insert(one)?;
        Ok(())
    }

    /// Adds one, if it is given.
    pub fn add_optional(&mut self, one: Option<Reference>) -> Result<(), AllocError>
        ensures { OnOk result (self.new ≡ with_references self.old (optional one)) }
    {
        match one {
            Some(one) => self.add(one),
            None => Ok(()),
        }
    }

    /// Appends a row for each: a trap where its region, moved, isn't within the array's storage.
    pub fn push_needs(&self, draft: &mut Draft, line: u32) -> Result<(), AllocError>
        ensures { OnOk result (draft.new
            ≡ grown draft.old (rows_alone (map (plain.need_of line) self.now))) }
    {
        for one in self.items.as_slice() {
            draft.push(FlatRow::Plain(Instr::Need {
                slot: one.slot,
                array: one.array,
                shift: one.shift,
                line,
            }))?;
        }
        Ok(())
    }
}

/// An array under a slot's region, unmoved, if it is there.
pub fn reference_to(slot: u32, stored: Option<Stored>) -> Option<Reference>
    ensures { optional result ≡ plain.refer_to slot [] (option_map stored_of stored) }
{
    let stored = stored?;
    Some(Reference {
        slot,
        array: stored.array,
        shift: [0; 3],
    })
}

/// The mask of a current region, if there is one.
pub fn over_reference(numbers: &Numbers, over: &Slotted) -> Option<Reference>
    ensures { optional result ≡ plain.over_reference numbers.now (slotted_of over.now) }
{
    let mask = over.mask?;
    reference_to(over.slot, numbers.array(mask.array))
}
