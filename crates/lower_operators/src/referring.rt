//! The references of expressions.
ghost use Rattle.std.specs.Prelude.{◌≡◌, ◌∷◌, [], OnOk};
ghost use Rattle.std.specs.Option.{option_map};
ghost use Rattle.lower_regions.specs.of_zpl_lowering.Reference as plain;
ghost use Rattle.lower_regions.specs.of_lower_places.Numbers.{stored_of};
ghost use Rattle.lower_operators.specs.Once.{optional, with_references};
ghost use Rattle.lower_operators.specs.View.{slate_of, slates_in, slates_of};

use crate::references::{Reference, References, over_reference, reference_to};
use crate::slates::{Slate, Slates, Wrapped};
use crate::vectors::vector_over;
use lower_regions::lower_places::{Numbers, Stored};
use std::alloc::AllocError;
use zpl_region::Vec3;

/// An array under a slot's region, moved by a vector, if it is there.
fn shifted_reference(slot: u32, shift: Vec3, stored: Option<Stored>) -> Option<Reference>
    ensures { optional result ≡ plain.refer_to slot shift (option_map stored_of stored) }
{
    match stored {
        Some(stored) => Some(Reference {
            slot,
            array: stored.array,
            shift: vector_over(&stored.storage, shift),
        }),
        None => None,
    }
}

/// Adds the references of a read that wraps round: a region lies within the array's home box just
/// where it lies within the copy's storage both unmoved and moved.
fn refer_wrapped(references: &mut References, read: &Wrapped) -> Result<(), AllocError>
    ensures { OnOk result (references.new ≡ with_references references.old
        (plain.at_place read.now.slot read.now.copy
        ∷ record { slot = read.now.slot; array = read.now.copy; shift = read.now.shift } ∷ [])) }
{
    references.add(Reference {
        slot: read.slot,
        array: read.copy,
        shift: [0; 3],
    })?;
    references.add(Reference {
        slot: read.slot,
        array: read.copy,
        shift: read.shift,
    })
}

/// Adds the references of an expression. A mask is one, where the current region is used. The array
/// of a remap read isn't looked at.
#[cycle(refer)]
pub fn refer(
    references: &mut References,
    numbers: &Numbers,
    slate: &Slate<'_>,
) -> Result<(), AllocError>
    ensures { OnOk result (references.new
        ≡ with_references references.old (plain.referred numbers.now (slate_of slate.now))) }
{
    match slate {
        Slate::Constant(_) | Slate::Variable(_) | Slate::Coordinate(_) => Ok(()),
        Slate::Element(slot, place) => {
            references.add_optional(reference_to(*slot, numbers.array(*place)))
        }
        Slate::Shifted(slot, place, shift) => {
            references.add_optional(shifted_reference(*slot, *shift, numbers.array(*place)))
        }
        Slate::Wrapped(read) => refer_wrapped(references, read),
        Slate::Unary(_, operand) => refer(references, numbers, operand),
        Slate::Binary(_, left, right) => {
            refer(references, numbers, left)?;
            refer(references, numbers, right)
        }
        Slate::Folded(_, over, operand) | Slate::Scanned(_, _, over, operand) => {
            refer(references, numbers, operand)?;
            references.add_optional(over_reference(numbers, over))
        }
        Slate::PartFolded(_, over, _, operand) | Slate::Flooded(over, _, operand) => {
            references.add_optional(over_reference(numbers, over))?;
            refer(references, numbers, operand)
        }
        Slate::Remapped(over, _, indices) => {
            references.add_optional(over_reference(numbers, over))?;
            refer_indices(references, numbers, indices)
        }
    }
}

/// The same of the indices of a remap read.
#[cycle(refer)]
fn refer_indices(
    references: &mut References,
    numbers: &Numbers,
    indices: &Slates<'_>,
) -> Result<(), AllocError>
    ensures { OnOk result (references.new ≡ with_references references.old
        (plain.all_referred numbers.now (slates_of indices.now))) }
{
    match indices {
        Slates::End => Ok(()),
        Slates::Then(first, rest) => {
            refer(references, numbers, first)?;
            refer_indices(references, numbers, rest)
        }
    }
}

/// The same of the expressions of a statement.
pub fn refer_all(
    references: &mut References,
    numbers: &Numbers,
    slates: &[&Slate<'_>],
) -> Result<(), AllocError>
    ensures { OnOk result (references.new ≡ with_references references.old
        (plain.all_referred numbers.now (slates_in slates.now))) }
{
    for slate in slates {
        refer(references, numbers, slate)?;
    }
    Ok(())
}
