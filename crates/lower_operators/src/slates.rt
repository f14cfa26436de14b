//! Expressions with slots in the place of regions.
ghost use Rattle.std.specs.Prelude.{◌≡◌, IfOk};
ghost use Rattle.lower_operators.specs.View.{slates_in, slates_of};

use bumpalo::Bump;
use lower_regions::lower_places::Slotted;
use std::alloc::{AllocError, Global};
use zpl_nums::{Fold, Op, UnaryOp};
use zpl_region::{Region, Vec3};

/// An expression whose regions have slots, and whose names are places of the store. It lasts as
/// long as the arena that it is placed in.
#[derive(Clone, Copy)]
#[cycle(slate)]
pub enum Slate<'a> {
    /// A value.
    Constant(i64),
    /// A scalar variable.
    Variable(usize),
    /// The coordinate of a dimension, counted from 1.
    Coordinate(u8),
    /// An element of an array under the region of a slot.
    Element(u32, usize),
    /// The same, read with a shift.
    Shifted(u32, usize, Vec3),
    /// The same, read round the array's home box.
    Wrapped(Wrapped),
    /// An operator on one operand.
    Unary(UnaryOp, &'a Slate<'a>),
    /// An operator on two operands.
    Binary(Op, &'a Slate<'a>, &'a Slate<'a>),
    /// A reduction over the current region.
    Folded(Fold, &'a Slotted, &'a Slate<'a>),
    /// A partial reduction of what is over a source.
    PartFolded(Fold, &'a Slotted, &'a Slotted, &'a Slate<'a>),
    /// A scan, along one dimension or in row-major order.
    Scanned(Fold, Option<i64>, &'a Slotted, &'a Slate<'a>),
    /// A flood of what is over a source.
    Flooded(&'a Slotted, &'a Slotted, &'a Slate<'a>),
    /// An array, read at computed indices.
    Remapped(&'a Slotted, usize, &'a Slates<'a>),
}

/// A read that wraps round.
#[derive(Clone, Copy)]
pub struct Wrapped {
    /// The slot of the region.
    pub slot: u32,
    /// The place of the array in the store.
    pub place: usize,
    /// Its home box.
    pub home: Region,
    /// The shift with which the copy is read.
    pub shift: Vec3,
    /// The number of the copy.
    pub copy: u32,
    /// The first of the slots that the copy is filled with.
    pub first: u32,
}

/// Several of them, one after the other.
#[derive(Clone, Copy)]
#[cycle(slate)]
pub enum Slates<'a> {
    /// None.
    End,
    /// One, and then several.
    Then(&'a Slate<'a>, &'a Slates<'a>),
}

/// Places one in an arena.
pub fn place_slate<'a>(
    arena: &'a Bump<Global>,
    slate: Slate<'a>,
) -> Result<&'a Slate<'a>, AllocError>
    ensures { IfOk result (λ placed. placed.now ≡ slate.entry) }
{
    let placed = arena.try_alloc(slate)?;
    Ok(placed)
}

/// Places several in an arena.
pub fn place_slates<'a>(
    arena: &'a Bump<Global>,
    slates: Slates<'a>,
) -> Result<&'a Slates<'a>, AllocError>
    ensures { IfOk result (λ placed. placed.now ≡ slates.entry) }
{
    let placed = arena.try_alloc(slates)?;
    Ok(placed)
}

/// Places a slot with a current region in an arena.
pub fn place_over<'a>(arena: &'a Bump<Global>, over: Slotted) -> Result<&'a Slotted, AllocError>
    ensures { IfOk result (λ placed. placed.now ≡ over) }
{
    let placed = arena.try_alloc(over)?;
    Ok(placed)
}

/// Several in an arena, in their order.
pub fn linked<'a>(
    arena: &'a Bump<Global>,
    slates: &[&'a Slate<'a>],
) -> Result<&'a Slates<'a>, AllocError>
    ensures { IfOk result (λ all. slates_of all.now ≡ slates_in slates.now) }
{
    let mut all = place_slates(arena, Slates::End)?;
    let mut left = slates.len();
    while left > 0 {
        left -= 1;
        all = place_slates(arena, Slates::Then(slates[left], all))?;
    }
    Ok(all)
}
