//! Sums over calls.
ghost use Rattle.std.specs.Prelude.{◌≡◌, IfOk, map, slice_get};
ghost use Rattle.expanded_counts.specs.Bodies.{body_in, size_or, sized, sizes_down};

use crate::bodies::Body;
use crate::sizes::Sizes;
use std::alloc::{AllocError, Global};

/// The sizes of the procedure with a number: nothing behind the last one.
pub fn size_at(sizes: &[Sizes], number: usize) -> Sizes
    ensures { result ≡ size_or (slice_get sizes.now number) }
{
    match sizes.get(number) {
        Some(found) => *found,
        None => Sizes::none(),
    }
}

/// The sizes of a procedure, with those of the procedures that it calls.
fn sized(below: &[Sizes], body: &Body) -> Sizes
    ensures { result ≡ sized below.now (body_in body.now) }
{
    let mut sizes = body.own;
    for call in &body.calls {
        sizes = sizes.plus(size_at(below, *call));
    }
    sizes
}

/// The same of all procedures.
fn all_sized(alloc: Global, below: &[Sizes], bodies: &[Body]) -> Result<Vec<Sizes>, AllocError>
    ensures { IfOk result (λ sizes. sizes.items
        ≡ map (sized below.now) (map body_in bodies.now)) }
{
    let mut sizes = Vec::new(alloc);
    for body in bodies {
        sizes.push(sized(below, body))?;
    }
    Ok(sizes)
}

/// The sizes of all procedures, each with its calls expanded down a chain of so many.
pub fn sizes_down(alloc: Global, bodies: &[Body], depth: u32) -> Result<Vec<Sizes>, AllocError>
    ensures { IfOk result (λ sizes. sizes.items ≡ sizes_down (map body_in bodies.now) depth) }
{
    let mut sizes = Vec::new(alloc);
    for _procedure in 0..depth {
        sizes = all_sized(alloc, &sizes, bodies)?;
    }
    Ok(sizes)
}
