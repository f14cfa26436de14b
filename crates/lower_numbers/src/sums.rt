//! Sums over calls.
ghost use Rattle.std.specs.Prelude.{◌≡◌, IfOk, map, slice_get};
ghost use Rattle.lower_numbers.specs.Bodies.{body_in, counts_or, summed, sums_down};

use crate::bodies::Body;
use crate::counts::Counts;
use std::alloc::{AllocError, Global};

/// The counts of the procedure with a number: nothing behind the last one.
pub fn counts_at(counts: &[Counts], number: usize) -> Counts
    ensures { result ≡ counts_or (slice_get counts.now number) }
{
    match counts.get(number) {
        Some(found) => *found,
        None => Counts::none(),
    }
}

/// The counts of a procedure, with those of the procedures that it calls.
fn summed(below: &[Counts], body: &Body) -> Counts
    ensures { result ≡ summed below.now (body_in body.now) }
{
    let mut counts = body.own;
    for call in &body.calls {
        counts = counts.plus(counts_at(below, *call));
    }
    counts
}

/// The same of all procedures.
fn all_summed(alloc: Global, below: &[Counts], bodies: &[Body]) -> Result<Vec<Counts>, AllocError>
    ensures { IfOk result (λ counts. counts.items
        ≡ map (summed below.now) (map body_in bodies.now)) }
{
    let mut counts = Vec::new(alloc);
    for body in bodies {
        counts.push(summed(below, body))?;
    }
    Ok(counts)
}

/// The counts of all procedures, each with its calls expanded down a chain of so many.
pub fn sums_down(alloc: Global, bodies: &[Body], depth: u32) -> Result<Vec<Counts>, AllocError>
    ensures { IfOk result (λ counts. counts.items ≡ sums_down (map body_in bodies.now) depth) }
{
    let mut counts = Vec::new(alloc);
    for _procedure in 0..depth {
        counts = all_summed(alloc, &counts, bodies)?;
    }
    Ok(counts)
}
