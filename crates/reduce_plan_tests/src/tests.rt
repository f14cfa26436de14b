//! Partial folds over parts of a source, compared with plain counts over all tuples, and trees.
ghost use Rattle.std.specs.Prelude.{◌≡◌, ◌≤◌, ◌<◌, ◌^◌, ◌≤ℤ◌, IfOk, IfSome, length, pos};
ghost use Rattle.zpl_region.specs.Dim.{HasStep};
ghost use Rattle.zpl_region.specs.Region.{IsRegion, members};

use reduce_plan::{children, parent, partials};
use std::alloc::{AllocError, Global};
use std::process::Abort;
use std::test::Fail;
use zpl_nums::{Fold, join, unit};
use zpl_region::{Dim, Region, Vec3};

/// What stands for a dimension past the rank.
const PADDING: Dim = Dim::Range {
    lo: 0,
    hi: 0,
    step: 1,
    align: 0,
};

/// The value at a tuple.
fn value_at(t: &Vec3) -> i64 {
    let [x, y, z] = *t;
    x.wrapping_mul(7)
        .wrapping_sub(y.wrapping_mul(5))
        .wrapping_add(z.wrapping_mul(3))
        .wrapping_sub(20)
}

/// Whether `t` counts for `x`, where the dimensions are collapsed that are told.
fn counts(collapsed: (bool, bool, bool), x: &Vec3, t: &Vec3) -> bool {
    let [a, b, c] = *x;
    let [i, j, k] = *t;
    (collapsed.0 || a == i) && (collapsed.1 || b == j) && (collapsed.2 || c == k)
}

/// The values of a region, in row-major order.
fn values_of(alloc: Global, region: &Region) -> Result<Vec<i64>, AllocError>
    requires region { IsRegion region.now }
    requires fits { length (members region.now) < 2 ^ 64 }
    ensures { IfOk result (λ v. length v.items ≡ length (members region.now)) }
{
    let mut values = Vec::new(alloc);
    for i in 0..region.count() {
        values.push(value_at(&region.nth(i).unwrap_or([0, 0, 0])))?;
    }
    Ok(values)
}

/// The folds at the indices of the target that the block reaches, by a count over all its tuples.
fn counted(
    alloc: Global,
    fold: Fold,
    collapsed: (bool, bool, bool),
    target: &Region,
    block: &Region,
) -> Result<Vec<i64>, AllocError>
    requires target { IsRegion target.now }
    requires few { length (members target.now) < 2 ^ 64 }
    requires block { IsRegion block.now }
    requires fits { length (members block.now) < 2 ^ 64 }
{
    let mut folds = Vec::new(alloc);
    for i in 0..target.count() {
        let x = target.nth(i).unwrap_or([0, 0, 0]);
        let mut reached = false;
        let mut so_far = unit(fold);
        for j in 0..block.count() {
            let t = block.nth(j).unwrap_or([0, 0, 0]);
            if counts(collapsed, &x, &t) {
                reached = true;
                so_far = join(fold, so_far, value_at(&t));
            }
        }
        if reached {
            folds.push(so_far)?;
        }
    }
    Ok(folds)
}

/// The numbers from `lo` to `hi` with a step between them.
fn every(lo: i64, hi: i64, step: i64) -> Dim
    requires { pos 1 ≤ℤ step }
    ensures { HasStep result }
{
    Dim::Range {
        lo,
        hi,
        step,
        align: lo,
    }
}

/// The region of rank 3 with these dimensions.
fn space(planes: Dim, rows: Dim, columns: Dim) -> Option<Region>
    requires planes { HasStep planes }
    requires rows { HasStep rows }
    requires columns { HasStep columns }
    ensures region { IfSome result IsRegion }
    ensures rank { IfSome result (λ r. r.rank ≡ 3) }
    ensures fits { IfSome result (λ r. length (members r) < 2 ^ 64) }
{
    match Region::new(3, [planes, rows, columns]) {
        Ok(region) => Some(region),
        Err(_) => None,
    }
}

/// Compares the partial folds of a block with counts.
fn compare(
    rt: &impl Abort,
    alloc: Global,
    collapsed: (bool, bool, bool),
    target: &Region,
    block: &Region,
) -> Result<(), AllocError>
    requires target { IsRegion target.now }
    requires few { length (members target.now) < 2 ^ 64 }
    requires block { IsRegion block.now }
    requires fits { length (members block.now) < 2 ^ 64 }
    requires ranks { target.now.rank ≡ block.now.rank }
{
    let values = values_of(alloc, block)?;
    for fold in [
        Fold::Sum,
        Fold::Prod,
        Fold::Max,
        Fold::Min,
        Fold::All,
        Fold::Any,
    ] {
        let mut folds = Vec::new(alloc);
        folds.push(77)?;
        partials(alloc, fold, target, target, block, &values, &mut folds)?;
        let want = counted(alloc, fold, collapsed, target, block)?;
        assert!(rt; folds.len() == want.len().wrapping_add(1));
        for (i, value) in want.iter().enumerate() {
            assert!(rt; folds.get(i.wrapping_add(1)) == Some(value));
        }
    }
    Ok(())
}

/// Compares the partial folds of a block for targets that collapse some of the dimensions: which
/// have a single coordinate, and where that is so is told.
fn on_targets(rt: &impl Abort, alloc: Global, block: &Region, step: i64) -> Result<(), AllocError>
    requires block { IsRegion block.now }
    requires fits { length (members block.now) < 2 ^ 64 }
    requires rank { block.now.rank ≡ 3 }
    requires step { pos 1 ≤ℤ step }
{
    for collapsed in [
        (false, false, false),
        (true, false, false),
        (false, true, false),
        (false, false, true),
        (true, true, false),
        (true, false, true),
        (false, true, true),
        (true, true, true),
    ] {
        let (a, b, c) = collapsed;
        let planes = if a { every(4, 4, 1) } else { every(1, 3, 1) };
        let rows = if b { every(4, 4, 1) } else { every(1, 7, step) };
        let columns = if c { Dim::Flood } else { every(1, 4, 1) };
        if let Some(target) = space(planes, rows, columns) {
            compare(rt, alloc, collapsed, &target, block)?;
        }
    }
    Ok(())
}

/// Compares the partial folds of parts of a space, whose rows have a step between them.
fn parts_with_step(rt: &impl Abort, alloc: Global, step: i64) -> Result<(), AllocError>
    requires { pos 1 ≤ℤ step }
{
    for (from, to) in [(1, 7), (1, 3), (4, 7), (5, 4), (2, 6)] {
        if let Some(block) = space(every(1, 3, 1), every(from, to, step), every(2, 4, 1)) {
            on_targets(rt, alloc, &block, step)?;
        }
    }
    Ok(())
}

#[test]
fn parts_of_a_space(rt: HostRuntime) -> Result<(), Fail> {
    parts_with_step(&rt, rt.alloc(), 1)?;
    parts_with_step(&rt, rt.alloc(), 2)?;
    parts_with_step(&rt, rt.alloc(), 3)?;
    Ok(())
}

#[test]
fn flood_blocks(rt: HostRuntime) -> Result<(), Fail> {
    let block = space(every(1, 2, 1), Dim::Flood, every(1, 4, 2));
    on_targets(&rt, rt.alloc(), &block.ok_or("a region")?, 1)?;
    Ok(())
}

#[test]
fn trees_of_one_to_sixty_four(rt: HostRuntime) {
    for count in 1..=64_u32 {
        let mut below = 0_u32;
        for p in 0..count {
            for child in children(p, count) {
                if let Some(child) = child {
                    assert!(rt; child < count, "{child} below {p} of {count}");
                    assert!(rt; parent(child) == Some(p));
                    below = below.wrapping_add(1);
                }
            }
        }
        assert!(rt; below.wrapping_add(1) == count);
    }
    assert!(rt; parent(0) == None);
}
