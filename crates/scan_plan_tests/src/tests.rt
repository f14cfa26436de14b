//! Scans cut over the blocks of grids, compared with plain counts over all tuples.
ghost use Rattle.std.specs.Prelude.{◌≡◌, ◌≤◌, ◌<◌, ◌^◌, IfOk, IfSome, length};
ghost use Rattle.zpl_region.specs.Dim.{HasStep};
ghost use Rattle.zpl_region.specs.Region.{IsRegion, members};
ghost use Rattle.grid_layout.specs.Grid.{processors_of};
ghost use Rattle.grid_layout.specs.Layout.{AreBlocks, IsArrayBox};
ghost use Rattle.grid_layout.specs.Piece.{owned_part};

use grid_layout::{ArrayBox, Blocks, Grid, Layout};
use scan_plan::{Totals, owned_parts_are_regions, scan_block, totals};
use std::alloc::{AllocError, Global};
use std::process::Abort;
use std::test::Fail;
use zpl_nums::{Fold, join, unit};
use zpl_region::{Dim, Region, Vec3};

/// The value at a tuple, or none where it is masked out.
fn value_at(t: &Vec3) -> Option<i64> {
    let [x, y, z] = *t;
    let value = x
        .wrapping_mul(7)
        .wrapping_sub(y.wrapping_mul(5))
        .wrapping_add(z.wrapping_mul(3));
    if value % 4 == 0 { None } else { Some(value) }
}

/// Whether the scan at `x` counts the tuple `t`.
fn counts(along: u8, x: &Vec3, t: &Vec3) -> bool {
    let [a, b, c] = *x;
    let [i, j, k] = *t;
    match along {
        0 => i < a || i == a && (j < b || j == b && k <= c),
        1 => i <= a && j == b && k == c,
        2 => i == a && j <= b && k == c,
        _ => i == a && j == b && k <= c,
    }
}

/// The scan at `x`, by a count over all tuples.
fn counted(fold: Fold, along: u8, region: &Region, x: &Vec3) -> i64
    requires region { IsRegion region.now }
    requires fits { length (members region.now) < 2 ^ 64 }
{
    let mut so_far = unit(fold);
    for i in 0..region.count() {
        let t = region.nth(i).unwrap_or([0, 0, 0]);
        if counts(along, x, &t) {
            if let Some(value) = value_at(&t) {
                so_far = join(fold, so_far, value);
            }
        }
    }
    so_far
}

/// The values of a region, in row-major order.
fn values_of(alloc: Global, region: &Region) -> Result<Vec<Option<i64>>, AllocError>
    requires region { IsRegion region.now }
    requires fits { length (members region.now) < 2 ^ 64 }
    ensures { IfOk result (λ v. length v.items ≡ length (members region.now)) }
{
    let mut values = Vec::new(alloc);
    for i in 0..region.count() {
        values.push(value_at(&region.nth(i).unwrap_or([0, 0, 0])))?;
    }
    Ok(values)
}

/// The part of a region that a processor owns.
fn part(blocks: &Blocks, p: u32, region: &Region) -> Option<Region>
    requires blocks { AreBlocks blocks.now }
    requires region { IsRegion region.now }
    requires processor { p < processors_of blocks.now.grid }
    ensures part { IfSome result (λ r. r ≡ owned_part blocks.now p p region.now) }
    ensures region { IfSome result IsRegion }
    ensures fits { IfSome result (λ r. length (members r) < 2 ^ 64) }
{
    owned_parts_are_regions();
    let part = blocks.owned(p, p, region);
    match Region::new(part.rank, part.dims) {
        Ok(part) => Some(part),
        Err(_) => None,
    }
}

/// Compares the scans on the blocks of a layout with counts.
fn compare(
    rt: &impl Abort,
    alloc: Global,
    layout: &Layout,
    region: &Region,
    along: u8,
    fold: Fold,
) -> Result<(), AllocError>
    requires region { IsRegion region.now }
    requires fits { length (members region.now) < 2 ^ 64 }
    requires along { along ≤ region.now.rank }
{
    let blocks = layout.blocks();
    let count = blocks.grid.count();
    let mut all = Totals::new(alloc, count)?;
    for p in 0..count {
        if let Some(part) = part(blocks, p, region) {
            let values = values_of(alloc, &part)?;
            let mut list = Vec::new(alloc);
            totals(alloc, fold, along, &part, &values, &mut list)?;
            all.set(p, list);
        }
    }
    for p in 0..count {
        let Some(part) = part(blocks, p, region) else {
            continue;
        };
        let values = values_of(alloc, &part)?;
        let mut scanned = Vec::new(alloc);
        scan_block(
            alloc,
            fold,
            along,
            region,
            layout,
            p,
            &all,
            &values,
            &mut scanned,
        )?;
        assert!(rt; scanned.len() == values.len());
        for (i, value) in scanned.iter().enumerate() {
            let x = part.nth(i as u64).unwrap_or([0, 0, 0]);
            let want = counted(fold, along, region, &x);
            assert!(rt; *value == want);
        }
    }
    Ok(())
}

/// The numbers from 1 to `hi` with a step of at least 1 between them, from `first` on.
fn every(first: i64, hi: i64, step: i64) -> Dim
    ensures { HasStep result }
{
    Dim::Range {
        lo: 1,
        hi,
        step: step.max(1),
        align: first,
    }
}

/// What stands for a dimension past the rank.
const PADDING: Dim = Dim::Range {
    lo: 0,
    hi: 0,
    step: 1,
    align: 0,
};

/// The numbers from 1 to 9.
const NINE: Dim = Dim::Range {
    lo: 1,
    hi: 9,
    step: 1,
    align: 1,
};

/// The numbers from 1 to 3.
const THREE: Dim = Dim::Range {
    lo: 1,
    hi: 3,
    step: 1,
    align: 1,
};

/// The grid of these factors, those aside that are 0.
fn grid(factors: (u32, u32, u32)) -> Option<Grid> {
    let (a, b, c) = factors;
    let grid = if b == 0 {
        Grid::new(&[a])
    } else if c == 0 {
        Grid::new(&[a, b])
    } else {
        Grid::new(&[a, b, c])
    };
    grid.ok()
}

/// Compares the scans over a region on grids of one to eight processors.
fn on_grids(
    rt: &impl Abort,
    alloc: Global,
    shape: ArrayBox,
    region: &Region,
) -> Result<(), AllocError>
    requires shape { IsArrayBox shape }
    requires region { IsRegion region.now }
    requires fits { length (members region.now) < 2 ^ 64 }
{
    for factors in [(1, 0, 0), (5, 0, 0), (2, 3, 0), (2, 2, 2)] {
        let Some(grid) = grid(factors) else {
            continue;
        };
        let Ok(layout) = Layout::new(alloc, grid, &[shape]) else {
            return Err(AllocError);
        };
        for along in 0..=region.rank {
            compare(rt, alloc, &layout, region, along, Fold::Sum)?;
            compare(rt, alloc, &layout, region, along, Fold::Max)?;
        }
    }
    Ok(())
}

#[test]
fn lines(rt: HostRuntime) -> Result<(), Fail> {
    let shape = ArrayBox {
        shape: Region {
            rank: 1,
            dims: [NINE, PADDING, PADDING],
        },
        low: [0, 0, 0],
        high: [0, 0, 0],
    };
    for step in 1..=3_i64 {
        let region = Region::new(1, [every(2, 9, step), PADDING, PADDING]);
        on_grids(&rt, rt.alloc(), shape, &region.ok().ok_or("a region")?)?;
    }
    Ok(())
}

#[test]
fn few_indices(rt: HostRuntime) -> Result<(), Fail> {
    let shape = ArrayBox {
        shape: Region {
            rank: 1,
            dims: [THREE, PADDING, PADDING],
        },
        low: [0, 0, 0],
        high: [0, 0, 0],
    };
    let region = Region::new(1, [THREE, PADDING, PADDING]);
    on_grids(&rt, rt.alloc(), shape, &region.ok().ok_or("a region")?)?;
    let none = Region::new(1, [every(1, 0, 1), PADDING, PADDING]);
    on_grids(&rt, rt.alloc(), shape, &none.ok().ok_or("a region")?)?;
    Ok(())
}

#[test]
fn planes(rt: HostRuntime) -> Result<(), Fail> {
    let shape = ArrayBox {
        shape: Region {
            rank: 2,
            dims: [NINE, NINE, PADDING],
        },
        low: [0, 0, 0],
        high: [0, 0, 0],
    };
    for step in 1..=3_i64 {
        let region = Region::new(2, [every(1, 9, step), every(3, 7, 2), PADDING]);
        on_grids(&rt, rt.alloc(), shape, &region.ok().ok_or("a region")?)?;
    }
    Ok(())
}

#[test]
fn spaces(rt: HostRuntime) -> Result<(), Fail> {
    let shape = ArrayBox {
        shape: Region {
            rank: 3,
            dims: [THREE, NINE, THREE],
        },
        low: [0, 0, 0],
        high: [0, 0, 0],
    };
    for step in 1..=3_i64 {
        let region = Region::new(3, [THREE, every(1, 8, step), THREE]);
        on_grids(&rt, rt.alloc(), shape, &region.ok().ok_or("a region")?)?;
    }
    Ok(())
}
