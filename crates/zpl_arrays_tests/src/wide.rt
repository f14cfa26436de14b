//! Conformity, references, sources, folds and scans over many small regions, compared with plain
//! counts over all tuples.
//!
//! A region of the samples is named by a number, whose digits to the base of 331 name its
//! dimensions. All its tuples have coordinates from -3 to 6.
ghost use Rattle.std.specs.Prelude.{◌≤◌};
ghost use Rattle.zpl_region.specs.Dim.{IsDim};
ghost use Rattle.zpl_region.specs.Region.{IsRegion};

use crate::tests::PADDING;
use std::process::Abort;
use zpl_arrays::{
    agrees, border_conforms, border_coordinate, flood_conforms, flood_coordinate, fold_of,
    is_reference, reduction_conforms, scan_line,
};
use zpl_nums::{Border, Fold, join, unit};
use zpl_region::{Dim, Region, Vec3};

/// A sample of a dimension: flood, or a range with bounds from -3 to 6 and a step from 1 to 3.
fn sample(n: u32) -> Dim
    ensures { IsDim result }
{
    if n == 0 {
        return Dim::Flood;
    }
    let m = n - 1;
    let lo = i64::from(m % 10) - 3;
    let width = i64::from(m / 10 % 11);
    Dim::Range {
        lo,
        hi: (lo + width - 1).min(6),
        step: i64::from(m / 110 % 3) + 1,
        align: lo + i64::from(m / 7 % 4),
    }
}

/// The dimension at `place`, counted from 0, of the region with this number.
fn dim(number: u32, place: u8) -> Dim
    ensures { IsDim result }
{
    let digits = match place {
        0 => number,
        1 => number / 331,
        _ => number / 109_561,
    };
    sample(digits % 331)
}

/// The region with this number.
fn region(rt: &impl Abort, rank: u8, number: u32) -> Region
    ensures region { IsRegion result }
    ensures rank { (1 ≤ result.rank) × (result.rank ≤ 3) }
{
    let (planes, rows, columns) = (dim(number, 0), dim(number, 1), dim(number, 2));
    let made = match rank {
        1 => Region::new(1, [planes, PADDING, PADDING]),
        2 => Region::new(2, [planes, rows, PADDING]),
        _ => Region::new(3, [planes, rows, columns]),
    };
    made.expect(rt, "a small region")
}

/// The number of a region whose dimensions are every 47th sample.
fn spread(n: u32) -> u32 {
    let rows = (n / 8 % 8).wrapping_mul(331);
    let columns = (n / 64 % 8).wrapping_mul(109_561);
    (n % 8)
        .wrapping_add(rows)
        .wrapping_add(columns)
        .wrapping_mul(47)
}

/// Whether `x` is a coordinate.
fn has(dim: Dim, x: i64) -> bool
    requires { IsDim dim }
{
    match dim {
        Dim::Flood => x == 0,
        Dim::Range {
            lo,
            hi,
            step,
            align,
        } => { lo <= x && x <= hi && x.wrapping_sub(align).wrapping_rem(step) == 0 }
    }
}

/// How many coordinates a range has. A flood dimension has none of its own.
fn count(dim: Dim) -> u64
    requires { IsDim dim }
{
    let mut found: u64 = 0;
    for x in -3..=6_i64 {
        if has(dim, x) && dim != Dim::Flood {
            found = found.wrapping_add(1);
        }
    }
    found
}

/// Whether two dimensions are both flood or ranges with the same coordinates.
fn same(one: Dim, other: Dim) -> bool
    requires one { IsDim one }
    requires other { IsDim other }
{
    for x in -3..=6_i64 {
        if has(one, x) != has(other, x) {
            return false;
        }
    }
    (one == Dim::Flood) == (other == Dim::Flood)
}

/// The `i`-th vector with components from `low` to `low + base - 1`, of which those past the rank
/// are 0.
fn vector(rank: u8, base: u32, low: i8, i: u32) -> Vec3
    requires { 1 ≤ base }
{
    let digit = |n: u32| i64::from(n % base).wrapping_add(i64::from(low));
    match rank {
        1 => [digit(i), 0, 0],
        2 => [digit(i / base), digit(i), 0],
        _ => [digit(i / base / base), digit(i / base), digit(i)],
    }
}

/// How many vectors there are with components from a base of so many.
fn vectors(rank: u8, base: u32) -> u32 {
    match rank {
        1 => base,
        2 => base.wrapping_mul(base),
        _ => base.wrapping_mul(base).wrapping_mul(base),
    }
}

/// Whether `t` is a tuple of the region with this number.
fn has_tuple(rank: u8, number: u32, t: &Vec3) -> bool
    requires { rank ≤ 3 }
{
    for place in 0..rank {
        if !has(dim(number, place), t[usize::from(place)]) {
            return false;
        }
    }
    true
}

/// Compares the conformity of a partial reduction and of a flood with counts.
fn conformity(rt: &impl Abort, rank: u8, target: u32, source: u32)
    requires { rank ≤ 3 }
{
    let (mut reduces, mut spreads) = (true, true);
    for place in 0..rank {
        let (to, from) = (dim(target, place), dim(source, place));
        let alike = same(from, to);
        reduces &= alike || to == Dim::Flood || count(to) == 1;
        spreads &= alike || count(from) == 1;
    }
    let (to, from) = (region(rt, rank, target), region(rt, rank, source));
    assert!(rt; reduction_conforms(&to, &from) == reduces);
    assert!(rt; flood_conforms(&to, &from) == spreads);
}

#[test]
fn regions_of_reductions_and_floods(rt: HostRuntime) {
    for target in 0..331 {
        for source in 0..331 {
            conformity(&rt, 1, target, source);
        }
    }
    for target in 0..64 {
        for source in 0..64 {
            conformity(&rt, 2, spread(target), spread(source));
        }
    }
    for target in 0..512 {
        for source in 0..64_u32 {
            conformity(&rt, 3, spread(target), spread(source.wrapping_mul(11)));
        }
    }
}

/// Compares the source of a flood at `x` with the only coordinate of the region, where it has just
/// one.
fn flood_source(rt: &impl Abort, number: u32, x: i64) {
    let source = region(rt, 1, number);
    let line = dim(number, 0);
    let mut wanted = x;
    for y in -3..=6_i64 {
        if has(line, y) && count(line) == 1 {
            wanted = y;
        }
    }
    let found = flood_coordinate(&source, 1, x);
    assert!(rt; found == wanted);
}

#[test]
fn sources_of_floods(rt: HostRuntime) {
    for number in 0..331_u32 {
        for x in -3..=6_i64 {
            flood_source(&rt, number, x);
        }
    }
}

/// Compares the source of a coordinate with the wanted one.
fn border_source(rt: &impl Abort, kind: Border, dim: Dim, d: i64, x: i64, wanted: i64)
    requires { IsDim dim }
{
    assert!(rt; -20 <= x && x <= 20);
    assert!(rt; border_coordinate(kind, dim, d, x) == wanted);
}

/// Compares the sources of the positions beside one dimension with a walk along the bounds.
fn border_sources(rt: &impl Abort, dim: Dim, d: i64)
    requires { IsDim dim }
{
    let Dim::Range { lo, hi, .. } = dim else {
        return;
    };
    for k in 0..7_u8 {
        let away = i64::from(k);
        if away >= d.wrapping_abs() {
            return;
        }
        let (from_lo, from_hi) = (lo.wrapping_add(away), hi.wrapping_sub(away));
        let (x, wrapped, mirrored) = if d > 0 {
            (hi.wrapping_add(1).wrapping_add(away), from_lo, from_hi)
        } else {
            (lo.wrapping_sub(1).wrapping_sub(away), from_hi, from_lo)
        };
        border_source(rt, Border::Wrap, dim, d, x, wrapped);
        border_source(rt, Border::Reflect, dim, d, x, mirrored);
    }
}

/// Compares the conformity of a border with counts, and where it conforms its sources.
fn borders(rt: &impl Abort, rank: u8, number: u32, d: &Vec3)
    requires { rank ≤ 3 }
{
    let mut conforms = true;
    for place in 0..rank {
        let (along, wide) = (d[usize::from(place)], dim(number, place));
        let unit_step = matches!(wide, Dim::Range { step: 1, .. });
        conforms &= along == 0 || unit_step && along.unsigned_abs() <= count(wide);
    }
    let whole = region(rt, rank, number);
    assert!(rt; border_conforms(d, &whole) == conforms);
    for place in 0..rank {
        if conforms {
            border_sources(rt, dim(number, place), d[usize::from(place)]);
        }
    }
}

#[test]
fn borders_of_regions(rt: HostRuntime) {
    for number in 0..331 {
        for i in 0..15 {
            borders(&rt, 1, number, &vector(1, 15, -7, i));
        }
    }
    for n in 0..64 {
        for i in 0..225 {
            borders(&rt, 2, spread(n), &vector(2, 15, -7, i));
        }
    }
    for n in 0..64_u32 {
        for i in 0..3375 {
            borders(&rt, 3, spread(n.wrapping_mul(11)), &vector(3, 15, -7, i));
        }
    }
}

/// Whether the coordinate `x` of a dimension, moved by `d`, lies in another.
fn lies(dim: Dim, x: i64, d: i64, storage: Dim) -> bool {
    match (dim, storage) {
        (_, Dim::Flood) => true,
        (Dim::Flood, Dim::Range { .. }) => false,
        (Dim::Range { .. }, Dim::Range { lo, hi, .. }) => {
            let moved = x.wrapping_add(d);
            lo <= moved && moved <= hi
        }
    }
}

/// Compares where a reference lies with all tuples of its region.
fn reference(rt: &impl Abort, rank: u8, number: u32, storage: u32, d: &Vec3)
    requires { rank ≤ 3 }
{
    let mut inside = true;
    for i in 0..vectors(rank, 10) {
        let t = vector(rank, 10, -3, i);
        if inside && has_tuple(rank, number, &t) {
            for place in 0..rank {
                let here = usize::from(place);
                inside &= lies(dim(number, place), t[here], d[here], dim(storage, place));
            }
        }
    }
    let (from, to) = (region(rt, rank, number), region(rt, rank, storage));
    assert!(rt; is_reference(d, &from, &to) == inside);
}

#[test]
fn references_of_arrays(rt: HostRuntime) {
    for number in 0..331 {
        for storage in 0..111 {
            for i in 0..15 {
                reference(&rt, 1, number, storage, &vector(1, 15, -7, i));
            }
        }
    }
    for n in 0..64 {
        for m in 0..64 {
            for i in 0..8_u32 {
                reference(
                    &rt,
                    2,
                    spread(n),
                    spread(m),
                    &vector(2, 15, -7, i.wrapping_mul(29)),
                );
            }
        }
    }
    for n in 0..128_u32 {
        for m in 0..64_u32 {
            let (number, storage) = (spread(n.wrapping_mul(5)), spread(m.wrapping_mul(11)));
            let i = n.wrapping_mul(13).wrapping_add(m.wrapping_mul(29)) % 3375;
            reference(&rt, 3, number, storage, &vector(3, 15, -7, i));
        }
    }
}

/// A value at a tuple.
fn value(t: &Vec3) -> i64 {
    let rows = t[1].wrapping_mul(17);
    t[0].wrapping_mul(5)
        .wrapping_add(rows)
        .wrapping_sub(t[2].wrapping_mul(7))
}

/// Compares a partial reduction at `x` with the tuples that have its coordinates where the target
/// is neither flood nor single.
fn partial(rt: &impl Abort, rank: u8, target: u32, source: u32, x: &Vec3)
    requires { rank ≤ 3 }
{
    let to = region(rt, rank, target);
    let (mut found, mut wanted) = (unit(Fold::Max), unit(Fold::Max));
    for i in 0..vectors(rank, 10) {
        let t = vector(rank, 10, -3, i);
        if has_tuple(rank, source, &t) {
            let kept = if agrees(&to, x, &t) {
                Some(value(&t))
            } else {
                None
            };
            found = join(Fold::Max, found, fold_of(Fold::Max, &[kept]));
            let mut counts = true;
            for place in 0..rank {
                let (here, wide) = (usize::from(place), dim(target, place));
                counts &= t[here] == x[here] || wide == Dim::Flood || count(wide) == 1;
            }
            if counts && wanted < value(&t) {
                wanted = value(&t);
            }
        }
    }
    assert!(rt; found == wanted);
}

#[test]
fn partial_reductions(rt: HostRuntime) {
    for target in 0..331 {
        for source in 0..331 {
            partial(&rt, 1, target, source, &vector(1, 10, -3, source % 10));
        }
    }
    for target in 0..64 {
        for source in 0..64 {
            for i in 0..4_u32 {
                let x = vector(2, 10, -3, i.wrapping_mul(27));
                partial(&rt, 2, spread(target), spread(source), &x);
            }
        }
    }
    for n in 0..128_u32 {
        for m in 0..16_u32 {
            let (target, source) = (spread(n.wrapping_mul(5)), spread(m.wrapping_mul(37)));
            let x = vector(3, 10, -3, n.wrapping_mul(7).wrapping_add(m) % 1000);
            partial(&rt, 3, target, source, &x);
        }
    }
}

/// Whether a tuple is in the region and isn't masked out.
fn counts(rank: u8, number: u32, t: &Vec3) -> bool
    requires { rank ≤ 3 }
{
    has_tuple(rank, number, t) && value(t).wrapping_rem(3) != 0
}

/// Whether `t` stands up to and with `x`: in row-major order, or along one dimension.
fn is_up_to(x: &Vec3, t: &Vec3, along: Option<u8>) -> bool {
    let Some(along) = along else {
        let in_plane = t[1] < x[1] || t[1] == x[1] && t[2] <= x[2];
        return t[0] < x[0] || t[0] == x[0] && in_plane;
    };
    for place in 0..3_u8 {
        let here = usize::from(place);
        let stands = if place == along {
            t[here] <= x[here]
        } else {
            t[here] == x[here]
        };
        if !stands {
            return false;
        }
    }
    true
}

/// The fold over all tuples up to and with `x`.
fn plain_scan(rank: u8, number: u32, along: Option<u8>, fold: Fold, x: &Vec3) -> i64
    requires { rank ≤ 3 }
{
    let mut so_far = unit(fold);
    for i in 0..vectors(rank, 10) {
        let t = vector(rank, 10, -3, i);
        if is_up_to(x, &t, along) && counts(rank, number, &t) {
            so_far = join(fold, so_far, value(&t));
        }
    }
    so_far
}

/// Scans the line from the `first` tuple on, each `stride`-th, and compares it with plain folds.
fn line_scan(
    rt: &impl Abort,
    rank: u8,
    number: u32,
    along: Option<u8>,
    fold: Fold,
    before: i64,
    first: u32,
    stride: u32,
) -> i64
    requires { rank ≤ 3 }
{
    let mut values = [None; 10];
    let mut scan = [0; 10];
    let mut i = first;
    for place in values.iter_mut() {
        let t = vector(rank, 10, -3, i);
        if counts(rank, number, &t) {
            *place = Some(value(&t));
        }
        i = i.wrapping_add(stride);
    }
    scan_line(fold, before, &values, &mut scan);
    i = first;
    for found in scan.iter() {
        let x = vector(rank, 10, -3, i);
        if has_tuple(rank, number, &x) {
            let wanted = plain_scan(rank, number, along, fold, &x);
            assert!(rt; *found == wanted);
        }
        i = i.wrapping_add(stride);
    }
    scan[9]
}

/// Compares the scans of all lines of a region.
fn scans(rt: &impl Abort, rank: u8, number: u32, along: Option<u8>, fold: Fold)
    requires { rank ≤ 3 }
{
    let after = match along {
        Some(place) => rank.wrapping_sub(1).wrapping_sub(place),
        None => 0,
    };
    let stride = match after {
        0 => 1,
        1 => 10,
        _ => 100_u32,
    };
    let mut before = unit(fold);
    for i in 0..vectors(rank, 10) {
        if i / stride % 10 == 0 {
            let end = line_scan(rt, rank, number, along, fold, before, i, stride);
            if along.is_none() {
                before = end;
            }
        }
    }
}

#[test]
fn scans_of_regions(rt: HostRuntime) {
    for number in 0..331 {
        scans(&rt, 1, number, None, Fold::Sum);
        scans(&rt, 1, number, Some(0), Fold::Min);
    }
    for n in 0..64 {
        scans(&rt, 2, spread(n), None, Fold::Max);
        scans(&rt, 2, spread(n), Some(0), Fold::Sum);
        scans(&rt, 2, spread(n), Some(1), Fold::Prod);
    }
    for n in 0..8_u32 {
        let number = spread(n.wrapping_mul(37));
        scans(&rt, 3, number, None, Fold::Sum);
        scans(&rt, 3, number, Some(0), Fold::Prod);
        scans(&rt, 3, number, Some(1), Fold::Max);
        scans(&rt, 3, number, Some(2), Fold::Any);
    }
}
