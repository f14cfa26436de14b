//! Sources, folds and scans, compared with plain counts.
ghost use Rattle.std.specs.Prelude.{◌<◌, ◌^◌, ◌≤ℤ◌, neg_ℤ, pos, length};
ghost use Rattle.zpl_region.specs.Dim.{HasStep, IsDim, IsUpTo};
ghost use Rattle.zpl_region.specs.Ends.{coordinate_count};
ghost use Rattle.zpl_region.specs.Region.{IsRegion, members};

use std::process::Abort;
use zpl_arrays::{agrees, around_coordinate, flood_coordinate, fold_of, scan_line};
use zpl_nums::{Fold, join};
use zpl_region::{Dim, Region, Vec3};

/// What stands for a dimension past the rank.
pub(crate) const PADDING: Dim = Dim::Range {
    lo: 0,
    hi: 0,
    step: 1,
    align: 0,
};

/// The numbers from `lo` to `hi`.
fn line(lo: i64, hi: i64) -> Dim
    requires low { IsUpTo 40 lo }
    requires high { IsUpTo 40 hi }
    ensures dim { IsDim result }
    ensures some { lo ≤ℤ hi → 0 < coordinate_count result }
{
    Dim::Range {
        lo,
        hi,
        step: 1,
        align: lo,
    }
}

/// The number `distance` steps from `x` on a ring from `lo` to `hi`, found by going step by step.
fn around(lo: i64, hi: i64, x: i64, distance: i8) -> i64 {
    let mut here = x;
    for _ in 0..distance.unsigned_abs() {
        here = if distance > 0 {
            if here == hi { lo } else { here.wrapping_add(1) }
        } else {
            if here == lo { hi } else { here.wrapping_sub(1) }
        };
    }
    here
}

/// Compares reads that wrap round a line with a walk.
fn reads_around(rt: &impl Abort, lo: i8, hi: i8)
    requires low { neg_ℤ (pos 3) ≤ℤ lo }
    requires order { lo ≤ℤ hi }
    requires high { hi ≤ℤ pos 6 }
{
    let (from, to) = (i64::from(lo), i64::from(hi));
    for x in lo..=hi {
        for d in -7..=7_i8 {
            let place = i64::from(x);
            let found = around_coordinate(line(from, to), i64::from(d), place);
            assert!(rt; found == around(from, to, place, d));
        }
    }
}

#[test]
fn reads_that_wrap_round(rt: HostRuntime) {
    for lo in -3..=6_i8 {
        for hi in lo..=6_i8 {
            assert!(rt; -3 <= lo && lo <= hi && hi <= 6);
            reads_around(&rt, lo, hi);
        }
    }
}

/// Compares the source of a flood at 7 with the wanted one.
fn flood(rt: &impl Abort, dim: Dim, want: i64)
    requires { HasStep dim }
{
    let source = Region::new(1, [dim, PADDING, PADDING]).expect(rt, "a small region");
    assert!(rt; source.rank == 1);
    assert!(rt; flood_coordinate(&source, 1, 7) == want);
}

#[test]
fn sources_of_floods(rt: HostRuntime) {
    flood(&rt, line(4, 4), 4);
    flood(&rt, line(3, 5), 7);
    flood(&rt, line(1, 0), 7);
    flood(&rt, Dim::Flood, 7);
}

/// Compares a scan with the folds of the fronts of its line.
fn scans(rt: &impl Abort, fold: Fold) {
    let values = [Some(3), None, Some(-5), Some(0), None, Some(7)];
    let mut scan = [0; 6];
    scan_line(fold, 2, &values, &mut scan);
    for i in 0..6_usize {
        let so_far = join(fold, 2, fold_of(fold, &values[..=i]));
        assert!(rt; scan[i] == so_far);
    }
}

#[test]
fn folds_and_scans_of_a_line(rt: HostRuntime) {
    let values = [Some(3), None, Some(-5), Some(0), None, Some(7)];
    for (fold, want, over_none) in [
        (Fold::Sum, 5, 0),
        (Fold::Prod, 0, 1),
        (Fold::Max, 7, i64::MIN),
        (Fold::Min, -5, i64::MAX),
        (Fold::All, 0, 1),
        (Fold::Any, 1, 0),
    ] {
        assert!(rt; fold_of(fold, &values) == want);
        assert!(rt; fold_of(fold, &[None, None]) == over_none);
        assert!(rt; fold_of(fold, &[]) == over_none);
        scans(&rt, fold);
    }
}

/// The plane of two dimensions.
fn plane(rt: &impl Abort, a: Dim, b: Dim) -> Region
    requires first { HasStep a }
    requires second { HasStep b }
    ensures region { IsRegion result }
    ensures points { length (members result) < 2 ^ 64 }
{
    Region::new(2, [a, b, PADDING]).expect(rt, "a small region")
}

/// The sum of `10 * row + column` over the tuples of the source that agree with `x`.
fn part(target: &Region, source: &Region, x: Vec3) -> i64
    requires target { IsRegion target.now }
    requires source { IsRegion source.now }
    requires points { length (members source.now) < 2 ^ 64 }
{
    let mut sum: i64 = 0;
    for i in 0..source.count() {
        if let Some(t) = source.nth(i) {
            if agrees(target, &x, &t) {
                sum = sum.wrapping_add(t[0].wrapping_mul(10).wrapping_add(t[1]));
            }
        }
    }
    sum
}

#[test]
fn partial_sums_of_a_plane(rt: HostRuntime) {
    let whole = plane(&rt, line(1, 2), line(1, 3));
    let column = plane(&rt, line(1, 2), line(1, 1));
    let rows = plane(&rt, Dim::Flood, line(1, 3));
    let single = plane(&rt, line(2, 2), Dim::Flood);
    for (target, x, want) in [
        (&column, [1, 1, 0], 36),
        (&column, [2, 1, 0], 66),
        (&rows, [0, 1, 0], 32),
        (&rows, [0, 3, 0], 36),
        (&single, [2, 0, 0], 102),
        (&whole, [2, 3, 0], 23),
    ] {
        assert!(rt; part(target, &whole, x) == want);
    }
}
