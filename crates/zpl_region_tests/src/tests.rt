//! Calls on small regions, compared with plain counts, and values from tables.
ghost use Rattle.std.specs.Prelude.{◌<◌, ◌^◌, ◌≤ℤ◌, neg_ℤ, pos, length};
ghost use Rattle.zpl_region.specs.Dim.{HasStep};
ghost use Rattle.zpl_region.specs.Region.{IsRegion, members};

use std::process::Abort;
use zpl_region::{Dim, Region, Vec3};

/// What stands for a dimension past the rank.
const PADDING: Dim = Dim::Range {
    lo: 0,
    hi: 0,
    step: 1,
    align: 0,
};

/// A range by its two bounds, its step and its alignment.
fn range(parts: (i64, i64, i64, i64)) -> Dim
    ensures { pos 1 ≤ℤ parts.2 → HasStep result }
{
    let (lo, hi, step, align) = parts;
    Dim::Range {
        lo,
        hi,
        step,
        align,
    }
}

/// The step of a dimension, or 1 for a flood dimension.
fn step_of(dim: Dim) -> i64
    ensures { pos 1 ≤ℤ result → HasStep dim }
{
    match dim {
        Dim::Range { step, .. } => step,
        Dim::Flood => 1,
    }
}

/// A region of rank 1 to 3, with the steps of its dimensions tested.
fn region(rt: &impl Abort, rank: u8, a: Dim, b: Dim, c: Dim) -> Region
    ensures region { IsRegion result }
    ensures points { length (members result) < 2 ^ 64 }
{
    assert!(rt; step_of(a) >= 1 && step_of(b) >= 1 && step_of(c) >= 1);
    let made = match rank {
        1 => Region::new(1, [a, PADDING, PADDING]),
        2 => Region::new(2, [a, b, PADDING]),
        _ => Region::new(3, [a, b, c]),
    };
    made.expect(rt, "a small region")
}

/// Whether `x` is a coordinate of the dimension, told without a walk.
fn has(dim: Dim, x: i64) -> bool {
    match dim {
        Dim::Range {
            lo,
            hi,
            step,
            align,
        } => { lo <= x && x <= hi && x.wrapping_sub(align).checked_rem(step) == Some(0) }
        Dim::Flood => x == 0,
    }
}

/// Whether both are the same tuple, or both are none.
fn same(one: Option<Vec3>, other: Option<Vec3>) -> bool {
    one == other
}

/// Compares a region with the tuples that a plain search from -4 to 9 finds.
fn walk(rt: &impl Abort, rank: u8, a: Dim, b: Dim, c: Dim) {
    let region = region(rt, rank, a, b, c);
    let mut seen: u64 = 0;
    let mut last: Vec3 = [-5, -5, -5];
    for x in -4..=9 {
        for y in -4..=9 {
            if !has(a, x) || !has(b, y) {
                continue;
            }
            for z in -4..=9 {
                let here = has(c, z);
                assert!(rt; region.contains([x, y, z]) == here);
                if here {
                    assert!(rt; same(region.nth(seen), Some([x, y, z])));
                    assert!(rt; same(region.next_after(last), Some([x, y, z])));
                    seen = seen.saturating_add(1);
                    last = [x, y, z];
                }
            }
        }
    }
    let greatest = if seen == 0 { None } else { Some(last) };
    assert!(rt; region.count() == seen && region.is_empty() == (seen == 0));
    assert!(rt; region.nth(seen).is_none() && region.next_after(last).is_none());
    assert!(rt; same(region.least(), region.nth(0)) && same(region.greatest(), greatest));
}

/// Moves a line by each distance up to 7, and looks for each number that it had.
fn moves(rt: &impl Abort, dim: Dim) {
    let line = region(rt, 1, dim, PADDING, PADDING);
    for d in -7..=7 {
        let moved = line.at([d, 0, 0]).expect(rt, "a small region");
        for x in -4..=9 {
            let to = d.wrapping_add(x);
            let found = same(
                moved.next_after([to.wrapping_sub(1), 0, 0]),
                Some([to, 0, 0]),
            );
            assert!(rt; found == has(dim, x));
        }
    }
}

/// Walks over the lines with these bounds and this step, and moves those that begin at -4.
fn lines(rt: &impl Abort, lo: i64, hi: i64, step: i64) {
    for align in -3..=7 {
        let dim = range((lo, hi, step, align));
        walk(rt, 1, dim, PADDING, PADDING);
        if lo == -4 {
            moves(rt, dim);
        }
    }
}

#[test]
fn lines_of_a_plain_search(rt: HostRuntime) {
    for lo in -4..=9 {
        for hi in -4..=9 {
            for step in 1..=5 {
                lines(&rt, lo, hi, step);
            }
        }
    }
}

#[test]
fn planes_and_spaces_of_a_plain_search(rt: HostRuntime) {
    let evens = range((-4, 9, 2, 0));
    let few = range((1, 3, 1, 1));
    let none = range((3, 1, 1, 3));
    for (rank, a, b, c) in [
        (2, few, evens, PADDING),
        (2, Dim::Flood, few, PADDING),
        (2, evens, Dim::Flood, PADDING),
        (3, few, evens, few),
        (3, Dim::Flood, few, evens),
        (3, few, Dim::Flood, evens),
        (3, few, evens, Dim::Flood),
        (3, Dim::Flood, Dim::Flood, Dim::Flood),
        (3, few, none, evens),
    ] {
        walk(&rt, rank, a, b, c);
    }
}

/// What `d of`, `d in`, `at d` and `by d` give of a range, beside a flood dimension, for the
/// component d.
fn forms(rt: &impl Abort, dim: (i64, i64, i64, i64), d: i64, wanted: &[(i64, i64, i64, i64); 4]) {
    let region = region(rt, 2, range(dim), Dim::Flood, PADDING);
    let v = [d, d, d];
    let [outside, inside, moved, strided] = *wanted;
    for (given, want) in [
        (region.of(v), outside),
        (region.inside(v), inside),
        (region.at(v), moved),
        (region.by(v), strided),
    ] {
        let dims = [range(want), Dim::Flood, PADDING];
        assert!(rt; given == Ok(Region { rank: 2, dims }));
    }
}

#[test]
fn forms_of_a_line(rt: HostRuntime) {
    forms(
        &rt,
        (0, 8, 3, 1),
        2,
        &[(9, 10, 3, 1), (7, 8, 3, 1), (2, 10, 3, 3), (0, 8, 6, 1)],
    );
    forms(
        &rt,
        (0, 8, 3, 1),
        -2,
        &[(-2, -1, 3, 1), (0, 1, 3, 1), (-2, 6, 3, -1), (0, 8, 6, 7)],
    );
    forms(
        &rt,
        (0, 8, 3, 1),
        0,
        &[(0, 8, 3, 1), (0, 8, 3, 1), (0, 8, 3, 1), (0, 8, 3, 1)],
    );
}

#[test]
fn forms_of_an_empty_line(rt: HostRuntime) {
    forms(
        &rt,
        (5, 4, 2, 0),
        3,
        &[(5, 7, 2, 0), (2, 4, 2, 0), (8, 7, 2, 3), (5, 4, 6, 5)],
    );
    forms(
        &rt,
        (5, 4, 2, 0),
        -3,
        &[(2, 4, 2, 0), (5, 7, 2, 0), (2, 1, 2, -3), (5, 4, 6, 4)],
    );
}

#[test]
fn forms_of_a_line_with_a_long_step(rt: HostRuntime) {
    forms(
        &rt,
        (1, 2, 5, 0),
        2,
        &[(3, 4, 5, 0), (1, 2, 5, 0), (3, 4, 5, 2), (1, 2, 10, 1)],
    );
    forms(
        &rt,
        (1, 2, 5, 0),
        -2,
        &[(-1, 0, 5, 0), (1, 2, 5, 0), (-1, 0, 5, -2), (1, 2, 10, 2)],
    );
    forms(
        &rt,
        (4, 4, 7, -3),
        7,
        &[
            (5, 11, 7, -3),
            (-2, 4, 7, -3),
            (11, 11, 7, 4),
            (4, 4, 49, 4),
        ],
    );
}

#[test]
fn limit_at_each_number(rt: HostRuntime) {
    let far = 2_147_483_648;
    let high = 1_099_511_627_776;
    for (lo, hi, step, align, fits) in [
        (-far, -far, 1, 0, true),
        (-far - 1, -far, 1, 0, false),
        (far, far, 1, 0, true),
        (far, far + 1, 1, 0, false),
        (far + 1, far, 1, 0, false),
        (0, -far - 1, 1, 0, false),
        (0, 1, far, 0, true),
        (0, 1, far + 1, 0, false),
        (0, 1, 1, high, true),
        (0, 1, 1, high + 1, false),
        (0, 1, 1, -high, true),
        (0, 1, 1, -high - 1, false),
        (1, 4_194_304, 1, 0, true),
        (1, 4_194_305, 1, 0, false),
        (0, 8_388_607, 2, 0, true),
        (0, 8_388_608, 2, 0, false),
        (i64::MIN, i64::MAX, 1, 0, false),
    ] {
        assert!(rt; step >= 1);
        let made = Region::new(1, [range((lo, hi, step, align)), PADDING, PADDING]);
        assert!(rt; made.is_ok() == fits);
    }
    for (a, b, c, fits) in [
        (128, 128, 256, true),
        (129, 128, 256, false),
        (far, far, 0, true),
        (far, far, 1, false),
    ] {
        let made = Region::new(
            3,
            [
                range((1, a, 1, 1)),
                range((1, b, 1, 1)),
                range((1, c, 1, 1)),
            ],
        );
        assert!(rt; made.is_ok() == fits);
    }
}

#[test]
fn forms_past_the_limit(rt: HostRuntime) {
    let region = region(&rt, 1, range((0, 1, 1, 0)), PADDING, PADDING);
    for d in [
        i64::MIN,
        i64::MIN + 1,
        -2_147_483_650,
        2_147_483_650,
        i64::MAX,
    ] {
        let v = [d, 0, 0];
        for given in [region.of(v), region.inside(v), region.at(v), region.by(v)] {
            assert!(rt; given.is_err(), "at {d}");
        }
    }
}

/// The line from -4 to 9 with a step of 3 that has 7.
const LINE: Region = Region {
    rank: 1,
    dims: [
        Dim::Range {
            lo: -4,
            hi: 9,
            step: 3,
            align: 7,
        },
        PADDING,
        PADDING,
    ],
};

/// The part of a line from `d` to `d + 4`.
fn part(line: &Region, d: i64) -> Region
    requires region { IsRegion line.now }
    requires points { length (members line.now) < 2 ^ 64 }
    requires low { neg_ℤ (pos 7) ≤ℤ d }
    requires high { d ≤ℤ pos 7 }
    ensures region { IsRegion result }
    ensures points { length (members result) < 2 ^ 64 }
{
    line.meet([d, 0, 0], [d + 4, 0, 0])
}

#[test]
fn moves_and_parts_of_a_line(rt: HostRuntime) {
    let dim = range((-4, 9, 3, 7));
    let line = region(&rt, 1, dim, PADDING, PADDING);
    assert!(rt; line.rank == 1);
    for k in 0..15_u8 {
        let d = i64::from(k) - 7;
        let moved = line.at([d, 0, 0]).expect(&rt, "a small region");
        let part = part(&line, d);
        let mut inside: u64 = 0;
        for j in 0..14_u8 {
            let x = i64::from(j) - 4;
            let here = has(dim, x);
            let found = same(moved.next_after([x + d - 1, 0, 0]), Some([x + d, 0, 0]));
            assert!(rt; found == here);
            if here && d <= x && x <= d + 4 {
                assert!(rt; same(part.nth(inside), Some([x, 0, 0])));
                inside = inside.saturating_add(1);
            }
        }
        assert!(rt; part.count() == inside);
        assert!(rt; line.within([d, 1, 1], [d + 11, 0, 0]) == (-4 <= d && d <= -2));
        assert!(rt; moved.rank == 1);
        assert!(rt; line.same_dim(&moved, 1) == (d == 0));
    }
    assert!(rt; line.at([5, 0, 0]) == Ok(LINE.shift([5, 0, 0])));
}

#[test]
fn ranges_that_are_one_set(rt: HostRuntime) {
    // pairs of ranges, and whether they are the same set
    for (one, other, same) in [
        ((1, 9, 2, 1), (0, 10, 2, 5), true),
        ((1, 9, 2, 1), (1, 9, 2, 0), false),
        ((1, 9, 2, 1), (1, 9, 4, 1), false),
        ((1, 9, 2, 1), (1, 10, 2, 1), true),
        ((1, 9, 2, 1), (1, 11, 2, 1), false),
        ((3, 5, 7, 4), (4, 4, 1, 4), true),
        ((3, 5, 7, 4), (-2, 9, 9, 4), true),
        ((3, 5, 7, 4), (-2, 13, 9, 4), false),
        ((5, 4, 1, 5), (1, 2, 5, 0), true),
        ((5, 4, 1, 5), (0, 0, 1, 0), false),
    ] {
        let a = region(&rt, 1, range(one), PADDING, PADDING);
        let b = region(&rt, 1, range(other), PADDING, PADDING);
        assert!(rt; a.rank == 1 && b.rank == 1);
        assert!(rt; a.same_dim(&b, 1) == same && b.same_dim(&a, 1) == same);
    }
    let flood = region(&rt, 1, Dim::Flood, PADDING, PADDING);
    let zero = region(&rt, 1, PADDING, PADDING, PADDING);
    assert!(rt; flood.rank == 1 && zero.rank == 1);
    assert!(rt;
        flood.same_dim(&flood, 1) && !flood.same_dim(&zero, 1) && !zero.same_dim(&flood, 1)
    );
    assert!(rt; flood.within([5, 0, 0], [7, 0, 0]) && !zero.within([5, 0, 0], [7, 0, 0]));
}

#[test]
fn hulls_of_planes(rt: HostRuntime) {
    let none = range((1, 0, 1, 1));
    for (a, b, first, second) in [
        (
            (0, 8, 3, 1),
            (2, 9, 5, 9),
            range((1, 7, 1, 1)),
            range((4, 9, 1, 4)),
        ),
        (
            (-3, 2, 4, 7),
            (0, 0, 9, 0),
            range((-1, -1, 1, -1)),
            range((0, 0, 1, 0)),
        ),
        ((1, 2, 5, 0), (2, 9, 5, 9), none, none),
        ((3, 4, 1, 3), (5, 4, 1, 5), none, none),
    ] {
        let plane = region(&rt, 2, range(a), range(b), PADDING);
        let hull = plane.hull();
        let dims = [first, second, PADDING];
        assert!(rt; hull == Region { rank: 2, dims });
    }
    let rows = region(&rt, 2, Dim::Flood, range((2, 9, 5, 9)), PADDING);
    let dims = [Dim::Flood, range((4, 9, 1, 4)), PADDING];
    assert!(rt; rows.hull() == Region { rank: 2, dims });
}

#[test]
fn single_coordinates(rt: HostRuntime) {
    for (dim, want) in [
        (range((3, 5, 7, 4)), Some(4)),
        (range((3, 5, 1, 4)), None),
        (range((1, 2, 5, 0)), None),
        (PADDING, Some(0)),
        (Dim::Flood, None),
    ] {
        let line = region(&rt, 1, dim, PADDING, PADDING);
        assert!(rt; line.rank == 1);
        assert!(rt; line.single(1) == want);
    }
}
