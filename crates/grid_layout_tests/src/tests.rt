//! Small layouts, with values from tables.
ghost use Rattle.std.specs.Prelude.{◌≤◌, length};
ghost use Rattle.grid_layout.specs.Layout.{IsArrayBox};

use grid_layout::{ArrayBox, Blocks, Grid, GridFault, Layout, LayoutFault};
use zpl_region::{Dim, Region};

/// Whether there is a grid of these factors, and how many processors it has.
fn count_of(factors: &[u32]) -> u32
    requires some { 1 ≤ length factors.now }
    requires few { length factors.now ≤ 3 }
{
    match Grid::new(factors) {
        Ok(grid) => grid.count(),
        Err(GridFault::BadShape) => 0,
    }
}

#[test]
fn grids_of_a_table(rt: HostRuntime) {
    assert!(rt; count_of(&[1]) == 1 && count_of(&[2, 3]) == 6);
    assert!(rt; count_of(&[8, 8]) == 64 && count_of(&[2, 2, 2]) == 8);
    assert!(rt; count_of(&[65]) == 0 && count_of(&[8, 9]) == 0 && count_of(&[2, 0, 2]) == 0);
    assert!(rt; count_of(&[4_294_967_295, 4_294_967_295, 4_294_967_295]) == 0);
}

/// A square of 2048 by 2048 places, with a fringe of one position all round.
fn square() -> ArrayBox
    ensures { IsArrayBox result }
{
    let side = Dim::Range {
        lo: 1,
        hi: 2048,
        step: 1,
        align: 1,
    };
    let padding = Dim::Range {
        lo: 0,
        hi: 0,
        step: 1,
        align: 0,
    };
    ArrayBox {
        shape: Region {
            rank: 2,
            dims: [side, side, padding],
        },
        low: [1, 1, 0],
        high: [1, 1, 0],
    }
}

#[test]
fn five_squares_pass_the_limit(rt: HostRuntime) {
    let grid = Grid::new(&[1]).expect(&rt, "a grid of one processor");
    let one = square();
    let five = Layout::new(rt.alloc(), grid, &[one, one, one, one, one]);
    assert!(rt; matches!(five, Err(LayoutFault::TooMuchStorage)));
    let four = Layout::new(rt.alloc(), grid, &[one, one, one, one]);
    assert!(rt; four.is_ok());
}

/// An array of 2^41 + 1 places in each of three dimensions.
fn vast() -> ArrayBox
    ensures { IsArrayBox result }
{
    let side = Dim::Range {
        lo: -1_099_511_627_776,
        hi: 1_099_511_627_776,
        step: 1,
        align: 0,
    };
    ArrayBox {
        shape: Region {
            rank: 3,
            dims: [side, side, side],
        },
        low: [0, 0, 0],
        high: [0, 0, 0],
    }
}

#[test]
fn words_past_64_bits(rt: HostRuntime) {
    let one = vast();
    let words: u128 = 2_199_023_255_553 * 2_199_023_255_553 * 2_199_023_255_553;
    let single = Grid::new(&[1]).expect(&rt, "a grid of one processor");
    assert!(rt; Blocks::new(single, &[one]).words(&one) == words);
    assert!(rt; Blocks::new(single, &[one]).words_of(&[one, one, one]) == 3 * words);
    let many = Grid::new(&[4, 4, 4]).expect(&rt, "a grid of 64 processors");
    assert!(rt; Blocks::new(many, &[one]).words(&one) == words);
    assert!(rt;
        matches!(
            Layout::new(rt.alloc(), many, &[one]),
            Err(LayoutFault::TooMuchStorage)
        )
    );
}
