//! Floods and partial reductions.
use crate::players::{Case, expect_all};
use std::test::Fail;

const A_ROW_FOR_ALL: &[u8] = b"\
zplnode 1
grid 2 1
scalars 0
slots 2 2
cells 0
array 1..2:0,0 1..2:0,0
array - -
expr i1 n10 * i2 +
group
put 0 0 - 1
code
fix 0 1..2:1:1 1..2:1:1
loop 0 0
room 1 0
fix 1 2..2:1:2 1..2:1:1
flood 1 0 0 1
";

const A_ROW_FOR_ALL_TURNS: &[u8] = b"\
0 moves, 1.0.0: | 0 0 |
1 moves, 1.0.0: | 0 0 |
0 moves, 1.0.1: | 11 0 |
1 moves, 1.0.1: | 21 0 |
0 moves, 1.0.2: | 11 12 |
1 moves, 1.0.2: | 21 22 |
0 moves, 2.0.0: | 11 12 |
1 moves, 2.0.0: | 21 22 |
0 moves, 3.0.0: | 11 12 | 0 0
1 moves, 3.0.0: | 21 22 | 0 0
0 moves, 4.0.0: | 11 12 | 0 0
1 moves, 4.0.0: | 21 22 | 0 0
0 moves, 4.1.0: | 11 12 | 0 0
1 moves, 4.1.0: | 21 22 | 21 22
1 sends 0 2, 4.2.0: | 21 22 | 21 22
0 takes 1, 4.2.0: | 11 12 | 21 22
1 moves, 5.0.0: | 21 22 | 21 22
0 moves, 5.0.0: | 11 12 | 21 22
1 moves, 5.0.0 done: | 21 22 | 21 22
0 moves, 5.0.0 done: | 11 12 | 21 22
";

const A_COLUMN_FOR_ALL: &[u8] = b"\
zplnode 1
grid 2 3
scalars 0
slots 2 2
cells 0
array 1..2:0,0 1..3:0,0
array - -*
expr i1 n10 * i2 +
group
put 0 0 - 1
code
fix 0 1..2:1:1 1..3:1:1
loop 0 0
fix 0 1..2:1:1 *
room 1 0
fix 1 1..2:1:1 2..2:1:2
flood 1 0 0 1
";

const A_COLUMN_FOR_ALL_TURNS: &[u8] = b"\
0 moves, 1.0.0: | 0 |
1 moves, 1.0.0: | 0 |
2 moves, 1.0.0: | 0 |
3 moves, 1.0.0: | 0 |
4 moves, 1.0.0: | 0 |
5 moves, 1.0.0: | 0 |
0 moves, 1.0.1: | 11 |
1 moves, 1.0.1: | 12 |
2 moves, 1.0.1: | 13 |
3 moves, 1.0.1: | 21 |
4 moves, 1.0.1: | 22 |
5 moves, 1.0.1: | 23 |
0 moves, 2.0.0: | 11 |
1 moves, 2.0.0: | 12 |
2 moves, 2.0.0: | 13 |
3 moves, 2.0.0: | 21 |
4 moves, 2.0.0: | 22 |
5 moves, 2.0.0: | 23 |
0 moves, 3.0.0: | 11 |
1 moves, 3.0.0: | 12 |
2 moves, 3.0.0: | 13 |
3 moves, 3.0.0: | 21 |
4 moves, 3.0.0: | 22 |
5 moves, 3.0.0: | 23 |
0 moves, 4.0.0: | 11 | 0
1 moves, 4.0.0: | 12 | 0
2 moves, 4.0.0: | 13 | 0
3 moves, 4.0.0: | 21 | 0
4 moves, 4.0.0: | 22 | 0
5 moves, 4.0.0: | 23 | 0
0 moves, 5.0.0: | 11 | 0
1 moves, 5.0.0: | 12 | 0
2 moves, 5.0.0: | 13 | 0
3 moves, 5.0.0: | 21 | 0
4 moves, 5.0.0: | 22 | 0
5 moves, 5.0.0: | 23 | 0
0 moves, 5.1.0: | 11 | 0
1 moves, 5.1.0: | 12 | 12
2 moves, 5.1.0: | 13 | 0
3 moves, 5.1.0: | 21 | 0
4 moves, 5.1.0: | 22 | 22
5 moves, 5.1.0: | 23 | 0
1 sends 0 1, 5.2.0: | 12 | 12
4 sends 3 1, 5.2.0: | 22 | 22
0 takes 1, 5.2.0: | 11 | 12
1 sends 2 1, 5.3.0: | 12 | 12
2 takes 1, 5.2.0: | 13 | 12
3 takes 4, 5.2.0: | 21 | 22
4 sends 5 1, 5.3.0: | 22 | 22
5 takes 4, 5.2.0: | 23 | 22
0 moves, 6.0.0: | 11 | 12
1 moves, 6.0.0: | 12 | 12
2 moves, 6.0.0: | 13 | 12
3 moves, 6.0.0: | 21 | 22
4 moves, 6.0.0: | 22 | 22
5 moves, 6.0.0: | 23 | 22
0 moves, 6.0.0 done: | 11 | 12
1 moves, 6.0.0 done: | 12 | 12
2 moves, 6.0.0 done: | 13 | 12
3 moves, 6.0.0 done: | 21 | 22
4 moves, 6.0.0 done: | 22 | 22
5 moves, 6.0.0 done: | 23 | 22
";

const SUMS_OF_COLUMNS: &[u8] = b"\
zplnode 1
grid 2 1
scalars 0
slots 2 2
cells 0
array 1..2:0,0 1..2:0,0
array - -
expr i1 n10 * i2 +
group
put 0 0 - 1
code
fix 0 1..2:1:1 1..2:1:1
loop 0 0
fix 1 1..1:1:1 1..2:1:1
room 1 1
part 1 1 sum 0 0
";

const SUMS_OF_COLUMNS_TURNS: &[u8] = b"\
0 moves, 1.0.0: | 0 0 |
1 moves, 1.0.0: | 0 0 |
0 moves, 1.0.1: | 11 0 |
1 moves, 1.0.1: | 21 0 |
0 moves, 1.0.2: | 11 12 |
1 moves, 1.0.2: | 21 22 |
0 moves, 2.0.0: | 11 12 |
1 moves, 2.0.0: | 21 22 |
0 moves, 3.0.0: | 11 12 |
1 moves, 3.0.0: | 21 22 |
0 moves, 4.0.0: | 11 12 | 0 0
1 moves, 4.0.0: | 21 22 |
0 moves, 4.1.0: | 11 12 | 11 12
1 moves, 4.1.0: | 21 22 |
1 sends 0 2, 4.2.0: | 21 22 |
0 takes 1, 4.2.0: | 11 12 | 32 34
1 moves, 5.0.0: | 21 22 |
0 moves, 5.0.0: | 11 12 | 32 34
1 moves, 5.0.0 done: | 21 22 |
0 moves, 5.0.0 done: | 11 12 | 32 34
";

const A_MINIMUM_BEGINS_WITH_THE_UNIT: &[u8] = b"\
zplnode 1
grid 6
scalars 0
slots 1 1
cells 0
array 1..3:0,0
array -
expr n9 i1 -
group
put 0 0 - 1
code
fix 0 1..3:1:1
loop 0 0
fix 1 1..1:1:1
room 1 1
part 1 1 min 0 0
";

const A_MINIMUM_BEGINS_WITH_THE_UNIT_TURNS: &[u8] = b"\
0 moves, 1.0.0: | |
1 moves, 1.0.0: | 0 |
2 moves, 1.0.0: | |
3 moves, 1.0.0: | 0 |
4 moves, 1.0.0: | |
5 moves, 1.0.0: | 0 |
0 moves, 2.0.0: | |
1 moves, 1.0.1: | 8 |
2 moves, 2.0.0: | |
3 moves, 1.0.1: | 7 |
4 moves, 2.0.0: | |
5 moves, 1.0.1: | 6 |
0 moves, 3.0.0: | |
1 moves, 2.0.0: | 8 |
2 moves, 3.0.0: | |
3 moves, 2.0.0: | 7 |
4 moves, 3.0.0: | |
5 moves, 2.0.0: | 6 |
0 moves, 4.0.0: | |
1 moves, 3.0.0: | 8 |
2 moves, 4.0.0: | |
3 moves, 3.0.0: | 7 |
4 moves, 4.0.0: | |
5 moves, 3.0.0: | 6 |
0 moves, 4.1.0: | |
1 moves, 4.0.0: | 8 | 0
2 moves, 4.1.0: | |
3 moves, 4.0.0: | 7 |
4 moves, 4.1.0: | |
5 moves, 4.0.0: | 6 |
0 moves, 5.0.0: | |
1 moves, 4.1.0: | 8 | 8
2 moves, 5.0.0: | |
3 moves, 4.1.0: | 7 |
4 moves, 5.0.0: | |
5 moves, 4.1.0: | 6 |
0 moves, 5.0.0 done: | |
2 moves, 5.0.0 done: | |
3 sends 1 1, 4.2.0: | 7 |
4 moves, 5.0.0 done: | |
5 sends 1 1, 4.2.0: | 6 |
1 takes 3, 4.2.0: | 8 | 7
3 moves, 5.0.0: | 7 |
5 moves, 5.0.0: | 6 |
1 takes 5, 4.3.0: | 8 | 6
3 moves, 5.0.0 done: | 7 |
5 moves, 5.0.0 done: | 6 |
1 moves, 5.0.0: | 8 | 6
1 moves, 5.0.0 done: | 8 | 6
";

const CASES: [Case; 4] = [
    // `flood`: the second row of a plane for both rows of another array.
    (
        A_ROW_FOR_ALL,
        None,
        b"01010101010101101010",
        A_ROW_FOR_ALL_TURNS,
    ),
    // `flood` into a flood dimension, on six processors: each block of columns has the value of the
    // second one.
    (
        A_COLUMN_FOR_ALL,
        None,
        b"01234501234501234501234501234501234501234514012345012345012345",
        A_COLUMN_FOR_ALL_TURNS,
    ),
    // `part`: sums along columns, for the first row. A processor without an index of the target
    // joins nothing.
    (
        SUMS_OF_COLUMNS,
        None,
        b"01010101010101101010",
        SUMS_OF_COLUMNS_TURNS,
    ),
    // `part` with `min` on six processors: who has no tuple of the source begins with the unit, and
    // the words are joined.
    (
        A_MINIMUM_BEGINS_WITH_THE_UNIT,
        None,
        b"0123450123450123450123450123450123450234513513511",
        A_MINIMUM_BEGINS_WITH_THE_UNIT_TURNS,
    ),
];

#[test]
fn deliveries(rt: HostRuntime) -> Result<(), Fail> {
    expect_all(&rt, rt.alloc(), &CASES)
}
