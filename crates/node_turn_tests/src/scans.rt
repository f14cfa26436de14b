//! Scans.
use crate::players::{Case, expect_all};
use std::test::Fail;

const SUMS_UP_TO_EACH_INDEX: &[u8] = b"\
zplnode 1
grid 2
scalars 0
slots 1
cells 0
array 1..4:0,0
expr i1
group
put 0 0 - 1
code
fix 0 1..4:1:1
loop 0 0
scan 0 0 sum 0 0 -
";

const SUMS_UP_TO_EACH_INDEX_TURNS: &[u8] = b"\
0 moves, 1.0.0: | 0 0
1 moves, 1.0.0: | 0 0
0 moves, 1.0.1: | 1 0
1 moves, 1.0.1: | 3 0
0 moves, 1.0.2: | 1 2
1 moves, 1.0.2: | 3 4
0 moves, 2.0.0: | 1 2
1 moves, 2.0.0: | 3 4
0 sends 1 1, 2.1.0: | 1 2
1 sends 0 1, 2.1.0: | 3 4
0 takes 1, 2.2.0: | 1 2
1 takes 0, 2.2.0: | 3 4
0 moves, 3.0.0: | 1 3
1 moves, 3.0.0: | 6 10
0 moves, 3.0.0 done: | 1 3
1 moves, 3.0.0 done: | 6 10
";

const SUMS_WHERE_A_MASK_ALLOWS: &[u8] = b"\
zplnode 1
grid 2
scalars 0
slots 1
cells 0
array 1..4:0,0
array 1..4:0,0
expr i1
expr i1 n2 %
group
put 0 0 - 1
put 1 1 - 1
code
fix 0 1..4:1:1
loop 0 0
scan 0 0 sum 0 0 1
";

const SUMS_WHERE_A_MASK_ALLOWS_TURNS: &[u8] = b"\
0 moves, 1.0.0: | 0 0 | 0 0
1 moves, 1.0.0: | 0 0 | 0 0
0 moves, 1.0.1: | 1 0 | 1 0
1 moves, 1.0.1: | 3 0 | 1 0
0 moves, 1.0.2: | 1 2 | 1 0
1 moves, 1.0.2: | 3 4 | 1 0
0 moves, 2.0.0: | 1 2 | 1 0
1 moves, 2.0.0: | 3 4 | 1 0
0 sends 1 1, 2.1.0: | 1 2 | 1 0
1 sends 0 1, 2.1.0: | 3 4 | 1 0
0 takes 1, 2.2.0: | 1 2 | 1 0
1 takes 0, 2.2.0: | 3 4 | 1 0
0 moves, 3.0.0: | 1 1 | 1 0
1 moves, 3.0.0: | 4 4 | 1 0
0 moves, 3.0.0 done: | 1 1 | 1 0
1 moves, 3.0.0 done: | 4 4 | 1 0
";

const ALONG_THE_ROWS: &[u8] = b"\
zplnode 1
grid 2 3
scalars 0
slots 2
cells 0
array 1..2:0,0 1..3:0,0
expr i1 n10 * i2 +
group
put 0 0 - 1
code
fix 0 1..2:1:1 1..3:1:1
loop 0 0
scan 0 0 max 2 0 -
";

const ALONG_THE_ROWS_TURNS: &[u8] = b"\
0 moves, 1.0.0: | 0
1 moves, 1.0.0: | 0
2 moves, 1.0.0: | 0
3 moves, 1.0.0: | 0
4 moves, 1.0.0: | 0
5 moves, 1.0.0: | 0
0 moves, 1.0.1: | 11
1 moves, 1.0.1: | 12
2 moves, 1.0.1: | 13
3 moves, 1.0.1: | 21
4 moves, 1.0.1: | 22
5 moves, 1.0.1: | 23
0 moves, 2.0.0: | 11
1 moves, 2.0.0: | 12
2 moves, 2.0.0: | 13
3 moves, 2.0.0: | 21
4 moves, 2.0.0: | 22
5 moves, 2.0.0: | 23
0 sends 1 1, 2.1.0: | 11
1 sends 0 1, 2.1.0: | 12
2 sends 0 1, 2.1.0: | 13
3 sends 0 1, 2.1.0: | 21
4 sends 0 1, 2.1.0: | 22
5 sends 0 1, 2.1.0: | 23
0 sends 2 1, 2.2.0: | 11
1 sends 2 1, 2.2.0: | 12
2 sends 1 1, 2.2.0: | 13
3 sends 1 1, 2.2.0: | 21
4 sends 1 1, 2.2.0: | 22
5 sends 1 1, 2.2.0: | 23
0 sends 3 1, 2.3.0: | 11
1 sends 3 1, 2.3.0: | 12
2 sends 3 1, 2.3.0: | 13
3 sends 2 1, 2.3.0: | 21
4 sends 2 1, 2.3.0: | 22
5 sends 2 1, 2.3.0: | 23
0 sends 4 1, 2.4.0: | 11
1 sends 4 1, 2.4.0: | 12
2 sends 4 1, 2.4.0: | 13
3 sends 4 1, 2.4.0: | 21
4 sends 3 1, 2.4.0: | 22
5 sends 3 1, 2.4.0: | 23
0 sends 5 1, 2.5.0: | 11
1 sends 5 1, 2.5.0: | 12
2 sends 5 1, 2.5.0: | 13
3 sends 5 1, 2.5.0: | 21
4 sends 5 1, 2.5.0: | 22
5 sends 4 1, 2.5.0: | 23
0 takes 1, 2.6.0: | 11
1 takes 0, 2.6.0: | 12
2 takes 0, 2.6.0: | 13
3 takes 0, 2.6.0: | 21
4 takes 0, 2.6.0: | 22
5 takes 0, 2.6.0: | 23
0 takes 2, 2.7.0: | 11
1 takes 2, 2.7.0: | 12
2 takes 1, 2.7.0: | 13
3 takes 1, 2.7.0: | 21
4 takes 1, 2.7.0: | 22
5 takes 1, 2.7.0: | 23
0 takes 3, 2.8.0: | 11
1 takes 3, 2.8.0: | 12
2 takes 3, 2.8.0: | 13
3 takes 2, 2.8.0: | 21
4 takes 2, 2.8.0: | 22
5 takes 2, 2.8.0: | 23
0 takes 4, 2.9.0: | 11
1 takes 4, 2.9.0: | 12
2 takes 4, 2.9.0: | 13
3 takes 4, 2.9.0: | 21
4 takes 3, 2.9.0: | 22
5 takes 3, 2.9.0: | 23
0 takes 5, 2.10.0: | 11
1 takes 5, 2.10.0: | 12
2 takes 5, 2.10.0: | 13
3 takes 5, 2.10.0: | 21
4 takes 5, 2.10.0: | 22
5 takes 4, 2.10.0: | 23
0 moves, 3.0.0: | 11
1 moves, 3.0.0: | 12
2 moves, 3.0.0: | 13
3 moves, 3.0.0: | 21
4 moves, 3.0.0: | 22
5 moves, 3.0.0: | 23
0 moves, 3.0.0 done: | 11
1 moves, 3.0.0 done: | 12
2 moves, 3.0.0 done: | 13
3 moves, 3.0.0 done: | 21
4 moves, 3.0.0 done: | 22
5 moves, 3.0.0 done: | 23
";

const OVER_ALL_IN_ROW_MAJOR_ORDER: &[u8] = b"\
zplnode 1
grid 1 3
scalars 0
slots 2
cells 0
array 1..2:0,0 1..4:0,0
expr i1 n10 * i2 +
group
put 0 0 - 1
code
fix 0 1..2:1:1 1..3:1:1
loop 0 0
scan 0 0 sum 0 0 -
";

const OVER_ALL_IN_ROW_MAJOR_ORDER_TURNS: &[u8] = b"\
0 moves, 1.0.0: | 0 0
1 moves, 1.0.0: | 0 0
2 moves, 1.0.0: | 0 0 0 0
0 moves, 1.0.1: | 11 0
1 moves, 1.0.1: | 12 0
2 moves, 1.0.1: | 13 0 0 0
0 moves, 1.0.2: | 11 21
1 moves, 1.0.2: | 12 22
2 moves, 1.0.2: | 13 0 23 0
0 moves, 2.0.0: | 11 21
1 moves, 2.0.0: | 12 22
2 moves, 2.0.0: | 13 0 23 0
0 sends 1 2, 2.1.0: | 11 21
1 sends 0 2, 2.1.0: | 12 22
2 sends 0 2, 2.1.0: | 13 0 23 0
0 sends 2 2, 2.2.0: | 11 21
1 sends 2 2, 2.2.0: | 12 22
2 sends 1 2, 2.2.0: | 13 0 23 0
0 takes 1, 2.3.0: | 11 21
1 takes 0, 2.3.0: | 12 22
2 takes 0, 2.3.0: | 13 0 23 0
0 takes 2, 2.4.0: | 11 21
1 takes 2, 2.4.0: | 12 22
2 takes 1, 2.4.0: | 13 0 23 0
0 moves, 3.0.0: | 11 57
1 moves, 3.0.0: | 23 79
2 moves, 3.0.0: | 36 0 102 0
0 moves, 3.0.0 done: | 11 57
1 moves, 3.0.0 done: | 23 79
2 moves, 3.0.0 done: | 36 0 102 0
";

const CASES: [Case; 4] = [
    // A sum up to each index; the array may be the one that is scanned.
    (
        SUMS_UP_TO_EACH_INDEX,
        None,
        b"0101010101010101",
        SUMS_UP_TO_EACH_INDEX_TURNS,
    ),
    // Where the mask is 0 the sum so far stands.
    (
        SUMS_WHERE_A_MASK_ALLOWS,
        None,
        b"0101010101010101",
        SUMS_WHERE_A_MASK_ALLOWS_TURNS,
    ),
    // Along the rows of a plane, on six processors: words of one row are joined with those of the
    // same row alone.
    (
        ALONG_THE_ROWS,
        None,
        b"012345012345012345012345012345012345012345012345012345012345012345012345012345012345012345",
        ALONG_THE_ROWS_TURNS,
    ),
    // Over all in row-major order, where a block has parts of several rows; another one is empty.
    (
        OVER_ALL_IN_ROW_MAJOR_ORDER,
        None,
        b"012012012012012012012012012012",
        OVER_ALL_IN_ROW_MAJOR_ORDER_TURNS,
    ),
];

#[test]
fn scans(rt: HostRuntime) -> Result<(), Fail> {
    expect_all(&rt, rt.alloc(), &CASES)
}
