//! Exchanges, and borders by `wrap` and `reflect`.
use crate::players::{Case, expect_all};
use std::test::Fail;

const AN_EXCHANGE_OF_TWO_ITEMS: &[u8] = b"\
zplnode 1
grid 2
scalars 0
slots 1
cells 0
array 1..4:1,1
array 1..4:0,1
expr i1 n10 *
expr i1 n20 +
group
put 0 0 - 1
put 1 1 - 1
exchange
item 0 0 1
item 1 0 1
item 0 0 -1
code
fix 0 1..4:1:1
loop 0 0
fix 0 2..3:1:1
start 0
finish 0
";

const AN_EXCHANGE_OF_TWO_ITEMS_TURNS: &[u8] = b"\
0 moves, 1.0.0: | 0 0 0 | 0 0 0
1 moves, 1.0.0: | 0 0 0 | 0 0
0 moves, 1.0.1: | 10 0 0 | 21 0 0
1 moves, 1.0.1: | 0 30 0 | 23 0
0 moves, 1.0.2: | 10 20 0 | 21 22 0
1 moves, 1.0.2: | 0 30 40 | 23 24
0 moves, 2.0.0: | 10 20 0 | 21 22 0
1 moves, 2.0.0: | 0 30 40 | 23 24
0 moves, 3.0.0: | 10 20 0 | 21 22 0
1 moves, 3.0.0: | 0 30 40 | 23 24
0 sends 1 1, 3.1.0: | 10 20 0 | 21 22 0
1 sends 0 2, 3.1.0: | 0 30 40 | 23 24
0 moves, 4.0.0: | 10 20 0 | 21 22 0
1 moves, 4.0.0: | 0 30 40 | 23 24
0 takes 1, 4.1.0: | 10 20 30 | 21 22 23
1 takes 0, 4.1.0: | 20 30 40 | 23 24
0 moves, 5.0.0: | 10 20 30 | 21 22 23
1 moves, 5.0.0: | 20 30 40 | 23 24
0 moves, 5.0.0 done: | 10 20 30 | 21 22 23
1 moves, 5.0.0 done: | 20 30 40 | 23 24
";

const WORDS_IN_ROW_MAJOR_ORDER: &[u8] = b"\
zplnode 1
grid 2 1
scalars 0
slots 2
cells 0
array 1..2:1,0 1..3:0,0
expr i1 n10 * i2 +
group
put 0 0 - 1
exchange
item 0 0 -1,0
code
fix 0 1..2:1:1 1..3:1:1
loop 0 0
fix 0 2..2:1:2 1..3:1:1
start 0
finish 0
";

const WORDS_IN_ROW_MAJOR_ORDER_TURNS: &[u8] = b"\
0 moves, 1.0.0: | 0 0 0
1 moves, 1.0.0: | 0 0 0 0 0 0
0 moves, 1.0.1: | 11 0 0
1 moves, 1.0.1: | 0 0 0 21 0 0
0 moves, 1.0.2: | 11 12 0
1 moves, 1.0.2: | 0 0 0 21 22 0
0 moves, 1.0.3: | 11 12 13
1 moves, 1.0.3: | 0 0 0 21 22 23
0 moves, 2.0.0: | 11 12 13
1 moves, 2.0.0: | 0 0 0 21 22 23
0 moves, 3.0.0: | 11 12 13
1 moves, 3.0.0: | 0 0 0 21 22 23
0 sends 1 3, 3.1.0: | 11 12 13
1 moves, 4.0.0: | 0 0 0 21 22 23
0 moves, 4.0.0: | 11 12 13
1 takes 0, 4.1.0: | 11 12 13 21 22 23
0 moves, 5.0.0: | 11 12 13
1 moves, 5.0.0: | 11 12 13 21 22 23
0 moves, 5.0.0 done: | 11 12 13
1 moves, 5.0.0 done: | 11 12 13 21 22 23
";

const A_BORDER_FROM_THE_OTHER_SIDE: &[u8] = b"\
zplnode 1
grid 2
scalars 0
slots 1
cells 0
array 0..4:0,0
expr i1 n10 *
group
put 0 0 - 1
code
fix 0 1..3:1:1
loop 0 0
wrap 0 0 -1
";

const A_BORDER_FROM_THE_OTHER_SIDE_TURNS: &[u8] = b"\
0 moves, 1.0.0: | 0 0
1 moves, 1.0.0: | 0 0 0
0 moves, 1.0.1: | 0 10
1 moves, 1.0.1: | 20 0 0
0 moves, 2.0.0: | 0 10
1 moves, 1.0.2: | 20 30 0
0 moves, 2.1.0: | 0 10
1 moves, 2.0.0: | 20 30 0
1 moves, 2.1.0: | 20 30 0
1 sends 0 1, 2.2.0: | 20 30 0
0 takes 1, 2.2.0: | 30 10
1 moves, 3.0.0: | 20 30 0
0 moves, 3.0.0: | 30 10
1 moves, 3.0.0 done: | 20 30 0
0 moves, 3.0.0 done: | 30 10
";

const A_BORDER_FROM_THE_SAME_SIDE: &[u8] = b"\
zplnode 1
grid 2
scalars 0
slots 1
cells 0
array 0..4:0,0
expr i1 n10 *
group
put 0 0 - 1
code
fix 0 1..3:1:1
loop 0 0
reflect 0 0 -1
";

const A_BORDER_FROM_THE_SAME_SIDE_TURNS: &[u8] = b"\
0 moves, 1.0.0: | 0 0
1 moves, 1.0.0: | 0 0 0
0 moves, 1.0.1: | 0 10
1 moves, 1.0.1: | 20 0 0
0 moves, 2.0.0: | 0 10
1 moves, 1.0.2: | 20 30 0
0 moves, 2.1.0: | 10 10
1 moves, 2.0.0: | 20 30 0
0 moves, 3.0.0: | 10 10
1 moves, 2.1.0: | 20 30 0
0 moves, 3.0.0 done: | 10 10
1 moves, 3.0.0: | 20 30 0
1 moves, 3.0.0 done: | 20 30 0
";

const CORNERS_OF_A_BORDER: &[u8] = b"\
zplnode 1
grid 2 3
scalars 0
slots 2
cells 0
array 1..3:0,0 1..4:0,0
expr i1 n10 * i2 +
group
put 0 0 - 1
code
fix 0 1..2:1:1 1..3:1:1
loop 0 0
wrap 0 0 1,1
";

const CORNERS_OF_A_BORDER_TURNS: &[u8] = b"\
0 moves, 1.0.0: | 0
1 moves, 1.0.0: | 0
2 moves, 1.0.0: | 0 0
3 moves, 1.0.0: | 0 0
4 moves, 1.0.0: | 0 0
5 moves, 1.0.0: | 0 0 0 0
0 moves, 1.0.1: | 11
1 moves, 1.0.1: | 12
2 moves, 1.0.1: | 13 0
3 moves, 1.0.1: | 21 0
4 moves, 1.0.1: | 22 0
5 moves, 1.0.1: | 23 0 0 0
0 moves, 2.0.0: | 11
1 moves, 2.0.0: | 12
2 moves, 2.0.0: | 13 0
3 moves, 2.0.0: | 21 0
4 moves, 2.0.0: | 22 0
5 moves, 2.0.0: | 23 0 0 0
0 moves, 2.1.0: | 11
1 moves, 2.1.0: | 12
2 moves, 2.1.0: | 13 0
3 moves, 2.1.0: | 21 0
4 moves, 2.1.0: | 22 0
5 moves, 2.1.0: | 23 0 0 0
0 sends 5 1, 2.2.0: | 11
1 moves, 3.0.0: | 12
2 moves, 3.0.0: | 13 0
3 moves, 3.0.0: | 21 0
4 moves, 3.0.0: | 22 0
5 takes 0, 2.2.0: | 23 0 0 11
0 moves, 3.0.0: | 11
1 moves, 3.0.0 done: | 12
2 moves, 3.0.0 done: | 13 0
3 moves, 3.0.0 done: | 21 0
4 moves, 3.0.0 done: | 22 0
5 moves, 3.0.0: | 23 0 0 11
0 moves, 3.0.0 done: | 11
5 moves, 3.0.0 done: | 23 0 0 11
";

const CASES: [Case; 5] = [
    // An exchange of two items: what each neighbour needs of two arrays in one message, the first
    // item's words in front.
    (
        AN_EXCHANGE_OF_TWO_ITEMS,
        None,
        b"01010101010101010101",
        AN_EXCHANGE_OF_TWO_ITEMS_TURNS,
    ),
    // On a grid of two by one, the last row of a block goes in row-major order.
    (
        WORDS_IN_ROW_MAJOR_ORDER,
        None,
        b"01010101010101010101",
        WORDS_IN_ROW_MAJOR_ORDER_TURNS,
    ),
    // `wrap`: the border in front of a region from its last index, which the other processor owns.
    (
        A_BORDER_FROM_THE_OTHER_SIDE,
        None,
        b"010101011101010",
        A_BORDER_FROM_THE_OTHER_SIDE_TURNS,
    ),
    // `reflect`: the border in front of a region from its first index.
    (
        A_BORDER_FROM_THE_SAME_SIDE,
        None,
        b"0101010101011",
        A_BORDER_FROM_THE_SAME_SIDE_TURNS,
    ),
    // `wrap` along both dimensions on six processors: the corner of a plane of two by three.
    (
        CORNERS_OF_A_BORDER,
        None,
        b"01234501234501234501234501234501234505",
        CORNERS_OF_A_BORDER_TURNS,
    ),
];

#[test]
fn borders(rt: HostRuntime) -> Result<(), Fail> {
    expect_all(&rt, rt.alloc(), &CASES)
}
