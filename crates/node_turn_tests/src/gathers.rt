//! Arrays that are printed.
use crate::players::{Case, expect_all};
use std::test::Fail;

const AN_ARRAY_IS_PRINTED: &[u8] = b"\
zplnode 1
grid 1 2
scalars 0
slots 2
cells 0
array 1..2:0,0 1..3:0,0
expr i1 n10 * i2 + neg
group
put 0 0 - 1
code
fix 0 1..2:1:1 1..3:1:1
loop 0 0
gather number 0 0
";

const AN_ARRAY_IS_PRINTED_TURNS: &[u8] = b"\
0 moves, 1.0.0: | 0 0
1 moves, 1.0.0: | 0 0 0 0
0 moves, 1.0.1: | -11 0
1 moves, 1.0.1: | -12 0 0 0
0 moves, 1.0.2: | -11 -21
1 moves, 1.0.2: | -12 -13 0 0
0 moves, 2.0.0: | -11 -21
1 moves, 1.0.3: | -12 -13 -22 0
1 moves, 1.0.4: | -12 -13 -22 -23
1 moves, 2.0.0: | -12 -13 -22 -23
1 sends 0 4, 2.1.0: | -12 -13 -22 -23
0 takes 1, 2.1.0: | -11 -21
1 moves, 3.0.0: | -12 -13 -22 -23
0 prints \"-11 -12 -13
-21 -22 -23
\", 3.0.0: | -11 -21
1 moves, 3.0.0 done: | -12 -13 -22 -23
0 moves, 3.0.0 done: | -11 -21
";

const TRUTH_VALUES_ARE_PRINTED: &[u8] = b"\
zplnode 1
grid 6
scalars 0
slots 1
cells 0
array 1..6:0,0
expr i1 n3 >
group
put 0 0 - 1
code
fix 0 2..5:3:2
loop 0 0
gather truth 0 0
";

const TRUTH_VALUES_ARE_PRINTED_TURNS: &[u8] = b"\
0 moves, 1.0.0: | 0
1 moves, 1.0.0: | 0
2 moves, 1.0.0: | 0
3 moves, 1.0.0: | 0
4 moves, 1.0.0: | 0
5 moves, 1.0.0: | 0
0 moves, 2.0.0: | 0
1 moves, 1.0.1: | 0
2 moves, 2.0.0: | 0
3 moves, 2.0.0: | 0
4 moves, 1.0.1: | 1
5 moves, 2.0.0: | 0
1 moves, 2.0.0: | 0
2 moves, 3.0.0: | 0
3 moves, 3.0.0: | 0
4 moves, 2.0.0: | 1
5 moves, 3.0.0: | 0
1 sends 0 1, 2.1.0: | 0
2 moves, 3.0.0 done: | 0
3 moves, 3.0.0 done: | 0
4 sends 0 1, 2.1.0: | 1
5 moves, 3.0.0 done: | 0
0 takes 1, 2.1.0: | 0
1 moves, 3.0.0: | 0
4 moves, 3.0.0: | 1
0 takes 4, 2.2.0: | 0
1 moves, 3.0.0 done: | 0
4 moves, 3.0.0 done: | 1
0 prints \"false true\", 3.0.0: | 0
0 moves, 3.0.0 done: | 0
";

const NOTHING_IS_PRINTED: &[u8] = b"\
zplnode 1
grid 2
scalars 0
slots 1
cells 0
array 1..2:0,0
code
fix 0 2..1:1:1
gather number 0 0
";

const NOTHING_IS_PRINTED_TURNS: &[u8] = b"\
0 moves, 1.0.0: | 0
1 moves, 1.0.0: | 0
0 moves, 2.0.0: | 0
1 moves, 2.0.0: | 0
0 moves, 2.0.0 done: | 0
1 moves, 2.0.0 done: | 0
";

const CASES: [Case; 3] = [
    // `gather` of a plane as numbers, on two processors.
    (
        AN_ARRAY_IS_PRINTED,
        None,
        b"0101010111101010",
        AN_ARRAY_IS_PRINTED_TURNS,
    ),
    // `gather` of truth values over a strided region, on six processors: who has no value sends no
    // message.
    (
        TRUTH_VALUES_ARE_PRINTED,
        None,
        b"012345012345123451234501401400",
        TRUTH_VALUES_ARE_PRINTED_TURNS,
    ),
    // Of an empty region nothing is printed, and no message is sent.
    (
        NOTHING_IS_PRINTED,
        None,
        b"010101",
        NOTHING_IS_PRINTED_TURNS,
    ),
];

#[test]
fn gathers(rt: HostRuntime) -> Result<(), Fail> {
    expect_all(&rt, rt.alloc(), &CASES)
}
