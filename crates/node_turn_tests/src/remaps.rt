//! Remap reads.
use crate::players::{Case, expect_all};
use std::test::Fail;

const VALUES_FROM_THE_OTHER_END: &[u8] = b"\
zplnode 1
grid 2
scalars 0
slots 1
cells 0
array 1..4:0,0
array -
array -
expr i1 n10 *
expr n5 i1 -
group
put 0 0 - 1
group
put 1 1 - 2
code
fix 0 1..4:1:1
loop 0 0
room 1 0
room 2 0
loop 0 1
remap 2 0 0 1
";

const VALUES_FROM_THE_OTHER_END_TURNS: &[u8] = b"\
0 moves, 1.0.0: | 0 0 | |
1 moves, 1.0.0: | 0 0 | |
0 moves, 1.0.1: | 10 0 | |
1 moves, 1.0.1: | 30 0 | |
0 moves, 1.0.2: | 10 20 | |
1 moves, 1.0.2: | 30 40 | |
0 moves, 2.0.0: | 10 20 | |
1 moves, 2.0.0: | 30 40 | |
0 moves, 3.0.0: | 10 20 | 0 0 |
1 moves, 3.0.0: | 30 40 | 0 0 |
0 moves, 4.0.0: | 10 20 | 0 0 | 0 0
1 moves, 4.0.0: | 30 40 | 0 0 | 0 0
0 moves, 4.0.1: | 10 20 | 4 0 | 0 0
1 moves, 4.0.1: | 30 40 | 2 0 | 0 0
0 moves, 4.0.2: | 10 20 | 4 3 | 0 0
1 moves, 4.0.2: | 30 40 | 2 1 | 0 0
0 moves, 5.0.0: | 10 20 | 4 3 | 0 0
1 moves, 5.0.0: | 30 40 | 2 1 | 0 0
0 moves, 5.1.0: | 10 20 | 4 3 | 0 0
1 moves, 5.1.0: | 30 40 | 2 1 | 0 0
0 sends 1 2, 5.2.0: | 10 20 | 4 3 | 0 0
1 sends 0 2, 5.2.0: | 30 40 | 2 1 | 0 0
0 takes 1, 5.3.0: | 10 20 | 4 3 | 0 0
1 takes 0, 5.3.0: | 30 40 | 2 1 | 0 0
0 sends 1 2, 5.4.0: | 10 20 | 4 3 | 0 0
1 sends 0 2, 5.4.0: | 30 40 | 2 1 | 0 0
0 takes 1, 5.5.0: | 10 20 | 4 3 | 40 30
1 takes 0, 5.5.0: | 30 40 | 2 1 | 20 10
0 moves, 6.0.0: | 10 20 | 4 3 | 40 30
1 moves, 6.0.0: | 30 40 | 2 1 | 20 10
0 moves, 6.0.0 done: | 10 20 | 4 3 | 40 30
1 moves, 6.0.0 done: | 30 40 | 2 1 | 20 10
";

const OWN_VALUES_AND_OUTSIDE: &[u8] = b"\
zplnode 1
grid 2
scalars 0
slots 1
cells 0
array 1..4:0,0
array -
array -
expr i1 n10 *
expr i1 n2 % n3 * i1 + n1 -
group
put 0 0 - 1
group
put 1 1 - 2
code
fix 0 1..4:1:1
loop 0 0
room 1 0
room 2 0
loop 0 1
remap 2 0 0 1
";

const OWN_VALUES_AND_OUTSIDE_TURNS: &[u8] = b"\
0 moves, 1.0.0: | 0 0 | |
1 moves, 1.0.0: | 0 0 | |
0 moves, 1.0.1: | 10 0 | |
1 moves, 1.0.1: | 30 0 | |
0 moves, 1.0.2: | 10 20 | |
1 moves, 1.0.2: | 30 40 | |
0 moves, 2.0.0: | 10 20 | |
1 moves, 2.0.0: | 30 40 | |
0 moves, 3.0.0: | 10 20 | 0 0 |
1 moves, 3.0.0: | 30 40 | 0 0 |
0 moves, 4.0.0: | 10 20 | 0 0 | 0 0
1 moves, 4.0.0: | 30 40 | 0 0 | 0 0
0 moves, 4.0.1: | 10 20 | 3 0 | 0 0
1 moves, 4.0.1: | 30 40 | 5 0 | 0 0
0 moves, 4.0.2: | 10 20 | 3 1 | 0 0
1 moves, 4.0.2: | 30 40 | 5 3 | 0 0
0 moves, 5.0.0: | 10 20 | 3 1 | 0 0
1 moves, 5.0.0: | 30 40 | 5 3 | 0 0
0 moves, 5.1.0: | 10 20 | 3 1 | 0 10
1 moves, 5.1.0: | 30 40 | 5 3 | 0 30
0 sends 1 1, 5.2.0: | 10 20 | 3 1 | 0 10
1 sends 0 0, 5.2.0: | 30 40 | 5 3 | 0 30
0 takes 1, 5.3.0: | 10 20 | 3 1 | 0 10
1 takes 0, 5.3.0: | 30 40 | 5 3 | 0 30
1 sends 0 1, 5.4.0: | 30 40 | 5 3 | 0 30
0 takes 1, 5.4.0: | 10 20 | 3 1 | 30 10
1 moves, 6.0.0: | 30 40 | 5 3 | 0 30
0 moves, 6.0.0: | 10 20 | 3 1 | 30 10
1 moves, 6.0.0 done: | 30 40 | 5 3 | 0 30
0 moves, 6.0.0 done: | 10 20 | 3 1 | 30 10
";

const MORE_PROCESSORS_THAN_VALUES: &[u8] = b"\
zplnode 1
grid 6
scalars 0
slots 1
cells 0
array 1..4:0,0
array -
array -
expr i1 n10 *
expr n4
group
put 0 0 - 1
group
put 1 1 - 2
code
fix 0 1..4:1:1
loop 0 0
room 1 0
room 2 0
loop 0 1
remap 2 0 0 1
";

const MORE_PROCESSORS_THAN_VALUES_TURNS: &[u8] = b"\
0 moves, 1.0.0: | | |
1 moves, 1.0.0: | 0 | |
2 moves, 1.0.0: | 0 | |
3 moves, 1.0.0: | | |
4 moves, 1.0.0: | 0 | |
5 moves, 1.0.0: | 0 | |
0 moves, 2.0.0: | | |
1 moves, 1.0.1: | 10 | |
2 moves, 1.0.1: | 20 | |
3 moves, 2.0.0: | | |
4 moves, 1.0.1: | 30 | |
5 moves, 1.0.1: | 40 | |
0 moves, 3.0.0: | | |
1 moves, 2.0.0: | 10 | |
2 moves, 2.0.0: | 20 | |
3 moves, 3.0.0: | | |
4 moves, 2.0.0: | 30 | |
5 moves, 2.0.0: | 40 | |
0 moves, 4.0.0: | | |
1 moves, 3.0.0: | 10 | 0 |
2 moves, 3.0.0: | 20 | 0 |
3 moves, 4.0.0: | | |
4 moves, 3.0.0: | 30 | 0 |
5 moves, 3.0.0: | 40 | 0 |
0 moves, 5.0.0: | | |
1 moves, 4.0.0: | 10 | 0 | 0
2 moves, 4.0.0: | 20 | 0 | 0
3 moves, 5.0.0: | | |
4 moves, 4.0.0: | 30 | 0 | 0
5 moves, 4.0.0: | 40 | 0 | 0
0 moves, 5.1.0: | | |
1 moves, 4.0.1: | 10 | 4 | 0
2 moves, 4.0.1: | 20 | 4 | 0
3 moves, 5.1.0: | | |
4 moves, 4.0.1: | 30 | 4 | 0
5 moves, 4.0.1: | 40 | 4 | 0
0 sends 1 0, 5.2.0: | | |
1 moves, 5.0.0: | 10 | 4 | 0
2 moves, 5.0.0: | 20 | 4 | 0
3 sends 0 0, 5.2.0: | | |
4 moves, 5.0.0: | 30 | 4 | 0
5 moves, 5.0.0: | 40 | 4 | 0
0 sends 2 0, 5.3.0: | | |
1 moves, 5.1.0: | 10 | 4 | 0
2 moves, 5.1.0: | 20 | 4 | 0
3 sends 1 0, 5.3.0: | | |
4 moves, 5.1.0: | 30 | 4 | 0
5 moves, 5.1.0: | 40 | 4 | 40
0 sends 3 0, 5.4.0: | | |
1 sends 0 0, 5.2.0: | 10 | 4 | 0
2 sends 0 0, 5.2.0: | 20 | 4 | 0
3 sends 2 0, 5.4.0: | | |
4 sends 0 0, 5.2.0: | 30 | 4 | 0
5 sends 0 0, 5.2.0: | 40 | 4 | 40
0 sends 4 0, 5.5.0: | | |
1 sends 2 0, 5.3.0: | 10 | 4 | 0
2 sends 1 0, 5.3.0: | 20 | 4 | 0
3 sends 4 0, 5.5.0: | | |
4 sends 1 0, 5.3.0: | 30 | 4 | 0
5 sends 1 0, 5.3.0: | 40 | 4 | 40
0 sends 5 0, 5.6.0: | | |
1 sends 3 0, 5.4.0: | 10 | 4 | 0
2 sends 3 0, 5.4.0: | 20 | 4 | 0
3 sends 5 0, 5.6.0: | | |
4 sends 2 0, 5.4.0: | 30 | 4 | 0
5 sends 2 0, 5.4.0: | 40 | 4 | 40
0 takes 1, 5.7.0: | | |
1 sends 4 0, 5.5.0: | 10 | 4 | 0
2 sends 4 0, 5.5.0: | 20 | 4 | 0
3 takes 0, 5.7.0: | | |
4 sends 3 0, 5.5.0: | 30 | 4 | 0
5 sends 3 0, 5.5.0: | 40 | 4 | 40
0 takes 2, 5.8.0: | | |
1 sends 5 1, 5.6.0: | 10 | 4 | 0
2 sends 5 1, 5.6.0: | 20 | 4 | 0
3 takes 1, 5.8.0: | | |
4 sends 5 1, 5.6.0: | 30 | 4 | 0
5 sends 4 0, 5.6.0: | 40 | 4 | 40
0 takes 3, 5.9.0: | | |
1 takes 0, 5.7.0: | 10 | 4 | 0
2 takes 0, 5.7.0: | 20 | 4 | 0
3 takes 2, 5.9.0: | | |
4 takes 0, 5.7.0: | 30 | 4 | 0
5 takes 0, 5.7.0: | 40 | 4 | 40
0 takes 4, 5.10.0: | | |
1 takes 2, 5.8.0: | 10 | 4 | 0
2 takes 1, 5.8.0: | 20 | 4 | 0
3 takes 4, 5.10.0: | | |
4 takes 1, 5.8.0: | 30 | 4 | 0
5 takes 1, 5.8.0: | 40 | 4 | 40
0 takes 5, 5.11.0: | | |
1 takes 3, 5.9.0: | 10 | 4 | 0
2 takes 3, 5.9.0: | 20 | 4 | 0
3 takes 5, 5.11.0: | | |
4 takes 2, 5.9.0: | 30 | 4 | 0
5 takes 2, 5.9.0: | 40 | 4 | 40
0 moves, 6.0.0: | | |
1 takes 4, 5.10.0: | 10 | 4 | 0
2 takes 4, 5.10.0: | 20 | 4 | 0
3 moves, 6.0.0: | | |
4 takes 3, 5.10.0: | 30 | 4 | 0
5 takes 3, 5.10.0: | 40 | 4 | 40
0 moves, 6.0.0 done: | | |
1 takes 5, 5.11.0: | 10 | 4 | 0
2 takes 5, 5.11.0: | 20 | 4 | 0
3 moves, 6.0.0 done: | | |
4 takes 5, 5.11.0: | 30 | 4 | 0
5 takes 4, 5.11.0: | 40 | 4 | 40
5 sends 1 1, 5.12.0: | 40 | 4 | 40
1 takes 5, 5.12.0: | 10 | 4 | 40
5 sends 2 1, 5.13.0: | 40 | 4 | 40
1 moves, 6.0.0: | 10 | 4 | 40
2 takes 5, 5.12.0: | 20 | 4 | 40
5 sends 4 1, 5.14.0: | 40 | 4 | 40
1 moves, 6.0.0 done: | 10 | 4 | 40
2 moves, 6.0.0: | 20 | 4 | 40
4 takes 5, 5.12.0: | 30 | 4 | 40
5 moves, 6.0.0: | 40 | 4 | 40
2 moves, 6.0.0 done: | 20 | 4 | 40
4 moves, 6.0.0: | 30 | 4 | 40
5 moves, 6.0.0 done: | 40 | 4 | 40
4 moves, 6.0.0 done: | 30 | 4 | 40
";

const A_PLANE_FROM_A_ROW_AND_BACK: &[u8] = b"\
zplnode 1
grid 2
scalars 0
slots 1 2
cells 0
array 1..2:0,0 1..2:0,0
array -
array -
array -
array 1..2:0,0
expr i1 n10 * i2 +
expr n3 i1 -
expr i1
group
put 0 0 - 1
group
put 1 1 - 2
put 2 2 - 2
code
fix 1 1..2:1:1 1..2:1:1
loop 1 0
fix 0 1..2:1:1
room 1 0
room 2 0
room 3 0
loop 0 1
remap 3 0 0 1 2
";

const A_PLANE_FROM_A_ROW_AND_BACK_TURNS: &[u8] = b"\
0 moves, 1.0.0: | 0 0 | | | | 0
1 moves, 1.0.0: | 0 0 | | | | 0
0 moves, 1.0.1: | 11 0 | | | | 0
1 moves, 1.0.1: | 21 0 | | | | 0
0 moves, 1.0.2: | 11 12 | | | | 0
1 moves, 1.0.2: | 21 22 | | | | 0
0 moves, 2.0.0: | 11 12 | | | | 0
1 moves, 2.0.0: | 21 22 | | | | 0
0 moves, 3.0.0: | 11 12 | | | | 0
1 moves, 3.0.0: | 21 22 | | | | 0
0 moves, 4.0.0: | 11 12 | 0 | | | 0
1 moves, 4.0.0: | 21 22 | 0 | | | 0
0 moves, 5.0.0: | 11 12 | 0 | 0 | | 0
1 moves, 5.0.0: | 21 22 | 0 | 0 | | 0
0 moves, 6.0.0: | 11 12 | 0 | 0 | 0 | 0
1 moves, 6.0.0: | 21 22 | 0 | 0 | 0 | 0
0 moves, 6.0.1: | 11 12 | 2 | 1 | 0 | 0
1 moves, 6.0.1: | 21 22 | 1 | 2 | 0 | 0
0 moves, 7.0.0: | 11 12 | 2 | 1 | 0 | 0
1 moves, 7.0.0: | 21 22 | 1 | 2 | 0 | 0
0 moves, 7.1.0: | 11 12 | 2 | 1 | 0 | 0
1 moves, 7.1.0: | 21 22 | 1 | 2 | 0 | 0
0 sends 1 2, 7.2.0: | 11 12 | 2 | 1 | 0 | 0
1 sends 0 2, 7.2.0: | 21 22 | 1 | 2 | 0 | 0
0 takes 1, 7.3.0: | 11 12 | 2 | 1 | 0 | 0
1 takes 0, 7.3.0: | 21 22 | 1 | 2 | 0 | 0
0 sends 1 1, 7.4.0: | 11 12 | 2 | 1 | 0 | 0
1 sends 0 1, 7.4.0: | 21 22 | 1 | 2 | 0 | 0
0 takes 1, 7.5.0: | 11 12 | 2 | 1 | 21 | 0
1 takes 0, 7.5.0: | 21 22 | 1 | 2 | 12 | 0
0 moves, 8.0.0: | 11 12 | 2 | 1 | 21 | 0
1 moves, 8.0.0: | 21 22 | 1 | 2 | 12 | 0
0 moves, 8.0.0 done: | 11 12 | 2 | 1 | 21 | 0
1 moves, 8.0.0 done: | 21 22 | 1 | 2 | 12 | 0
";

const CASES: [Case; 4] = [
    // `remap` that turns a row round: each processor asks the other for all, and is answered in the
    // order of what it asked.
    (
        VALUES_FROM_THE_OTHER_END,
        None,
        b"01010101010101010101010101010101",
        VALUES_FROM_THE_OTHER_END_TURNS,
    ),
    // Own values are written in the first turn, and 0 for a tuple outside the storage; requests
    // without tuples are sent and awaited all the same.
    (
        OWN_VALUES_AND_OUTSIDE,
        None,
        b"010101010101010101010101101010",
        OWN_VALUES_AND_OUTSIDE_TURNS,
    ),
    // On six processors, four of them with an index, all ask for the value of the last index.
    (
        MORE_PROCESSORS_THAN_VALUES,
        None,
        b"01234501234501234501234501234501234501234501234501234501234501234501234501234501234501234501234501234501234551512512452454",
        MORE_PROCESSORS_THAN_VALUES_TURNS,
    ),
    // Tuples of two coordinates: a plane is read along its diagonal, by a row.
    (
        A_PLANE_FROM_A_ROW_AND_BACK,
        None,
        b"0101010101010101010101010101010101",
        A_PLANE_FROM_A_ROW_AND_BACK_TURNS,
    ),
];

#[test]
fn remaps(rt: HostRuntime) -> Result<(), Fail> {
    expect_all(&rt, rt.alloc(), &CASES)
}
