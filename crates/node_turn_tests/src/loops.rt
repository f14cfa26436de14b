//! Loops, and the places of arrays.
use crate::players::{Case, expect_all};
use std::test::Fail;

const AN_INDEX_A_TURN: &[u8] = b"\
zplnode 1
grid 2
scalars 1
slots 1
cells 1
array 1..8:0,0
array 1..8:0,0
expr i1 n10 *
expr a0 n1 +
expr c0
group
put 0 0 - 1
cell 0 1 - 2
acc 0 max 2 - 3
put 1 2 - 4
code
fix 0 1..8:3:2
loop 0 0
";

const AN_INDEX_A_TURN_TURNS: &[u8] = b"\
0 moves, 1.0.0: 0 | 0 0 0 0 | 0 0 0 0
1 moves, 1.0.0: 0 | 0 0 0 0 | 0 0 0 0
0 moves, 1.0.1: 21 | 0 20 0 0 | 0 21 0 0
1 moves, 1.0.1: 51 | 50 0 0 0 | 51 0 0 0
0 moves, 2.0.0: 21 | 0 20 0 0 | 0 21 0 0
1 moves, 1.0.2: 81 | 50 0 0 80 | 51 0 0 81
0 moves, 2.0.0 done: 21 | 0 20 0 0 | 0 21 0 0
1 moves, 2.0.0: 81 | 50 0 0 80 | 51 0 0 81
1 moves, 2.0.0 done: 81 | 50 0 0 80 | 51 0 0 81
";

const MEMBERS_ARE_MASKED: &[u8] = b"\
zplnode 1
grid 1
scalars 1
slots 1
cells 0
array 1..3:0,0
expr i1
expr i1 n2 =
expr i1 n2 <
expr i1 neg
group
put 0 0 1 1
if 2 - 2
acc 0 sum 0 - 3
else
put 0 3 - 5
fi
code
fix 0 1..3:1:1
loop 0 0
";

const MEMBERS_ARE_MASKED_TURNS: &[u8] = b"\
0 moves, 1.0.0: 0 | 0 0 0
0 moves, 1.0.1: 1 | 0 0 0
0 moves, 1.0.2: 1 | 0 -2 0
0 moves, 1.0.3: 1 | 0 -2 -3
0 moves, 2.0.0: 1 | 0 -2 -3
0 moves, 2.0.0 done: 1 | 0 -2 -3
";

const A_LOOP_WITHIN_AN_INDEX: &[u8] = b"\
zplnode 1
grid 1
scalars 2
slots 1
cells 0
array 1..2:0,0
expr a0 i1 <
expr a0 n1 +
expr n1
expr s0 n4 >=
expr s0 n6 <
group
while 0 - 1
put 0 1 - 2
od
repeat 4 4
acc 0 sum 2 - 5
until 3
code
fix 0 1..2:1:1
loop 0 0
";

const A_LOOP_WITHIN_AN_INDEX_TURNS: &[u8] = b"\
0 moves, 1.0.0: 0 0 | 0 0
0 moves, 1.0.0: 0 0 | 1 0
0 moves, 1.0.0: 1 0 | 1 0
0 moves, 1.0.0: 2 0 | 1 0
0 moves, 1.0.0: 3 0 | 1 0
0 moves, 1.0.1: 4 0 | 1 0
0 moves, 1.0.1: 4 0 | 1 1
0 moves, 1.0.1: 4 0 | 1 2
0 moves, 1.0.2: 5 0 | 1 2
0 moves, 2.0.0: 5 0 | 1 2
0 moves, 2.0.0 done: 5 0 | 1 2
";

const A_DIVISOR_IN_A_GROUP: &[u8] = b"\
zplnode 1
grid 2
scalars 1
slots 1
cells 0
array 1..4:0,0
expr i1
expr n6 i1 n4 - /
expr n6 i1 n2 - /
expr i1 n9 +
group
put 0 0 - 1
acc 0 sum 1 - 2
put 0 2 - 3
put 0 3 - 4
code
fix 0 1..4:1:1
loop 0 0
vote 0
";

const A_DIVISOR_IN_A_GROUP_TURNS: &[u8] = b"\
0 moves, 1.0.0: 0 | 0 0
1 moves, 1.0.0: 0 | 0 0
0 moves, 1.0.1: -2 | 10 0
1 moves, 1.0.1: -6 | 12 0
0 moves, 1.0.2 flag 2: -5 | 10 2
1 moves, 1.0.2 flag 1: -6 | 12 4
0 moves, 2.0.0 flag 2: -5 | 10 2
1 moves, 2.0.0 flag 1: -6 | 12 4
1 sends 0 1, 2.1.0 flag 1: -6 | 12 4
0 takes 1, 2.1.0 flag 2: -5 | 10 2
0 sends 1 1, 2.2.0 flag 2: -5 | 10 2
1 takes 0, 2.2.0 flag 1: -6 | 12 4
0 moves, 2.0.0 DivideByZero 2: -5 | 10 2
1 moves, 2.0.0 DivideByZero 2: -6 | 12 4
";

const A_DIVISOR_IN_AN_IF: &[u8] = b"\
zplnode 1
grid 1
scalars 0
slots 1
cells 0
array 1..1:0,0
expr n1
expr n1 a0 /
expr n1 a0 n1 - /
group
put 0 0 - 1
if 0 - 2
if 0 - 3
put 0 2 - 4
fi
fi
code
fix 0 1..1:1:1
loop 0 0
vote 0
";

const A_DIVISOR_IN_AN_IF_TURNS: &[u8] = b"\
0 moves, 1.0.0: | 0
0 moves, 1.0.1 flag 1: | 1
0 moves, 2.0.0 flag 1: | 1
0 moves, 2.0.0 DivideByZero 2: | 1
";

const PLACES_OF_A_TEMPORARY: &[u8] = b"\
zplnode 1
grid 2
scalars 0
slots 1 2
cells 0
array 1..4:0,0
array 1..2:0,0 1..4:0,0
array -
array - -*
expr i1
expr i2
group
put 2 0 - 1
group
put 3 0 - 2
put 1 1 - 3
code
fix 0 2..3:1:1
room 2 0
loop 0 0
fix 0 1..2:1:1
room 2 0
fix 1 2..2:1:2 *
room 3 1
fix 1 1..2:1:1 4..4:1:4
room 3 1
loop 1 1
clear 1
";

const PLACES_OF_A_TEMPORARY_TURNS: &[u8] = b"\
0 moves, 1.0.0: | 0 0 | 0 0 0 0 | |
1 moves, 1.0.0: | 0 0 | 0 0 0 0 | |
0 moves, 2.0.0: | 0 0 | 0 0 0 0 | 0 |
1 moves, 2.0.0: | 0 0 | 0 0 0 0 | 0 |
0 moves, 2.0.1: | 0 0 | 0 0 0 0 | 2 |
1 moves, 2.0.1: | 0 0 | 0 0 0 0 | 3 |
0 moves, 3.0.0: | 0 0 | 0 0 0 0 | 2 |
1 moves, 3.0.0: | 0 0 | 0 0 0 0 | 3 |
0 moves, 4.0.0: | 0 0 | 0 0 0 0 | 2 |
1 moves, 4.0.0: | 0 0 | 0 0 0 0 | 3 |
0 moves, 5.0.0: | 0 0 | 0 0 0 0 | 0 0 |
1 moves, 5.0.0: | 0 0 | 0 0 0 0 | |
0 moves, 6.0.0: | 0 0 | 0 0 0 0 | 0 0 |
1 moves, 6.0.0: | 0 0 | 0 0 0 0 | |
0 moves, 7.0.0: | 0 0 | 0 0 0 0 | 0 0 |
1 moves, 7.0.0: | 0 0 | 0 0 0 0 | | 0
0 moves, 8.0.0: | 0 0 | 0 0 0 0 | 0 0 |
1 moves, 8.0.0: | 0 0 | 0 0 0 0 | | 0
0 moves, 9.0.0: | 0 0 | 0 0 0 0 | 0 0 | 0
1 moves, 9.0.0: | 0 0 | 0 0 0 0 | | 0
0 moves, 9.0.1: | 0 0 | 0 0 0 4 | 0 0 | 1
1 moves, 9.0.1: | 0 0 | 0 0 0 4 | | 2
0 moves, 10.0.0: | 0 0 | 0 0 0 4 | 0 0 | 1
1 moves, 10.0.0: | 0 0 | 0 0 0 4 | | 2
0 moves, 11.0.0: | 0 0 | 0 0 0 0 | 0 0 | 1
1 moves, 11.0.0: | 0 0 | 0 0 0 0 | | 2
0 moves, 11.0.0 done: | 0 0 | 0 0 0 0 | 0 0 | 1
1 moves, 11.0.0 done: | 0 0 | 0 0 0 0 | | 2
";

const MORE_PROCESSORS_THAN_INDICES: &[u8] = b"\
zplnode 1
grid 6
scalars 1
slots 1
cells 0
array 1..2:1,0
expr i1
group
put 0 0 - 1
acc 0 sum 0 - 1
code
fix 0 1..2:1:1
loop 0 0
";

const MORE_PROCESSORS_THAN_INDICES_TURNS: &[u8] = b"\
0 moves, 1.0.0: 0 |
1 moves, 1.0.0: 0 |
2 moves, 1.0.0: 0 | 0
3 moves, 1.0.0: 0 |
4 moves, 1.0.0: 0 |
5 moves, 1.0.0: 0 | 0 0
0 moves, 2.0.0: 0 |
1 moves, 2.0.0: 0 |
2 moves, 1.0.1: 1 | 1
3 moves, 2.0.0: 0 |
4 moves, 2.0.0: 0 |
5 moves, 1.0.1: 2 | 0 2
0 moves, 2.0.0 done: 0 |
1 moves, 2.0.0 done: 0 |
2 moves, 2.0.0: 1 | 1
3 moves, 2.0.0 done: 0 |
4 moves, 2.0.0 done: 0 |
5 moves, 2.0.0: 2 | 0 2
2 moves, 2.0.0 done: 1 | 1
5 moves, 2.0.0 done: 2 | 0 2
";

const CASES: [Case; 7] = [
    // A group of three members over a strided region, an index in each turn. The second processor
    // begins within it.
    (AN_INDEX_A_TURN, None, b"010101011", AN_INDEX_A_TURN_TURNS),
    // Members with masks: one that is skipped, and an `if` with an `else`.
    (
        MEMBERS_ARE_MASKED,
        None,
        b"000000",
        MEMBERS_ARE_MASKED_TURNS,
    ),
    // A `while` and a `repeat`: a turn ends where they go back. The mask is read again.
    (
        A_LOOP_WITHIN_AN_INDEX,
        None,
        b"00000000000",
        A_LOOP_WITHIN_AN_INDEX_TURNS,
    ),
    // A zero divisor leaves the rest of a group out at its index, and the least member is kept. The
    // vote ends all with its line.
    (
        A_DIVISOR_IN_A_GROUP,
        None,
        b"01010101100101",
        A_DIVISOR_IN_A_GROUP_TURNS,
    ),
    // Within a member that encloses others, the outermost one's number and line count.
    (A_DIVISOR_IN_AN_IF, None, b"0000", A_DIVISOR_IN_AN_IF_TURNS),
    // Places of a temporary: none, those within the own block, and others; a flood dimension has
    // one place.
    (
        PLACES_OF_A_TEMPORARY,
        None,
        b"0101010101010101010101010101",
        PLACES_OF_A_TEMPORARY_TURNS,
    ),
    // Of six processors two have an index, and the others leave the loop in their first turn there.
    (
        MORE_PROCESSORS_THAN_INDICES,
        None,
        b"01234501234501234525",
        MORE_PROCESSORS_THAN_INDICES_TURNS,
    ),
];

#[test]
fn loops(rt: HostRuntime) -> Result<(), Fail> {
    expect_all(&rt, rt.alloc(), &CASES)
}
