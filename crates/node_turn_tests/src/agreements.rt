//! Votes and folds.
use crate::players::{Case, expect_all};
use std::test::Fail;

const A_SUM_OF_ALL: &[u8] = b"\
zplnode 1
grid 2
scalars 1
slots 1
cells 0
array 1..2:0,0
expr i1 n10 *
group
acc 0 sum 0 - 1
code
fix 0 1..2:1:1
loop 0 0
fold 0 sum
";

const A_SUM_OF_ALL_TURNS: &[u8] = b"\
0 moves, 1.0.0: 0 | 0
1 moves, 1.0.0: 0 | 0
0 moves, 1.0.1: 10 | 0
1 moves, 1.0.1: 20 | 0
0 moves, 2.0.0: 10 | 0
1 moves, 2.0.0: 20 | 0
1 sends 0 1, 2.1.0: 20 | 0
0 takes 1, 2.1.0: 10 | 0
0 sends 1 1, 2.2.0: 10 | 0
1 takes 0, 2.2.0: 20 | 0
0 moves, 3.0.0: 30 | 0
1 moves, 3.0.0: 30 | 0
0 moves, 3.0.0 done: 30 | 0
1 moves, 3.0.0 done: 30 | 0
";

const A_SUM_OVER_A_TREE: &[u8] = b"\
zplnode 1
grid 6
scalars 1
slots 1
cells 0
array 1..6:0,0
expr i1
group
acc 0 sum 0 - 1
code
fix 0 1..6:1:1
loop 0 0
treefold 0 sum
";

const A_SUM_OVER_A_TREE_TURNS: &[u8] = b"\
0 moves, 1.0.0: 0 | 0
1 moves, 1.0.0: 0 | 0
2 moves, 1.0.0: 0 | 0
3 moves, 1.0.0: 0 | 0
4 moves, 1.0.0: 0 | 0
5 moves, 1.0.0: 0 | 0
0 moves, 1.0.1: 1 | 0
1 moves, 1.0.1: 2 | 0
2 moves, 1.0.1: 3 | 0
3 moves, 1.0.1: 4 | 0
4 moves, 1.0.1: 5 | 0
5 moves, 1.0.1: 6 | 0
0 moves, 2.0.0: 1 | 0
1 moves, 2.0.0: 2 | 0
2 moves, 2.0.0: 3 | 0
3 moves, 2.0.0: 4 | 0
4 moves, 2.0.0: 5 | 0
5 moves, 2.0.0: 6 | 0
3 sends 1 1, 2.1.0: 4 | 0
4 sends 1 1, 2.1.0: 5 | 0
5 sends 2 1, 2.1.0: 6 | 0
1 takes 3, 2.1.0: 2 | 0
2 takes 5, 2.1.0: 3 | 0
1 takes 4, 2.2.0: 2 | 0
2 sends 0 1, 2.2.0: 3 | 0
1 sends 0 1, 2.3.0: 2 | 0
0 takes 1, 2.1.0: 1 | 0
0 takes 2, 2.2.0: 1 | 0
0 sends 1 1, 2.3.0: 1 | 0
1 takes 0, 2.4.0: 2 | 0
0 sends 2 1, 2.4.0: 1 | 0
1 sends 3 1, 2.5.0: 2 | 0
2 takes 0, 2.3.0: 3 | 0
3 takes 1, 2.2.0: 4 | 0
0 moves, 3.0.0: 21 | 0
1 sends 4 1, 2.6.0: 2 | 0
2 sends 5 1, 2.4.0: 3 | 0
3 moves, 3.0.0: 21 | 0
4 takes 1, 2.2.0: 5 | 0
5 takes 2, 2.2.0: 6 | 0
0 moves, 3.0.0 done: 21 | 0
1 moves, 3.0.0: 21 | 0
2 moves, 3.0.0: 21 | 0
3 moves, 3.0.0 done: 21 | 0
4 moves, 3.0.0: 21 | 0
5 moves, 3.0.0: 21 | 0
1 moves, 3.0.0 done: 21 | 0
2 moves, 3.0.0 done: 21 | 0
4 moves, 3.0.0 done: 21 | 0
5 moves, 3.0.0 done: 21 | 0
";

const NO_FLAG: &[u8] = b"\
zplnode 1
grid 2
scalars 0
slots
cells 0
group
group
code
vote 1
treevote 0
";

const NO_FLAG_TURNS: &[u8] = b"\
1 sends 0 1, 0.1.0:
0 takes 1, 0.1.0:
0 sends 1 1, 0.2.0:
1 takes 0, 0.2.0:
0 moves, 1.0.0:
1 moves, 1.0.0:
1 sends 0 1, 1.1.0:
0 takes 1, 1.1.0:
0 sends 1 1, 1.2.0:
1 takes 0, 1.2.0:
0 moves, 2.0.0:
1 moves, 2.0.0:
0 moves, 2.0.0 done:
1 moves, 2.0.0 done:
";

const THE_LEAST_FLAG: &[u8] = b"\
zplnode 1
grid 2
scalars 1
slots 1
cells 0
array 1..6:0,0
expr n1 i1 n6 - /
expr n1 i1 n2 - /
group
acc 0 sum 0 - 7
acc 0 sum 1 - 8
code
fix 0 1..6:1:1
loop 0 0
vote 0
";

const THE_LEAST_FLAG_TURNS: &[u8] = b"\
0 moves, 1.0.0: 0 | 0 0 0
1 moves, 1.0.0: 0 | 0 0 0
0 moves, 1.0.1: -1 | 0 0 0
1 moves, 1.0.1: 0 | 0 0 0
0 moves, 1.0.2 flag 1: -1 | 0 0 0
1 moves, 1.0.2: -1 | 0 0 0
0 moves, 1.0.3 flag 1: 0 | 0 0 0
1 moves, 1.0.3 flag 0: -1 | 0 0 0
0 moves, 2.0.0 flag 1: 0 | 0 0 0
1 moves, 2.0.0 flag 0: -1 | 0 0 0
1 sends 0 1, 2.1.0 flag 0: -1 | 0 0 0
0 takes 1, 2.1.0 flag 1: 0 | 0 0 0
0 sends 1 1, 2.2.0 flag 1: 0 | 0 0 0
1 takes 0, 2.2.0 flag 0: -1 | 0 0 0
0 moves, 2.0.0 DivideByZero 7: 0 | 0 0 0
1 moves, 2.0.0 DivideByZero 7: -1 | 0 0 0
";

const THE_LEAST_FLAG_OVER_A_TREE: &[u8] = b"\
zplnode 1
grid 6
scalars 1
slots 1
cells 0
array 1..6:0,0
expr n1 i1 n6 - /
expr n1 i1 n2 - /
group
acc 0 sum 0 - 7
acc 0 sum 1 - 8
code
fix 0 1..6:1:1
loop 0 0
treevote 0
";

const THE_LEAST_FLAG_OVER_A_TREE_TURNS: &[u8] = b"\
0 moves, 1.0.0: 0 | 0
1 moves, 1.0.0: 0 | 0
2 moves, 1.0.0: 0 | 0
3 moves, 1.0.0: 0 | 0
4 moves, 1.0.0: 0 | 0
5 moves, 1.0.0: 0 | 0
0 moves, 1.0.1: -1 | 0
1 moves, 1.0.1 flag 1: 0 | 0
2 moves, 1.0.1: 1 | 0
3 moves, 1.0.1: 0 | 0
4 moves, 1.0.1: -1 | 0
5 moves, 1.0.1 flag 0: 0 | 0
0 moves, 2.0.0: -1 | 0
1 moves, 2.0.0 flag 1: 0 | 0
2 moves, 2.0.0: 1 | 0
3 moves, 2.0.0: 0 | 0
4 moves, 2.0.0: -1 | 0
5 moves, 2.0.0 flag 0: 0 | 0
3 sends 1 1, 2.1.0: 0 | 0
4 sends 1 1, 2.1.0: -1 | 0
5 sends 2 1, 2.1.0 flag 0: 0 | 0
1 takes 3, 2.1.0 flag 1: 0 | 0
2 takes 5, 2.1.0: 1 | 0
1 takes 4, 2.2.0 flag 1: 0 | 0
2 sends 0 1, 2.2.0: 1 | 0
1 sends 0 1, 2.3.0 flag 1: 0 | 0
0 takes 1, 2.1.0: -1 | 0
0 takes 2, 2.2.0: -1 | 0
0 sends 1 1, 2.3.0: -1 | 0
1 takes 0, 2.4.0 flag 1: 0 | 0
0 sends 2 1, 2.4.0: -1 | 0
1 sends 3 1, 2.5.0 flag 1: 0 | 0
2 takes 0, 2.3.0: 1 | 0
3 takes 1, 2.2.0: 0 | 0
0 moves, 2.0.0 DivideByZero 7: -1 | 0
1 sends 4 1, 2.6.0 flag 1: 0 | 0
2 sends 5 1, 2.4.0: 1 | 0
3 moves, 2.0.0 DivideByZero 7: 0 | 0
4 takes 1, 2.2.0: -1 | 0
5 takes 2, 2.2.0 flag 0: 0 | 0
1 moves, 2.0.0 DivideByZero 7: 0 | 0
2 moves, 2.0.0 DivideByZero 7: 1 | 0
4 moves, 2.0.0 DivideByZero 7: -1 | 0
5 moves, 2.0.0 DivideByZero 7: 0 | 0
";

const CASES: [Case; 5] = [
    // `fold` on two processors.
    (A_SUM_OF_ALL, None, b"01010110010101", A_SUM_OF_ALL_TURNS),
    // `treefold` on six processors: 0 has two children, 1 too, and 2 has one.
    (
        A_SUM_OVER_A_TREE,
        None,
        b"01234501234501234534512121000101230123450123451245",
        A_SUM_OVER_A_TREE_TURNS,
    ),
    // `vote` and `treevote` without a flag.
    (NO_FLAG, None, b"10010110010101", NO_FLAG_TURNS),
    // `vote` on two processors, which met other members: the least one's line is the trap's.
    (
        THE_LEAST_FLAG,
        None,
        b"0101010101100101",
        THE_LEAST_FLAG_TURNS,
    ),
    // `treevote` on six processors.
    (
        THE_LEAST_FLAG_OVER_A_TREE,
        None,
        b"01234501234501234534512121000101230123451245",
        THE_LEAST_FLAG_OVER_A_TREE_TURNS,
    ),
];

#[test]
fn agreements(rt: HostRuntime) -> Result<(), Fail> {
    expect_all(&rt, rt.alloc(), &CASES)
}
