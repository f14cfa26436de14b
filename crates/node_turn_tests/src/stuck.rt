//! Processors that are stuck or wait.
use crate::players::{Case, expect_all};
use std::test::Fail;

const A_PLACE_THAT_IS_NOT_HELD: &[u8] = b"\
zplnode 1
grid 1
scalars 0
slots 1
cells 0
array 1..2:0,0
expr a0@1
group
put 0 0 - 1
code
fix 0 1..2:1:1
loop 0 0
end
";

const A_PLACE_THAT_IS_NOT_HELD_TURNS: &[u8] = b"\
0 moves, 1.0.0: | 0 0
0 moves, 1.0.1: | 0 0
0 stuck Unheld, 1.0.1: | 0 0
0 stuck Unheld, 1.0.1: | 0 0
";

const A_STUCK_MEMBER_BEHIND_OTHERS: &[u8] = b"\
zplnode 1
grid 1
scalars 1
slots 1
cells 1
array 1..3:0,0
expr i1
expr c0 n1 +
expr a0@1
group
put 0 0 - 1
acc 0 sum 0 - 2
cell 0 1 - 3
put 0 1 - 4
put 0 2 - 5
code
fix 0 1..3:1:1
loop 0 0
";

const A_STUCK_MEMBER_BEHIND_OTHERS_TURNS: &[u8] = b"\
0 moves, 1.0.0: 0 | 0 0 0
0 moves, 1.0.1: 1 | 0 0 0
0 moves, 1.0.2: 3 | 0 0 0
0 stuck Unheld, 1.0.2: 3 | 0 0 0
0 stuck Unheld, 1.0.2: 3 | 0 0 0
0 stuck Unheld, 1.0.2: 3 | 0 0 0
";

const A_MESSAGE_OF_ANOTHER_ROW: &[u8] = b"\
zplnode 1
grid 2
scalars 1
slots 1
cells 0
expr n1
expr s0
group
acc 0 sum 0 - 1
code
fix 0 1..1:1:1
loop 0 0
unless 1 5 1
fold 0 sum
end
fold 0 max
end
";

const A_MESSAGE_OF_ANOTHER_ROW_TURNS: &[u8] = b"\
0 moves, 1.0.0: 0
0 moves, 2.0.0: 0
1 moves, 1.0.0: 0
1 moves, 1.0.1: 1
1 moves, 2.0.0: 1
1 moves, 3.0.0: 1
0 moves, 5.0.0: 0
1 sends 0 1, 3.1.0: 1
0 stuck Tag, 5.0.0: 0
0 stuck Tag, 5.0.0: 0
0 stuck Tag, 5.0.0: 0
1 waits, 3.1.0: 1
";

const A_MESSAGE_OF_ANOTHER_LENGTH: &[u8] = b"\
zplnode 1
grid 2
scalars 1
slots 1 1
cells 0
array 1..4:0,0
expr n1
expr n3
expr n3 s0 +
group
acc 0 sum 0 - 1
code
fix 0 4..4:1:1
loop 0 0
dims 1 1..2 1
gather number 0 1
end
";

const A_MESSAGE_OF_ANOTHER_LENGTH_TURNS: &[u8] = b"\
0 moves, 1.0.0: 0 | 0 0
0 moves, 2.0.0: 0 | 0 0
0 moves, 3.0.0: 0 | 0 0
1 moves, 1.0.0: 0 | 0 0
1 moves, 1.0.1: 1 | 0 0
1 moves, 2.0.0: 1 | 0 0
1 moves, 3.0.0: 1 | 0 0
1 sends 0 2, 3.1.0: 1 | 0 0
1 moves, 4.0.0: 1 | 0 0
0 stuck Length, 3.0.0: 0 | 0 0
0 stuck Length, 3.0.0: 0 | 0 0
";

const AN_ANSWER_THAT_NEVER_COMES: &[u8] = b"\
zplnode 1
grid 2
scalars 1
slots 1
cells 0
expr n1
expr s0
group
acc 0 sum 0 - 1
code
fix 0 1..1:1:1
loop 0 0
unless 1 4 1
fold 0 sum
end
";

const AN_ANSWER_THAT_NEVER_COMES_TURNS: &[u8] = b"\
0 moves, 1.0.0: 0
0 moves, 2.0.0: 0
0 moves, 4.0.0: 0
0 moves, 4.0.0 done: 0
1 moves, 1.0.0: 0
1 moves, 1.0.1: 1
1 moves, 2.0.0: 1
1 moves, 3.0.0: 1
1 sends 0 1, 3.1.0: 1
1 waits, 3.1.0: 1
1 waits, 3.1.0: 1
";

const LINKS_THAT_ARE_FULL: &[u8] = b"\
zplnode 1
grid 2
scalars 0
slots 1
cells 0
array 1..4:1,1
exchange
item 0 0 1
item 0 0 -1
exchange
item 0 0 1
item 0 0 -1
code
fix 0 2..3:1:1
start 0
start 1
finish 0
finish 1
end
";

const LINKS_THAT_ARE_FULL_TURNS: &[u8] = b"\
0 moves, 1.0.0: | 0 0 0
1 moves, 1.0.0: | 0 0 0
0 sends 1 1, 1.1.0: | 0 0 0
1 sends 0 1, 1.1.0: | 0 0 0
0 moves, 2.0.0: | 0 0 0
1 moves, 2.0.0: | 0 0 0
0 waits, 2.0.0: | 0 0 0
1 waits, 2.0.0: | 0 0 0
0 waits, 2.0.0: | 0 0 0
1 waits, 2.0.0: | 0 0 0
";

const LINKS_WITH_ROOM_TURNS: &[u8] = b"\
0 moves, 1.0.0: | 0 0 0
1 moves, 1.0.0: | 0 0 0
0 sends 1 1, 1.1.0: | 0 0 0
1 sends 0 1, 1.1.0: | 0 0 0
0 moves, 2.0.0: | 0 0 0
1 moves, 2.0.0: | 0 0 0
0 sends 1 1, 2.1.0: | 0 0 0
1 sends 0 1, 2.1.0: | 0 0 0
0 moves, 3.0.0: | 0 0 0
1 moves, 3.0.0: | 0 0 0
0 takes 1, 3.1.0: | 0 0 0
1 takes 0, 3.1.0: | 0 0 0
0 moves, 4.0.0: | 0 0 0
1 moves, 4.0.0: | 0 0 0
0 takes 1, 4.1.0: | 0 0 0
1 takes 0, 4.1.0: | 0 0 0
0 moves, 5.0.0: | 0 0 0
1 moves, 5.0.0: | 0 0 0
0 moves, 5.0.0 done: | 0 0 0
1 moves, 5.0.0 done: | 0 0 0
";

const CASES: [Case; 7] = [
    // A place beyond the storage isn't held.
    (
        A_PLACE_THAT_IS_NOT_HELD,
        None,
        b"0000",
        A_PLACE_THAT_IS_NOT_HELD_TURNS,
    ),
    // A member is stuck behind others that wrote a scalar, a cell and an array: nothing of that
    // stays.
    (
        A_STUCK_MEMBER_BEHIND_OTHERS,
        None,
        b"000000",
        A_STUCK_MEMBER_BEHIND_OTHERS_TURNS,
    ),
    // A message for one `fold` at another one has the wrong tag, and stays on its link.
    (
        A_MESSAGE_OF_ANOTHER_ROW,
        None,
        b"001111010001",
        A_MESSAGE_OF_ANOTHER_ROW_TURNS,
    ),
    // A message with two words where three are awaited stays on its link.
    (
        A_MESSAGE_OF_ANOTHER_LENGTH,
        None,
        b"00011111100",
        A_MESSAGE_OF_ANOTHER_LENGTH_TURNS,
    ),
    // The processor with the index waits for an answer that never comes.
    (
        AN_ANSWER_THAT_NEVER_COMES,
        None,
        b"00001111111",
        AN_ANSWER_THAT_NEVER_COMES_TURNS,
    ),
    // Two exchanges are open at once: over links of one message each processor waits for room.
    (
        LINKS_THAT_ARE_FULL,
        Some(1),
        b"0101010101",
        LINKS_THAT_ARE_FULL_TURNS,
    ),
    // Over links of two messages they go on.
    (
        LINKS_THAT_ARE_FULL,
        Some(2),
        b"01010101010101010101",
        LINKS_WITH_ROOM_TURNS,
    ),
];

#[test]
fn stuck(rt: HostRuntime) -> Result<(), Fail> {
    expect_all(&rt, rt.alloc(), &CASES)
}
