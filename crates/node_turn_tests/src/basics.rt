//! Rows that need scalars and slots alone, and the ends of processors.
use crate::players::{Case, expect_all};
use std::test::Fail;

const A_TEXT_AND_A_SUM: &[u8] = b"\
zplnode 1
grid 2
scalars 1
slots
cells 0
text 6869
expr n20
expr s0 n1 +
code
set 0 0 1
print 0
number 1
end
";

const A_TEXT_AND_A_SUM_TURNS: &[u8] = b"\
0 moves, 1.0.0: 20
1 moves, 1.0.0: 20
0 prints \"hi\", 2.0.0: 20
1 moves, 2.0.0: 20
0 prints \"21\", 3.0.0: 20
1 moves, 3.0.0: 20
0 moves, 3.0.0 done: 20
1 moves, 3.0.0 done: 20
1 over, 3.0.0 done: 20
";

const A_JUMP_OVER_A_TRAP: &[u8] = b"\
zplnode 1
grid 1
scalars 1
slots
cells 0
text -
expr s0
expr s0 n1 +
expr s0 n1 =
code
unless 0 3 1
jump 6
jump 6
set 0 1 3
truth 2
jump 0
print 0
";

const A_JUMP_OVER_A_TRAP_TURNS: &[u8] = b"\
0 moves, 3.0.0: 0
0 moves, 4.0.0: 1
0 prints \"true\", 5.0.0: 1
0 moves, 0.0.0: 1
0 moves, 1.0.0: 1
0 moves, 6.0.0: 1
0 moves, 7.0.0: 1
0 moves, 7.0.0 done: 1
0 over, 7.0.0 done: 1
";

const TRAPS_END_A_PROCESSOR: &[u8] = b"\
zplnode 1
grid 2
scalars 1
slots
cells 0
expr n1 s0 n7 - /
expr n7
code
set 0 1 3
number 0
set 0 0 4
trap 3 9
";

const TRAPS_END_A_PROCESSOR_TURNS: &[u8] = b"\
0 moves, 1.0.0: 7
0 moves, 1.0.0 DivideByZero 0: 7
1 moves, 1.0.0: 7
1 moves, 1.0.0 DivideByZero 0: 7
";

const A_TRAP_OF_ITS_OWN: &[u8] = b"\
zplnode 1
grid 1
scalars 1
slots
cells 0
expr n1 s0 %
code
trap 4 9
";

const A_TRAP_OF_ITS_OWN_TURNS: &[u8] = b"\
0 moves, 0.0.0 RegionMismatch 9: 0
0 over, 0.0.0 RegionMismatch 9: 0
";

const A_DIVISOR_IN_A_SET: &[u8] = b"\
zplnode 1
grid 1
scalars 1
slots
cells 0
expr n1 s0 %
code
set 0 0 8
";

const A_DIVISOR_IN_A_SET_TURNS: &[u8] = b"\
0 moves, 0.0.0 DivideByZero 8: 0
0 over, 0.0.0 DivideByZero 8: 0
";

const A_DIVISOR_IN_A_TEST: &[u8] = b"\
zplnode 1
grid 1
scalars 1
slots
cells 0
expr n1 s0 %
code
unless 0 0 7
";

const A_DIVISOR_IN_A_TEST_TURNS: &[u8] = b"\
0 moves, 0.0.0 DivideByZero 7: 0
0 over, 0.0.0 DivideByZero 7: 0
";

const REGIONS_ARE_FORMED: &[u8] = b"\
zplnode 1
grid 1
scalars 1
slots 1 1
cells 0
expr i1
expr n2
expr n3
group
acc 0 sum 0 - 1
code
fix 0 1..4:1:1
of 1 0 2 1
loop 1 0
in 1 0 -1 2
loop 1 0
at 1 0 10 3
by 1 1 -2 4
loop 1 0
dims 1 1..2 5
loop 1 0
dims 1 ^0 6
loop 1 0
";

const REGIONS_ARE_FORMED_TURNS: &[u8] = b"\
0 moves, 1.0.0: 0
0 moves, 2.0.0: 0
0 moves, 2.0.1: 5
0 moves, 2.0.2: 11
0 moves, 3.0.0: 11
0 moves, 4.0.0: 11
0 moves, 4.0.1: 12
0 moves, 5.0.0: 12
0 moves, 6.0.0: 12
0 moves, 7.0.0: 12
0 moves, 7.0.1: 24
0 moves, 7.0.2: 38
0 moves, 8.0.0: 38
0 moves, 9.0.0: 38
0 moves, 9.0.1: 40
0 moves, 9.0.2: 43
0 moves, 10.0.0: 43
0 moves, 11.0.0: 43
0 moves, 11.0.1: 44
0 moves, 11.0.2: 46
0 moves, 11.0.3: 49
0 moves, 11.0.4: 53
0 moves, 12.0.0: 53
0 moves, 12.0.0 done: 53
";

const REGIONS_ARE_TESTED: &[u8] = b"\
zplnode 1
grid 2
scalars 0
slots 1
cells 0
array 1..4:1,1
code
fix 0 2..4:1:1
need 0 0 -1 1
fits 0 3 2
need 0 0 1 3
";

const REGIONS_ARE_TESTED_TURNS: &[u8] = b"\
0 moves, 1.0.0: | 0 0 0
0 moves, 2.0.0: | 0 0 0
0 moves, 3.0.0: | 0 0 0
0 moves, 3.0.0 OutsideStorage 3: | 0 0 0
1 moves, 1.0.0: | 0 0 0
";

const A_BORDER_DOES_NOT_CONFORM: &[u8] = b"\
zplnode 1
grid 1
scalars 0
slots 1
cells 0
code
fix 0 2..4:1:1
fits 0 4 2
";

const A_BORDER_DOES_NOT_CONFORM_TURNS: &[u8] = b"\
0 moves, 1.0.0:
0 moves, 1.0.0 RegionMismatch 2:
";

const REGIONS_DO_NOT_CONFORM: &[u8] = b"\
zplnode 1
grid 1
scalars 0
slots 1 1
cells 0
code
fix 0 1..1:1:1
fix 1 1..3:1:1
same 0 1 part 1
same 1 0 flood 2
same 1 0 part 3
";

const REGIONS_DO_NOT_CONFORM_TURNS: &[u8] = b"\
0 moves, 1.0.0:
0 moves, 2.0.0:
0 moves, 3.0.0:
0 moves, 4.0.0:
0 moves, 4.0.0 RegionMismatch 3:
";

const A_REGION_PAST_THE_LIMIT: &[u8] = b"\
zplnode 1
grid 1
scalars 0
slots 1
cells 0
expr n1
expr n5000000000
code
dims 0 0..1 6
";

const A_REGION_PAST_THE_LIMIT_TURNS: &[u8] = b"\
0 moves, 0.0.0 RegionLimit 6:
";

const CASES: [Case; 11] = [
    // A text and a sum, on two processors; one more turn of one that has ended.
    (A_TEXT_AND_A_SUM, None, b"010101011", A_TEXT_AND_A_SUM_TURNS),
    // Jumps and tests; a truth value; an empty text; the end of the code without an `end`.
    (
        A_JUMP_OVER_A_TRAP,
        None,
        b"000000000",
        A_JUMP_OVER_A_TRAP_TURNS,
    ),
    // A zero divisor in a `set` traps at its line, and one that is printed at line 0.
    (
        TRAPS_END_A_PROCESSOR,
        None,
        b"0011",
        TRAPS_END_A_PROCESSOR_TURNS,
    ),
    // A row that traps; a zero divisor in a `set` and in a test.
    (A_TRAP_OF_ITS_OWN, None, b"00", A_TRAP_OF_ITS_OWN_TURNS),
    (A_DIVISOR_IN_A_SET, None, b"00", A_DIVISOR_IN_A_SET_TURNS),
    (A_DIVISOR_IN_A_TEST, None, b"00", A_DIVISOR_IN_A_TEST_TURNS),
    // Region forms, told by how many indices a loop over them has: `of`, `in`, `at`, `by` and
    // `dims`.
    (
        REGIONS_ARE_FORMED,
        None,
        b"000000000000000000000000",
        REGIONS_ARE_FORMED_TURNS,
    ),
    // A region inside a storage, one outside it, and a border that doesn't conform.
    (REGIONS_ARE_TESTED, None, b"00001", REGIONS_ARE_TESTED_TURNS),
    (
        A_BORDER_DOES_NOT_CONFORM,
        None,
        b"00",
        A_BORDER_DOES_NOT_CONFORM_TURNS,
    ),
    (
        REGIONS_DO_NOT_CONFORM,
        None,
        b"00000",
        REGIONS_DO_NOT_CONFORM_TURNS,
    ),
    (
        A_REGION_PAST_THE_LIMIT,
        None,
        b"0",
        A_REGION_PAST_THE_LIMIT_TURNS,
    ),
];

#[test]
fn basics(rt: HostRuntime) -> Result<(), Fail> {
    expect_all(&rt, rt.alloc(), &CASES)
}
