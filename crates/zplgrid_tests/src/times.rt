//! Times of runs.
use super::rows::{Call, Failing, NEVER, Row, USAGE, answer_to, expect, expect_failing};
use std::test::Fail;

/// Two processors, of which each has four turns.
const FIRST: &str = "zplnode 1\ngrid 2\nscalars 1\nslots\ncells 0\ntext 6869\nexpr n20\n\
    expr s0 n1 +\ncode\nset 0 0 1\nprint 0\nnumber 1\nend\n";

/// Two processors add up a number each: processor 1 sends its own, and takes the sum.
const SUM: &str = "zplnode 1\ngrid 2\nscalars 1\nslots\ncells 0\ncode\nfold 0 sum\nend\n";

/// A processor that divides by zero.
const TRAP: &str =
    "zplnode 1\ngrid 1\nscalars 1\nslots\ncells 0\nexpr n1 n0 /\ncode\nset 0 0 7\nend\n";

/// A processor that moves for ever.
const JUMP: &str = "zplnode 1\ngrid 1\nscalars 0\nslots\ncells 0\ncode\njump 0\n";

const TIMES: [Row; 9] = [
    (
        &["time", "a"],
        FIRST,
        (
            0,
            "moves 8 ticks 4\nprocessor 0 moves 1..4 from tick 0\n",
            "",
            8,
        ),
    ),
    (
        &["time", "a", "latency=5"],
        SUM,
        (
            0,
            "moves 8 ticks 16\nprocessor 1 moves 1..1 from tick 0\n\
            processor 0 moves 1..2 from tick 6\nprocessor 1 moves 2..4 from tick 13\n",
            "",
            10,
        ),
    ),
    (
        &["time", "a", "latency=0"],
        SUM,
        (
            0,
            "moves 8 ticks 6\nprocessor 1 moves 1..1 from tick 0\n\
            processor 0 moves 1..2 from tick 1\nprocessor 1 moves 2..4 from tick 3\n",
            "",
            10,
        ),
    ),
    (
        &["time", "a"],
        TRAP,
        (
            7,
            "moves 1 ticks 1\nprocessor 0 moves 1..1 from tick 0\n",
            "trap: division by zero, line 7\n",
            1,
        ),
    ),
    (&["time", "a", "turns=3"], FIRST, (8, "", "turn limit\n", 3)),
    (&["time", "a", "latency=01"], FIRST, (1, "", USAGE, 0)),
    (&["time", "a", "latency=1000001"], FIRST, (1, "", USAGE, 0)),
    (&["time", "a", "report"], FIRST, (1, "", USAGE, 0)),
    (&["exec", "a", "latency=1"], FIRST, (1, "", USAGE, 0)),
];

#[test]
fn times_of_runs(rt: HostRuntime) -> Result<(), Fail> {
    for (words, text, wanted) in TIMES {
        expect(&rt, rt.alloc(), words, text.as_bytes(), "", wanted)?;
    }
    Ok(())
}

/// Orders that bring the sum to its end, or turns round the processors behind them do.
const ORDERS: [&str; 10] = [
    "",
    "0",
    "1",
    "0x5",
    "1x5",
    "0 1 0 1",
    "1 0 1 0 1",
    "0x2 1x3 0",
    "1x2 0x4",
    "0x100 1x100 0",
];

/// Its time under each of them.
const SUM_TIME: &str = "moves 8 ticks 8\nprocessor 1 moves 1..1 from tick 0\n\
    processor 0 moves 1..2 from tick 2\nprocessor 1 moves 2..4 from tick 5\n";

#[test]
fn orders_take_equal_ticks(rt: HostRuntime) -> Result<(), Fail> {
    for order in ORDERS {
        let call = Call {
            words: &["time", "a", "order=o"],
            text: SUM.as_bytes(),
            order,
            fails: [NEVER, NEVER, NEVER],
        };
        let found = answer_to(rt.alloc(), call)?;
        let is_timed = found.out.as_slice() == SUM_TIME.as_bytes();
        assert!(rt; is_timed && found.status == 0, "{order}");
    }
    Ok(())
}

/// As many moves as are timed, and one more.
const MOST: [Row; 2] = [
    (
        &["time", "a", "turns=4194304"],
        JUMP,
        (8, "", "turn limit\n", 4_194_304),
    ),
    (
        &["time", "a"],
        JUMP,
        (15, "", "too many moves\n", 4_194_305),
    ),
];

#[test]
fn as_many_moves_as_are_timed(rt: HostRuntime) -> Result<(), Fail> {
    for (words, text, wanted) in MOST {
        expect(&rt, rt.alloc(), words, text.as_bytes(), "", wanted)?;
    }
    Ok(())
}

/// A fetch and each put fail once.
const FAILING: [Failing; 3] = [
    (
        [0, NEVER, NEVER],
        (&["time", "a"], FIRST, (2, "", "cannot read a\n", 0)),
    ),
    ([NEVER, 0, NEVER], (&["time", "a"], TRAP, (9, "", "", 1))),
    (
        [NEVER, NEVER, 0],
        (
            &["time", "a"],
            TRAP,
            (
                9,
                "moves 1 ticks 1\nprocessor 0 moves 1..1 from tick 0\n",
                "",
                1,
            ),
        ),
    ),
];

#[test]
fn fetches_and_puts_that_fail(rt: HostRuntime) -> Result<(), Fail> {
    expect_failing(&rt, rt.alloc(), &FAILING)?;
    Ok(())
}
