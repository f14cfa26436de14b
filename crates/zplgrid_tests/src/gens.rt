//! Drawn programs: the words that ask for them, and the lines of their runs.
use super::rows::{Call, NEVER, Row, USAGE, answer_to, expect_rows};
use std::test::Fail;

/// Words that draw no program, or aren't taken, so that there is no command.
const NO_GENS: [Row; 13] = [
    (&["gen"], "", (1, "", USAGE, 0)),
    (&["gen", "0"], "", (1, "", USAGE, 0)),
    (&["gen", "1000001"], "", (1, "", USAGE, 0)),
    (&["gen", "00000000000000000001"], "", (1, "", USAGE, 0)),
    (&["gen", ""], "", (1, "", USAGE, 0)),
    (&["gen", "a"], "", (1, "", USAGE, 0)),
    (&["gen", "-1"], "", (1, "", USAGE, 0)),
    (&["gen", "1", "grid=1"], "", (1, "", USAGE, 0)),
    (&["gen", "1", "order=o"], "", (1, "", USAGE, 0)),
    (&["gen", "1", "report"], "", (1, "", USAGE, 0)),
    (&["gen", "1", "links=1"], "", (1, "", USAGE, 0)),
    (&["gen", "1", "n:=3"], "", (1, "", USAGE, 0)),
    (&["gen", "1", "turns=1", "turns=1"], "", (1, "", USAGE, 0)),
];

/// A run that is cut short is the last one.
const CUT_SHORT: [Row; 1] = [(&["gen", "1", "turns=0"], "", (8, "", "turn limit\n", 0))];

#[test]
fn words_of_drawn_programs(rt: HostRuntime) -> Result<(), Fail> {
    expect_rows(&rt, rt.alloc(), &NO_GENS)?;
    expect_rows(&rt, rt.alloc(), &CUT_SHORT)?;
    Ok(())
}

/// What is printed of the number 1, and its hash, as another implementation has them.
const LINES: &str = "gen 1 grid 1 bytes 2108 hash 16644689118094036725\n\
    gen 1 grid 2x2 bytes 2108 hash 16644689118094036725\n\
    gen 1 grid 3x1 bytes 2108 hash 16644689118094036725\n\
    gen 1 grid 5 bytes 2108 hash 16644689118094036725\n";

/// The first of these.
const FIRST: &str = "gen 1 grid 1 bytes 2108 hash 16644689118094036725\n";

/// Leading zeros of the number are not told. Where the second line can't be put it is the last.
#[test]
fn lines_of_runs(rt: HostRuntime) -> Result<(), Fail> {
    for (fails, status, out) in [
        ([NEVER, NEVER, NEVER], 0, LINES),
        ([NEVER, 1, NEVER], 9, FIRST),
    ] {
        let call = Call {
            words: &["gen", "001"],
            text: b"",
            order: "",
            fails,
        };
        let found = answer_to(rt.alloc(), call)?;
        let is_told = found.out.as_slice() == out.as_bytes() && found.errs.as_slice().is_empty();
        assert!(rt;
            is_told && found.status == status && found.has_code,
            "{status}"
        );
    }
    Ok(())
}
