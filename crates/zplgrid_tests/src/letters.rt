//! Letters of optimisations: the words that tell them, and programs that print the same with them.
use super::rows::{Call, NEVER, Row, USAGE, answer_to, expect_rows};
use std::test::Fail;

const NOTHING: &str = "program t; procedure t(); begin end;";

/// Words that tell no optimisations, or aren't taken, so that there is no command.
const NO_LETTERS: [Row; 11] = [
    (&["run", "a", "opt="], NOTHING, (1, "", USAGE, 0)),
    (&["run", "a", "opt=x"], NOTHING, (1, "", USAGE, 0)),
    (&["run", "a", "opt=F"], NOTHING, (1, "", USAGE, 0)),
    (&["run", "a", "opt=ff"], NOTHING, (1, "", USAGE, 0)),
    (&["run", "a", "opt=fcrmetf"], NOTHING, (1, "", USAGE, 0)),
    (&["run", "a", "opt=f "], NOTHING, (1, "", USAGE, 0)),
    (&["run", "a", "opt=f", "opt=c"], NOTHING, (1, "", USAGE, 0)),
    (&["list", "a", "opt=tt"], NOTHING, (1, "", USAGE, 0)),
    (&["mean", "a", "opt=f"], NOTHING, (1, "", USAGE, 0)),
    (&["exec", "a", "opt=f"], NOTHING, (1, "", USAGE, 0)),
    (&["time", "a", "opt=f"], NOTHING, (1, "", USAGE, 0)),
];

#[test]
fn words_of_letters(rt: HostRuntime) -> Result<(), Fail> {
    expect_rows(&rt, rt.alloc(), &NO_LETTERS)?;
    Ok(())
}

/// Neighbours are read, all elements are summed, and one array is used within a loop alone.
const SHIFTED: &str =
    "program t; region R = [1..4]; direction e = [1]; var A, B, C : [R] integer;\n\
    procedure t(); begin [R] begin A := Index1; C := A + A; end; [e of R] A := 9;\n\
    [R] begin B := A@e + (+<< A); C := A@e; end; [R] writeln(B); end;";

/// It prints the same whichever letters the words have, in any order.
#[test]
fn programs_with_letters(rt: HostRuntime) -> Result<(), Fail> {
    for letters in [
        "opt=f",
        "opt=c",
        "opt=r",
        "opt=m",
        "opt=e",
        "opt=t",
        "opt=fcrmet",
        "opt=temrcf",
    ] {
        for grid in ["grid=1", "grid=2x2", "grid=5"] {
            let call = Call {
                words: &["run", "a", letters, grid, "links=1"],
                text: SHIFTED.as_bytes(),
                order: "",
                fails: [NEVER, NEVER, NEVER],
            };
            let found = answer_to(rt.alloc(), call)?;
            let is_told = found.out.as_slice() == b"12 13 14 19\n".as_slice()
                && found.errs.as_slice().is_empty();
            assert!(rt;
                is_told && found.status == 0 && found.has_code,
                "{letters} {grid}"
            );
        }
    }
    Ok(())
}
