//! Grids: the words that tell them, and an array program that runs on them.
use super::rows::{Call, NEVER, Row, USAGE, answer_to, expect_rows};
use std::test::Fail;

const NOTHING: &str = "program t; procedure t(); begin end;";

const SHAPE: &str = "settings refused: BadShape\n";

/// Words that tell no grid, or aren't taken, so that there is no command.
const NO_GRIDS: [Row; 14] = [
    (&["run", "a", "grid="], NOTHING, (1, "", USAGE, 0)),
    (&["run", "a", "grid=x"], NOTHING, (1, "", USAGE, 0)),
    (&["run", "a", "grid=1x"], NOTHING, (1, "", USAGE, 0)),
    (&["run", "a", "grid=x1"], NOTHING, (1, "", USAGE, 0)),
    (&["run", "a", "grid=1xx1"], NOTHING, (1, "", USAGE, 0)),
    (&["run", "a", "grid=1X1"], NOTHING, (1, "", USAGE, 0)),
    (&["run", "a", "grid=+1"], NOTHING, (1, "", USAGE, 0)),
    (&["run", "a", "grid=1 "], NOTHING, (1, "", USAGE, 0)),
    (&["run", "a", "grid=00001"], NOTHING, (1, "", USAGE, 0)),
    (&["run", "a", "grid=1x1x1x1"], NOTHING, (1, "", USAGE, 0)),
    (
        &["run", "a", "grid=1", "grid=1"],
        NOTHING,
        (1, "", USAGE, 0),
    ),
    (&["list", "a", "grid=1x1x1x"], NOTHING, (1, "", USAGE, 0)),
    (&["mean", "a", "grid=1"], NOTHING, (1, "", USAGE, 0)),
    (&["exec", "a", "grid=1"], NOTHING, (1, "", USAGE, 0)),
];

/// Grids that are none: that is told whatever the text is, once the file is read.
const SHAPES: [Row; 9] = [
    (&["run", "a", "grid=0"], NOTHING, (5, "", SHAPE, 0)),
    (&["run", "a", "grid=2x0"], NOTHING, (5, "", SHAPE, 0)),
    (&["run", "a", "grid=0x2"], NOTHING, (5, "", SHAPE, 0)),
    (&["run", "a", "grid=2x3x0000"], NOTHING, (5, "", SHAPE, 0)),
    (&["run", "a", "grid=65"], NOTHING, (5, "", SHAPE, 0)),
    (
        &["run", "a", "grid=9999x9999x9999"],
        NOTHING,
        (5, "", SHAPE, 0),
    ),
    (&["list", "a", "grid=8x9"], NOTHING, (5, "", SHAPE, 0)),
    (&["run", "a", "grid=0"], "$", (5, "", SHAPE, 0)),
    (&["run", "b", "grid=0"], "$", (2, "", "cannot read b\n", 0)),
];

#[test]
fn words_of_grids(rt: HostRuntime) -> Result<(), Fail> {
    expect_rows(&rt, rt.alloc(), &NO_GRIDS)?;
    expect_rows(&rt, rt.alloc(), &SHAPES)?;
    Ok(())
}

/// Neighbours are read, and all elements are summed.
const SHIFTED: &str = "program t; region R = [1..4]; direction e = [1]; var A, B : [R] integer;\n\
    procedure t(); begin [R] A := Index1; [e of R] A := 9; [R] B := A@e + (+<< A);\n\
    [R] writeln(B); end;";

/// It prints the same on one processor and on several, more than there are indices too.
#[test]
fn an_array_program(rt: HostRuntime) -> Result<(), Fail> {
    for grid in [
        "grid=1",
        "grid=2",
        "grid=3",
        "grid=0007",
        "grid=2x2",
        "grid=1x1x3",
        "grid=64",
    ] {
        let call = Call {
            words: &["run", "a", grid],
            text: SHIFTED.as_bytes(),
            order: "",
            fails: [NEVER, NEVER, NEVER],
        };
        let found = answer_to(rt.alloc(), call)?;
        let is_told = found.out.as_slice() == b"12 13 14 19\n".as_slice()
            && found.errs.as_slice().is_empty();
        assert!(rt; is_told && found.status == 0 && found.has_code, "{grid}");
    }
    Ok(())
}
