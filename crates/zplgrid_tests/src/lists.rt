//! Listings of the code that is made of texts.
use super::rows::{Call, NEVER, Row, USAGE, answer_to, expect, expect_rows};
use std::test::Fail;

const NOTHING: &str = "program t; procedure t(); begin end;";

const COUNT: &str = "program t;\nvar x : integer;\nprocedure t();\nbegin\nx := 7;\nend;";

/// Texts, and the listings of their code.
const LISTINGS: [Row; 2] = [
    (
        &["list", "a"],
        NOTHING,
        (
            0,
            "zplnode 1\ngrid 1\nscalars 0\nslots\ncells 0\ncode\nend\n",
            "",
            0,
        ),
    ),
    (
        &["list", "a", "links=1"],
        COUNT,
        (
            0,
            "zplnode 1\ngrid 1\nscalars 1\nslots\ncells 0\nexpr n7\ncode\nset 0 0 5\nend\n",
            "",
            0,
        ),
    ),
];

const NO_COMMANDS: [Row; 5] = [
    (&["list"], COUNT, (1, "", USAGE, 0)),
    (&["List", "a"], COUNT, (1, "", USAGE, 0)),
    (&["list", "a", "turns=1"], COUNT, (1, "", USAGE, 0)),
    (&["list", "a", "links=0"], COUNT, (1, "", USAGE, 0)),
    (&["list", "a", "list"], COUNT, (1, "", USAGE, 0)),
];

/// Texts that have no listing, and one of an array.
const OTHERS: [Row; 7] = [
    (
        &["list", "none.zpl"],
        "",
        (2, "", "cannot read none.zpl\n", 0),
    ),
    (
        &["list", "a"],
        "",
        (4, "", "refused: Syntax, line 1, byte 0\n", 0),
    ),
    (
        &["list", "a"],
        "program t; procedure u(); begin end;",
        (4, "", "refused: NoEntry, line 1, byte 8\n", 0),
    ),
    (
        &["list", "a"],
        "program t; constant c : integer = 1 / 0; procedure t(); begin end;",
        (5, "", "settings refused: BadConstant\n", 0),
    ),
    (
        &["list", "a"],
        "program t; var A : [1..2] integer; procedure t(); begin end;",
        (
            0,
            "zplnode 1\ngrid 1\nscalars 0\nslots\ncells 0\narray 1..2:0,0\ncode\nend\n",
            "",
            0,
        ),
    ),
    (
        &["list", "a"],
        "program t; var A, B, C, D, E : [1..4194304] integer; procedure t(); begin end;",
        (5, "", "settings refused: TooMuchStorage\n", 0),
    ),
    (
        &["list", "a", "grid=0"],
        "program t; var A : [1..2] integer; procedure t(); begin end;",
        (5, "", "settings refused: BadShape\n", 0),
    ),
];

#[test]
fn listings(rt: HostRuntime) -> Result<(), Fail> {
    expect_rows(&rt, rt.alloc(), &LISTINGS)?;
    expect_rows(&rt, rt.alloc(), &NO_COMMANDS)?;
    expect_rows(&rt, rt.alloc(), &OTHERS)?;
    let long = vec![in rt.alloc(); b' '; 1_048_577]?;
    let too_long = (3, "", "too long: a\n", 0);
    expect(&rt, rt.alloc(), &["list", "a"], &long, "", too_long)?;
    Ok(())
}

/// The code is there, though its listing isn't.
#[test]
fn a_put_that_fails(rt: HostRuntime) -> Result<(), Fail> {
    let call = Call {
        words: &["list", "a"],
        text: COUNT.as_bytes(),
        order: "",
        fails: [NEVER, 0, NEVER],
    };
    let found = answer_to(rt.alloc(), call)?;
    assert!(rt; found.is((9, "", "", 0)) && found.has_code);
    Ok(())
}
