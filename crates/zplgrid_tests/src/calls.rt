//! Runs: texts, limits of turns, words that are no command, files, and puts that fail.
use super::rows::{Failing, NEVER, Row, USAGE, expect, expect_failing, expect_rows};
use std::test::Fail;

const SUM: &str = "program sum; var i, s : integer; procedure sum(); begin i := 1; \
    while i <= 10 do s := s + i; i := i + 1; end; writeln(\"sum \", s); end;";

/// Texts that run to their end.
const RUNS: [Row; 5] = [
    (&["run", "a"], SUM, (0, "sum 55\n", "", 47)),
    (
        &["run", "a"],
        "program t; procedure t(); begin end;",
        (0, "", "", 1),
    ),
    (
        &["run", "a"],
        "program t; procedure t(); begin writeln(); writeln(\"a\\tb\"); end;",
        (0, "\na\tb\n", "", 4),
    ),
    (
        &["run", "a"],
        "program t; var x : integer; procedure t(); begin x := 9223372036854775807; x := x + 1; \
         writeln(x); end;",
        (0, "-9223372036854775808\n", "", 6),
    ),
    (
        &["run", "a"],
        "program t; /* a comment */ var x, y : integer; procedure t(); begin y := 3; \
         while y > x do x := x + 1; writeln(x * 2, \" \", y - x); end; end; -- ends\n",
        (0, "2 2\n4 1\n6 0\n", "", 30),
    ),
];

/// Words for the turns of the sum, which takes 47.
const LIMITS: [Row; 6] = [
    (&["run", "a", "turns=0"], SUM, (8, "", "turn limit\n", 0)),
    (
        &["run", "a", "turns=0000000000000000020"],
        SUM,
        (8, "", "turn limit\n", 20),
    ),
    (
        &["run", "a", "turns=44"],
        SUM,
        (8, "sum ", "turn limit\n", 44),
    ),
    (
        &["run", "a", "turns=46"],
        SUM,
        (8, "sum 55\n", "turn limit\n", 46),
    ),
    (&["run", "a", "turns=47"], SUM, (0, "sum 55\n", "", 47)),
    (
        &["run", "a", "turns=2305843009213693952"],
        SUM,
        (0, "sum 55\n", "", 47),
    ),
];

/// Words that are no command.
const NO_COMMANDS: [Row; 8] = [
    (&[], SUM, (1, "", USAGE, 0)),
    (&["run"], SUM, (1, "", USAGE, 0)),
    (&["mean"], SUM, (1, "", USAGE, 0)),
    (&["Run", "a"], SUM, (1, "", USAGE, 0)),
    (&["run", "a", "turns="], SUM, (1, "", USAGE, 0)),
    (
        &["run", "a", "turns=2305843009213693953"],
        SUM,
        (1, "", USAGE, 0),
    ),
    (
        &["run", "a", "turns=00000000000000000001"],
        SUM,
        (1, "", USAGE, 0),
    ),
    (&["run", "a", "turns=1", "turns=1"], SUM, (1, "", USAGE, 0)),
];

#[test]
fn runs(rt: HostRuntime) -> Result<(), Fail> {
    expect_rows(&rt, rt.alloc(), &RUNS)?;
    expect_rows(&rt, rt.alloc(), &LIMITS)?;
    expect_rows(&rt, rt.alloc(), &NO_COMMANDS)?;
    Ok(())
}

#[test]
fn files_that_cannot_be_taken(rt: HostRuntime) -> Result<(), Fail> {
    let alloc = rt.alloc();
    let long = vec![in alloc; b' '; 1_048_577]?;
    let unread = (2, "", "cannot read none.zpl\n", 0);
    expect(&rt, alloc, &["run", "none.zpl"], b"", "", unread)?;
    expect(
        &rt,
        alloc,
        &["run", "a"],
        &long,
        "",
        (3, "", "too long: a\n", 0),
    )?;
    let empty = (4, "", "refused: Syntax, line 1, byte 1048576\n", 0);
    expect(&rt, alloc, &["run", "a"], &long[1..], "", empty)?;
    Ok(())
}

/// The sum with the fetch or a put failing.
const FAILING: [Failing; 4] = [
    (
        [0, NEVER, NEVER],
        (
            &["run", "a", "turns=45"],
            SUM,
            (2, "", "cannot read a\n", 0),
        ),
    ),
    (
        [NEVER, 0, NEVER],
        (&["run", "a", "turns=45"], SUM, (9, "", "", 43)),
    ),
    (
        [NEVER, 1, NEVER],
        (&["run", "a", "turns=45"], SUM, (9, "sum ", "", 44)),
    ),
    (
        [NEVER, NEVER, 0],
        (&["run", "a", "turns=45"], SUM, (9, "sum 55", "", 45)),
    ),
];

#[test]
fn fetches_and_puts_that_fail(rt: HostRuntime) -> Result<(), Fail> {
    expect_failing(&rt, rt.alloc(), &FAILING)?;
    Ok(())
}
