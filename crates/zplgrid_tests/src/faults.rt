//! Texts that are refused.
use super::rows::{Row, expect, expect_rows};
use std::alloc::{AllocError, Global};
use std::process::Abort;
use std::test::Fail;

/// What is told of code that is given no turn.
const NO_TURN: &str = "turn limit\n";

const TOO_DEEP: &str = "refused: TooDeep\n";

/// Texts, and what is told of them.
const TEXTS: [Row; 11] = [
    (
        &["run", "a"],
        "",
        (4, "", "refused: Syntax, line 1, byte 0\n", 0),
    ),
    (
        &["run", "a"],
        "\n\n",
        (4, "", "refused: Syntax, line 3, byte 2\n", 0),
    ),
    (
        &["run", "a"],
        "program\n$",
        (4, "", "refused: BadByte, line 2, byte 8\n", 0),
    ),
    (
        &["run", "a"],
        "program -- \n\n ;",
        (4, "", "refused: Syntax, line 3, byte 14\n", 0),
    ),
    (
        &["run", "a"],
        "program t\n",
        (4, "", "refused: Syntax, line 2, byte 10\n", 0),
    ),
    (
        &["run", "a"],
        "program t; procedure t(); begin x := 1; end;",
        (4, "", "refused: UnknownName, line 1, byte 32\n", 0),
    ),
    (
        &["run", "a"],
        "program t; var t : integer; procedure t(); begin end;",
        (4, "", "refused: TwiceNamed, line 1, byte 38\n", 0),
    ),
    (
        &["run", "a"],
        "program t; procedure u(); begin end;",
        (4, "", "refused: NoEntry, line 1, byte 8\n", 0),
    ),
    (
        &["run", "a", "turns=0"],
        "program t; config var n : integer = 1; procedure t(); begin end;",
        (8, "", NO_TURN, 0),
    ),
    (
        &["run", "a", "turns=0"],
        "program t;\ndirection e = [1]; region R = [1..4]; var A, B : [R] integer;\n\
         procedure t(); begin [R] B := A@^e; end;",
        (8, "", NO_TURN, 0),
    ),
    (
        &["run", "a", "turns=0"],
        "program t;\nregion R = [1..4]; var A, B : [R] integer;\n\
         procedure t(); begin [R] B := A#[5 - Index1]; end;",
        (8, "", NO_TURN, 0),
    ),
];

/// Texts whose declarations have a fault.
const DECLARATIONS: [Row; 3] = [
    (
        &["run", "a"],
        "program t; constant c : integer = 1 / 0; procedure t(); begin end;",
        (5, "", "settings refused: BadConstant\n", 0),
    ),
    (
        &["run", "a"],
        "program t; region R = [1..4194305]; procedure t(); begin end;",
        (5, "", "settings refused: RegionLimit\n", 0),
    ),
    (
        &["run", "a"],
        "program t; direction d = [32768]; procedure t(); begin end;",
        (5, "", "settings refused: DirectionLimit\n", 0),
    ),
];

/// Statements that begin at byte 49 on line 5, and what is told of their text.
const STATEMENTS: [(&str, &str); 10] = [
    ("x := $;", "refused: BadByte, line 5, byte 54\n"),
    ("x := 1.5;", "refused: FloatText, line 5, byte 54\n"),
    (
        "x := 9223372036854775808;",
        "refused: NumberTooLarge, line 5, byte 54\n",
    ),
    ("/* x := 1;", "refused: OpenComment, line 5, byte 49\n"),
    ("writeln(\"x);", "refused: OpenString, line 5, byte 57\n"),
    ("x := (1;", "refused: Syntax, line 5, byte 56\n"),
    ("x := x + ;", "refused: Syntax, line 5, byte 58\n"),
    ("x := + ;", "refused: Syntax, line 5, byte 56\n"),
    ("x := 1;\nx := ;", "refused: Syntax, line 6, byte 62\n"),
    ("if := 1;", "refused: Syntax, line 5, byte 52\n"),
];

/// Runs so many statements one after another, and another one behind them, which begin at byte 49
/// on line 5, without a turn: this is told.
fn expect_statements(
    rt: &impl Abort,
    alloc: Global,
    many: usize,
    statement: &str,
    last: &str,
    errs: &str,
) -> Result<(), AllocError> {
    let begin = b"program t;\nvar x : integer;\nprocedure t();\nbegin\n".as_slice();
    let mut text = Vec::from_slice(alloc, begin)?;
    for _ in 0..many {
        text.extend_from_slice(statement.as_bytes())?;
    }
    text.extend_from_slice(last.as_bytes())?;
    text.extend_from_slice(b"\nend;\n")?;
    let status = if errs == NO_TURN { 8 } else { 4 };
    expect(
        rt,
        alloc,
        &["run", "a", "turns=0"],
        &text,
        "",
        (status, "", errs, 0),
    )
}

#[test]
fn texts_and_statements(rt: HostRuntime) -> Result<(), Fail> {
    expect_rows(&rt, rt.alloc(), &TEXTS)?;
    expect_rows(&rt, rt.alloc(), &DECLARATIONS)?;
    for (statement, errs) in STATEMENTS {
        expect_statements(&rt, rt.alloc(), 0, "", statement, errs)?;
    }
    Ok(())
}

/// An assignment of a number in so many pairs of brackets.
fn brackets(alloc: Global, pairs: usize) -> Result<String, Fail> {
    let mut statement = String::new(alloc);
    statement.push_str("x := ")?;
    for _ in 0..pairs {
        statement.push('(')?;
    }
    statement.push('1')?;
    for _ in 0..pairs {
        statement.push(')')?;
    }
    statement.push(';')?;
    Ok(statement)
}

/// Brackets that are as deep as they may be, and deeper; 2,500 assignments, which are more than
/// 10,000 tokens, with nothing behind them, and with a statement.
#[test]
fn deep_and_long_texts(rt: HostRuntime) -> Result<(), Fail> {
    let alloc = rt.alloc();
    for (pairs, errs) in [(199, NO_TURN), (200, TOO_DEEP), (100_000, TOO_DEEP)] {
        let statement = brackets(alloc, pairs)?;
        expect_statements(&rt, alloc, 0, "", statement.as_str(), errs)?;
    }
    let errs = "refused: Syntax, line 5, byte 12552\n";
    for (last, errs) in [("", NO_TURN), ("x:=;", errs)] {
        expect_statements(&rt, alloc, 2_500, "x:=1;", last, errs)?;
    }
    Ok(())
}
