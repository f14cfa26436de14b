//! Meanings of programs: what is printed, what is told, and the status.
use super::rows::{
    Call, Failing, NEVER, Row, USAGE, answer_to, expect, expect_failing, expect_rows,
};
use std::test::Fail;

/// Heat in a plate, with its south edge at 1000.
const PLATE: &str = "program t; config var size : integer = 8; slack : integer = 100; \
    region R = [1..size, 1..size]; direction n = [-1, 0]; s = [1, 0]; w = [0, -1]; e = [0, 1]; \
    var A, B : [R] integer; change, sweeps : integer; procedure t(); [R] begin \
    [n of R] A := 0; [w of R] A := 0; [e of R] A := 0; [s of R] A := 1000; \
    repeat B := (A@n + A@s + A@w + A@e) / 4; change := max<<max(A - B, B - A); A := B; \
    sweeps += 1; until change < slack; writeln(sweeps, \" sweeps, change \", change); write(A); \
    end;";

/// A product of two matrices by floods.
const PRODUCT: &str = "program t; region L = [1..2, 1..3]; R = [1..3, 1..2]; P = [1..2, 1..2]; \
    C = [1..2, *]; W = [*, 1..2]; var A : [L] integer; B : [R] integer; X : [P] integer; \
    D : [C] integer; E : [W] integer; k : integer; procedure t(); begin \
    [L] A := 10 * Index1 + Index2; [R] B := Index1 - Index2; for k := 1 to 3 do \
    [C] D := >>[ , k] A; [W] E := >>[k, ] B; [P] X += D * E; end; [P] write(X); end;";

/// A shattered loop, which has no end where `hold` is 2.
const SHATTERED: &str = "program t; config var hold : integer = 0; region R = [1..5]; \
    var A : [R] integer; procedure t(); [R] begin writeln(\"start\"); A := Index1; \
    while A < 4 do if A != hold then A += 2; end; end; writeln(A); end;";

const ARRAYS: [Row; 8] = [
    (
        &["mean", "a"],
        PLATE,
        (
            0,
            "3 sweeps, change 78\n0 0 0 0 0 0 0 0\n0 0 0 0 0 0 0 0\n0 0 0 0 0 0 0 0\n\
         0 0 0 0 0 0 0 0\n0 0 0 0 0 0 0 0\n15 15 15 15 15 15 15 15\n\
         93 124 124 124 124 124 124 93\n359 437 453 453 453 453 437 359\n",
            "",
            0,
        ),
    ),
    (
        &["mean", "a", "size:=2", "slack:=1"],
        PLATE,
        (0, "9 sweeps, change 0\n124 124\n374 374\n", "", 0),
    ),
    (
        &["mean", "a"],
        "program t; region R = [1..16]; S = [1..9]; direction d = [7]; var A, B : [R] integer; \
         procedure t(); begin [R] A := Index1; [S] B := A@d; [S] writeln(B); end;",
        (0, "8 9 10 11 12 13 14 15 16\n", "", 0),
    ),
    (
        &["mean", "a", "turns=3"],
        PRODUCT,
        (0, "38 2\n68 2\n", "", 0),
    ),
    (
        &["mean", "a"],
        "program t; region R = [1..4]; direction w = [-1]; var A : [R] integer; procedure t(); \
         begin [R] A := Index1; [2..4] A := A@w; [R] writeln(A); end;",
        (0, "1 1 2 3\n", "", 0),
    ),
    (
        &["mean", "a"],
        "program t; region R = [1..4, 1..6]; S = R by [2, 3]; var A : [R] integer; \
         procedure t(); begin [R] A := 10 * Index1 + Index2; [S] write(+||A); \
         [S] write(+||[1]A); end;",
        (0, "11 25\n56 90\n11 14\n42 48\n", "", 0),
    ),
    (
        &["mean", "a"],
        "program t; region R = [1..4]; var A, B : [R] integer; M : [R] boolean; procedure t(); \
         [R] begin A := Index1 - 2; M := A != 0; [\" with M] B := 6 / A; writeln(B); end;",
        (0, "-6 0 6 3\n", "", 0),
    ),
    (
        &["mean", "a"],
        "program t; region R = [1..2, 1..2, 1..2]; procedure t(); \
         begin [R] write(Index1 * 4 + Index2 * 2 + Index3); end;",
        (0, "7 8\n9 10\n\n11 12\n13 14\n\n", "", 0),
    ),
];

const SCALARS: [Row; 3] = [
    (
        &["mean", "a"],
        "program t; var Z : [1..4] integer; s : integer; procedure t(); \
         begin [1..0] s := max<<(10 / Z); writeln(s); end;",
        (0, "-9223372036854775808\n", "", 0),
    ),
    (
        &["mean", "a"],
        "program t; var s : integer; procedure t(); begin s := 9223372036854775807; \
         writeln(s + 1); s := -s - 1; writeln(s / -1, \" \", s % -1); end;",
        (0, "-9223372036854775808\n-9223372036854775808 0\n", "", 0),
    ),
    (
        &["mean", "a"],
        "program t; var x, y : integer; procedure twice(a : integer; var b : integer); \
         begin a := a + a; b := a; end; procedure five() : integer; begin return 5; end; \
         procedure t(); begin x := five(); twice(x, y); writeln(x, \" \", y, \" \", x < y); end;",
        (0, "5 10 true\n", "", 0),
    ),
];

/// Traps, each on the second line.
const TRAPS: [Row; 9] = [
    (
        &["mean", "a"],
        "program t; region R = [1..4]; var A, B : [R] integer; procedure t(); begin \
         [R] A := Index1 - 3;\n[R] B := 12 / A; writeln(\"done\"); end;",
        (7, "", "trap: division by zero, line 2\n", 0),
    ),
    (
        &["mean", "a"],
        "program t; region R = [1..4]; direction e = [1]; var A, B : [R] integer; procedure t(); \
         begin\n[R] A := 1 / A;\n[R] B := A@e; end;",
        (7, "", "trap: division by zero, line 2\n", 0),
    ),
    (
        &["mean", "a"],
        "program t; region R = [1..4]; direction e = [1]; var A, B : [R] integer; procedure t(); \
         begin\n[R] B := 1 / A + A@e; end;",
        (7, "", "trap: reference outside storage, line 2\n", 0),
    ),
    (
        &["mean", "a"],
        "program t; region R = [1..3]; direction d = [3]; e = [-3]; w = [4]; \
         var A : [R] integer; procedure t(); begin [R] A := Index1; [d of R] wrap A; \
         [e of R] reflect A; [-2..6] writeln(A);\n[w of R] wrap A; end;",
        (
            7,
            "3 2 1 1 2 3 1 2 3\n",
            "trap: regions do not conform, line 2\n",
            0,
        ),
    ),
    (
        &["mean", "a"],
        "program t; region R = [1..2, 1..3]; C = [1..2, 1]; var A, B : [R] integer; \
         procedure t(); begin [R] A := 10 * Index1 + Index2; [C] B := +<<[R] A; [C] write(B);\n\
         [1..2, 1..2] B := +<<[R] A; end;",
        (7, "36\n66\n", "trap: regions do not conform, line 2\n", 0),
    ),
    (
        &["mean", "a"],
        "program t; var n : integer; procedure t(); begin n := 3000000000;\n[1..n] n := +<<1; end;",
        (7, "", "trap: region limit, line 2\n", 0),
    ),
    (
        &["mean", "a"],
        "program t; var n : integer; procedure t(); begin\nwrite(\"a\", 1 / n); end;",
        (7, "", "trap: division by zero, line 2\n", 0),
    ),
    (
        &["mean", "a"],
        "program t; region R = [1..4]; Q = [1..2, 1..2]; var A : [R] integer; M, T : [Q] integer; \
         procedure t(); begin [R] A := 10 * Index1; [R] writeln(A#[5 - Index1]); \
         [Q] M := A#[Index1 + Index2]; [Q] write(M);\n[Q] T := M#[Index2, Index1 + 1]; end;",
        (
            7,
            "40 30 20 10\n20 30\n30 40\n",
            "trap: reference outside storage, line 2\n",
            0,
        ),
    ),
    (
        &["mean", "a"],
        "program t; region R = [1..3]; var A, B : [R] integer; M : [R] boolean; procedure t(); \
         begin [R] A := Index1; [R] M := Index1 < 3; [R with M] B := A#[Index1 + 1]; \
         [R] writeln(B);\n[R] B := 1 / (A - A) + A#[4]; end;",
        (7, "2 3 0\n", "trap: reference outside storage, line 2\n", 0),
    ),
];

/// Reads that wrap round.
const ROUND: [Row; 2] = [
    (
        &["mean", "a"],
        "program t; region R = [1..5]; direction e = [1]; far = [-7]; var A, B : [R] integer; \
         procedure t(); begin [R] A := Index1; [R] B := A@^e; [R] writeln(B); \
         [R] writeln(A@^far);\n[e of R] writeln(A@^e); end;",
        (
            7,
            "2 3 4 5 1\n4 5 1 2 3\n",
            "trap: reference outside storage, line 2\n",
            0,
        ),
    ),
    (
        &["mean", "a"],
        "program t; region R = [1..2, 1..3]; direction d = [1, 1]; var A : [R] integer; \
         procedure t(); begin [R] A := 10 * Index1 + Index2; [R] write(A@^d); end;",
        (0, "22 23 21\n12 13 11\n", "", 0),
    ),
];

const STATUSES: [Row; 9] = [
    (
        &["mean", "a", "turns=2"],
        SHATTERED,
        (0, "start\n5 4 5 4 5\n", "", 0),
    ),
    (
        &["mean", "a", "turns=1", "turns=1"],
        SHATTERED,
        (1, "", USAGE, 0),
    ),
    (
        &["mean", "a"],
        "program t; \x01",
        (4, "", "refused: BadByte, line 1, byte 11\n", 0),
    ),
    (
        &["mean", "a", "a:=1"],
        "program t; procedure",
        (4, "", "refused: Syntax, line 1, byte 20\n", 0),
    ),
    (
        &["mean", "a"],
        "program t; procedure u(); begin end;",
        (4, "", "refused: NoEntry, line 1, byte 8\n", 0),
    ),
    (
        &["mean", "a", "hold:=x"],
        SHATTERED,
        (5, "", "settings refused: ConfigType\n", 0),
    ),
    (
        &["mean", "a", "hold:=1", "hold:=1"],
        SHATTERED,
        (5, "", "settings refused: TwiceSet\n", 0),
    ),
    (
        &["mean", "a", "hold:=2", "turns=50"],
        SHATTERED,
        (8, "start\n", "turn limit\n", 0),
    ),
    (
        &["mean", "a", "turns=0"],
        PRODUCT,
        (8, "", "turn limit\n", 0),
    ),
];

#[test]
fn meanings(rt: HostRuntime) -> Result<(), Fail> {
    expect_rows(&rt, rt.alloc(), &ARRAYS)?;
    expect_rows(&rt, rt.alloc(), &SCALARS)?;
    expect_rows(&rt, rt.alloc(), &TRAPS)?;
    expect_rows(&rt, rt.alloc(), &ROUND)?;
    expect_rows(&rt, rt.alloc(), &STATUSES)?;
    Ok(())
}

#[test]
fn files_without_a_meaning(rt: HostRuntime) -> Result<(), Fail> {
    let alloc = rt.alloc();
    let long = vec![in alloc; b' '; 1_048_577]?;
    let unread = (2, "", "cannot read b.zpl\n", 0);
    expect(&rt, alloc, &["mean", "b.zpl"], b"", "", unread)?;
    expect(
        &rt,
        alloc,
        &["mean", "a"],
        &long,
        "",
        (3, "", "too long: a\n", 0),
    )?;
    Ok(())
}

/// Something is printed, and then there is something to tell.
const PRINTS_AND_TRAPS: &str = "program t; var n : integer; procedure t(); begin writeln(n); \
    n := 1 / n; end;";

/// Puts of a meaning that fail.
const FAILING: [Failing; 3] = [
    ([NEVER, 0, NEVER], (&["mean", "a"], PLATE, (9, "", "", 0))),
    (
        [NEVER, 1, NEVER],
        (&["mean", "a"], PLATE, (9, "3 sweeps, change 78\n", "", 0)),
    ),
    (
        [NEVER, NEVER, 0],
        (&["mean", "a"], PRINTS_AND_TRAPS, (9, "0\n", "", 0)),
    ),
];

#[test]
fn puts_of_a_meaning_that_fail(rt: HostRuntime) -> Result<(), Fail> {
    expect_failing(&rt, rt.alloc(), &FAILING)?;
    Ok(())
}

/// Each front of a program is refused.
#[test]
fn fronts_of_a_program(rt: HostRuntime) -> Result<(), Fail> {
    let text = PLATE.as_bytes();
    for end in 0..text.len() {
        let call = Call {
            words: &["mean", "a"],
            text: &text[..end],
            order: "",
            fails: [NEVER, NEVER, NEVER],
        };
        let found = answer_to(rt.alloc(), call)?;
        let is_refused = found.errs.starts_with(b"refused: ");
        assert!(rt; found.status == 4 && found.out.is_empty() && is_refused);
    }
    Ok(())
}
