//! Where a fault of syntax is told.
use super::reading::{accepted, expect, expect_body};
use std::test::Fail;

/// Mistakes of several kinds.
const MISTAKES: [(&str, &str); 7] = [
    ("x := (1;", "Syntax { at: 39 }"),
    ("x := x + ;", "Syntax { at: 41 }"),
    ("[1..2 x := 1;", "Syntax { at: 38 }"),
    ("[1..2, of R] x := 1;", "Syntax { at: 39 }"),
    ("if x then elsif y end;", "Syntax { at: 50 }"),
    ("max := 1;", "Syntax { at: 32 }"),
    ("x := 1 < 2 < 3;", "Syntax { at: 43 }"),
];

/// A comparison behind a comparison.
const COMPARISONS: [(&str, &str); 6] = [
    ("x := a = b != c;", "Syntax { at: 43 }"),
    ("x := a != b < c;", "Syntax { at: 44 }"),
    ("x := a < b > c;", "Syntax { at: 43 }"),
    ("x := a > b <= c;", "Syntax { at: 43 }"),
    ("x := a <= b >= c;", "Syntax { at: 44 }"),
    ("x := a >= b = c;", "Syntax { at: 44 }"),
];

/// The texts of all keywords.
const KEYWORDS: [&str; 41] = [
    "program",
    "config",
    "var",
    "constant",
    "region",
    "direction",
    "procedure",
    "begin",
    "end",
    "if",
    "then",
    "elsif",
    "else",
    "while",
    "do",
    "repeat",
    "until",
    "for",
    "to",
    "downto",
    "by",
    "of",
    "in",
    "at",
    "with",
    "without",
    "wrap",
    "reflect",
    "return",
    "integer",
    "boolean",
    "true",
    "false",
    "max",
    "min",
    "abs",
    "write",
    "writeln",
    "Index1",
    "Index2",
    "Index3",
];

#[test]
fn keywords_are_no_names(rt: HostRuntime) -> Result<(), Fail> {
    let alloc = rt.alloc();
    for keyword in KEYWORDS {
        let mut text = String::new(alloc);
        text.push_str("program p; var ")?;
        text.push_str(keyword)?;
        text.push_str(" : integer; procedure p(); begin end;")?;
        expect(&rt, alloc, text.as_str(), "Syntax { at: 15 }")?;
    }
    Ok(())
}

/// A keyword where a name is wanted.
const NO_NAMES: [(&str, &str); 5] = [
    (
        "program begin; procedure p(); begin end;",
        "Syntax { at: 8 }",
    ),
    (
        "program p; procedure end(); begin end;",
        "Syntax { at: 21 }",
    ),
    (
        "program p; procedure f(of : integer); begin end;",
        "Syntax { at: 23 }",
    ),
    ("program p; region max = [1..2];", "Syntax { at: 18 }"),
    ("program p; direction at = [1];", "Syntax { at: 21 }"),
];

/// The same in a body.
const NO_NAMES_IN_BODIES: [(&str, &str); 2] = [
    ("wrap by;", "Syntax { at: 37 }"),
    ("wrap A, to;", "Syntax { at: 40 }"),
];

#[test]
fn faults_have_their_places(rt: HostRuntime) -> Result<(), Fail> {
    let alloc = rt.alloc();
    for (text, fault) in NO_NAMES {
        expect(&rt, alloc, text, fault)?;
    }
    for (body, fault) in MISTAKES {
        expect_body(&rt, alloc, body, fault)?;
    }
    for (body, fault) in COMPARISONS {
        expect_body(&rt, alloc, body, fault)?;
    }
    for (body, fault) in NO_NAMES_IN_BODIES {
        expect_body(&rt, alloc, body, fault)?;
    }
    accepted(&rt, alloc, "x := (a = b) != c; x := a <= (b >= c);")
}
