//! How deep expressions and statements may nest.
use super::reading::{accepted, expect, expect_body, told_of};
use std::alloc::Global;
use std::process::Abort;
use std::test::Fail;

/// Something, as often as it is to stand, before something else, and a third thing as often
/// behind that.
fn nest(alloc: Global, open: &str, many: u32, inside: &str, close: &str) -> Result<String, Fail> {
    let mut text = String::new(alloc);
    for _ in 0..many {
        text.push_str(open)?;
    }
    text.push_str(inside)?;
    for _ in 0..many {
        text.push_str(close)?;
    }
    Ok(text)
}

/// A number in so many parentheses, between two texts. The number is 1 deep.
fn parentheses(alloc: Global, before: &str, many: u32, behind: &str) -> Result<String, Fail> {
    let nested = nest(alloc, "(", many, "1", ")")?;
    let mut text = String::new(alloc);
    text.push_str(before)?;
    text.push_str(nested.as_str())?;
    text.push_str(behind)?;
    Ok(text)
}

/// A body whose trees are all too deep.
fn is_too_deep(rt: &impl Abort, alloc: Global, body: &str) -> Result<(), Fail> {
    expect_body(rt, alloc, body, "TooDeep")
}

/// What stands before and behind a number in parentheses, and the most parentheses that it may
/// have.
const PLACES: [(&str, &str, u32); 10] = [
    ("x := ", ";", 199),
    ("x := A@[", "];", 198),
    ("x := A@[1, ", "];", 198),
    ("x := A@^[", "];", 198),
    ("x := A#[2, ", "];", 198),
    ("x := +<<[", "] A;", 198),
    ("x := f(2, ", ");", 198),
    ("f(2, ", ");", 199),
    ("[1..", "] x := 1;", 199),
    ("[R at [", "]] x := 1;", 199),
];

#[test]
fn expressions_nest(rt: HostRuntime) -> Result<(), Fail> {
    let alloc = rt.alloc();
    for (before, behind, most) in PLACES {
        let text = parentheses(alloc, before, most, behind)?;
        accepted(&rt, alloc, text.as_str())?;
        let text = parentheses(alloc, before, most + 1, behind)?;
        is_too_deep(&rt, alloc, text.as_str())?;
    }
    Ok(())
}

#[test]
fn regions_nest(rt: HostRuntime) -> Result<(), Fail> {
    let alloc = rt.alloc();
    let text = parentheses(alloc, "program p; region R = [1..", 200, "];")?;
    expect(&rt, alloc, text.as_str(), "TooDeep")?;
    let text = parentheses(alloc, "program p; region R = [1..", 199, "];")?;
    let told = told_of(&rt, alloc, text.as_bytes())?;
    assert!(rt; told.starts_with(b"program p ;"));
    Ok(())
}

#[test]
fn long_nests_are_too_deep(rt: HostRuntime) -> Result<(), Fail> {
    let alloc = rt.alloc();
    let text = parentheses(alloc, "x := ", 100000, ";")?;
    is_too_deep(&rt, alloc, text.as_str())?;
    let text = nest(alloc, "begin ", 10000, "x := 1;", " end;")?;
    is_too_deep(&rt, alloc, text.as_str())
}

/// What opens and closes each statement that holds others.
const STATEMENTS: [(&str, &str); 7] = [
    ("begin ", " end;"),
    ("if x then ", " end;"),
    ("if x then elsif x then ", " end;"),
    ("if x then else ", " end;"),
    ("while x do ", " end;"),
    ("repeat ", " until x;"),
    ("for i := 1 to 2 do ", " end;"),
];

/// A statement nests 200 deep, with the body as the outermost and an assignment or nothing in the
/// innermost, and no deeper.
#[test]
fn statements_nest(rt: HostRuntime) -> Result<(), Fail> {
    let alloc = rt.alloc();
    for (open, close) in STATEMENTS {
        for (inside, most) in [("x := 1;", 198), ("", 199)] {
            let text = nest(alloc, open, most, inside, close)?;
            accepted(&rt, alloc, text.as_str())?;
            let text = nest(alloc, open, most + 1, inside, close)?;
            is_too_deep(&rt, alloc, text.as_str())?;
        }
    }
    Ok(())
}

#[test]
fn expressions_do_not_count_for_nests(rt: HostRuntime) -> Result<(), Fail> {
    let alloc = rt.alloc();
    let deep = parentheses(alloc, "x := ", 199, ";")?;
    let text = nest(alloc, "begin ", 198, deep.as_str(), " end;")?;
    accepted(&rt, alloc, text.as_str())?;
    let deeper = parentheses(alloc, "x := ", 200, ";")?;
    let text = nest(alloc, "begin ", 198, deeper.as_str(), " end;")?;
    is_too_deep(&rt, alloc, text.as_str())
}
