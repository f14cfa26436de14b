//! How large a program may be, with every call expanded.
use super::rows::{Call, NEVER, answer_to};
use std::alloc::{AllocError, Global};
use std::test::Fail;

const STATEMENTS: &str = "refused: TooManyStatements\n";

const NODES: &str = "refused: TooManyNodes\n";

const LIMIT: &str = "turn limit\n";

/// A statement that stands so many times, one that stands behind these, and the status and what is
/// told of the program. One expression has ten nodes, and the other eleven.
const PROGRAMS: [(&str, u32, &str, u8, &str); 4] = [
    ("x:=1;", 19_999, "x:=1;", 8, LIMIT),
    ("x:=1;", 20_000, "x:=1;", 4, STATEMENTS),
    ("x:=(1)+1+1+1+1;", 19_999, "x:=(1)+1+1+1+1;", 8, LIMIT),
    ("x:=(1)+1+1+1+1;", 19_999, "x:=((1))+1+1+1+1;", 4, NODES),
];

fn repeated(alloc: Global, statement: &str, count: u32, last: &str) -> Result<Vec<u8>, AllocError> {
    let mut text = Vec::new(alloc);
    text.extend_from_slice(b"program t; var x : integer; procedure t(); begin ")?;
    for _statement in 0..count {
        text.extend_from_slice(statement.as_bytes())?;
    }
    text.extend_from_slice(last.as_bytes())?;
    text.extend_from_slice(b" end;")?;
    Ok(text)
}

#[test]
fn the_largest_programs_and_one_more(rt: HostRuntime) -> Result<(), Fail> {
    let alloc = rt.alloc();
    for (statement, count, last, status, told) in &PROGRAMS {
        let text = repeated(alloc, statement, *count, last)?;
        let call = Call {
            words: &["run", "a", "grid=2", "turns=1"],
            text: &text,
            order: "",
            fails: [NEVER, NEVER, NEVER],
        };
        let found = answer_to(alloc, call)?;
        let is_told = found.status == *status && found.errs.as_slice() == told.as_bytes();
        assert!(rt; is_told, "{last}");
    }
    Ok(())
}

/// A chain of procedures, each of which calls the next one twice. No call is expanded to see that
/// these are too many statements.
#[test]
fn calls_that_double(rt: HostRuntime) -> Result<(), Fail> {
    let alloc = rt.alloc();
    let mut text = Vec::new(alloc);
    text.extend_from_slice(b"program p; procedure p(); begin pa(); pa(); end;")?;
    for letter in b'a'..b'z' {
        let own = [letter];
        let next = [letter + 1];
        text.extend_from_slice(b"procedure p")?;
        text.extend_from_slice(&own)?;
        text.extend_from_slice(b"(); begin p")?;
        text.extend_from_slice(&next)?;
        text.extend_from_slice(b"(); p")?;
        text.extend_from_slice(&next)?;
        text.extend_from_slice(b"(); end;")?;
    }
    text.extend_from_slice(b"procedure pz(); begin end;")?;
    let call = Call {
        words: &["list", "a", "grid=2"],
        text: &text,
        order: "",
        fails: [NEVER, NEVER, NEVER],
    };
    let found = answer_to(alloc, call)?;
    assert!(rt; found.errs.as_slice() == STATEMENTS.as_bytes());
    Ok(())
}
