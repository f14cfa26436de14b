//! What the tests ask of the checker.
ghost use Rattle.std.specs.Prelude.{IfOk};
ghost use Rattle.zpl_text.specs.Tokens.{IsTokens};

use bumpalo::Bump;
use rank_types::judge;
use std::alloc::Global;
use std::process::Abort;
use std::test::Fail;
use zpl_parse::parse;
use zpl_text::{Token, lex};

/// Lines: regions, arrays and scalars of rank 1 at most.
pub const LINES: &str =
    "region R = [1..4]; S = [2..3]; direction e = [1]; w = [-1]; var A, B : [R] integer; P, Q : \
        [R] boolean; x, y, i : integer; p, q : boolean;";

/// Planes, some with a flood dimension.
pub const PLANES: &str =
    "config var n : integer = 4; constant c : integer = 2; region R = [1..4]; Q2 = [1..3, \
        1..4]; F = [1..3, *]; direction e = [1]; se = [1, 1]; var A : [R] integer; M, N : [Q2] \
        integer; L : [Q2] boolean; G : [F] integer; x : integer;";

/// Lines, and procedures with parameters.
pub const CALLS: &str =
    "region R = [1..4]; S = [2..3]; direction e = [1]; w = [-1]; var A, B : [R] integer; P, Q : \
        [R] boolean; x, y, i : integer; p, q : boolean; procedure u(a : integer); begin end; \
        procedure v(var a : integer); begin a := 1; end; procedure o(A : [R] integer); begin \
        end;";

/// A procedure with a result, and one without.
pub const RESULTS: &str =
    "var x : integer; p : boolean; region R = [1..2]; var A : [R] integer; procedure f() : \
        integer; begin return 1; end; procedure g(); begin end;";

/// The tokens of a text.
fn tokens_of(rt: &impl Abort, alloc: Global, text: &[u8]) -> Result<Vec<Token>, Fail>
    ensures { IfOk result (λ tokens. IsTokens text.now tokens.items) }
{
    let mut tokens = Vec::new(alloc);
    assert!(rt; text.len() <= 1000000);
    assert!(rt; lex(alloc, text, &mut tokens).is_ok());
    Ok(tokens)
}

/// What the checker answers to a text: the name and the place of its fault, or `Ok` and 0.
pub fn answer(rt: &impl Abort, alloc: Global, text: &str) -> Result<(&'static str, u32), Fail> {
    let tokens = tokens_of(rt, alloc, text.as_bytes())?;
    let arena = Bump::new(alloc);
    match parse(alloc, &arena, &tokens, text.as_bytes()) {
        Ok(program) => match judge(alloc, &arena, program) {
            Ok(_typed) => Ok(("Ok", 0)),
            Err(fault) => Ok((fault.name(), fault.at())),
        },
        Err(_) => Ok(("no program", 0)),
    }
}

/// Compares what the checker answers to a text with the name of a fault and its place.
pub fn expect(rt: &impl Abort, alloc: Global, text: &str, name: &str, at: u32) -> Result<(), Fail> {
    let (said, place) = answer(rt, alloc, text)?;
    assert!(rt; said == name);
    assert!(rt; place == at);
    Ok(())
}

/// Each text behind the program's name has the fault that stands beside it.
pub fn each_whole(rt: &impl Abort, alloc: Global, rows: &[(&str, &str, u32)]) -> Result<(), Fail> {
    for (rest, name, at) in rows {
        let text = format!(in alloc; "program t;\n{rest}")?;
        expect(rt, alloc, text.as_str(), name, *at)?;
    }
    Ok(())
}

/// Each body of the entry procedure behind some declarations has the fault that stands beside it.
pub fn each_body(
    rt: &impl Abort,
    alloc: Global,
    decls: &str,
    rows: &[(&str, &str, u32)],
) -> Result<(), Fail> {
    for (body, name, at) in rows {
        let text = format!(in alloc;
            "program t;\n{decls}\nprocedure \
            t();\nbegin\n{body}\nend;\n"
        )?;
        expect(rt, alloc, text.as_str(), name, *at)?;
    }
    Ok(())
}

/// Each text behind the program's name has no fault.
pub fn each_accepted(rt: &impl Abort, alloc: Global, rows: &[&str]) -> Result<(), Fail> {
    for rest in rows {
        let text = format!(in alloc; "program t;\n{rest}")?;
        expect(rt, alloc, text.as_str(), "Ok", 0)?;
    }
    Ok(())
}
