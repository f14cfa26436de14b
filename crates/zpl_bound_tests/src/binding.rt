//! What the tests ask of a program under settings.
ghost use Rattle.std.specs.Prelude.{IfOk};
ghost use Rattle.zpl_text.specs.Tokens.{IsTokens};

use bumpalo::Bump;
use rank_types::{Typed, judge};
use std::alloc::{AllocError, Global};
use std::process::Abort;
use std::test::Fail;
use zpl_bound::{Settings, bind};
use zpl_parse::parse;
use zpl_text::{Token, lex};

/// The tokens of a text.
fn tokens_of(rt: &impl Abort, alloc: Global, text: &[u8]) -> Result<Vec<Token>, Fail>
    ensures { IfOk result (λ tokens. IsTokens text.now tokens.items) }
{
    let mut tokens = Vec::new(alloc);
    assert!(rt; text.len() <= 1000000);
    assert!(rt; lex(alloc, text, &mut tokens).is_ok());
    Ok(tokens)
}

/// Settings of words `name:=value`, each split at its first `:=`.
fn settings_of(alloc: Global, words: &[&str]) -> Result<Settings, AllocError> {
    let mut settings = Settings::new(alloc);
    for word in words {
        if let Some((name, value)) = word.split_once(":=") {
            settings.add(alloc, name.as_bytes(), value.as_bytes())?;
        }
    }
    Ok(settings)
}

/// What binding answers to a judged program: the name of a fault, or `Ok`.
fn bound_as(alloc: Global, typed: &Typed<'_>, words: &[&str]) -> Result<&'static str, AllocError> {
    let settings = settings_of(alloc, words)?;
    match bind(alloc, typed, &settings) {
        Ok(_bound) => Ok("Ok"),
        Err(fault) => Ok(fault.name()),
    }
}

/// What is answered to a text behind the program's name: the name of a fault, or `Ok`.
fn answer(
    rt: &impl Abort,
    alloc: Global,
    rest: &str,
    words: &[&str],
) -> Result<&'static str, Fail> {
    let text = format!(in alloc; "program t; {rest}")?;
    let tokens = tokens_of(rt, alloc, text.as_bytes())?;
    let arena = Bump::new(alloc);
    match parse(alloc, &arena, &tokens, text.as_bytes()) {
        Ok(program) => match judge(alloc, &arena, program) {
            Ok(typed) => Ok(bound_as(alloc, &typed, words)?),
            Err(fault) => Ok(fault.name()),
        },
        Err(_) => Ok("no program"),
    }
}

/// Compares what is answered to a text under settings.
pub fn expect(
    rt: &impl Abort,
    alloc: Global,
    rest: &str,
    words: &[&str],
    wanted: &str,
) -> Result<(), Fail> {
    let said = answer(rt, alloc, rest, words)?;
    assert!(rt; said == wanted);
    Ok(())
}
