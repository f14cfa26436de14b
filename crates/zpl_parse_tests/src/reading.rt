//! What the tests ask of a text.
ghost use Rattle.std.specs.Prelude.{IfOk};
ghost use Rattle.zpl_text.specs.Tokens.{IsTokens};

use super::shown::show_program;
use bumpalo::Bump;
use std::alloc::Global;
use std::process::Abort;
use std::test::Fail;
use zpl_parse::parse;
use zpl_text::{Token, lex};
use zpl_tree::print_tree;

/// The tokens of a text.
pub fn tokens_of(rt: &impl Abort, alloc: Global, text: &[u8]) -> Result<Vec<Token>, Fail>
    ensures { IfOk result (λ tokens. IsTokens text.now tokens.items) }
{
    let mut tokens = Vec::new(alloc);
    assert!(rt; text.len() <= 1000000);
    assert!(rt; lex(alloc, text, &mut tokens).is_ok());
    Ok(tokens)
}

/// What is printed of the tree of a text, or its fault.
pub fn told_of(rt: &impl Abort, alloc: Global, text: &[u8]) -> Result<Vec<u8>, Fail> {
    let tokens = tokens_of(rt, alloc, text)?;
    let arena = Bump::new(alloc);
    let mut told = Vec::new(alloc);
    match parse(alloc, &arena, &tokens, text) {
        Ok(program) => print_tree(alloc, program, &mut told)?,
        Err(fault) => {
            let shown = format!(in alloc; "{fault:?}")?;
            told.extend_from_slice(shown.as_bytes())?;
        }
    }
    Ok(told)
}

/// Compares what is told of a whole text.
pub fn expect(rt: &impl Abort, alloc: Global, text: &str, wanted: &str) -> Result<(), Fail> {
    let told = told_of(rt, alloc, text.as_bytes())?;
    assert!(rt; told.as_slice() == wanted.as_bytes(), "{text}");
    Ok(())
}

/// A program whose one procedure has these statements. They begin at byte 32.
pub fn with_body(alloc: Global, body: &str) -> Result<String, Fail> {
    let mut text = String::new(alloc);
    text.push_str("program p; procedure p(); begin ")?;
    text.push_str(body)?;
    text.push_str(" end;")?;
    Ok(text)
}

/// Compares what is told of the text with this body.
pub fn expect_body(rt: &impl Abort, alloc: Global, body: &str, wanted: &str) -> Result<(), Fail> {
    let text = with_body(alloc, body)?;
    expect(rt, alloc, text.as_str(), wanted)
}

/// A body that has a tree.
pub fn accepted(rt: &impl Abort, alloc: Global, body: &str) -> Result<(), Fail> {
    let text = with_body(alloc, body)?;
    let told = told_of(rt, alloc, text.as_bytes())?;
    assert!(rt; told.starts_with(b"program p ;"), "{body}");
    Ok(())
}

/// Compares the tree of a text, written out.
pub fn expect_tree(rt: &impl Abort, alloc: Global, text: &str, wanted: &str) -> Result<(), Fail> {
    let tokens = tokens_of(rt, alloc, text.as_bytes())?;
    let arena = Bump::new(alloc);
    let program = parse(alloc, &arena, &tokens, text.as_bytes())?;
    assert!(rt; program.source == text.as_bytes());
    let mut shown = String::new(alloc);
    show_program(&mut shown, program)?;
    assert!(rt; shown.as_str() == wanted, "{shown}");
    Ok(())
}
