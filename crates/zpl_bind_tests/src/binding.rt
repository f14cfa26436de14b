//! What the tests ask of a text under settings.
ghost use Rattle.std.specs.Prelude.{IfOk};
ghost use Rattle.zpl_text.specs.Tokens.{IsTokens};

use bumpalo::Bump;
use std::alloc::{AllocError, Global};
use std::process::Abort;
use std::test::Fail;
use zpl_bind::{BindFault, Bound, Settings, bind_declarations};
use zpl_parse::parse;
use zpl_region::{Dim, Region, Vec3};
use zpl_text::{Token, lex};

/// The tokens of a text.
fn tokens_of(rt: &impl Abort, alloc: Global, text: &[u8]) -> Result<Vec<Token>, Fail>
    ensures { IfOk result (λ tokens. IsTokens text.now tokens.items) }
{
    let mut tokens = Vec::new(alloc);
    assert!(rt; text.len() <= 1000000);
    assert!(rt; lex(alloc, text, &mut tokens).is_ok());
    Ok(tokens)
}

/// Settings of words `name:=value`, each split at its first `:=`.
fn settings_of(alloc: Global, words: &[&str]) -> Result<Settings, AllocError> {
    let mut settings = Settings::new(alloc);
    for word in words {
        if let Some((name, value)) = word.split_once(":=") {
            settings.add(alloc, name.as_bytes(), value.as_bytes())?;
        }
    }
    Ok(settings)
}

/// What a program with these declarations comes to under settings, written out, or the fault.
pub fn answer(rt: &impl Abort, alloc: Global, decls: &str, words: &[&str]) -> Result<String, Fail> {
    let text = format!(in alloc; "program p; {decls}")?;
    let tokens = tokens_of(rt, alloc, text.as_bytes())?;
    let arena = Bump::new(alloc);
    let settings = settings_of(alloc, words)?;
    let mut shown = String::new(alloc);
    match parse(alloc, &arena, &tokens, text.as_bytes()) {
        Ok(program) => match bind_declarations(alloc, program, &settings) {
            Ok(bound) => show(&mut shown, &bound)?,
            Err(fault) => shown.push_str(fault.name())?,
        },
        Err(_) => assert!(rt; false, "{decls}"),
    }
    Ok(shown)
}

/// The four lists: values, regions, vectors and storages.
fn show(into: &mut String, bound: &Bound<'_>) -> Result<(), AllocError> {
    for value in bound.values.as_slice() {
        write!(into, "{value} ")?;
    }
    show_regions(into, bound.regions.as_slice())?;
    into.push_str("| ")?;
    for vector in bound.vectors.as_slice() {
        show_vector(into, vector)?;
    }
    show_regions(into, bound.storages.as_slice())
}

fn show_vector(into: &mut String, vector: &Vec3) -> Result<(), AllocError> {
    let [x, y, z] = *vector;
    write!(into, "({x} {y} {z}) ")
}

fn show_regions(into: &mut String, regions: &[Region]) -> Result<(), AllocError> {
    into.push_str("| ")?;
    for region in regions {
        show_region(into, region)?;
    }
    Ok(())
}

fn show_region(into: &mut String, region: &Region) -> Result<(), AllocError> {
    let [planes, rows, columns] = region.dims;
    show_dim(into, planes)?;
    if region.rank > 1 {
        show_dim(into, rows)?;
    }
    if region.rank > 2 {
        show_dim(into, columns)?;
    }
    into.push_str("; ")
}

/// A dimension: `*`, or its bounds, with its step and its alignment unless these are 1 and the
/// lower bound.
fn show_dim(into: &mut String, dim: Dim) -> Result<(), AllocError> {
    match dim {
        Dim::Flood => into.push_str("*"),
        Dim::Range {
            lo,
            hi,
            step,
            align,
        } => {
            write!(into, "{lo}..{hi}")?;
            if step == 1 && align == lo {
                into.push_str(" ")
            } else {
                write!(into, "by{step}at{align} ")
            }
        }
    }
}

/// Each program comes to what stands beside it, without settings.
pub fn each_gives(rt: &impl Abort, alloc: Global, rows: &[(&str, &str)]) -> Result<(), Fail> {
    for (decls, expected) in rows {
        let shown = answer(rt, alloc, decls, &[])?;
        assert!(rt; shown.as_str() == *expected);
    }
    Ok(())
}
