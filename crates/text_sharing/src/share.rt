//! Equal texts of tables, made one.
ghost use Rattle.std.specs.Prelude.{◌≡◌, IfOk, OnOk, map};
ghost use Rattle.text_sharing.specs.Shared.{different, number_among, row_shared, texts_shared};
ghost use Rattle.text_sharing.specs.Numbered.{IsNumbered};

use crate::different::{Different, different_of};
use flat_form::node_form::{Code, Instr, Tables, Texts};
use std::alloc::{AllocError, Global};

/// The tables with each different text once, in the order in which they first have it; rows that
/// print it do so by its new number. All else stays as it was. The time goes by the bytes of the
/// texts and of what rows print of them.
pub fn share_texts(alloc: Global, tables: Tables) -> Result<Tables, AllocError>
    ensures { IfOk result (λ shared. shared ≡ texts_shared tables) }
{
    let mut shared = tables;
    let texts = share_rows(alloc, &shared.texts, &mut shared.code)?;
    shared.texts = texts;
    Ok(shared)
}

/// Puts into each row that prints a text its number among the different ones, which it gives.
fn share_rows(alloc: Global, texts: &Texts, code: &mut Code) -> Result<Texts, AllocError>
    ensures texts { IfOk result (λ shared. shared ≡ different texts.now) }
    ensures code { OnOk result (code.new ≡ map (row_shared texts.now) code.old) }
{
    let found = different_of(alloc, texts)?;
    renumber(code, texts, &found);
    let Different { texts, .. } = found;
    Ok(texts)
}

fn renumber(code: &mut Code, texts: &Texts, found: &Different<'_>)
    requires different { found.now.texts ≡ different texts.now }
    requires numbered { IsNumbered found.now }
    ensures { code.new ≡ map (row_shared texts.now) code.old }
{
    for i in 0..code.len() {
        let row = *code.get(i).unwrap();
        code.set(i, shared_row(row, texts, found));
    }
}

fn shared_row(row: Instr, texts: &Texts, found: &Different<'_>) -> Instr
    requires different { found.now.texts ≡ different texts.now }
    requires numbered { IsNumbered found.now }
    ensures { result ≡ row_shared texts.now row }
{
    match row {
        Instr::Print { text } => Instr::Print {
            text: shared_number(text, texts, found),
        },
        other => other,
    }
}

fn shared_number(number: u32, texts: &Texts, found: &Different<'_>) -> u32
    requires different { found.now.texts ≡ different texts.now }
    requires numbered { IsNumbered found.now }
    ensures { result ≡ number_among texts.now number }
{
    match texts.get(u64::from(number)) {
        Some(text) => found.find(text.as_slice()).unwrap_or(number),
        None => number,
    }
}
