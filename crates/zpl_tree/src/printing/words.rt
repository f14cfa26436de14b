//! Appending single words, each with the space or the newline behind it.
ghost use Rattle.std.specs.Prelude.{◌≡◌, ◌++◌, ◌∷◌, [], OnOk};
ghost use Rattle.zpl_tree.specs.Spelling.{fold_words, operator_words, name_words, index_words};
ghost use Rattle.zpl_tree.specs.View.{name_of};
ghost use Rattle.zpl_tree.specs.Word.{Gains, written};
ghost use Rattle.zpl_tree.specs.Word as word;

use crate::names::Name;
use itoa::Buffer;
use std::alloc::AllocError;
use zpl_nums::{Fold, Op};
use zpl_tokens::{Key, Sym};

// A word and the byte behind it.
fn put(text: &mut Vec<u8>, word: &[u8], behind: u8) -> Result<(), AllocError>
    ensures { OnOk result (text.new.items ≡ text.old.items ++ (word.now ++ behind ∷ [])) }
{
    text.extend_from_slice(word)?;
    text.push(behind)?;
    Ok(())
}

#[tactic(auto, unfolding(crate::specs::Word::written))]
pub fn put_symbol(text: &mut Vec<u8>, symbol: Sym) -> Result<(), AllocError>
    ensures { OnOk result (text.new.items ≡ text.old.items ++ written (word.Symbol symbol)) }
{
    let behind = match symbol {
        Sym::Semicolon => b'\n',
        _ => b' ',
    };
    put(text, symbol.text().as_bytes(), behind)
}

#[tactic(auto, unfolding(crate::specs::Word::written))]
pub fn put_keyword(text: &mut Vec<u8>, key: Key) -> Result<(), AllocError>
    ensures { OnOk result (text.new.items ≡ text.old.items ++ written (word.Keyword key)) }
{
    put(text, key.text().as_bytes(), b' ')
}

#[tactic(auto, unfolding(crate::specs::Word::written))]
pub fn put_name(text: &mut Vec<u8>, name: &Name<'_>) -> Result<(), AllocError>
    ensures { OnOk result (Gains text.old.items text.new.items (name_words (name_of name.now))) }
{
    put(text, name.text, b' ')
}

#[tactic(auto, unfolding(crate::specs::Word::written))]
pub fn put_number(text: &mut Vec<u8>, number: i64) -> Result<(), AllocError>
    ensures { OnOk result (text.new.items ≡ text.old.items ++ written (word.Number number)) }
{
    let mut buffer = Buffer::new();
    put(text, buffer.format(number).as_bytes(), b' ')
}

#[tactic(auto, unfolding(crate::specs::Word::written))]
pub fn put_string(text: &mut Vec<u8>, bytes: &[u8]) -> Result<(), AllocError>
    ensures { OnOk result (text.new.items ≡ text.old.items ++ written (word.Str bytes.now)) }
{
    text.push(b'"')?;
    text.extend_from_slice(bytes)?;
    put(text, b"\"", b' ')
}

#[tactic(auto, unfolding(crate::specs::Word::written))]
pub fn put_ditto(text: &mut Vec<u8>) -> Result<(), AllocError>
    ensures { OnOk result (text.new.items ≡ text.old.items ++ written word.Ditto) }
{
    put(text, b"\"", b' ')
}

pub fn put_index(text: &mut Vec<u8>, dimension: u8) -> Result<(), AllocError>
    ensures { OnOk result (Gains text.old.items text.new.items (index_words dimension)) }
{
    let key = match dimension {
        1 => Key::Index1,
        2 => Key::Index2,
        _ => Key::Index3,
    };
    put_keyword(text, key)
}

pub fn put_fold(text: &mut Vec<u8>, fold: Fold) -> Result<(), AllocError>
    ensures { OnOk result (Gains text.old.items text.new.items (fold_words fold)) }
{
    match fold {
        Fold::Sum => put_symbol(text, Sym::Plus),
        Fold::Prod => put_symbol(text, Sym::Star),
        Fold::Max => put_keyword(text, Key::Max),
        Fold::Min => put_keyword(text, Key::Min),
        Fold::All => put_symbol(text, Sym::And),
        Fold::Any => put_symbol(text, Sym::Or),
    }
}

pub fn put_operator(text: &mut Vec<u8>, op: Op) -> Result<(), AllocError>
    ensures { OnOk result (Gains text.old.items text.new.items (operator_words op)) }
{
    match op {
        Op::Add => put_symbol(text, Sym::Plus),
        Op::Sub => put_symbol(text, Sym::Minus),
        Op::Mul => put_symbol(text, Sym::Star),
        Op::Div => put_symbol(text, Sym::Slash),
        Op::Rem => put_symbol(text, Sym::Percent),
        Op::Eq => put_symbol(text, Sym::Equal),
        Op::Ne => put_symbol(text, Sym::NotEqual),
        Op::Lt => put_symbol(text, Sym::Less),
        Op::Le => put_symbol(text, Sym::LessEqual),
        Op::Gt => put_symbol(text, Sym::Greater),
        Op::Ge => put_symbol(text, Sym::GreaterEqual),
        Op::And => put_symbol(text, Sym::And),
        Op::Or => put_symbol(text, Sym::Or),
        Op::Max => put_keyword(text, Key::Max),
        Op::Min => put_keyword(text, Key::Min),
    }
}
