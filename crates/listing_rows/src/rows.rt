//! The lines of rows.
ghost use Rattle.std.specs.Prelude.{◌≡◌, ◌++◌, [], ◌∷◌, IfOk, OnOk, map, take};
ghost use Rattle.listing_rows.specs.Fields.{fields_of, fold_name};
ghost use Rattle.listing_rows.specs.Rows.{
  array_line,
  array_rank,
  array_said,
  expr_line,
  item_line,
  line_of,
  member_line,
  slot_rank,
  text_line,
  word_rank,
};

use crate::fields::{Said, fold_name, front, line_of, push_said};
use listing_lines::node_form::{ArrayDim, ArrayRow, ExprOp, Item, Member, Row, Tables};
use listing_lines::{Field, Keyword, Line};
use std::alloc::{AllocError, Global};

/// The rank of a slot, or 0 where there is no such slot.
pub(crate) fn slot_rank(tables: &Tables, slot: u32) -> u8
    ensures { result ≡ slot_rank tables.now slot }
{
    match tables.slots.get(u64::from(slot)) {
        Some(rank) => *rank,
        None => 0,
    }
}

/// The rank of an array, or 0 where there is no such array.
fn array_rank(tables: &Tables, array: u32) -> u8
    ensures { result ≡ array_rank tables.now array }
{
    match tables.arrays.get(u64::from(array)) {
        Some(row) => row.rank,
        None => 0,
    }
}

// ---- arrays, texts and expressions

fn dim_said(stored: bool, dim: ArrayDim) -> Said
    ensures { array_said stored (dim ∷ []) ≡ result ∷ [] }
{
    if stored {
        Said::Stored(dim)
    } else {
        Said::Hidden(dim)
    }
}

/// The line of an array.
pub fn array_line(alloc: Global, row: &ArrayRow) -> Result<Line, AllocError>
    ensures { IfOk result (λ line. line ≡ array_line row.now) }
{
    let fields = array_fields(alloc, row.stored, front(row.rank, &row.dims))?;
    Ok(Line {
        keyword: Keyword::Array,
        fields: Row::of(fields),
    })
}

fn array_fields(alloc: Global, stored: bool, dims: &[ArrayDim]) -> Result<Vec<Field>, AllocError>
    ensures { IfOk result (λ fields. fields.items ≡ fields_of (array_said stored dims.now)) }
{
    let mut fields = Vec::new(alloc);
    for dim in dims {
        push_said(alloc, &mut fields, dim_said(stored, *dim))?;
    }
    Ok(fields)
}

/// The line of a text.
pub fn text_line(alloc: Global, bytes: &[u8]) -> Result<Line, AllocError>
    ensures { IfOk result (λ line. line ≡ text_line bytes.now) }
{
    let bytes = Field::Bytes(Row::of(Vec::from_slice(alloc, bytes)?));
    Ok(Line {
        keyword: Keyword::Text,
        fields: Row::of(vec![in alloc; bytes]?),
    })
}

/// The rank of the vector in a word.
fn word_rank(tables: &Tables, word: ExprOp) -> u8
    ensures { result ≡ word_rank tables.now word }
{
    match word {
        ExprOp::Shifted(array, _) => array_rank(tables, array),
        _ => 0,
    }
}

/// The line of an expression in these tables.
pub fn expr_line(alloc: Global, tables: &Tables, words: &[ExprOp]) -> Result<Line, AllocError>
    ensures { IfOk result (λ line. line ≡ expr_line tables.now words.now) }
{
    let mut fields = Vec::new(alloc);
    for word in words {
        let rank = word_rank(tables, *word);
        push_said(alloc, &mut fields, Said::Word(rank, *word))?;
    }
    Ok(Line {
        keyword: Keyword::Expr,
        fields: Row::of(fields),
    })
}

// ---- groups and exchanges

/// The line of a member.
pub fn member_line(alloc: Global, member: &Member) -> Result<Line, AllocError>
    ensures { IfOk result (λ line. line ≡ member_line member.now) }
{
    use Said::{Called, Mask, Number};
    match *member {
        Member::Put {
            array,
            expr,
            mask,
            line,
        } => {
            let said = [Number(array), Number(expr), Mask(mask), Number(line)];
            line_of(alloc, Keyword::Put, &said)
        }
        Member::Cell {
            cell,
            expr,
            mask,
            line,
        } => {
            let said = [Number(cell), Number(expr), Mask(mask), Number(line)];
            line_of(alloc, Keyword::Cell, &said)
        }
        Member::Acc {
            scalar,
            fold,
            expr,
            mask,
            line,
        } => {
            let name = Called(fold_name(fold));
            let said = [Number(scalar), name, Number(expr), Mask(mask), Number(line)];
            line_of(alloc, Keyword::Acc, &said)
        }
        Member::OpenIf { expr, mask, line } => {
            let said = [Number(expr), Mask(mask), Number(line)];
            line_of(alloc, Keyword::If, &said)
        }
        Member::Otherwise => line_of(alloc, Keyword::Else, &[]),
        Member::CloseIf => line_of(alloc, Keyword::Fi, &[]),
        Member::OpenWhile { expr, mask, line } => {
            let said = [Number(expr), Mask(mask), Number(line)];
            line_of(alloc, Keyword::While, &said)
        }
        Member::CloseWhile => line_of(alloc, Keyword::Od, &[]),
        Member::OpenRepeat { mask, line } => {
            line_of(alloc, Keyword::Repeat, &[Mask(mask), Number(line)])
        }
        Member::Until { expr } => line_of(alloc, Keyword::Until, &[Number(expr)]),
    }
}

/// The line of an item in these tables.
pub fn item_line(alloc: Global, tables: &Tables, item: &Item) -> Result<Line, AllocError>
    ensures { IfOk result (λ line. line ≡ item_line tables.now item.now) }
{
    let rank = slot_rank(tables, item.slot);
    let said = [
        Said::Number(item.array),
        Said::Number(item.slot),
        Said::Vector(rank, item.shift),
    ];
    line_of(alloc, Keyword::Item, &said)
}
