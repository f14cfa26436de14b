//! What the fields of a line say.
ghost use Rattle.std.specs.Prelude.{◌≡◌, ◌++◌, IfOk, OnOk, Some, pos, [], ◌∷◌, take};
ghost use Rattle.listing_rows.specs.Fields.{
  bounds_field,
  field_of,
  fields_of,
  fold_name,
  hidden_field,
  made_field,
  mask_field,
  number_field,
  operator_name,
  stored_field,
  word_field,
};
ghost use Rattle.listing_rows.specs.Rows.{line_of};

use listing_lines::node_form::{ArrayDim, DimRow, ExprOp, Row};
use listing_lines::{Field, Keyword, Line, Mark, Name};
use std::alloc::{AllocError, Global};
use zpl_nums::{Fold, Op};
use zpl_region::{Dim, Vec3};

/// What a field of a line says. A rank tells how many components of a vector there are.
#[derive(Clone, Copy, Debug)]
pub enum Said {
    /// There is no field.
    Nothing,
    Number(u32),
    Mask(Option<u32>),
    Vector(u8, Vec3),
    Called(Name),
    /// A dimension of a region.
    Bounds(Dim),
    /// How a dimension is made.
    Made(DimRow),
    /// A dimension of a stored array.
    Stored(ArrayDim),
    /// A dimension of a temporary.
    Hidden(ArrayDim),
    /// A word of an expression, and the rank of its array.
    Word(u8, ExprOp),
}

pub(crate) fn fold_name(fold: Fold) -> Name
    ensures { result ≡ fold_name fold }
{
    match fold {
        Fold::Sum => Name::Sum,
        Fold::Prod => Name::Prod,
        Fold::Max => Name::Max,
        Fold::Min => Name::Min,
        Fold::All => Name::All,
        Fold::Any => Name::Any,
    }
}

fn operator_name(op: Op) -> Name
    ensures { result ≡ operator_name op }
{
    match op {
        Op::Add => Name::Plus,
        Op::Sub => Name::Minus,
        Op::Mul => Name::Star,
        Op::Div => Name::Slash,
        Op::Rem => Name::Percent,
        Op::Eq => Name::Equal,
        Op::Ne => Name::NotEqual,
        Op::Lt => Name::Less,
        Op::Le => Name::LessEqual,
        Op::Gt => Name::Greater,
        Op::Ge => Name::GreaterEqual,
        Op::And => Name::And,
        Op::Or => Name::Or,
        Op::Max => Name::Max,
        Op::Min => Name::Min,
    }
}

/// A field with one number.
fn one(alloc: Global, mark: Mark, number: i64) -> Result<Field, AllocError>
    ensures { IfOk result (λ field. field ≡ Field.Numbers mark (number ∷ [])) }
{
    Ok(Field::Numbers(mark, Row::of(vec![in alloc; number]?)))
}

/// As many of three items, from the first one on, as the rank says.
pub(crate) fn front<T>(rank: u8, items: &[T; 3]) -> &[T]
    ensures { result.now ≡ take rank items.now }
{
    &items[..usize::from(rank).min(3)]
}

/// The numbers of a vector of this rank.
fn vector(alloc: Global, rank: u8, shift: &Vec3) -> Result<Row<i64>, AllocError>
    ensures { IfOk result (λ numbers. numbers ≡ take rank shift.now) }
{
    Ok(Row::of(Vec::from_slice(alloc, front(rank, shift))?))
}

fn number_field(alloc: Global, number: u32) -> Result<Field, AllocError>
    ensures { IfOk result (λ field. field ≡ number_field number) }
{
    one(alloc, Mark::Plain, i64::from(number))
}

fn mask_field(alloc: Global, mask: Option<u32>) -> Result<Field, AllocError>
    ensures { IfOk result (λ field. field ≡ mask_field mask) }
{
    match mask {
        Some(expr) => number_field(alloc, expr),
        None => Ok(Field::Name(Name::Minus)),
    }
}

fn bounds_field(alloc: Global, dim: Dim) -> Result<Field, AllocError>
    ensures { IfOk result (λ field. field ≡ bounds_field dim) }
{
    match dim {
        Dim::Range {
            lo,
            hi,
            step,
            align,
        } => Ok(Field::Numbers(Mark::Bounds, Row::of(vec![in alloc; lo, hi, step, align]?))),
        Dim::Flood => Ok(Field::Name(Name::Star)),
    }
}

fn made_field(alloc: Global, part: DimRow) -> Result<Field, AllocError>
    ensures { IfOk result (λ field. field ≡ made_field part) }
{
    match part {
        DimRow::Span(low, high) => Ok(Field::Numbers(
            Mark::Span,
            Row::of(vec![in alloc; i64::from(low), i64::from(high)]?),
        )),
        DimRow::Star => Ok(Field::Name(Name::Star)),
        DimRow::Copied(slot) => one(alloc, Mark::Copied, i64::from(slot)),
    }
}

fn stored_field(alloc: Global, dim: ArrayDim) -> Result<Field, AllocError>
    ensures { IfOk result (λ field. field ≡ stored_field dim) }
{
    match dim {
        ArrayDim::Range { lo, hi, low, high } => Ok(Field::Numbers(
            Mark::Range,
            Row::of(vec![in alloc; lo, hi, low, high]?),
        )),
        ArrayDim::Star => Ok(Field::Name(Name::Star)),
    }
}

fn hidden_field(dim: ArrayDim) -> Field
    ensures { result ≡ hidden_field dim }
{
    match dim {
        ArrayDim::Range { .. } => Field::Name(Name::Minus),
        ArrayDim::Star => Field::Name(Name::MinusStar),
    }
}

fn word_field(alloc: Global, rank: u8, word: ExprOp) -> Result<Field, AllocError>
    ensures { IfOk result (λ field. field ≡ word_field rank word) }
{
    match word {
        ExprOp::Const(value) => one(alloc, Mark::Constant, value),
        ExprOp::Scalar(scalar) => one(alloc, Mark::Scalar, i64::from(scalar)),
        ExprOp::Here(array) => one(alloc, Mark::Here, i64::from(array)),
        ExprOp::Shifted(array, shift) => shifted(alloc, array, rank, &shift),
        ExprOp::Cell(cell) => one(alloc, Mark::Cell, i64::from(cell)),
        ExprOp::Coord(dimension) => one(alloc, Mark::Coord, i64::from(dimension)),
        ExprOp::Pair(op) => Ok(Field::Name(operator_name(op))),
        ExprOp::Neg => Ok(Field::Name(Name::Neg)),
        ExprOp::Not => Ok(Field::Name(Name::Not)),
        ExprOp::Abs => Ok(Field::Name(Name::Abs)),
    }
}

/// An array at the index moved by a vector.
fn shifted(alloc: Global, array: u32, rank: u8, shift: &Vec3) -> Result<Field, AllocError>
    ensures { IfOk result (λ field.
        field ≡ Field.Numbers Mark.Shifted (pos array ∷ take rank shift.now)) }
{
    let mut numbers = vec![in alloc; i64::from(array)]?;
    numbers.extend_from_slice(front(rank, shift))?;
    Ok(Field::Numbers(Mark::Shifted, Row::of(numbers)))
}

/// The field that says this, if it is anything.
fn field_of(alloc: Global, said: Said) -> Result<Option<Field>, AllocError>
    ensures { IfOk result (λ field. field ≡ field_of said) }
{
    let field = match said {
        Said::Nothing => return Ok(None),
        Said::Number(number) => number_field(alloc, number)?,
        Said::Mask(mask) => mask_field(alloc, mask)?,
        Said::Vector(rank, shift) => Field::Numbers(Mark::Plain, vector(alloc, rank, &shift)?),
        Said::Called(name) => Field::Name(name),
        Said::Bounds(dim) => bounds_field(alloc, dim)?,
        Said::Made(part) => made_field(alloc, part)?,
        Said::Stored(dim) => stored_field(alloc, dim)?,
        Said::Hidden(dim) => hidden_field(dim),
        Said::Word(rank, word) => word_field(alloc, rank, word)?,
    };
    Ok(Some(field))
}

/// Appends the field that says this, if it is anything.
pub(crate) fn push_said(
    alloc: Global,
    fields: &mut Vec<Field>,
    said: Said,
) -> Result<(), AllocError>
    ensures { OnOk result (fields.new.items ≡ fields.old.items ++ fields_of (said ∷ [])) }
{
    if let Some(field) = field_of(alloc, said)? {
        fields.push(field)?;
    }
    Ok(())
}

/// Appends the fields that say this.
pub(crate) fn push_all(
    alloc: Global,
    fields: &mut Vec<Field>,
    said: &[Said],
) -> Result<(), AllocError>
    ensures { OnOk result (fields.new.items ≡ fields.old.items ++ fields_of said.now) }
{
    for part in said {
        push_said(alloc, fields, *part)?;
    }
    Ok(())
}

/// The line with this keyword whose fields say this.
pub fn line_of(alloc: Global, keyword: Keyword, said: &[Said]) -> Result<Line, AllocError>
    ensures { IfOk result (λ line. line ≡ line_of keyword said.now) }
{
    let mut fields = Vec::new(alloc);
    push_all(alloc, &mut fields, said)?;
    Ok(Line {
        keyword,
        fields: Row::of(fields),
    })
}
