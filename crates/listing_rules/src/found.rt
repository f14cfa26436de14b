//! The row that the fields of a line tell. Whether it is the line's row shows when it is written.
ghost use Rattle.std.specs.Prelude.{◌≡◌, ◌≤◌, [], ◌∷◌, IfOk, Some, slice_get};
ghost use Rattle.listing_rules.specs.Found.{
  array_in,
  axis_in,
  axis_named,
  bounds_in,
  bytes_in,
  component,
  fold_at,
  fold_of,
  grid_in,
  instr_in,
  is_hidden,
  is_stored,
  is_truth,
  item_in,
  made_at,
  made_by,
  made_in,
  mask_at,
  mask_in,
  member_in,
  name_in,
  number_at,
  numbers_in,
  operand_in,
  operator_in,
  rank_in,
  rank_of,
  ranks_in,
  region_in,
  same_of,
  trap_of,
  u32_of,
  vector_at,
  vector_of,
  word_in,
  words_in,
};

use listing_rows::listing_lines::{Field, Keyword, Mark, Name};
use node_form::{
    ArrayDim, ArrayRow, DimRow, ExprOp, Grid3, Instr, Item, Member, RegionForm, SameKind,
};
use std::alloc::{AllocError, Global};
use zpl_nums::{Border, Fold, Op, TrapKind};
use zpl_region::{Dim, Region, Vec3};

// ---- numbers

/// The number, or 0 where it isn't one of 32 bits.
fn u32_of(number: i64) -> u32
    ensures { result ≡ u32_of number }
{
    if 0 <= number && number <= 4_294_967_295 {
        number as u32
    } else {
        0
    }
}

/// The number with this place, or 0.
fn component(numbers: &[i64], at: usize) -> i64
    ensures { result ≡ component numbers.now at }
{
    numbers.get(at).copied().unwrap_or(0)
}

fn vector_of(numbers: &[i64]) -> Vec3
    ensures { result ≡ vector_of numbers.now }
{
    [
        component(numbers, 0),
        component(numbers, 1),
        component(numbers, 2),
    ]
}

/// The numbers of the field with this place, or none.
fn numbers_at(fields: &[Field], at: usize) -> &[i64]
    ensures { result.now ≡ numbers_in (slice_get fields.now at) }
{
    match fields.get(at) {
        Some(Field::Numbers(_, numbers)) => numbers.as_slice(),
        _ => &[],
    }
}

pub(crate) fn number_at(fields: &[Field], at: usize) -> u32
    ensures { result ≡ number_at fields.now at }
{
    u32_of(component(numbers_at(fields, at), 0))
}

fn vector_at(fields: &[Field], at: usize) -> Vec3
    ensures { result ≡ vector_at fields.now at }
{
    vector_of(numbers_at(fields, at))
}

fn mask_at(fields: &[Field], at: usize) -> Option<u32>
    ensures { result ≡ mask_at fields.now at }
{
    match fields.get(at) {
        Some(Field::Numbers(_, numbers)) => Some(u32_of(component(numbers.as_slice(), 0))),
        _ => None,
    }
}

// ---- names

fn name_at(fields: &[Field], at: usize) -> Name
    ensures { result ≡ name_in (slice_get fields.now at) }
{
    match fields.get(at) {
        Some(Field::Name(name)) => *name,
        _ => Name::Minus,
    }
}

fn fold_of(name: Name) -> Fold
    ensures { result ≡ fold_of name }
{
    match name {
        Name::Sum => Fold::Sum,
        Name::Prod => Fold::Prod,
        Name::Max => Fold::Max,
        Name::Min => Fold::Min,
        Name::All => Fold::All,
        _ => Fold::Any,
    }
}

fn fold_at(fields: &[Field], at: usize) -> Fold
    ensures { result ≡ fold_at fields.now at }
{
    fold_of(name_at(fields, at))
}

fn same_of(name: Name) -> SameKind
    ensures { result ≡ same_of name }
{
    match name {
        Name::Part => SameKind::Part,
        _ => SameKind::Flood,
    }
}

fn is_truth(name: Name) -> bool
    ensures { result ≡ is_truth name }
{
    matches!(name, Name::Truth)
}

fn trap_of(number: u32) -> TrapKind
    ensures { result ≡ trap_of number }
{
    if number < 2 {
        TrapKind::DivideByZero
    } else if number < 3 {
        TrapKind::OutsideStorage
    } else if number < 4 {
        TrapKind::RegionLimit
    } else {
        TrapKind::RegionMismatch
    }
}

// ---- dimensions

fn bounds_at(fields: &[Field], at: usize) -> Dim
    ensures { result ≡ bounds_in (slice_get fields.now at) }
{
    match fields.get(at) {
        None => Dim::Range {
            lo: 0,
            hi: 0,
            step: 1,
            align: 0,
        },
        Some(Field::Numbers(_, numbers)) => bounds_of(numbers.as_slice()),
        Some(Field::Name(_) | Field::Bytes(_)) => Dim::Flood,
    }
}

fn bounds_of(numbers: &[i64]) -> Dim
    ensures { result ≡ Dim.Range (component numbers.now 0) (component numbers.now 1)
        (component numbers.now 2) (component numbers.now 3) }
{
    Dim::Range {
        lo: component(numbers, 0),
        hi: component(numbers, 1),
        step: component(numbers, 2),
        align: component(numbers, 3),
    }
}

fn axis_named(name: Name) -> ArrayDim
    ensures { result ≡ axis_named name }
{
    match name {
        Name::Minus => ArrayDim::Range {
            lo: 0,
            hi: 0,
            low: 0,
            high: 0,
        },
        _ => ArrayDim::Star,
    }
}

fn axis_of(numbers: &[i64]) -> ArrayDim
    ensures { result ≡ ArrayDim.Range (component numbers.now 0) (component numbers.now 1)
        (component numbers.now 2) (component numbers.now 3) }
{
    ArrayDim::Range {
        lo: component(numbers, 0),
        hi: component(numbers, 1),
        low: component(numbers, 2),
        high: component(numbers, 3),
    }
}

fn axis_at(fields: &[Field], at: usize) -> ArrayDim
    ensures { result ≡ axis_in (slice_get fields.now at) }
{
    match fields.get(at) {
        Some(Field::Numbers(_, numbers)) => axis_of(numbers.as_slice()),
        Some(Field::Name(name)) => axis_named(*name),
        Some(Field::Bytes(_)) | None => ArrayDim::Range {
            lo: 0,
            hi: 0,
            low: 0,
            high: 0,
        },
    }
}

fn made_by(mark: Mark, numbers: &[i64]) -> DimRow
    ensures { result ≡ made_by mark numbers.now }
{
    match mark {
        Mark::Span => DimRow::Span(u32_of(component(numbers, 0)), u32_of(component(numbers, 1))),
        _ => DimRow::Copied(u32_of(component(numbers, 0))),
    }
}

fn made_at(fields: &[Field], at: usize) -> DimRow
    requires { at ≤ 3 }
    ensures { result ≡ made_at fields.now at }
{
    if at + 1 < fields.len() {
        made_in(fields, at)
    } else {
        DimRow::Star
    }
}

fn made_in(fields: &[Field], at: usize) -> DimRow
    ensures { result ≡ made_in (slice_get fields.now at) }
{
    match fields.get(at) {
        Some(Field::Numbers(mark, numbers)) => made_by(*mark, numbers.as_slice()),
        _ => DimRow::Star,
    }
}

// ---- arrays

fn is_hidden(name: Name) -> bool
    ensures { result ≡ is_hidden name }
{
    matches!(name, Name::Minus | Name::MinusStar)
}

fn is_stored(fields: &[Field]) -> bool
    ensures { result ≡ is_stored (slice_get fields.now 0) }
{
    match fields.first() {
        Some(Field::Name(name)) => !is_hidden(*name),
        _ => true,
    }
}

/// How many there are, up to four.
fn rank_of(count: usize) -> u8
    ensures { result ≡ rank_of count }
{
    count.min(4) as u8
}

pub(crate) fn array_in(fields: &[Field]) -> ArrayRow
    ensures { result ≡ array_in fields.now }
{
    ArrayRow {
        rank: rank_of(fields.len()),
        stored: is_stored(fields),
        dims: [axis_at(fields, 0), axis_at(fields, 1), axis_at(fields, 2)],
    }
}

// ---- words of expressions

fn operator_in(name: Name) -> ExprOp
    ensures { result ≡ operator_in name }
{
    match name {
        Name::Plus => ExprOp::Pair(Op::Add),
        Name::Minus => ExprOp::Pair(Op::Sub),
        Name::Star => ExprOp::Pair(Op::Mul),
        Name::Slash => ExprOp::Pair(Op::Div),
        Name::Percent => ExprOp::Pair(Op::Rem),
        Name::Equal => ExprOp::Pair(Op::Eq),
        Name::NotEqual => ExprOp::Pair(Op::Ne),
        Name::Less => ExprOp::Pair(Op::Lt),
        Name::LessEqual => ExprOp::Pair(Op::Le),
        Name::Greater => ExprOp::Pair(Op::Gt),
        Name::GreaterEqual => ExprOp::Pair(Op::Ge),
        Name::And => ExprOp::Pair(Op::And),
        Name::Or => ExprOp::Pair(Op::Or),
        Name::Max => ExprOp::Pair(Op::Max),
        Name::Min => ExprOp::Pair(Op::Min),
        Name::Neg => ExprOp::Neg,
        Name::Not => ExprOp::Not,
        _ => ExprOp::Abs,
    }
}

fn operand_in(mark: Mark, numbers: &[i64]) -> ExprOp
    ensures { result ≡ operand_in mark numbers.now }
{
    let first = component(numbers, 0);
    match mark {
        Mark::Scalar => ExprOp::Scalar(u32_of(first)),
        Mark::Here => ExprOp::Here(u32_of(first)),
        Mark::Shifted => ExprOp::Shifted(u32_of(first), shift_of(numbers)),
        Mark::Cell => ExprOp::Cell(u32_of(first)),
        Mark::Coord => ExprOp::Coord(u32_of(first).min(4) as u8),
        _ => ExprOp::Const(first),
    }
}

/// The vector behind the first number.
fn shift_of(numbers: &[i64]) -> Vec3
    ensures { result
        ≡ component numbers.now 1 ∷ component numbers.now 2 ∷ component numbers.now 3 ∷ [] }
{
    [
        component(numbers, 1),
        component(numbers, 2),
        component(numbers, 3),
    ]
}

fn word_in(field: &Field) -> ExprOp
    ensures { result ≡ word_in field.now }
{
    match field {
        Field::Name(name) => operator_in(*name),
        Field::Numbers(mark, numbers) => operand_in(*mark, numbers.as_slice()),
        Field::Bytes(_) => ExprOp::Abs,
    }
}

pub(crate) fn words_in(alloc: Global, fields: &[Field]) -> Result<Vec<ExprOp>, AllocError>
    ensures { IfOk result (λ words. words.items ≡ words_in fields.now) }
{
    fields.iter().map(|field| word_in(field)).collect(alloc)
}

// ---- the other rows

pub(crate) fn bytes_in(fields: &[Field]) -> &[u8]
    ensures { result.now ≡ bytes_in (slice_get fields.now 0) }
{
    match fields.first() {
        Some(Field::Bytes(bytes)) => bytes.as_slice(),
        _ => &[],
    }
}

pub(crate) fn grid_in(fields: &[Field]) -> Grid3
    ensures { result ≡ grid_in fields.now }
{
    [
        number_at(fields, 0),
        number_at(fields, 1),
        number_at(fields, 2),
    ]
}

/// The rank that the field tells, or 4 where it is more.
fn rank_in(field: &Field) -> u8
    ensures { result ≡ rank_in field.now }
{
    match field {
        Field::Numbers(_, numbers) => u32_of(component(numbers.as_slice(), 0)).min(4) as u8,
        _ => 0,
    }
}

pub(crate) fn ranks_in(alloc: Global, fields: &[Field]) -> Result<Vec<u8>, AllocError>
    ensures { IfOk result (λ ranks. ranks.items ≡ ranks_in fields.now) }
{
    fields.iter().map(|field| rank_in(field)).collect(alloc)
}

pub(crate) fn item_in(fields: &[Field]) -> Item
    ensures { result ≡ item_in fields.now }
{
    Item {
        array: number_at(fields, 0),
        slot: number_at(fields, 1),
        shift: vector_at(fields, 2),
    }
}

pub(crate) fn member_in(keyword: Keyword, fields: &[Field]) -> Option<Member>
    ensures { result ≡ member_in keyword fields.now }
{
    let member = match keyword {
        Keyword::Put => Member::Put {
            array: number_at(fields, 0),
            expr: number_at(fields, 1),
            mask: mask_at(fields, 2),
            line: number_at(fields, 3),
        },
        Keyword::Cell => Member::Cell {
            cell: number_at(fields, 0),
            expr: number_at(fields, 1),
            mask: mask_at(fields, 2),
            line: number_at(fields, 3),
        },
        Keyword::Acc => Member::Acc {
            scalar: number_at(fields, 0),
            fold: fold_at(fields, 1),
            expr: number_at(fields, 2),
            mask: mask_at(fields, 3),
            line: number_at(fields, 4),
        },
        Keyword::If => Member::OpenIf {
            expr: number_at(fields, 0),
            mask: mask_at(fields, 1),
            line: number_at(fields, 2),
        },
        Keyword::Else => Member::Otherwise,
        Keyword::Fi => Member::CloseIf,
        Keyword::While => Member::OpenWhile {
            expr: number_at(fields, 0),
            mask: mask_at(fields, 1),
            line: number_at(fields, 2),
        },
        Keyword::Od => Member::CloseWhile,
        Keyword::Repeat => Member::OpenRepeat {
            mask: mask_at(fields, 0),
            line: number_at(fields, 1),
        },
        Keyword::Until => Member::Until {
            expr: number_at(fields, 0),
        },
        _ => return None,
    };
    Some(member)
}

fn region_in(fields: &[Field]) -> Region
    ensures { result ≡ region_in fields.now }
{
    Region {
        rank: rank_of(fields.len().saturating_sub(1)),
        dims: [
            bounds_at(fields, 1),
            bounds_at(fields, 2),
            bounds_at(fields, 3),
        ],
    }
}

fn dims_in(fields: &[Field]) -> Instr
    ensures { Some result ≡ instr_in Keyword.Dims fields.now }
{
    Instr::Dims {
        slot: number_at(fields, 0),
        parts: [made_at(fields, 1), made_at(fields, 2), made_at(fields, 3)],
        line: number_at(fields, fields.len().saturating_sub(1)),
    }
}

fn formed_in(form: RegionForm, fields: &[Field]) -> Instr
    ensures { result ≡ Instr.Formed form (number_at fields.now 0) (number_at fields.now 1)
        (vector_at fields.now 2) (number_at fields.now 3) }
{
    Instr::Formed {
        form,
        slot: number_at(fields, 0),
        from: number_at(fields, 1),
        shift: vector_at(fields, 2),
        line: number_at(fields, 3),
    }
}

fn edge_in(kind: Border, fields: &[Field]) -> Instr
    ensures { result ≡ Instr.Edge kind (number_at fields.now 0) (number_at fields.now 1)
        (vector_at fields.now 2) }
{
    Instr::Edge {
        kind,
        array: number_at(fields, 0),
        slot: number_at(fields, 1),
        shift: vector_at(fields, 2),
    }
}

fn scan_in(fields: &[Field]) -> Instr
    ensures { Some result ≡ instr_in Keyword.Scan fields.now }
{
    Instr::Scan {
        array: number_at(fields, 0),
        slot: number_at(fields, 1),
        fold: fold_at(fields, 2),
        along: number_at(fields, 3).min(4) as u8,
        from: number_at(fields, 4),
        mask: mask_at(fields, 5),
    }
}

fn remap_in(fields: &[Field]) -> Instr
    ensures { Some result ≡ instr_in Keyword.Remap fields.now }
{
    Instr::Remap {
        array: number_at(fields, 0),
        slot: number_at(fields, 1),
        from: number_at(fields, 2),
        parts: [mask_at(fields, 3), mask_at(fields, 4), mask_at(fields, 5)],
    }
}

pub(crate) fn instr_in(keyword: Keyword, fields: &[Field]) -> Option<Instr>
    ensures { result ≡ instr_in keyword fields.now }
{
    let instr = match keyword {
        Keyword::Set => Instr::Set {
            scalar: number_at(fields, 0),
            expr: number_at(fields, 1),
            line: number_at(fields, 2),
        },
        Keyword::Fix => Instr::Fix {
            slot: number_at(fields, 0),
            region: region_in(fields),
        },
        Keyword::Dims => dims_in(fields),
        Keyword::Of => formed_in(RegionForm::Of, fields),
        Keyword::In => formed_in(RegionForm::Inside, fields),
        Keyword::At => formed_in(RegionForm::At, fields),
        Keyword::By => formed_in(RegionForm::By, fields),
        Keyword::Need => Instr::Need {
            slot: number_at(fields, 0),
            array: number_at(fields, 1),
            shift: vector_at(fields, 2),
            line: number_at(fields, 3),
        },
        Keyword::Same => Instr::Same {
            target: number_at(fields, 0),
            source: number_at(fields, 1),
            kind: same_of(name_at(fields, 2)),
            line: number_at(fields, 3),
        },
        Keyword::Fits => Instr::Fits {
            slot: number_at(fields, 0),
            shift: vector_at(fields, 1),
            line: number_at(fields, 2),
        },
        Keyword::Room => Instr::Room {
            array: number_at(fields, 0),
            slot: number_at(fields, 1),
        },
        Keyword::Clear => Instr::Clear {
            array: number_at(fields, 0),
        },
        Keyword::Loop => Instr::Loop {
            slot: number_at(fields, 0),
            group: number_at(fields, 1),
        },
        Keyword::Start => Instr::Start {
            exchange: number_at(fields, 0),
        },
        Keyword::Finish => Instr::Finish {
            exchange: number_at(fields, 0),
        },
        Keyword::Wrap => edge_in(Border::Wrap, fields),
        Keyword::Reflect => edge_in(Border::Reflect, fields),
        Keyword::Flood => Instr::Flood {
            array: number_at(fields, 0),
            target: number_at(fields, 1),
            from: number_at(fields, 2),
            source: number_at(fields, 3),
        },
        Keyword::Part => Instr::Part {
            array: number_at(fields, 0),
            target: number_at(fields, 1),
            fold: fold_at(fields, 2),
            from: number_at(fields, 3),
            source: number_at(fields, 4),
        },
        Keyword::Scan => scan_in(fields),
        Keyword::Remap => remap_in(fields),
        Keyword::Vote => Instr::Vote {
            group: number_at(fields, 0),
        },
        Keyword::Fold => Instr::Fold {
            scalar: number_at(fields, 0),
            fold: fold_at(fields, 1),
        },
        Keyword::TreeVote => Instr::TreeVote {
            group: number_at(fields, 0),
        },
        Keyword::TreeFold => Instr::TreeFold {
            scalar: number_at(fields, 0),
            fold: fold_at(fields, 1),
        },
        Keyword::Print => Instr::Print {
            text: number_at(fields, 0),
        },
        Keyword::Number => Instr::Number {
            expr: number_at(fields, 0),
        },
        Keyword::Truth => Instr::Truth {
            expr: number_at(fields, 0),
        },
        Keyword::Gather => Instr::Gather {
            truth: is_truth(name_at(fields, 0)),
            array: number_at(fields, 1),
            slot: number_at(fields, 2),
        },
        Keyword::Jump => Instr::Jump {
            goal: number_at(fields, 0),
        },
        Keyword::Unless => Instr::Unless {
            expr: number_at(fields, 0),
            goal: number_at(fields, 1),
            line: number_at(fields, 2),
        },
        Keyword::Trap => Instr::Trap {
            kind: trap_of(number_at(fields, 0)),
            line: number_at(fields, 1),
        },
        Keyword::End => Instr::End,
        _ => return None,
    };
    Some(instr)
}
