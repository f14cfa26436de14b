//! The lines of instructions.
ghost use Rattle.std.specs.Prelude.{◌≡◌, ◌++◌, [], ◌∷◌, IfOk, OnOk, Some, map, pos, take};
ghost use Rattle.listing_rows.specs.Fields.{fields_of};
ghost use Rattle.listing_rows.specs.Rows.{
  edge_keyword,
  form_keyword,
  instr_line,
  line_of,
  present,
  same_name,
  shown_name,
  slot_rank,
  trap_number,
};

use crate::fields::{Said, fold_name, front, line_of, push_said};
use crate::rows::slot_rank;
use listing_lines::node_form::{DimRow, Instr, RegionForm, Row, SameKind, Tables};
use listing_lines::{Field, Keyword, Line, Name};
use std::alloc::{AllocError, Global};
use zpl_nums::{Border, TrapKind};
use zpl_region::{Dim, Region};

fn form_keyword(form: RegionForm) -> Keyword
    ensures { result ≡ form_keyword form }
{
    match form {
        RegionForm::Of => Keyword::Of,
        RegionForm::Inside => Keyword::In,
        RegionForm::At => Keyword::At,
        RegionForm::By => Keyword::By,
    }
}

fn edge_keyword(kind: Border) -> Keyword
    ensures { result ≡ edge_keyword kind }
{
    match kind {
        Border::Wrap => Keyword::Wrap,
        Border::Reflect => Keyword::Reflect,
    }
}

fn same_name(kind: SameKind) -> Name
    ensures { result ≡ same_name kind }
{
    match kind {
        SameKind::Part => Name::Part,
        SameKind::Flood => Name::Flood,
    }
}

fn shown_name(truth: bool) -> Name
    ensures { result ≡ shown_name truth }
{
    if truth { Name::Truth } else { Name::Number }
}

fn trap_number(kind: TrapKind) -> u32
    ensures { result ≡ trap_number kind }
{
    match kind {
        TrapKind::DivideByZero => 1,
        TrapKind::OutsideStorage => 2,
        TrapKind::RegionLimit => 3,
        TrapKind::RegionMismatch => 4,
    }
}

fn push_bounds(alloc: Global, fields: &mut Vec<Field>, dims: &[Dim]) -> Result<(), AllocError>
    ensures { OnOk result (fields.new.items
        ≡ fields.old.items ++ fields_of (map Said.Bounds dims.now)) }
{
    for dim in dims {
        push_said(alloc, fields, Said::Bounds(*dim))?;
    }
    Ok(())
}

fn push_made(alloc: Global, fields: &mut Vec<Field>, parts: &[DimRow]) -> Result<(), AllocError>
    ensures { OnOk result (fields.new.items
        ≡ fields.old.items ++ fields_of (map Said.Made parts.now)) }
{
    for part in parts {
        push_said(alloc, fields, Said::Made(*part))?;
    }
    Ok(())
}

fn push_present(
    alloc: Global,
    fields: &mut Vec<Field>,
    arrays: &[Option<u32>],
) -> Result<(), AllocError>
    ensures { OnOk result (fields.new.items
        ≡ fields.old.items ++ fields_of (present arrays.now)) }
{
    for array in arrays {
        if let Some(array) = *array {
            push_said(alloc, fields, Said::Number(array))?;
        }
    }
    Ok(())
}

fn fix_line(alloc: Global, slot: u32, region: &Region) -> Result<Line, AllocError>
    ensures { IfOk result (λ line. line
        ≡ line_of Keyword.Fix (Said.Number slot
        ∷ map Said.Bounds (take region.now.rank region.now.dims))) }
{
    let mut fields = Vec::new(alloc);
    push_said(alloc, &mut fields, Said::Number(slot))?;
    push_bounds(alloc, &mut fields, front(region.rank, &region.dims))?;
    Ok(Line {
        keyword: Keyword::Fix,
        fields: Row::of(fields),
    })
}

fn dims_line(
    alloc: Global,
    rank: u8,
    slot: u32,
    parts: &[DimRow; 3],
    line: u32,
) -> Result<Line, AllocError>
    ensures { IfOk result (λ row. row ≡ line_of Keyword.Dims
        (Said.Number slot ∷ (map Said.Made (take rank parts.now) ++ Said.Number line ∷ []))) }
{
    let mut fields = Vec::new(alloc);
    push_said(alloc, &mut fields, Said::Number(slot))?;
    push_made(alloc, &mut fields, front(rank, parts))?;
    push_said(alloc, &mut fields, Said::Number(line))?;
    Ok(Line {
        keyword: Keyword::Dims,
        fields: Row::of(fields),
    })
}

fn remap_line(
    alloc: Global,
    array: u32,
    slot: u32,
    from: u32,
    parts: &[Option<u32>; 3],
) -> Result<Line, AllocError>
    ensures { IfOk result (λ line. line ≡ line_of Keyword.Remap
        (Said.Number array ∷ Said.Number slot ∷ Said.Number from ∷ present parts.now)) }
{
    let mut fields = Vec::new(alloc);
    push_said(alloc, &mut fields, Said::Number(array))?;
    push_said(alloc, &mut fields, Said::Number(slot))?;
    push_said(alloc, &mut fields, Said::Number(from))?;
    push_present(alloc, &mut fields, parts)?;
    Ok(Line {
        keyword: Keyword::Remap,
        fields: Row::of(fields),
    })
}

/// The line of an instruction in these tables.
pub fn instr_line(alloc: Global, tables: &Tables, instr: &Instr) -> Result<Line, AllocError>
    ensures { IfOk result (λ line. line ≡ instr_line tables.now instr.now) }
{
    use Said::{Called, Mask, Number, Vector};
    match *instr {
        Instr::Set { scalar, expr, line } => {
            let said = [Number(scalar), Number(expr), Number(line)];
            line_of(alloc, Keyword::Set, &said)
        }
        Instr::Fix { slot, region } => fix_line(alloc, slot, &region),
        Instr::Dims { slot, parts, line } => {
            dims_line(alloc, slot_rank(tables, slot), slot, &parts, line)
        }
        Instr::Formed {
            form,
            slot,
            from,
            shift,
            line,
        } => {
            let shift = Vector(slot_rank(tables, slot), shift);
            let said = [Number(slot), Number(from), shift, Number(line)];
            line_of(alloc, form_keyword(form), &said)
        }
        Instr::Need {
            slot,
            array,
            shift,
            line,
        } => {
            let shift = Vector(slot_rank(tables, slot), shift);
            let said = [Number(slot), Number(array), shift, Number(line)];
            line_of(alloc, Keyword::Need, &said)
        }
        Instr::Same {
            target,
            source,
            kind,
            line,
        } => {
            let kind = Called(same_name(kind));
            let said = [Number(target), Number(source), kind, Number(line)];
            line_of(alloc, Keyword::Same, &said)
        }
        Instr::Fits { slot, shift, line } => {
            let shift = Vector(slot_rank(tables, slot), shift);
            line_of(alloc, Keyword::Fits, &[Number(slot), shift, Number(line)])
        }
        Instr::Room { array, slot } => {
            line_of(alloc, Keyword::Room, &[Number(array), Number(slot)])
        }
        Instr::Clear { array } => line_of(alloc, Keyword::Clear, &[Number(array)]),
        Instr::Loop { slot, group } => {
            line_of(alloc, Keyword::Loop, &[Number(slot), Number(group)])
        }
        Instr::Start { exchange } => line_of(alloc, Keyword::Start, &[Number(exchange)]),
        Instr::Finish { exchange } => line_of(alloc, Keyword::Finish, &[Number(exchange)]),
        Instr::Edge {
            kind,
            array,
            slot,
            shift,
        } => {
            let shift = Vector(slot_rank(tables, slot), shift);
            line_of(
                alloc,
                edge_keyword(kind),
                &[Number(array), Number(slot), shift],
            )
        }
        Instr::Flood {
            array,
            target,
            from,
            source,
        } => {
            let said = [Number(array), Number(target), Number(from), Number(source)];
            line_of(alloc, Keyword::Flood, &said)
        }
        Instr::Part {
            array,
            target,
            fold,
            from,
            source,
        } => {
            let fold = Called(fold_name(fold));
            let said = [
                Number(array),
                Number(target),
                fold,
                Number(from),
                Number(source),
            ];
            line_of(alloc, Keyword::Part, &said)
        }
        Instr::Scan {
            array,
            slot,
            fold,
            along,
            from,
            mask,
        } => {
            let fold = Called(fold_name(fold));
            let along = Number(u32::from(along));
            let said = [
                Number(array),
                Number(slot),
                fold,
                along,
                Number(from),
                Mask(mask),
            ];
            line_of(alloc, Keyword::Scan, &said)
        }
        Instr::Remap {
            array,
            slot,
            from,
            parts,
        } => remap_line(alloc, array, slot, from, &parts),
        Instr::Vote { group } => line_of(alloc, Keyword::Vote, &[Number(group)]),
        Instr::Fold { scalar, fold } => {
            line_of(
                alloc,
                Keyword::Fold,
                &[Number(scalar), Called(fold_name(fold))],
            )
        }
        Instr::TreeVote { group } => line_of(alloc, Keyword::TreeVote, &[Number(group)]),
        Instr::TreeFold { scalar, fold } => {
            line_of(
                alloc,
                Keyword::TreeFold,
                &[Number(scalar), Called(fold_name(fold))],
            )
        }
        Instr::Print { text } => line_of(alloc, Keyword::Print, &[Number(text)]),
        Instr::Number { expr } => line_of(alloc, Keyword::Number, &[Number(expr)]),
        Instr::Truth { expr } => line_of(alloc, Keyword::Truth, &[Number(expr)]),
        Instr::Gather { truth, array, slot } => {
            let said = [Called(shown_name(truth)), Number(array), Number(slot)];
            line_of(alloc, Keyword::Gather, &said)
        }
        Instr::Jump { goal } => line_of(alloc, Keyword::Jump, &[Number(goal)]),
        Instr::Unless { expr, goal, line } => {
            let said = [Number(expr), Number(goal), Number(line)];
            line_of(alloc, Keyword::Unless, &said)
        }
        Instr::Trap { kind, line } => {
            line_of(
                alloc,
                Keyword::Trap,
                &[Number(trap_number(kind)), Number(line)],
            )
        }
        Instr::End => line_of(alloc, Keyword::End, &[]),
    }
}
