//! Operators over regions as rows: reductions, partial reductions and floods.
ghost use Rattle.std.specs.Prelude.{◌≡◌, ◌∷◌, [], IfOk, OnOk};
ghost use Rattle.node_form.specs.declared.words.ExprOp.TheVariants.{Here, Scalar};
ghost use Rattle.lower_regions.specs.of_zpl_lowering.Hoist as plain;
ghost use Rattle.lower_regions.specs.of_lower_places.View.{slotted_of};
ghost use Rattle.lower_operators.specs.Code.{Hoists, Leaves};

use crate::rows::{add_room, keep, push_loop, push_plain};
use crate::words::{mask_row, word_row};
use lower_regions::lower_draft::{Draft, FlatMember, FlatRow};
use lower_regions::lower_places::{Numbers, Slotted};
use node_form::{ExprOp, ExprRow, Instr};
use std::alloc::AllocError;
use zpl_nums::{Fold, unit};

/// Appends the rows of a reduction of an expression over the current region: the scalar begins with
/// the unit, takes the values in each block, and is joined. Gives the scalar.
pub fn fold_over(
    draft: &mut Draft,
    numbers: &Numbers,
    line: u32,
    fold: Fold,
    over: &Slotted,
    operand: ExprRow,
) -> Result<u32, AllocError>
    ensures rows { OnOk result (Hoists
        (λ free hoisted. plain.folding numbers.now line free fold (slotted_of over.now) hoisted)
        draft.old operand draft.new) }
    ensures left { IfOk result (λ scalar. Leaves
        (λ free hoisted. plain.folding numbers.now line free fold (slotted_of over.now) hoisted)
        draft.old operand (Scalar scalar ∷ [])) }
{
    let scalar = draft.add_scalar()?;
    let expr = word_row(draft.alloc(), ExprOp::Const(unit(fold)))?;
    draft.push(FlatRow::Set { scalar, expr, line })?;
    let mask = mask_row(draft.alloc(), numbers, over.mask)?;
    push_loop(
        draft,
        over.slot,
        FlatMember::Acc {
            scalar,
            fold,
            expr: operand,
            mask,
            line,
        },
    )?;
    push_plain(draft, Instr::Fold { scalar, fold })?;
    Ok(scalar)
}

/// Appends the rows of a partial reduction of an expression over a source. Gives the temporary.
pub fn part_fold(
    draft: &mut Draft,
    line: u32,
    fold: Fold,
    over: &Slotted,
    source: &Slotted,
    operand: ExprRow,
) -> Result<u32, AllocError>
    ensures rows { OnOk result (Hoists (λ free hoisted. plain.part_folding line free fold
        (slotted_of over.now) (slotted_of source.now) hoisted) draft.old operand draft.new) }
    ensures left { IfOk result (λ temp. Leaves (λ free hoisted. plain.part_folding line free fold
        (slotted_of over.now) (slotted_of source.now) hoisted) draft.old operand
        (Here temp ∷ [])) }
{
    let from = keep(draft, line, source.slot, source.flood, operand, None)?;
    let array = add_room(draft, over.slot, over.flood)?;
    push_plain(
        draft,
        Instr::Part {
            array,
            target: over.slot,
            fold,
            from,
            source: source.slot,
        },
    )?;
    Ok(array)
}

/// Appends the rows of a flood of an expression over a source. Gives the temporary.
pub fn flood_over(
    draft: &mut Draft,
    line: u32,
    over: &Slotted,
    source: &Slotted,
    operand: ExprRow,
) -> Result<u32, AllocError>
    ensures rows { OnOk result (Hoists (λ free hoisted. plain.flooding line free
        (slotted_of over.now) (slotted_of source.now) hoisted) draft.old operand draft.new) }
    ensures left { IfOk result (λ temp. Leaves (λ free hoisted. plain.flooding line free
        (slotted_of over.now) (slotted_of source.now) hoisted) draft.old operand
        (Here temp ∷ [])) }
{
    let from = keep(draft, line, source.slot, source.flood, operand, None)?;
    let array = add_room(draft, over.slot, over.flood)?;
    push_plain(
        draft,
        Instr::Flood {
            array,
            target: over.slot,
            from,
            source: source.slot,
        },
    )?;
    Ok(array)
}
