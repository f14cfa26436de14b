//! Rows that several operators over regions have.
ghost use Rattle.std.specs.Prelude.{◌≡◌, ◌∷◌, [], IfOk, OnOk};
ghost use Rattle.node_form.specs.declared.instructions.Instr.TheVariants as instr;
ghost use Rattle.node_form.specs.Expression.{Expression, words_of};
ghost use Rattle.flat_form.specs.Row as row;
ghost use Rattle.lower_regions.specs.of_zpl_lowering.Hoist as plain;
ghost use Rattle.lower_regions.specs.of_lower_draft.Drafted.{grown, pushed, with_temp};
ghost use Rattle.lower_regions.specs.of_lower_draft.Inline.{member_of};
ghost use Rattle.lower_operators.specs.Code.{owning};

use lower_regions::lower_draft::{Draft, FlatMember, FlatRow, Flood};
use node_form::{ExprRow, Instr};
use std::alloc::AllocError;

/// Appends a row that is run at each index of a slot's region, with one member.
pub fn push_loop(draft: &mut Draft, slot: u32, member: FlatMember) -> Result<(), AllocError>
    ensures { OnOk result (draft.new ≡ pushed draft.old (row.Loop slot (member_of member ∷ []))) }
{
    let mut group = Vec::new(draft.alloc());
    group.push(member)?;
    draft.push(FlatRow::Loop { slot, group })
}

/// Appends the row of a plain instruction.
pub fn push_plain(draft: &mut Draft, instr: Instr) -> Result<(), AllocError>
    ensures { OnOk result (draft.new ≡ pushed draft.old (row.Plain instr)) }
{
    draft.push(FlatRow::Plain(instr))
}

/// A temporary over a slot's region, with these flood dimensions, and the row that makes room for
/// it.
pub fn add_room(draft: &mut Draft, slot: u32, flood: Flood) -> Result<u32, AllocError>
    ensures temp { IfOk result (λ temp. temp ≡ draft.old.next.temps) }
    ensures room { OnOk result (draft.new ≡ pushed (with_temp draft.old flood)
        (row.Plain (instr.Room draft.old.next.temps slot))) }
{
    let array = draft.add_temp(flood)?;
    push_plain(draft, Instr::Room { array, slot })?;
    Ok(array)
}

/// A temporary with the values of an expression over a slot's region, which has these flood
/// dimensions.
pub fn keep(
    draft: &mut Draft,
    line: u32,
    slot: u32,
    flood: Flood,
    expr: ExprRow,
    mask: Option<ExprRow>,
) -> Result<u32, AllocError>
    ensures temp { IfOk result (λ temp. temp ≡ draft.old.next.temps) }
    ensures rows { OnOk result ((value : Expression) → expr ≡ words_of value → draft.new
        ≡ grown draft.old (owning 0 (flood ∷ [])
        (plain.kept_rows line draft.old.next.temps slot value mask))) }
{
    let array = add_room(draft, slot, flood)?;
    push_loop(
        draft,
        slot,
        FlatMember::Put {
            array,
            expr,
            mask,
            line,
        },
    )?;
    Ok(array)
}
