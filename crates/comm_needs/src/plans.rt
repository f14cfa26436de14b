//! The plan of a flat program.
ghost use Rattle.std.specs.Prelude.{◌≡◌, IfOk, OnOk, map};
ghost use Rattle.plan_form.specs.of_node_form.declared.instructions.Instr.{Instr as Row};
ghost use Rattle.plan_form.specs.Draft.{written};
ghost use Rattle.plan_form.specs.Units.{PlanUnit};
ghost use Rattle.comm_needs.specs.Needs.{needed_alone, loop_with_needs, planned, row_with_needs};

use crate::groups::{is_voted_on, needs_of};
use plan_form::node_form::{ExchangeRow, Grid3, Instr, Tables};
use plan_form::{ItemSet, PlanDraft, items_of};
use std::alloc::{AllocError, Global};

/// The plan of a flat program, for a grid. In front of each loop stands an exchange for each
/// different array and shift that its group reads with a shift, and behind a loop whose group may
/// divide by zero, or has `while` or `repeat`, its vote. All other rows stay. It takes a time
/// linear in the program, each loop counted with the words of its group.
pub fn add_needs(alloc: Global, tables: Tables, grid: &Grid3) -> Result<Tables, AllocError>
    ensures { IfOk result (λ plan. plan ≡ planned grid.now tables) }
{
    let mut draft = PlanDraft::new(alloc);
    for i in 0..tables.code.len() {
        draft.begin_row()?;
        let row = *tables.code.get(i).unwrap();
        add_row(alloc, &mut draft, &tables, row)?;
    }
    let mut plan = draft.into_plan(tables)?;
    let factors = *grid;
    plan.grid = factors;
    Ok(plan)
}

fn add_row(
    alloc: Global,
    draft: &mut PlanDraft,
    tables: &Tables,
    row: Instr,
) -> Result<(), AllocError>
    ensures { OnOk result (draft.new ≡ written draft.old (row_with_needs tables.now row)) }
{
    match row {
        Instr::Loop { slot, group } => add_loop(alloc, draft, tables, slot, group),
        Instr::Start { exchange } => {
            let items = Vec::from_slice(alloc, items_of(tables, exchange))?;
            draft.push_exchange(alloc, ExchangeRow::of(items))
        }
        Instr::Finish { .. } => Ok(()),
        other => draft.push(alloc, other),
    }
}

fn add_loop(
    alloc: Global,
    draft: &mut PlanDraft,
    tables: &Tables,
    slot: u32,
    group: u32,
) -> Result<(), AllocError>
    ensures { OnOk result (draft.new ≡ written draft.old (loop_with_needs tables.now slot group)) }
{
    let needs = needs_of(alloc, tables, slot, group)?;
    add_exchanges(alloc, draft, &needs)?;
    draft.push(alloc, Instr::Loop { slot, group })?;
    if is_voted_on(tables, group) {
        draft.push(alloc, Instr::Vote { group })?;
    }
    Ok(())
}

// An exchange for each item.
fn add_exchanges(alloc: Global, draft: &mut PlanDraft, needs: &ItemSet) -> Result<(), AllocError>
    ensures { OnOk result (draft.new ≡ written draft.old (map needed_alone needs.now)) }
{
    for i in 0..needs.len() {
        let item = needs.get(i).unwrap();
        let items = Vec::from_slice(alloc, &[item])?;
        draft.push_exchange(alloc, ExchangeRow::of(items))?;
    }
    Ok(())
}
