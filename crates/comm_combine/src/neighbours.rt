//! Exchanges that stand directly one behind the other are one.
ghost use Rattle.std.specs.Prelude.{◌≡◌, None, Some, IfOk, OnOk};
ghost use Rattle.last_writes.specs.of_plan_form.Draft.{written};
ghost use Rattle.comm_combine.specs.Merge.{
  front_pending,
  front_units,
  neighbours_merged,
  pending_behind,
  pending_units,
  pending_with,
  row_units,
};

use crate::marks::is_marked;
use last_writes::node_form::{Instr, Item, Tables};
use last_writes::plan_form::{ItemSet, PlanDraft, goals_of, items_of};
use std::alloc::{AllocError, Global};

/// The plan in which exchanges that stand directly one behind the other are one: the first, with
/// all their items in order, equal ones once. It takes a time linear in the plan and its items.
pub fn merge_neighbours(alloc: Global, plan: Tables) -> Result<Tables, AllocError>
    ensures { IfOk result (λ merged. merged ≡ neighbours_merged plan) }
{
    let goals = goals_of(alloc, &plan.code)?;
    let mut draft = PlanDraft::new(alloc);
    let mut pending = None;
    for i in 0..plan.code.len() {
        let goal = is_marked(&goals, i);
        put_at_goal(alloc, goal, &mut draft, &mut pending)?;
        draft.begin_row()?;
        let row = *plan.code.get(i).unwrap();
        add_row(alloc, &mut draft, &mut pending, &plan, row)?;
    }
    put_pending(alloc, &mut draft, &mut pending)?;
    let merged = draft.into_plan(plan)?;
    Ok(merged)
}

// In front of a goal no exchange may get more items.
fn put_at_goal(
    alloc: Global,
    goal: bool,
    draft: &mut PlanDraft,
    pending: &mut Option<ItemSet>,
) -> Result<(), AllocError>
    ensures written { OnOk result (draft.new ≡ written draft.old (front_units goal pending.old)) }
    ensures pending { OnOk result (pending.new ≡ front_pending goal pending.old) }
{
    if goal {
        return put_pending(alloc, draft, pending);
    }
    Ok(())
}

// Writes the exchange that may get more items, if there is one.
fn put_pending(
    alloc: Global,
    draft: &mut PlanDraft,
    pending: &mut Option<ItemSet>,
) -> Result<(), AllocError>
    ensures written { OnOk result (draft.new ≡ written draft.old (pending_units pending.old)) }
    ensures none { OnOk result (pending.new ≡ None) }
{
    match pending.take() {
        Some(items) => draft.push_exchange(alloc, items.to_row(alloc)?),
        None => Ok(()),
    }
}

fn add_row(
    alloc: Global,
    draft: &mut PlanDraft,
    pending: &mut Option<ItemSet>,
    plan: &Tables,
    row: Instr,
) -> Result<(), AllocError>
    ensures written { OnOk result (draft.new ≡ written draft.old (row_units pending.old row)) }
    ensures pending { OnOk result (pending.new ≡ pending_behind plan.now pending.old row) }
{
    match row {
        Instr::Start { exchange } => add_items(alloc, pending, items_of(plan, exchange)),
        Instr::Finish { .. } => Ok(()),
        other => {
            put_pending(alloc, draft, pending)?;
            draft.push(alloc, other)
        }
    }
}

fn add_items(alloc: Global, pending: &mut Option<ItemSet>, items: &[Item]) -> Result<(), AllocError>
    ensures { OnOk result (pending.new ≡ Some (pending_with pending.old items.now)) }
{
    let mut set = pending.take().unwrap_or(ItemSet::new(alloc));
    set.add_all(items)?;
    *pending = Some(set);
    Ok(())
}
