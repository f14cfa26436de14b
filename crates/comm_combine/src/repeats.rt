//! Exchanges without the items that are fresh.
ghost use Rattle.std.specs.Prelude.{◌≡◌, IfOk, OnOk, true};
ghost use Rattle.last_writes.specs.of_plan_form.Draft.{written};
ghost use Rattle.comm_combine.specs.Fresh.{
  AreExchanged,
  IsAt,
  IsBehind,
  is_fresh,
  stale_by,
  units_by,
};
ghost use Rattle.comm_combine.specs.Repeats.{exchange_if_any, repeats_dropped};

use crate::fresh::Fresh;
use crate::marks::is_marked;
use last_writes::node_form::{ExchangeRow, Instr, Item, Tables};
use last_writes::plan_form::{PlanDraft, goals_of, items_of};
use std::alloc::{AllocError, Global};

/// The plan in which exchanges have lost the items that are fresh: those that were exchanged in the
/// same stretch, and whose array and slot no row has written since. Exchanges without items are
/// left out. It takes a time linear in the plan, its items and the members of its groups.
pub fn drop_repeats(alloc: Global, plan: Tables) -> Result<Tables, AllocError>
    ensures { IfOk result (λ dropped. dropped ≡ repeats_dropped plan) }
{
    let goals = goals_of(alloc, &plan.code)?;
    let mut draft = PlanDraft::new(alloc);
    let mut fresh = Fresh::new(alloc);
    for i in 0..plan.code.len() {
        forget_at_goal(alloc, is_marked(&goals, i), &mut fresh);
        draft.begin_row()?;
        let row = *plan.code.get(i).unwrap();
        add_row(alloc, &mut draft, &mut fresh, &plan, row, i + 1)?;
    }
    let dropped = draft.into_plan(plan)?;
    Ok(dropped)
}

// In front of a goal nothing is fresh.
fn forget_at_goal(alloc: Global, goal: bool, fresh: &mut Fresh)
    ensures { IsAt goal fresh.old fresh.new }
{
    if goal {
        *fresh = Fresh::new(alloc);
    }
}

fn add_row(
    alloc: Global,
    draft: &mut PlanDraft,
    fresh: &mut Fresh,
    plan: &Tables,
    row: Instr,
    number: u64,
) -> Result<(), AllocError>
    ensures written { OnOk result (draft.new
        ≡ written draft.old (units_by (is_fresh fresh.old) plan.now row)) }
    ensures fresh { OnOk result (IsBehind plan.now fresh.old row number fresh.new) }
{
    match row {
        Instr::Start { exchange } => {
            add_exchange(alloc, draft, fresh, items_of(plan, exchange), number)
        }
        Instr::Finish { .. } => Ok(()),
        Instr::Jump { .. } | Instr::Unless { .. } | Instr::Trap { .. } | Instr::End => {
            *fresh = Fresh::new(alloc);
            draft.push(alloc, row)
        }
        other => {
            fresh.write(plan, other, number)?;
            draft.push(alloc, other)
        }
    }
}

// The exchange of those of the items that aren't fresh, if there are any.
fn add_exchange(
    alloc: Global,
    draft: &mut PlanDraft,
    fresh: &mut Fresh,
    items: &[Item],
    number: u64,
) -> Result<(), AllocError>
    ensures written { OnOk result (draft.new
        ≡ written draft.old (exchange_if_any (stale_by (is_fresh fresh.old) items.now))) }
    ensures fresh { OnOk result
        (AreExchanged fresh.old (stale_by (is_fresh fresh.old) items.now) number fresh.new) }
{
    let stale = fresh.stale_of(alloc, items)?;
    fresh.exchange_all(&stale, number)?;
    push_if_any(alloc, draft, stale)
}

fn push_if_any(alloc: Global, draft: &mut PlanDraft, items: Vec<Item>) -> Result<(), AllocError>
    ensures { OnOk result (draft.new ≡ written draft.old (exchange_if_any items.items)) }
{
    if items.is_empty() {
        return Ok(());
    }
    draft.push_exchange(alloc, ExchangeRow::of(items))
}
