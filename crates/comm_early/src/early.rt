//! Starts moved up, each over the rows that it may cross.
ghost use Rattle.std.specs.Prelude.{◌≡◌, ◌<◌, ◌^◌, ℕ, false, IfOk, OnOk, slice_get, unwrap_or};
ghost use Rattle.last_writes.specs.Last.{noted};
ghost use Rattle.comm_early.specs.Send.{sent_early};
ghost use Rattle.comm_early.specs.Written.{IsAt, IsFlushed, IsSentRow, IsStartSent};

use crate::sent::Sent;
use crate::stretch::Stretch;
use last_writes::flat_passes::number_of;
use last_writes::node_form::{Code, Instr, Tables};
use last_writes::plan_form::{goals_of, items_of};
use std::alloc::{AllocError, Global};

/// The plan in which the starts of each stretch, in their order, have moved up over the rows that
/// they may cross: none of these writes an array or a slot of their items, may trap or is a
/// collective, but for the finishes of other exchanges, where links hold another message. It takes
/// a time linear in the plan, its items, the members of its groups and the words of its
/// expressions.
pub fn send_early(alloc: Global, plan: Tables, links: Option<u32>) -> Result<Tables, AllocError>
    ensures { IfOk result (λ sent. sent ≡ sent_early links plan) }
{
    let count = number_of(plan.code.len())?;
    let goals = goals_of(alloc, &plan.code)?;
    let mut sent = Sent::new(alloc);
    let mut stretch = Stretch::new(alloc, links);
    for i in 0..u64::from(count) {
        put_at_goal(
            alloc,
            is_marked(&goals, i),
            &mut sent,
            &mut stretch,
            &plan.code,
            i,
        )?;
        let row = *plan.code.get(i).unwrap();
        add_row(alloc, &mut sent, &mut stretch, &plan, row, i)?;
    }
    sent.write_to(alloc, &plan.code, u64::from(count))?;
    let mut early = plan;
    early.code = sent.code;
    Ok(early)
}

fn is_marked(goals: &Vec<bool>, row: u64) -> bool
    ensures { result ≡ unwrap_or (slice_get goals.now.items row) false }
{
    goals.get(row as usize).copied().unwrap_or(false)
}

// In front of a goal all rows are written.
fn put_at_goal(
    alloc: Global,
    goal: bool,
    sent: &mut Sent,
    stretch: &mut Stretch,
    code: &Code,
    number: u64,
) -> Result<(), AllocError>
    ensures { OnOk result (IsAt goal code.now sent.old stretch.old number sent.new stretch.new) }
{
    if goal {
        return end_stretch(alloc, sent, stretch, code, number);
    }
    Ok(())
}

fn end_stretch(
    alloc: Global,
    sent: &mut Sent,
    stretch: &mut Stretch,
    code: &Code,
    number: u64,
) -> Result<(), AllocError>
    ensures { OnOk result (IsFlushed code.now sent.old stretch.old number sent.new stretch.new) }
{
    sent.write_to(alloc, code, number)?;
    stretch.forget(alloc);
    Ok(())
}

fn add_row(
    alloc: Global,
    sent: &mut Sent,
    stretch: &mut Stretch,
    plan: &Tables,
    row: Instr,
    number: u64,
) -> Result<(), AllocError>
    requires number { number < 2 ^ 32 }
    requires opened { stretch.old.load.opened < 2 ^ 32 }
    requires starts { stretch.old.load.starts < 2 ^ 32 }
    requires times { (exchange : ℕ) → noted stretch.old.load.times exchange < 2 ^ 32 }
    ensures { OnOk result
        (IsSentRow plan.now row sent.old stretch.old number sent.new stretch.new) }
{
    match row {
        Instr::Start { exchange } => add_start(alloc, sent, stretch, plan, exchange, number),
        Instr::Jump { .. } | Instr::Unless { .. } | Instr::Trap { .. } | Instr::End => {
            end_stretch(alloc, sent, stretch, &plan.code, number + 1)
        }
        other => stretch.note(plan, other, number + 1),
    }
}

// The start of an exchange stands behind the last row that it doesn't cross.
fn add_start(
    alloc: Global,
    sent: &mut Sent,
    stretch: &mut Stretch,
    plan: &Tables,
    exchange: u32,
    number: u64,
) -> Result<(), AllocError>
    requires number { number < 2 ^ 32 }
    requires opened { stretch.old.load.opened < 2 ^ 32 }
    requires starts { stretch.old.load.starts < 2 ^ 32 }
    requires times { (exchange : ℕ) → noted stretch.old.load.times exchange < 2 ^ 32 }
    ensures { OnOk result
        (IsStartSent plan.now exchange sent.old stretch.old number sent.new stretch.new) }
{
    let place = stretch.place_of(exchange, items_of(plan, exchange));
    sent.write_to(alloc, &plan.code, place)?;
    sent.code.push(alloc, Instr::Start { exchange })?;
    stretch.note(plan, Instr::Start { exchange }, number + 1)
}
