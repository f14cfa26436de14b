//! What is answered once goals know no less any more.
ghost use Rattle.std.specs.Prelude.{◌≡◌, ◌+◌, ◌<◌, ◌≤◌, IfOk, Option, length};
ghost use Rattle.node_form.specs.Fits.{Fits, FitsInstr};
ghost use Rattle.node_check.specs.Verdict.{
  are_same,
  differs,
  is_unmet,
  judged,
  judged_at,
  no_verdict,
  noted,
  noted_goal,
};
ghost use Rattle.node_check.specs.Walk.{goal_of, here};

use crate::fronts::Front;
use crate::walks::{falls, goal_of};
use node_form::{Instr, Tables, rows_fit};
use std::alloc::{AllocError, Global};

/// What is found so far: the least number that is found unmet, and the most exchanges that are open
/// at once, or 1. `current` is what is known behind the last row, where the next one follows it.
#[derive(Drop)]
pub(crate) struct Verdict {
    pub current: Option<Front>,
    pub least: Option<u32>,
    pub links: u64,
}

/// What is found along all rows.
pub(crate) fn judged(
    alloc: Global,
    tables: &Tables,
    fronts: &[Option<Front>],
) -> Result<Verdict, AllocError>
    requires fits { Fits tables.now }
    requires small { length tables.now.code ≤ 16384 }
    requires many { length fronts.now ≡ length tables.now.code + 1 }
    ensures { IfOk result (λ verdict. verdict
        ≡ judged tables.now fronts.now 0 tables.now.code no_verdict) }
{
    rows_fit();
    let mut verdict = Verdict {
        current: None,
        least: None,
        links: 1,
    };
    for i in 0..tables.code.len() {
        let row = *tables.code.get(i).unwrap();
        verdict = judged_at(alloc, tables, fronts, i as u32, &row, verdict)?;
    }
    Ok(verdict)
}

fn judged_at(
    alloc: Global,
    tables: &Tables,
    fronts: &[Option<Front>],
    at: u32,
    row: &Instr,
    verdict: Verdict,
) -> Result<Verdict, AllocError>
    requires fits { Fits tables.now }
    requires row { FitsInstr tables.now row.now }
    requires small { length tables.now.code ≤ 16384 }
    requires many { length fronts.now ≡ length tables.now.code + 1 }
    requires at { at < length tables.now.code }
    ensures { IfOk result (λ next. next ≡ judged_at tables.now fronts.now at row.now verdict) }
{
    let Verdict {
        current,
        least,
        links,
    } = verdict;
    let slot = &fronts[at as usize];
    let apart = differs(slot, &current);
    let point = here(alloc, slot, current)?;
    let least = noted(apart || is_unmet(tables, row, &point), at, least);
    let Some(front) = point else {
        return Ok(Verdict {
            current: None,
            least,
            links,
        });
    };
    let behind = front.behind(alloc, tables, row)?;
    let least = noted_goal(tables, fronts, row, &behind, least);
    let links = links.max(behind.opened().len() as u64);
    let current = if falls(row) { Some(behind) } else { None };
    Ok(Verdict {
        current,
        least,
        links,
    })
}

fn here(
    alloc: Global,
    slot: &Option<Front>,
    current: Option<Front>,
) -> Result<Option<Front>, AllocError>
    ensures { IfOk result (λ point. point ≡ here slot.now current) }
{
    match slot {
        None => Ok(current),
        Some(front) => Ok(Some(front.copy(alloc)?)),
    }
}

fn differs(slot: &Option<Front>, current: &Option<Front>) -> bool
    ensures { result ≡ differs slot.now current.now }
{
    match slot {
        None => false,
        Some(front) => match current {
            None => false,
            Some(point) => !are_same(front.opened(), point.opened()),
        },
    }
}

fn are_same(one: &[u32], other: &[u32]) -> bool
    ensures { result ≡ are_same one.now other.now }
{
    one == other
}

fn is_unmet(tables: &Tables, row: &Instr, point: &Option<Front>) -> bool
    requires fits { Fits tables.now }
    requires row { FitsInstr tables.now row.now }
    ensures { result ≡ is_unmet tables.now row.now point.now }
{
    match point {
        None => false,
        Some(front) => !front.is_met(tables, row),
    }
}

fn noted(holds: bool, number: u32, least: Option<u32>) -> Option<u32>
    ensures { result ≡ noted holds number least }
{
    if !holds {
        return least;
    }
    match least {
        None => Some(number),
        Some(other) => Some(other.min(number)),
    }
}

fn noted_goal(
    tables: &Tables,
    fronts: &[Option<Front>],
    row: &Instr,
    point: &Front,
    least: Option<u32>,
) -> Option<u32>
    requires { length fronts.now ≡ length tables.now.code + 1 }
    ensures { result ≡ noted_goal tables.now fronts.now (goal_of row.now) point.now least }
{
    let Some(goal) = goal_of(row) else {
        return least;
    };
    let there = u64::from(goal) < tables.code.len();
    let apart = there && differs_from(&fronts[goal as usize], point);
    noted(apart, goal, least)
}

fn differs_from(slot: &Option<Front>, point: &Front) -> bool
    ensures { result ≡ differs slot.now (Option.Some point.now) }
{
    match slot {
        None => false,
        Some(front) => !are_same(front.opened(), point.opened()),
    }
}
