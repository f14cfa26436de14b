//! Loops joined one row after another.
ghost use Rattle.std.specs.Prelude.{◌≡◌, ◌==◌, ◌&&◌, [], All, IfOk, List, None, OnOk, Option, Some};
ghost use Rattle.std.specs.Prelude.{if◌then◌else◌, length};
ghost use Rattle.std.specs.List.{list_all};
ghost use Rattle.temp_norm.specs.of_node_form.declared.arrays.Item.{Item as Place};
ghost use Rattle.temp_norm.specs.of_node_form.declared.members.Member.{Member as Part};
ghost use Rattle.temp_norm.specs.of_node_form.declared.instructions.Instr.TheVariants as instr;
ghost use Rattle.temp_norm.specs.of_node_form.declared.tables.Tables.{Tables as Code};
ghost use Rattle.temp_norm.specs.of_node_form.Fits.{Fits, FitsInstr};
ghost use Rattle.bound_check.specs.Writes.{all_noted};
ghost use Rattle.plan_form.specs.Goals.{AreGoals};
ghost use Rattle.temp_norm.specs.of_flat_passes.Draft.{empty_draft};
ghost use Rattle.fuse_contract.specs.Fusing.{Loop, always_lies, fused, last_rows, lies_within};
ghost use Rattle.fuse_contract.specs.Behind.{FitsReference, GoesOn, IsBehind, IsLast};
ghost use Rattle.fuse_contract.specs.Known.{IsKnown};
ghost use Rattle.fuse_contract.specs.Joining.{
  Facts,
  all_totals,
  behind_loop,
  can_take,
  facts_behind,
  front_facts,
  front_rows,
  joins_last,
  last_with,
  loop_over,
  loop_rows,
  no_facts,
  no_numbers,
  row_rows,
  uses_of,
};

use crate::grown::{NumberSet, UsedNumbers, totals_of};
use crate::known::Known;
use crate::uses::{GroupUses, uses_of};
use bound_check::{Writes, is_decided};
use plan_form::{goals_of, members_of};
use std::alloc::{AllocError, Global};
use temp_norm::flat_passes::{Draft, NewNumbers};
use temp_norm::node_form::{Instr, Item, Member, Rows, Tables};

/// A loop that others may still join: its slot, its members, and what these use.
#[derive(Drop)]
pub(crate) struct Grown {
    pub slot: u32,
    pub members: Vec<Member>,
    pub used: UsedNumbers,
}

impl Grown {
    /// Whether a loop over the slot may join it, by what the two groups use.
    fn can_take(&self, tables: &Tables, totals: &NumberSet, slot: u32, uses: &GroupUses) -> bool
        requires totals { totals.now ≡ all_totals tables.now }
        ensures { result
            ≡ ((self.now.slot == slot) && can_take tables.now self.now.used uses.now) }
    {
        self.slot == slot && self.used.can_take(tables, totals, uses)
    }
}

/// The rows that are written so far, the references that are known behind them, and the loop behind
/// them that others may still join.
#[derive(Drop)]
pub(crate) struct Walk {
    pub draft: Draft,
    pub known: Known,
    pub last: Option<Grown>,
}

/// The tables in which a loop that stands directly behind another one over the same slot joins it,
/// where their groups can be joined, and where each of its references is known to lie within its
/// array before the first loop. The time is linear in the rows, each loop counted with the members
/// of its group and their words, and each of its references with the `fix` rows of its slot.
pub fn fuse(alloc: Global, tables: Tables) -> Result<Tables, AllocError>
    requires { Fits tables }
    ensures { IfOk result (λ made. made ≡ fused tables) }
{
    let mut made = tables;
    let Draft { code, groups } = joined(alloc, &made)?;
    made.code = code;
    made.groups = groups;
    Ok(made)
}

fn joined(alloc: Global, tables: &Tables) -> Result<Draft, AllocError>
    requires { Fits tables.now }
    ensures { IfOk result (λ draft. draft
        ≡ record { code = (fused tables.now).code; groups = (fused tables.now).groups }) }
{
    let writes = Writes::of(alloc, tables)?;
    let totals = totals_of(alloc, tables)?;
    let goals = goals_of(alloc, &tables.code)?;
    joined_by(alloc, tables, &writes, &totals, goals.as_slice())
}

fn joined_by(
    alloc: Global,
    tables: &Tables,
    writes: &Writes,
    totals: &NumberSet,
    goals: &[bool],
) -> Result<Draft, AllocError>
    requires fits { Fits tables.now }
    requires writes { writes.now ≡ all_noted (length tables.now.slots) tables.now.code }
    requires totals { totals.now ≡ all_totals tables.now }
    requires goals { AreGoals tables.now.code goals.now }
    ensures { IfOk result (λ draft. draft
        ≡ record { code = (fused tables.now).code; groups = (fused tables.now).groups }) }
{
    let mut walk = begin(alloc);
    join_all(alloc, tables, writes, totals, goals, &mut walk)?;
    let Walk { draft, .. } = walk;
    Ok(draft)
}

fn join_all(
    alloc: Global,
    tables: &Tables,
    writes: &Writes,
    totals: &NumberSet,
    goals: &[bool],
    walk: &mut Walk,
) -> Result<(), AllocError>
    requires fits { Fits tables.now }
    requires writes { writes.now ≡ all_noted (length tables.now.slots) tables.now.code }
    requires totals { totals.now ≡ all_totals tables.now }
    requires goals { AreGoals tables.now.code goals.now }
    requires draft { walk.old.draft ≡ empty_draft }
    requires behind { IsBehind tables.now walk.old no_facts }
    ensures { OnOk result (walk.new.draft
        ≡ record { code = (fused tables.now).code; groups = (fused tables.now).groups }) }
{
    let mut numbers = NewNumbers::new(alloc);
    for i in 0..tables.code.len() {
        forget_at_goal(alloc, goals[i as usize], walk)?;
        numbers.note(walk.draft.code.len())?;
        let row = *tables.code.get(i).unwrap();
        add_row(alloc, tables, writes, totals, row, walk)?;
    }
    push_last(alloc, walk)?;
    walk.draft.move_goals(&numbers)
}

fn begin(alloc: Global) -> Walk
    ensures draft { result.draft ≡ empty_draft }
    ensures behind { (code : Code) → IsBehind code result no_facts }
{
    Walk {
        draft: Draft::new(alloc),
        known: Known::new(alloc),
        last: None,
    }
}

// In front of a goal nothing is known, and no loop may be joined any more.
fn forget_at_goal(alloc: Global, goal: bool, walk: &mut Walk) -> Result<(), AllocError>
    ensures { OnOk result ((code : Code) →
        GoesOn code walk.old walk.new (front_rows goal) (front_facts goal)) }
{
    if !goal {
        return Ok(());
    }
    push_last(alloc, walk)?;
    walk.known = Known::new(alloc);
    Ok(())
}

// Writes the loop that others could join, if there is one.
fn push_last(alloc: Global, walk: &mut Walk) -> Result<(), AllocError>
    ensures { OnOk result ((code : Code) → GoesOn code walk.old walk.new
        (λ facts. last_rows facts.last) (λ facts. record facts { last = None })) }
{
    match walk.last.take() {
        Some(grown) => walk
            .draft
            .push_loop(alloc, grown.slot, grown.members.as_slice()),
        None => Ok(()),
    }
}

// Writes the last loop, if there is one and the next one doesn't join it.
fn push_unless(alloc: Global, joined: bool, walk: &mut Walk) -> Result<(), AllocError>
    ensures { OnOk result ((code : Code) → GoesOn code walk.old walk.new
        (λ facts. if joined then [] else last_rows facts.last)
        (λ facts. record facts { last = (if joined then facts.last else None) })) }
{
    if joined {
        return Ok(());
    }
    push_last(alloc, walk)
}

fn add_row(
    alloc: Global,
    tables: &Tables,
    writes: &Writes,
    totals: &NumberSet,
    row: Instr,
    walk: &mut Walk,
) -> Result<(), AllocError>
    requires fits { Fits tables.now }
    requires row { FitsInstr tables.now row }
    requires writes { writes.now ≡ all_noted (length tables.now.slots) tables.now.code }
    requires totals { totals.now ≡ all_totals tables.now }
    ensures { OnOk result (GoesOn tables.now walk.old walk.new
        (λ facts. row_rows tables.now facts row) (λ facts. facts_behind tables.now facts row)) }
{
    match row {
        Instr::Loop { slot, group } => add_loop(alloc, tables, writes, totals, slot, group, walk),
        other => {
            push_last(alloc, walk)?;
            walk.known.pass(alloc, other)?;
            walk.draft.push(alloc, other)
        }
    }
}

fn add_loop(
    alloc: Global,
    tables: &Tables,
    writes: &Writes,
    totals: &NumberSet,
    slot: u32,
    group: u32,
    walk: &mut Walk,
) -> Result<(), AllocError>
    requires fits { Fits tables.now }
    requires row { FitsInstr tables.now (instr.Loop slot group) }
    requires writes { writes.now ≡ all_noted (length tables.now.slots) tables.now.code }
    requires totals { totals.now ≡ all_totals tables.now }
    ensures { OnOk result (GoesOn tables.now walk.old walk.new
        (λ facts. loop_rows tables.now facts (loop_over tables.now slot group))
        (λ facts. behind_loop tables.now facts (loop_over tables.now slot group))) }
{
    let members = members_of(tables, group);
    let uses = uses_of(alloc, tables, slot, members)?;
    let joined = joins(tables, writes, totals, walk, slot, &uses);
    push_unless(alloc, joined, walk)?;
    grow(alloc, &mut walk.last, slot, members, &uses)?;
    walk.known.learn_all(&uses.references)
}

/// Whether a loop over the slot joins the last one, if there is one.
fn joins(
    tables: &Tables,
    writes: &Writes,
    totals: &NumberSet,
    walk: &Walk,
    slot: u32,
    uses: &GroupUses,
) -> bool
    requires fits { Fits tables.now }
    requires references { All (FitsReference tables.now) uses.now.references }
    requires writes { writes.now ≡ all_noted (length tables.now.slots) tables.now.code }
    requires totals { totals.now ≡ all_totals tables.now }
    ensures { (facts : Facts) (group : List Part) → IsBehind tables.now walk.now facts →
        uses.now ≡ uses_of tables.now slot group →
        result ≡ joins_last tables.now facts.known facts.last
        (record { slot = slot; group = group }) }
{
    match &walk.last {
        Some(last) => {
            last.can_take(tables, totals, slot, uses)
                && all_lie_within(tables, writes, &walk.known, &uses.references)
        }
        None => false,
    }
}

fn all_lie_within(tables: &Tables, writes: &Writes, known: &Known, references: &Rows<Item>) -> bool
    requires fits { Fits tables.now }
    requires references { All (FitsReference tables.now) references.now }
    requires writes { writes.now ≡ all_noted (length tables.now.slots) tables.now.code }
    ensures { (items : List Place) → IsKnown known.now items →
        result ≡ list_all (lies_within tables.now items) references.now }
{
    for i in 0..references.len() {
        if !lies_within(tables, writes, known, *references.get(i).unwrap()) {
            return false;
        }
    }
    true
}

fn lies_within(tables: &Tables, writes: &Writes, known: &Known, item: Item) -> bool
    requires fits { Fits tables.now }
    requires reference { FitsReference tables.now item }
    requires writes { writes.now ≡ all_noted (length tables.now.slots) tables.now.code }
    ensures { (items : List Place) → IsKnown known.now items →
        result ≡ lies_within tables.now items item }
{
    known.knows(item) || always_lies(tables, writes, item)
}

fn always_lies(tables: &Tables, writes: &Writes, item: Item) -> bool
    requires fits { Fits tables.now }
    requires reference { FitsReference tables.now item }
    requires writes { writes.now ≡ all_noted (length tables.now.slots) tables.now.code }
    ensures { result ≡ always_lies tables.now item }
{
    let Item { array, slot, shift } = item;
    match tables.arrays.get(u64::from(array)) {
        Some(row) => {
            if !row.stored {
                return false;
            }
            let need = Instr::Need {
                slot,
                array,
                shift,
                line: 0,
            };
            is_decided(tables, writes, need)
        }
        None => false,
    }
}

// The loop joins the last one; or it is the last one from here on, where there is none.
fn grow(
    alloc: Global,
    last: &mut Option<Grown>,
    slot: u32,
    members: &[Member],
    uses: &GroupUses,
) -> Result<(), AllocError>
    ensures { OnOk result ((code : Code) (loop : Option Loop) → IsLast code last.old loop →
        uses.now ≡ uses_of code slot members.now →
        IsLast code last.new
        (Some (last_with code loop (record { slot = slot; group = members.now })))) }
{
    let mut grown = last.take().unwrap_or(no_members(alloc, slot));
    grown.members.extend_from_slice(members)?;
    grown.used.add(uses)?;
    *last = Some(grown);
    Ok(())
}

fn no_members(alloc: Global, slot: u32) -> Grown
    ensures slot { result.slot ≡ slot }
    ensures members { result.members.items ≡ [] }
    ensures used { result.used ≡ no_numbers }
{
    Grown {
        slot,
        members: Vec::new(alloc),
        used: UsedNumbers::new(alloc),
    }
}
