//! Uniform scalars, and slots with known regions, that no sets of facts have at goals. What is lost
//! at one goal is carried on to others along a work list, so that few walks over facts are left.
ghost use Rattle.std.specs.Prelude.{
  ◌≡◌,
  ◌+◌,
  ◌*◌,
  ◌<◌,
  ◌≤◌,
  ℕ,
  false,
  not,
  Contains,
  IfOk,
  OnOk,
  Option,
  Some,
  length,
  slice_get,
};
ghost use Rattle.std.specs.List.{list_all};
ghost use Rattle.bit_sets.specs.Bits.{bit_of};
ghost use Rattle.code_parts.specs.Uses.{scalars_in};
ghost use Rattle.node_form.specs.Fits.{Fits, FitsInstr};
ghost use Rattle.node_form.specs.declared.tables.Tables.{Tables as Code};
ghost use Rattle.node_check.specs.Fact.{Fact};
ghost use Rattle.node_check.specs.Settled.{GoesWithin, IsGoodAt, IsKept, IsRight, nones, sizes};
ghost use Rattle.node_check.specs.Strike.{
  AreLeft,
  AreMarks,
  IsChanged,
  IsLost,
  IsLostAt,
  IsMarkAt,
  are_left,
  change_of,
  is_lost,
  mark_at,
  struck,
  taken_up,
};
ghost use Rattle.node_check.specs.Walk.{front_at, goal_of};

use crate::facts::Fact;
use crate::fronts::Front;
use crate::lists::words_of;
use crate::walks::{falls, goal_of};
use bit_sets::BitSet;
use node_form::{ExprOp, Instr, Tables, rows_fit};
use std::alloc::{AllocError, Global};

fn scalar_number(scalar: u32) -> u64
    ensures { result ≡ 2 * scalar }
{
    2 * u64::from(scalar)
}

fn slot_number(slot: u32) -> u64
    ensures { result ≡ 2 * slot + 1 }
{
    2 * u64::from(slot) + 1
}

/// Whether the fact is lost.
pub(crate) fn is_lost(lost: &BitSet, fact: &Fact) -> bool
    ensures { result ≡ is_lost lost.now fact.now }
{
    match *fact {
        Fact::Uniform { scalar } => lost.has(scalar_number(scalar)),
        Fact::Stands { slot, .. } => lost.has(slot_number(slot)),
        _ => false,
    }
}

// ---- what an instruction changes
/// Whether all scalars of the expression are left.
fn are_left(tables: &Tables, lost: &BitSet, expr: u32) -> bool
    ensures { result ≡ are_left tables.now lost.now expr }
{
    for word in words_of(tables, expr) {
        if !is_word_left(lost, word) {
            return false;
        }
    }
    true
}

fn is_word_left(lost: &BitSet, word: &ExprOp) -> bool
    ensures { result
        ≡ list_all (λ scalar. not (bit_of lost.now (2 * scalar))) (scalars_in word.now) }
{
    match *word {
        ExprOp::Scalar(scalar) => !lost.has(scalar_number(scalar)),
        _ => true,
    }
}

/// A number that is lost behind an instruction, or isn't.
#[derive(Clone, Copy)]
struct Change {
    number: u64,
    is_lost: bool,
}

fn change_of(tables: &Tables, lost: &BitSet, row: &Instr) -> Option<Change>
    ensures { result ≡ change_of tables.now lost.now row.now }
{
    let (number, is_lost) = match *row {
        Instr::Set { scalar, expr, .. } => (scalar_number(scalar), !are_left(tables, lost, expr)),
        Instr::Fold { scalar, .. } => (scalar_number(scalar), false),
        Instr::TreeFold { scalar, .. } => (scalar_number(scalar), false),
        Instr::Fix { slot, .. } => (slot_number(slot), false),
        Instr::Formed { slot, from, .. } => (slot_number(slot), lost.has(slot_number(from))),
        _ => return None,
    };
    Some(Change { number, is_lost })
}

fn pass(tables: &Tables, row: &Instr, lost: &mut BitSet)
    ensures { IsChanged lost.old lost.new (change_of tables.now lost.old row.now) }
{
    let Some(Change { number, is_lost }) = change_of(tables, lost, row) else {
        return;
    };
    if is_lost {
        lost.insert(number);
    } else {
        lost.remove(number);
    }
}

// ---- goals
/// What is lost at a goal, and whether some of it is still to be carried on.
#[derive(Drop)]
struct Mark {
    lost: BitSet,
    is_new: bool,
}

fn add(mark: &mut Mark, lost: &BitSet)
    ensures { (code : Code) (at : ℕ) → IsLost code at mark.old.lost → IsLost code at lost.now →
        IsLost code at mark.new.lost }
{
    if !mark.lost.has_all(lost) {
        mark.lost.unite(lost);
        mark.is_new = true;
    }
}

fn add_some(mark: &mut Mark, current: Option<BitSet>)
    ensures { (code : Code) (at : ℕ) → IsLost code at mark.old.lost → IsLostAt code at current →
        IsLost code at mark.new.lost }
{
    if let Some(lost) = current {
        add(mark, &lost);
    }
}

/// What is to be carried on from a goal.
fn taken_up(alloc: Global, mark: &mut Mark) -> Result<Option<BitSet>, AllocError>
    ensures lost { mark.new.lost ≡ mark.old.lost }
    ensures taken { IfOk result (λ taken. taken ≡ taken_up mark.old) }
{
    if !mark.is_new {
        return Ok(None);
    }
    mark.is_new = false;
    Ok(Some(mark.lost.copy(alloc)?))
}

fn enter(
    alloc: Global,
    slot: &mut Option<Mark>,
    current: Option<BitSet>,
) -> Result<Option<BitSet>, AllocError>
    ensures slot { OnOk result ((code : Code) (at : ℕ) → IsMarkAt code at slot.old →
        IsLostAt code at current → IsMarkAt code at slot.new) }
    ensures current { IfOk result (λ next. (code : Code) (at : ℕ) → IsMarkAt code at slot.old →
        IsLostAt code at current → IsLostAt code at next) }
{
    match slot {
        None => Ok(current),
        Some(mark) => {
            add_some(mark, current);
            taken_up(alloc, mark)
        }
    }
}

fn mark_goal(row: &Instr, marks: &mut Vec<Option<Mark>>, lost: &BitSet)
    requires { GoesWithin (length marks.old.items) row.now }
    ensures marks { (code : Code) →
        ((goal : ℕ) → goal_of row.now ≡ Some goal → IsLost code goal lost.now) →
        AreMarks code marks.old.items → AreMarks code marks.new.items }
    ensures many { length marks.new.items ≡ length marks.old.items }
{
    let Some(goal) = goal_of(row) else {
        return;
    };
    if let Some(mark) = &mut marks[goal as usize] {
        add(mark, lost);
    }
}

fn leave(
    tables: &Tables,
    row: &Instr,
    marks: &mut Vec<Option<Mark>>,
    current: Option<BitSet>,
) -> Option<BitSet>
    requires fits { Fits tables.now }
    requires row { FitsInstr tables.now row.now }
    requires many { length marks.old.items ≡ length tables.now.code + 1 }
    ensures marks { (at : ℕ) → slice_get tables.now.code at ≡ Some row.now →
        IsLostAt tables.now at current → AreMarks tables.now marks.old.items →
        AreMarks tables.now marks.new.items }
    ensures current { (at : ℕ) → slice_get tables.now.code at ≡ Some row.now →
        IsLostAt tables.now at current → IsLostAt tables.now (at + 1) result }
    ensures many { length marks.new.items ≡ length marks.old.items }
{
    let mut lost = current?;
    pass(tables, row, &mut lost);
    mark_goal(row, marks, &lost);
    if falls(row) { Some(lost) } else { None }
}

/// Carries on once along all rows what is new at goals.
fn carry(alloc: Global, tables: &Tables, marks: &mut Vec<Option<Mark>>) -> Result<(), AllocError>
    requires fits { Fits tables.now }
    requires many { length marks.old.items ≡ length tables.now.code + 1 }
    requires marks { AreMarks tables.now marks.old.items }
    ensures marks { OnOk result (AreMarks tables.now marks.new.items) }
    ensures many { OnOk result (length marks.new.items ≡ length marks.old.items) }
{
    rows_fit();
    let mut current = None;
    for i in 0..tables.code.len() {
        let row = *tables.code.get(i).unwrap();
        current = enter(alloc, &mut marks[i as usize], current)?;
        current = leave(tables, &row, marks, current);
    }
    Ok(())
}

fn is_any_new(marks: &[Option<Mark>]) -> bool {
    marks.iter().any(|mark| is_mark_new(mark))
}

fn is_mark_new(mark: &Option<Mark>) -> bool {
    match mark {
        None => false,
        Some(mark) => mark.is_new,
    }
}

/// Carries on what is new at goals, until there is no more.
fn carry_all(
    alloc: Global,
    tables: &Tables,
    marks: &mut Vec<Option<Mark>>,
) -> Result<(), AllocError>
    requires fits { Fits tables.now }
    requires many { length marks.old.items ≡ length tables.now.code + 1 }
    requires marks { AreMarks tables.now marks.old.items }
    ensures marks { OnOk result (AreMarks tables.now marks.new.items) }
    ensures many { OnOk result (length marks.new.items ≡ length marks.old.items) }
{
    for _turn in 0..u64::MAX {
        carry(alloc, tables, marks)?;
        if !is_any_new(marks.as_slice()) {
            return Ok(());
        }
    }
    Ok(())
}

// ---- at the start, all that isn't known at a goal is lost there
fn restore(fact: &Fact, lost: &mut BitSet)
    ensures fact { is_lost lost.new fact.now ≡ false }
    ensures others { (other : Fact) → is_lost lost.old other ≡ false →
        is_lost lost.new other ≡ false }
{
    match *fact {
        Fact::Uniform { scalar } => lost.remove(scalar_number(scalar)),
        Fact::Stands { slot, .. } => lost.remove(slot_number(slot)),
        _ => {}
    }
}

fn lost_beside(alloc: Global, tables: &Tables, facts: &[Fact]) -> Result<BitSet, AllocError>
    ensures { IfOk result (λ lost. AreLeft lost facts.now) }
{
    let many = u64::from(tables.scalars).max(tables.slots.len());
    let mut lost = BitSet::full(alloc, many.saturating_mul(2))?;
    for fact in facts {
        restore(fact, &mut lost);
    }
    Ok(lost)
}

fn first_mark(
    alloc: Global,
    tables: &Tables,
    front: &Option<Front>,
) -> Result<Option<Mark>, AllocError>
    ensures { IfOk result (λ mark. (at : ℕ) → IsGoodAt tables.now at front.now →
        IsMarkAt tables.now at mark) }
{
    let Some(front) = front else {
        return Ok(None);
    };
    Ok(Some(Mark {
        lost: lost_beside(alloc, tables, front.facts())?,
        is_new: true,
    }))
}

fn first_marks(
    alloc: Global,
    tables: &Tables,
    fronts: &[Option<Front>],
) -> Result<Vec<Option<Mark>>, AllocError>
    requires { IsRight tables.now fronts.now }
    ensures marks { IfOk result (λ marks. AreMarks tables.now marks.items) }
    ensures many { IfOk result (λ marks. length marks.items ≡ length fronts.now) }
{
    let mut marks = Vec::new(alloc);
    for front in fronts {
        marks.push(first_mark(alloc, tables, front)?)?;
    }
    Ok(marks)
}

// ---- at the end
fn strike(slot: &mut Option<Front>, mark: &Option<Mark>)
    ensures { slot.new ≡ struck mark.now slot.old }
{
    if let Some(Mark { lost, .. }) = mark {
        if let Some(front) = slot {
            front.strike(lost);
        }
    }
}

fn strike_all(fronts: &mut Vec<Option<Front>>, marks: &[Option<Mark>])
    requires { length marks.now ≡ length fronts.old.items }
    ensures each { (at : ℕ) → front_at fronts.new.items at
        ≡ struck (mark_at marks.now at) (front_at fronts.old.items at) }
    ensures many { length fronts.new.items ≡ length fronts.old.items }
{
    for i in 0..fronts.len() {
        strike(&mut fronts[i], &marks[i]);
    }
}

/// Leaves out what no sets of facts have.
pub(crate) fn strike_lost(
    alloc: Global,
    tables: &Tables,
    fronts: &mut Vec<Option<Front>>,
) -> Result<(), AllocError>
    requires fits { Fits tables.now }
    requires kept { IsKept tables.now fronts.old.items }
    ensures kept { OnOk result (IsKept tables.now fronts.new.items) }
    ensures same { OnOk result (nones fronts.new.items ≡ nones fronts.old.items) }
    ensures fewer { OnOk result (sizes fronts.new.items ≤ sizes fronts.old.items) }
{
    let mut marks = first_marks(alloc, tables, fronts.as_slice())?;
    carry_all(alloc, tables, &mut marks)?;
    strike_all(fronts, marks.as_slice());
    Ok(())
}
