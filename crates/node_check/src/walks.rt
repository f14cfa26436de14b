//! Walks along all rows, until goals know no less any more.
ghost use Rattle.std.specs.Prelude.{◌≡◌, ◌∷◌, [], ◌+◌, ◌<◌, ◌≤◌, IfOk, OnOk, Option, false, true};
ghost use Rattle.std.specs.Prelude.{length};
ghost use Rattle.node_form.specs.Fits.{Fits, FitsInstr};
ghost use Rattle.node_check.specs.Walk.{
  falls,
  front_entered,
  goal_of,
  here,
  is_new,
  joined,
  loses_some,
  lost_entered,
  begun,
  walked,
};
ghost use Rattle.node_check.specs.Settled.{GoesWithin, IsKept, IsSettled, nones};

use crate::fronts::Front;
use crate::strikes::strike_lost;
use node_form::{Instr, Tables, rows_fit};
use std::alloc::{AllocError, Global};
use std::marker::Model;

/// A walk along all rows.
#[derive(Drop)]
pub(crate) struct Walk {
    fronts: Vec<Option<Front>>,
    current: Option<Front>,
    reached: bool,
    lost: bool,
}

impl Model for Walk {
    ghost use Rattle.node_check.specs.Walk.{Walk};

    ghost Value = { Walk };

    ghost view = { λ walk. record {
      fronts = walk.fronts.items;
      current = walk.current;
      reached = walk.reached;
      lost = walk.lost;
    } };
}

impl Walk {
    ghost use Rattle.node_check.specs.Walk.{begun, entered, joined_at, left, passed, walked};

    /// A walk that begins.
    fn new(fronts: Vec<Option<Front>>) -> Walk
        ensures { result ≡ begun fronts.items }
    {
        Walk {
            fronts,
            current: None,
            reached: false,
            lost: false,
        }
    }

    /// What is known in front of a row, where it is a goal too.
    fn enter(&mut self, alloc: Global, at: usize) -> Result<(), AllocError>
        requires { at < length self.old.fronts }
        ensures { OnOk result (self.new ≡ entered at self.old) }
    {
        let current = self.current.take();
        let Entered { current, lost } = enter_slot(alloc, &mut self.fronts[at], current)?;
        self.current = current;
        if lost {
            self.lost = true;
        }
        Ok(())
    }

    /// What is known behind the row, at its goal too.
    fn leave(&mut self, alloc: Global, tables: &Tables, row: &Instr) -> Result<(), AllocError>
        requires fits { Fits tables.now }
        requires row { FitsInstr tables.now row.now }
        requires many { length self.old.fronts ≡ length tables.now.code + 1 }
        ensures { OnOk result (self.new ≡ left tables.now row.now self.old) }
    {
        match self.current.take() {
            None => Ok(()),
            Some(front) => {
                let behind = front.behind(alloc, tables, row)?;
                self.pass(alloc, row, behind)
            }
        }
    }

    fn pass(&mut self, alloc: Global, row: &Instr, point: Front) -> Result<(), AllocError>
        requires { GoesWithin (length self.old.fronts) row.now }
        ensures { OnOk result (self.new ≡ passed row.now point self.old) }
    {
        if let Some(goal) = goal_of(row) {
            self.join(alloc, goal as usize, &point)?;
        }
        self.current = if falls(row) { Some(point) } else { None };
        Ok(())
    }

    fn join(&mut self, alloc: Global, goal: usize, point: &Front) -> Result<(), AllocError>
        requires { goal < length self.old.fronts }
        ensures { OnOk result (self.new ≡ joined_at goal point.now self.old) }
    {
        let Joined { reached, lost } = join_slot(alloc, &mut self.fronts[goal], point)?;
        if reached {
            self.reached = true;
        }
        if lost {
            self.lost = true;
        }
        Ok(())
    }

    /// All rows.
    fn go(&mut self, alloc: Global, tables: &Tables) -> Result<(), AllocError>
        requires fits { Fits tables.now }
        requires many { length self.old.fronts ≡ length tables.now.code + 1 }
        ensures { OnOk result (self.new ≡ walked tables.now 0 tables.now.code self.old) }
    {
        rows_fit();
        for i in 0..tables.code.len() {
            let row = *tables.code.get(i).unwrap();
            self.enter(alloc, i as usize)?;
            self.leave(alloc, tables, &row)?;
        }
        Ok(())
    }
}

/// What is known in front of a row, and whether a goal there lost a fact.
#[derive(Drop)]
struct Entered {
    current: Option<Front>,
    lost: bool,
}

fn enter_slot(
    alloc: Global,
    slot: &mut Option<Front>,
    current: Option<Front>,
) -> Result<Entered, AllocError>
    ensures front { OnOk result (slot.new ≡ front_entered slot.old current) }
    ensures current { IfOk result (λ entered. entered.current
        ≡ here (front_entered slot.old current) current) }
    ensures lost { IfOk result (λ entered. entered.lost ≡ lost_entered slot.old current) }
{
    match slot {
        None => Ok(Entered {
            current,
            lost: false,
        }),
        Some(front) => {
            let lost = meet_some(alloc, front, current)?;
            let current = Some(front.copy(alloc)?);
            Ok(Entered { current, lost })
        }
    }
}

fn meet_some(alloc: Global, front: &mut Front, current: Option<Front>) -> Result<bool, AllocError>
    ensures front { OnOk result (Option.Some front.new
        ≡ front_entered (Option.Some front.old) current) }
    ensures lost { IfOk result (λ lost. lost ≡ lost_entered (Option.Some front.old) current) }
{
    match current {
        None => Ok(false),
        Some(point) => front.meet(alloc, &point),
    }
}

/// Whether a goal was reached for the first time, and whether it lost a fact.
#[derive(Clone, Copy)]
struct Joined {
    reached: bool,
    lost: bool,
}

fn join_slot(alloc: Global, slot: &mut Option<Front>, point: &Front) -> Result<Joined, AllocError>
    ensures front { OnOk result (slot.new ≡ joined slot.old point.now) }
    ensures reached { IfOk result (λ told. told.reached ≡ is_new slot.old) }
    ensures lost { IfOk result (λ told. told.lost ≡ loses_some slot.old point.now) }
{
    match slot {
        None => {
            *slot = Some(point.copy(alloc)?);
            Ok(Joined {
                reached: true,
                lost: false,
            })
        }
        Some(front) => {
            let lost = front.meet(alloc, point)?;
            Ok(Joined {
                reached: false,
                lost,
            })
        }
    }
}

/// The goal of a jump or a test.
pub(crate) fn goal_of(row: &Instr) -> Option<u32>
    ensures { result ≡ goal_of row.now }
{
    match *row {
        Instr::Jump { goal } => Some(goal),
        Instr::Unless { goal, .. } => Some(goal),
        _ => None,
    }
}

/// Whether the next row may follow.
pub(crate) fn falls(row: &Instr) -> bool
    ensures { result ≡ falls row.now }
{
    match *row {
        Instr::Jump { .. } | Instr::Trap { .. } | Instr::End => false,
        _ => true,
    }
}

/// What is known at goals once no walk changes it any more.
pub(crate) fn settled(alloc: Global, tables: &Tables) -> Result<Vec<Option<Front>>, AllocError>
    requires fits { Fits tables.now }
    requires small { length tables.now.code + length tables.now.slots ≤ 16384 }
    ensures { IfOk result (λ fronts. IsSettled tables.now fronts.items) }
{
    let mut fronts = first_fronts(alloc, tables)?;
    'walks: loop {
        let run = settle(alloc, tables, fronts)?;
        let reached = run.reached;
        fronts = run.fronts;
        if !reached {
            return Ok(fronts);
        }
    }
}

fn first_fronts(alloc: Global, tables: &Tables) -> Result<Vec<Option<Front>>, AllocError>
    requires fits { Fits tables.now }
    requires small { length tables.now.code + length tables.now.slots ≤ 16384 }
    ensures { IfOk result (λ fronts. IsKept tables.now fronts.items) }
{
    let mut fronts = alone(alloc, Front::start(alloc, tables)?)?;
    for _number in 0..tables.code.len() {
        fronts.push(None)?;
    }
    Ok(fronts)
}

fn alone(alloc: Global, front: Front) -> Result<Vec<Option<Front>>, AllocError>
    ensures { IfOk result (λ fronts. fronts.items ≡ Option.Some front ∷ []) }
{
    let mut fronts = Vec::new(alloc);
    fronts.push(Some(front))?;
    Ok(fronts)
}

/// What a walk has found: what is known at goals, whether one was reached for the first time, and
/// whether one lost a fact.
#[derive(Drop)]
struct Run {
    fronts: Vec<Option<Front>>,
    reached: bool,
    lost: bool,
}

fn walk_along(alloc: Global, tables: &Tables, fronts: Vec<Option<Front>>) -> Result<Run, AllocError>
    requires fits { Fits tables.now }
    requires many { length fronts.items ≡ length tables.now.code + 1 }
    ensures fronts { IfOk result (λ run. run.fronts.items
        ≡ (walked tables.now 0 tables.now.code (begun fronts.items)).fronts) }
    ensures reached { IfOk result (λ run. run.reached
        ≡ (walked tables.now 0 tables.now.code (begun fronts.items)).reached) }
    ensures lost { IfOk result (λ run. run.lost
        ≡ (walked tables.now 0 tables.now.code (begun fronts.items)).lost) }
{
    let mut walk = Walk::new(fronts);
    walk.go(alloc, tables)?;
    let Walk {
        fronts,
        reached,
        lost,
        ..
    } = walk;
    Ok(Run {
        fronts,
        reached,
        lost,
    })
}

// Walks until a goal is reached for the first time, or none loses a fact. What else goes along with
// what a walk has lost is struck out before the next one.
fn settle(alloc: Global, tables: &Tables, fronts: Vec<Option<Front>>) -> Result<Run, AllocError>
    requires fits { Fits tables.now }
    requires kept { IsKept tables.now fronts.items }
    ensures kept { IfOk result (λ run. IsKept tables.now run.fronts.items) }
    ensures fewer { IfOk result (λ run. run.reached ≡ true
        → nones run.fronts.items < nones fronts.items) }
    ensures settled { IfOk result (λ run. run.reached ≡ false
        → IsSettled tables.now run.fronts.items) }
{
    let mut now = fronts;
    'turns: loop {
        let run = walk_along(alloc, tables, now)?;
        let reached = run.reached;
        let lost = run.lost;
        now = run.fronts;
        if reached {
            return Ok(Run {
                fronts: now,
                reached: true,
                lost,
            });
        }
        if !lost {
            return Ok(Run {
                fronts: now,
                reached: false,
                lost: false,
            });
        }
        strike_lost(alloc, tables, &mut now)?;
    }
}
