//! A flat program: tables that fit, with the rows of one.
ghost use Rattle.std.specs.Prelude.{◌≡◌, Ok, OnOk, OnErr, [], ◌∷◌, slice_get};
ghost use Rattle.grid_meaning.specs.of_node_form.Touch.{IsTouch};
ghost use Rattle.flat_form.specs.Flat.{IsFlat, with_step};
ghost use Rattle.flat_form.specs.Row as flat;
ghost use Rattle.flat_form.specs.Row.{patched};

use grid_meaning::node_form::{Grid3, Instr, Tables, Thing, Touch};
use std::alloc::{AllocError, Global};
use std::marker::Model;

/// The grid of one processor, which a program has before it is made for another one.
const ONE_PROCESSOR: Grid3 = [1, 0, 0];

/// A flat program.
#[derive(Debug, Drop)]
pub struct Flat {
    tables: Tables,
}

impl Model for Flat {
    ghost use Rattle.grid_meaning.specs.of_node_form.declared.tables.Tables.{Tables};
    ghost use Rattle.flat_form.specs.Flat.{IsFlat};

    ghost Value = { Tables };

    ghost view = { λ flat. flat.tables };

    ghost invariant = { λ flat. IsFlat flat.tables };
}

/// The row with another goal, where it has one.
fn with_goal(row: Instr, goal: u32) -> Instr
    ensures { result ≡ flat.with_goal goal row }
{
    match row {
        Instr::Jump { .. } => Instr::Jump { goal },
        Instr::Unless { expr, line, .. } => Instr::Unless { expr, goal, line },
        other => other,
    }
}

impl Flat {
    /// The program without rows, for one processor. It takes no memory, and is never an `Err`.
    pub fn new(alloc: Global) -> Result<Flat, AllocError>
        ensures { result ≡ Ok (record {
          grid = 1 ∷ 0 ∷ 0 ∷ [];
          scalars = 0;
          cells = 0;
          slots = [];
          arrays = [];
          texts = [];
          exprs = [];
          groups = [];
          exchanges = [];
          code = [];
        }) }
    {
        Ok(Flat::of(Tables::new(alloc, ONE_PROCESSOR)))
    }

    /// The program of these tables.
    pub fn of(tables: Tables) -> Flat
        requires { IsFlat tables }
        ensures { result ≡ tables }
    {
        Flat { tables }
    }

    /// The program's tables.
    pub fn tables(&self) -> &Tables
        ensures same { result.now ≡ self.now }
        ensures flat { IsFlat self.now }
    {
        &self.tables
    }

    /// The program's tables, taken out of it.
    pub fn into_tables(self) -> Tables
        ensures same { result ≡ self }
        ensures flat { IsFlat self }
    {
        let Flat { tables } = self;
        tables
    }

    /// Appends a row to the code. For want of memory the program is as it was.
    pub fn push(&mut self, alloc: Global, step: Instr) -> Result<(), AllocError>
        requires { IsFlat (with_step self.old step) }
        ensures appended { OnOk result (self.new ≡ with_step self.old step) }
        ensures unchanged { OnErr result (self.new ≡ self.old) }
    {
        self.tables.code.push(alloc, step)?;
        Ok(())
    }

    /// Gives the jump or `unless` with number `at` another goal. All else is as it was.
    pub fn patch(&mut self, at: u32, goal: u32)
        requires { IsFlat (patched self.old at goal) }
        ensures patched { self.new ≡ patched self.old at goal }
    {
        if let Some(row) = self.tables.code.get(at as u64) {
            let patched = with_goal(*row, goal);
            self.tables.code.set(at as u64, patched);
        }
    }

    /// What the row with number `at` does with the thing, as [`Tables::touches`] says.
    pub fn touches(&self, at: u32, thing: Thing) -> Touch
        ensures { IsTouch self.now (slice_get self.now.code at) thing result }
    {
        self.tables().touches(at, thing)
    }
}
