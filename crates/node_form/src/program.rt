//! A program: tables that fit.
ghost use Rattle.std.specs.Prelude.{◌≡◌, slice_get};
ghost use Rattle.node_form.specs.Fits.{Fits};
ghost use Rattle.node_form.specs.Touch.{IsTouch};

use crate::tables::Tables;
use crate::touches::{Thing, Touch};
use std::marker::Model;

/// A program for every processor of a grid: tables that fit.
#[derive(Debug, Drop)]
pub struct NodeProgram {
    tables: Tables,
}

impl Model for NodeProgram {
    ghost use Rattle.node_form.specs.declared.tables.Tables.{Tables};
    ghost use Rattle.node_form.specs.Fits.{Fits};

    ghost Value = { Tables };

    ghost view = { λ program. program.tables };

    ghost invariant = { λ program. Fits program.tables };
}

impl NodeProgram {
    /// The program of these tables.
    pub fn of(tables: Tables) -> NodeProgram
        requires { Fits tables }
        ensures { result ≡ tables }
    {
        NodeProgram { tables }
    }

    /// The program's tables.
    pub fn tables(&self) -> &Tables
        ensures same { result.now ≡ self.now }
        ensures fits { Fits self.now }
    {
        &self.tables
    }

    /// The program's tables, taken out of it.
    pub fn into_tables(self) -> Tables
        ensures same { result ≡ self }
        ensures fits { Fits self }
    {
        let NodeProgram { tables } = self;
        tables
    }

    /// What the instruction with number `at` does with the thing, as [`Tables::touches`] says.
    pub fn touches(&self, at: u32, thing: Thing) -> Touch
        ensures { IsTouch self.now (slice_get self.now.code at) thing result }
    {
        self.tables().touches(at, thing)
    }
}
