//! The state of a processor, and how it starts.
ghost use Rattle.std.specs.Prelude.{◌≡◌, ◌<◌, [], IfOk};
ghost use Rattle.grid_meaning.specs.Local.{processors, start_local};
ghost use Rattle.grid_meaning.specs.State.{IsLocal};
ghost use Rattle.grid_meaning.specs.Stored.{arrangement_of};
ghost use Rattle.node_local.specs.Standing.{standing_local};
ghost use Rattle.node_local.specs.Workplace.{HasRoom, IsReady};

use crate::changes::Change;
use crate::memories::Memory;
use crate::standings::{Kept, Standing};
use crate::starts::{longest_expression, longest_group, start_slots, start_stores, told_stores};
use grid_meaning::grid_layout::Layout;
use grid_meaning::node_form::NodeProgram;
use grid_meaning::states_are_kept;
use grid_meaning::zpl_nums::End;
use grid_meaning::zpl_region::Region;
use std::alloc::{AllocError, Global};
use std::marker::Model;

/// The state of one processor between its turns.
///
/// Beside the state it has room to work in, taken before the first turn: a stack as deep as the
/// code's longest expression, and a log of changes as long as its longest group. Contracts see both
/// as a [`Workplace`](../specs/Workplace.antt).
#[derive(Drop)]
pub struct Local {
    pub(crate) at: u64,
    pub(crate) made: u64,
    pub(crate) index: u64,
    pub(crate) member: u64,
    pub(crate) flag: Option<u64>,
    pub(crate) ended: Option<End>,
    pub(crate) memory: Memory,
    pub(crate) slots: Vec<Region>,
    pub(crate) kept: Vec<Kept>,
    pub(crate) stack: Vec<i64>,
    pub(crate) log: Vec<Change>,
    pub(crate) logged: usize,
}

impl Model for Local {
    ghost use Rattle.node_local.specs.Workplace.{Workplace};

    ghost Value = { Workplace };

    ghost use Rattle.node_local.specs.Inside.{workplace_of, IsLogged};

    ghost view = { workplace_of };

    ghost invariant = { IsLogged };
}

impl Local {
    /// Processor p of the code's grid before its first turn: its held boxes with zeros, slots
    /// without tuples, and temporaries without places.
    pub fn new(
        alloc: Global,
        code: &NodeProgram,
        layout: &Layout,
        p: u32,
    ) -> Result<Local, AllocError>
        requires layout { layout.now ≡ arrangement_of code.now }
        requires processor { p < processors code.now }
        ensures start { IfOk result (λ made. made.local ≡ start_local code.now p) }
        ensures ready { IfOk result (IsReady code.now p) }
    {
        states_are_kept();
        let _fits = code.tables();
        let local = Local::starting(alloc, code, layout, p)?;
        Ok(local)
    }

    /// The state before the first turn.
    fn starting(
        alloc: Global,
        code: &NodeProgram,
        layout: &Layout,
        p: u32,
    ) -> Result<Local, AllocError>
        requires layout { layout.now ≡ arrangement_of code.now }
        requires processor { p < processors code.now }
        ensures start { IfOk result (λ made. made.local ≡ start_local code.now p) }
        ensures room { IfOk result (HasRoom code.now) }
        ensures quiet { IfOk result (λ made. made.log ≡ []) }
    {
        let tables = code.tables();
        let log = vec![in alloc; Change::Scalar(0, 0); longest_group(tables)]?;
        let logged = log.len();
        Ok(Local {
            at: 0,
            made: 0,
            index: 0,
            member: 0,
            flag: None,
            ended: None,
            memory: Memory {
                scalars: vec![in alloc; 0; tables.scalars as usize]?,
                cells: vec![in alloc; 0; tables.cells as usize]?,
                stores: start_stores(alloc, tables, layout, p)?,
            },
            slots: start_slots(alloc, tables)?,
            kept: Vec::new(alloc),
            stack: vec![in alloc; 0; longest_expression(tables)]?,
            log,
            logged,
        })
    }

    /// Processor p of the code's grid in a state that it may have.
    pub fn restore(
        alloc: Global,
        code: &NodeProgram,
        layout: &Layout,
        p: u32,
        standing: Standing,
    ) -> Result<Local, AllocError>
        requires layout { layout.now ≡ arrangement_of code.now }
        requires processor { p < processors code.now }
        requires state { IsLocal code.now p (standing_local standing) }
        ensures same { IfOk result (λ made. made.local ≡ standing_local standing) }
        ensures ready { IfOk result (IsReady code.now p) }
    {
        let tables = code.tables();
        let log = vec![in alloc; Change::Scalar(0, 0); longest_group(tables)]?;
        let logged = log.len();
        Ok(Local {
            at: standing.at,
            made: standing.made,
            index: standing.index,
            member: standing.member,
            flag: standing.flag,
            ended: standing.ended,
            memory: Memory {
                scalars: standing.scalars.as_slice().to_vec(alloc)?,
                cells: standing.cells.as_slice().to_vec(alloc)?,
                stores: told_stores(alloc, standing.stores.as_slice())?,
            },
            slots: standing.slots.into_vec(),
            kept: standing.kept.into_vec(),
            stack: vec![in alloc; 0; longest_expression(tables)]?,
            log,
            logged,
        })
    }
}
