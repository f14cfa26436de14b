//! Grids that run.
ghost use Rattle.std.specs.Prelude.{◌≡◌, ◌≤◌, Some, None, IfErr, IfOk};
ghost use Rattle.code_layout.specs.Room.{HasRoom};
ghost use Rattle.grid_links.specs.Network.{empty_network};
ghost use Rattle.grid_meaning.specs.Grid.{IsCapacity};
ghost use Rattle.grid_sim.specs.Simulation.{start_simulation};

use crate::counts::Counts;
use crate::processors::Processors;
use code_layout::layout_of;
use grid_layout::Layout;
use grid_links::Links;
use node_form::NodeProgram;
use std::alloc::{AllocError, Global};
use std::marker::Model;

/// A grid of processors that runs a program, and counts what it does.
///
/// Contracts see it as a [`Simulation`](../specs/Simulation.antt): the code, the capacity of links,
/// and the grid as `grid_meaning` defines it. The bytes that it prints aren't kept: they go to
/// sinks.
#[derive(Drop)]
pub struct Sim {
    pub(crate) code: NodeProgram,
    pub(crate) layout: Layout,
    pub(crate) team: Processors,
    pub(crate) counts: Counts,
}

impl Model for Sim {
    ghost use Rattle.grid_sim.specs.Simulation.{Simulation};

    ghost Value = { Simulation };

    ghost use Rattle.grid_sim.specs.Inside.{simulation_of, IsSimulation};

    ghost view = { simulation_of };

    ghost invariant = { IsSimulation };
}

/// Links with no message on them, that hold at most so many messages each, or any number.
fn links_for(alloc: Global, count: u32, capacity: Option<u32>) -> Result<Links, AllocError>
    requires { IsCapacity capacity }
    ensures { IfOk result (λ links. links ≡ empty_network count capacity) }
{
    match capacity {
        None => Links::new(alloc, count),
        Some(capacity) => Links::bounded(alloc, count, capacity),
    }
}

impl Sim {
    /// The grid of the program before its first turn, over links that hold any number of messages.
    /// For want of memory the program comes back.
    pub fn new(alloc: Global, code: NodeProgram) -> Result<Sim, NodeProgram>
        requires room { HasRoom code }
        ensures start { IfOk result (λ sim. sim ≡ start_simulation code None) }
        ensures back { IfErr result (λ back. back ≡ code) }
    {
        Sim::over(alloc, code, None)
    }

    /// The grid of the program before its first turn, over links that hold at most `capacity`
    /// messages each. For want of memory the program comes back.
    pub fn bounded(alloc: Global, code: NodeProgram, capacity: u32) -> Result<Sim, NodeProgram>
        requires room { HasRoom code }
        requires capacity { 1 ≤ capacity }
        ensures start { IfOk result (λ sim. sim ≡ start_simulation code (Some capacity)) }
        ensures back { IfErr result (λ back. back ≡ code) }
    {
        Sim::over(alloc, code, Some(capacity))
    }

    /// The grid of the program before its first turn, over links of a capacity or of none.
    fn over(alloc: Global, code: NodeProgram, capacity: Option<u32>) -> Result<Sim, NodeProgram>
        requires room { HasRoom code }
        requires capacity { IsCapacity capacity }
        ensures start { IfOk result (λ sim. sim ≡ start_simulation code capacity) }
        ensures back { IfErr result (λ back. back ≡ code) }
    {
        let Ok(layout) = layout_of(alloc, &code) else {
            return Err(code);
        };
        let Ok(links) = links_for(alloc, layout.grid().count(), capacity) else {
            return Err(code);
        };
        let Ok(team) = Processors::start(alloc, &code, &layout, links) else {
            return Err(code);
        };
        Ok(Sim {
            code,
            layout,
            team,
            counts: Counts::none(),
        })
    }
}
