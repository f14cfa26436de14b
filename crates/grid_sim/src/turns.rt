//! Turns.
ghost use Rattle.std.specs.Prelude.{◌≡◌, ◌≢◌, ◌<◌, ◌^◌, None, OnErr};
ghost use Rattle.zpl_io.specs.Faults.{CountsFaults};
ghost use Rattle.zpl_io.specs.Sink.{StopsAtFault};
ghost use Rattle.grid_meaning.specs.Local.{processors};
ghost use Rattle.grid_meaning.specs.Stored.{arrangement_of};
ghost use Rattle.grid_sim.specs.Counting.{AddTurns, AreCounts, with_traffic, with_turn};
ghost use Rattle.grid_sim.specs.Inside.{simulation_in};
ghost use Rattle.grid_sim.specs.Processors.{AreProcessors};
ghost use Rattle.grid_sim.specs.Simulation.{IsMade, IsMadeAs, counts_of};
ghost use Rattle.grid_sim.specs.Telling.{told_of};

use crate::counts::Counts;
use crate::faults::SimFault;
use crate::processors::Processors;
use crate::sims::Sim;
use grid_layout::Layout;
use node_form::NodeProgram;
use node_turn::{Step, Traffic};
use std::alloc::Global;
use zpl_io::{Sink, put_piece};

/// What a turn came to.
#[derive(Clone, Copy, Debug, PartialEq, Eq)]
pub enum Turned {
    /// The processor moved.
    Moved,
    /// It awaits a message, or room for one.
    Waiting,
    /// It has ended.
    Over,
}

/// What a turn came to, and what it did on links.
#[derive(Clone, Copy, Debug, PartialEq, Eq)]
pub struct Told {
    pub turned: Turned,
    /// The processor that a message was sent to.
    pub sent: Option<u32>,
    /// The processor that a message was taken from.
    pub took: Option<u32>,
}

impl Sim {
    /// Gives processor p its next turn, and puts what it prints as one piece, unless that is empty.
    /// After a fault the turn is as if not given, but that a front of the piece may have been
    /// taken.
    ///
    /// Memory is taken where the turn sends or takes a message, makes room for an array, or prints
    /// a number or an array; a turn of a loop takes none.
    pub fn turn<O: Sink>(&mut self, alloc: Global, p: u32, out: &mut O) -> Result<Turned, SimFault>
        requires processor { p < processors self.old.code }
        requires turns { self.old.grid.turns < 2 ^ 63 }
        ensures made { IsMadeAs self.old self.new p (O.tells out.old) (O.tells out.new) result }
        ensures same_sink { result ≢ Err SimFault.SinkFailed → OnErr result (out.new ≡ out.old) }
        ensures adds { AddTurns (counts_of self.old.grid) (counts_of self.new.grid) }
        ensures counts { CountsFaults (result ≡ Err SimFault.SinkFailed)
            (O.faults out.old) (O.faults out.new) }
        ensures stops { StopsAtFault (result ≡ Err SimFault.SinkFailed)
            (O.has_failed out.old) (O.has_failed out.new) }
    {
        Ok(self.turn_told(alloc, p, out)?.turned)
    }

    /// The same turn, told with the receiver of the message sent and the sender of the one taken.
    pub fn turn_told<O: Sink>(
        &mut self,
        alloc: Global,
        p: u32,
        out: &mut O,
    ) -> Result<Told, SimFault>
        requires processor { p < processors self.old.code }
        requires turns { self.old.grid.turns < 2 ^ 63 }
        ensures made { IsMade self.old self.new p (O.tells out.old) (O.tells out.new) result }
        ensures same_sink { result ≢ Err SimFault.SinkFailed → OnErr result (out.new ≡ out.old) }
        ensures adds { AddTurns (counts_of self.old.grid) (counts_of self.new.grid) }
        ensures counts { CountsFaults (result ≡ Err SimFault.SinkFailed)
            (O.faults out.old) (O.faults out.new) }
        ensures stops { StopsAtFault (result ≡ Err SimFault.SinkFailed)
            (O.has_failed out.old) (O.has_failed out.new) }
    {
        give(
            alloc,
            &self.code,
            &self.layout,
            &mut self.team,
            &mut self.counts,
            p,
            out,
        )
    }
}

/// Gives processor p its next turn.
#[inline(always)]
fn give<O: Sink>(
    alloc: Global,
    code: &NodeProgram,
    layout: &Layout,
    team: &mut Processors,
    counts: &mut Counts,
    p: u32,
    out: &mut O,
) -> Result<Told, SimFault>
    requires layout { layout.now ≡ arrangement_of code.now }
    requires processor { p < processors code.now }
    requires processors { AreProcessors code.now team.old }
    requires counts { AreCounts counts.old }
    requires turns { counts.old.turns < 2 ^ 63 }
    ensures processors { AreProcessors code.now team.new }
    ensures counts { AreCounts counts.new }
    ensures adds { AddTurns counts.old counts.new }
    ensures made { IsMade (simulation_in code.now team.old counts.old)
        (simulation_in code.now team.new counts.new) p (O.tells out.old) (O.tells out.new) result }
    ensures same_sink { result ≢ Err SimFault.SinkFailed → OnErr result (out.new ≡ out.old) }
    ensures faults { CountsFaults (result ≡ Err SimFault.SinkFailed)
        (O.faults out.old) (O.faults out.new) }
    ensures stops { StopsAtFault (result ≡ Err SimFault.SinkFailed)
        (O.has_failed out.old) (O.has_failed out.new) }
{
    if team.move_alone(code, layout, p) {
        return Ok(counted(counts, Traffic::Quiet));
    }
    give_any(alloc, code, layout, team, counts, p, out)
}

/// The same, whatever the turn is.
#[inline(never)]
fn give_any<O: Sink>(
    alloc: Global,
    code: &NodeProgram,
    layout: &Layout,
    team: &mut Processors,
    counts: &mut Counts,
    p: u32,
    out: &mut O,
) -> Result<Told, SimFault>
    requires layout { layout.now ≡ arrangement_of code.now }
    requires processor { p < processors code.now }
    requires processors { AreProcessors code.now team.old }
    requires counts { AreCounts counts.old }
    requires turns { counts.old.turns < 2 ^ 63 }
    ensures processors { AreProcessors code.now team.new }
    ensures counts { AreCounts counts.new }
    ensures adds { AddTurns counts.old counts.new }
    ensures made { IsMade (simulation_in code.now team.old counts.old)
        (simulation_in code.now team.new counts.new) p (O.tells out.old) (O.tells out.new) result }
    ensures same_sink { result ≢ Err SimFault.SinkFailed → OnErr result (out.new ≡ out.old) }
    ensures faults { CountsFaults (result ≡ Err SimFault.SinkFailed)
        (O.faults out.old) (O.faults out.new) }
    ensures stops { StopsAtFault (result ≡ Err SimFault.SinkFailed)
        (O.has_failed out.old) (O.has_failed out.new) }
{
    match team.turn(alloc, code, layout, p)? {
        Step::Moved(traffic) => Ok(counted(counts, traffic)),
        Step::Prints(bytes) => {
            put_piece(out, bytes.as_slice())?;
            team.print(code, layout, p);
            Ok(counted(counts, Traffic::Quiet))
        }
        Step::Waiting => Ok(still(counts, Turned::Waiting)),
        Step::Over => Ok(still(counts, Turned::Over)),
        Step::Stuck(kind) => Err(SimFault::Stuck(p, kind)),
    }
}

/// Counts a turn that changed nothing, and tells of it.
fn still(counts: &mut Counts, turned: Turned) -> Told
    requires counts { AreCounts counts.old }
    requires turns { counts.old.turns < 2 ^ 63 }
    ensures counted { counts.new ≡ with_turn counts.old }
    ensures counts { AreCounts counts.new }
    ensures adds { AddTurns counts.old counts.new }
    ensures told { result ≡ record { turned = turned; sent = None; took = None } }
{
    counts.count_turn();
    Told {
        turned,
        sent: None,
        took: None,
    }
}

/// Counts a move that did this on links, and tells of it.
fn counted(counts: &mut Counts, traffic: Traffic) -> Told
    requires counts { AreCounts counts.old }
    requires turns { counts.old.turns < 2 ^ 63 }
    ensures counted { counts.new ≡ with_traffic counts.old traffic }
    ensures counts { AreCounts counts.new }
    ensures adds { AddTurns counts.old counts.new }
    ensures told { result ≡ told_of traffic }
{
    match traffic {
        Traffic::Quiet => still(counts, Turned::Moved),
        Traffic::Sent { to, words } => {
            counts.count_message(words);
            Told {
                turned: Turned::Moved,
                sent: Some(to),
                took: None,
            }
        }
        Traffic::Took { from } => {
            counts.count_turn();
            Told {
                turned: Turned::Moved,
                sent: None,
                took: Some(from),
            }
        }
    }
}
