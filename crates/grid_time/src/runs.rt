//! Timed runs.
ghost use Rattle.std.specs.Prelude.{◌≡◌, ◌+◌, ◌≤◌, ◌^◌, ℕ, Option, length};
ghost use Rattle.grid_meaning.specs.Local.{processors};
ghost use Rattle.grid_meaning.specs.Order.{IsOrder};
ghost use Rattle.grid_sim.specs.Run.{run_in};
ghost use Rattle.grid_sim.specs.Simulation.{start_simulation};
ghost use Rattle.grid_timetable.specs.History.{History, no_moves};
ghost use Rattle.grid_timetable.specs.Table.{IsTableOf};
ghost use Rattle.grid_time.specs.Timed.{IsAddedTo, IsTimedRun, MayAddTurn, timed_as};

use crate::faults::TimeFault;
use grid_order::Order;
use grid_sim::{Rounds, Sim, SimFault, Told, Turned, next_turn};
use grid_timetable::{Table, TableFault};
use node_ticks::laws::moves_are_told;
use std::alloc::Global;
use zpl_io::CountSink;
use zpl_nums::End;

/// Adds the move of a turn to a table, if it is one.
fn add_turn(alloc: Global, table: &mut Table, p: u32, told: Told) -> Result<(), TimeFault>
    requires { MayAddTurn table.old p told told.turned }
    ensures { (history : History) → IsTableOf table.old history →
        IsAddedTo table.new history p told result }
{
    match told.turned {
        Turned::Moved => match table.add(alloc, p, told.sent, told.took) {
            Ok(()) => Ok(()),
            Err(TableFault::TooManyMoves) => Err(TimeFault::TooManyMoves),
            Err(TableFault::NoMemory) => Err(TimeFault::Cut(SimFault::NoMemory)),
        },
        Turned::Waiting | Turned::Over => Ok(()),
    }
}

/// How a run ended, which was timed.
fn timed(answer: Result<End, SimFault>) -> Result<End, TimeFault>
    ensures { result ≡ timed_as answer }
{
    match answer {
        Ok(ending) => Ok(ending),
        Err(fault) => Err(TimeFault::Cut(fault)),
    }
}

/// Gives the turns of the order, and then at most `limit` turns round the processors, until the
/// grid is over or idle or a turn is not given, and adds each move to the table.
///
/// What is printed goes nowhere. The turn of the first move that is one too many for the table is
/// the last one.
pub fn run_timed(
    alloc: Global,
    sim: &mut Sim,
    order: &mut Order,
    limit: u64,
    table: &mut Table,
) -> Result<End, TimeFault>
    requires start { (links : Option ℕ) × (sim.old ≡ start_simulation sim.old.code links) }
    requires order { IsOrder (processors sim.old.code) order.old }
    requires turns { length order.old + limit ≤ 2 ^ 63 }
    requires table { (latency : ℕ) ×
        IsTableOf table.old (no_moves (processors sim.old.code) latency) }
    ensures { (latency : ℕ) → IsTableOf table.old (no_moves (processors sim.old.code) latency) →
        IsTimedRun (run_in sim.old order.old limit) latency sim.new table.new result }
{
    moves_are_told();
    let mut unseen = CountSink::new();
    let mut rounds = Rounds::of(sim, limit);
    'turns: loop {
        if let Some(answer) = sim.stop() {
            return timed(answer);
        }
        let Some(p) = next_turn(order, &mut rounds) else {
            return Err(TimeFault::Cut(SimFault::TurnLimit));
        };
        let told = sim.turn_told(alloc, p, &mut unseen)?;
        add_turn(alloc, table, p, told)?;
    }
}
