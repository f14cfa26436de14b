//! The laws of the moves that are told along an order of turns, for all machines of a type, all
//! states at the start, and links of every capacity.
//!
//! Each law is the contract of a function that does nothing: a call brings the law into a proof.
ghost use Rattle.std.specs.Prelude.{List, Option, ℕ};
ghost use Rattle.grid_links.specs.Laws.{system_of};
ghost use Rattle.grid_ticks.specs.Ticks.{TakesEqualTicks, TellsMoves, TellsMovesOn};

use grid_links::Machine;
use grid_links::laws::{links_keep_their_messages, orders_end_alike};

/// The moves that are told along an order are each process's moves in it.
pub fn moves_are_told<T: Machine>()
    ensures { (machine : T) (start : List T.Local) (capacity : Option ℕ) →
        TellsMoves (system_of (T.act machine) (T.fed machine) start capacity) }
{}

/// A turn more tells its move, if it is one, and such a move may come next; any other turn tells
/// nothing.
pub fn turns_tell_moves<T: Machine>()
    ensures { (machine : T) (start : List T.Local) (capacity : Option ℕ) →
        TellsMovesOn (system_of (T.act machine) (T.fed machine) start capacity) }
{
    links_keep_their_messages::<T>();
}

/// Two orders after which all processes have ended take equally many ticks.
pub fn orders_take_equal_ticks<T: Machine>()
    ensures { (machine : T) (start : List T.Local) (capacity : Option ℕ) →
        TakesEqualTicks (system_of (T.act machine) (T.fed machine) start capacity) }
{
    orders_end_alike::<T>();
}
