//! The laws of every order, for the processors of a program over links of every capacity.
ghost use Rattle.std.specs.Prelude.{Option, ℕ};
ghost use Rattle.node_form.specs.declared.tables.Tables.{Tables as Code};
ghost use Rattle.grid_links.specs.Laws.{CarriesReach, Dominates, EndsAlike, EndsInLaps};
ghost use Rattle.grid_links.specs.Laws.{FitsCapacity};
ghost use Rattle.grid_links.specs.Laws.{NeverIdle, NeverStuck};
ghost use Rattle.grid_meaning.specs.Grid.{system_over};

use crate::processors::Processors;
use grid_links::laws;

/// Where one order has brought each processor to its end, to waiting or through so many moves, none
/// being stuck, every order of at most so many turns does only what begins that: it gets no
/// processor stuck, and brings them to rest before their end only where the one does.
pub fn orders_are_dominated()
    ensures moves { (code : Code) (links : Option ℕ) → Dominates (system_over code links) }
    ensures not_stuck { (code : Code) (links : Option ℕ) → NeverStuck (system_over code links) }
    ensures not_idle { (code : Code) (links : Option ℕ) → NeverIdle (system_over code links) }
{
    laws::orders_are_dominated::<Processors<'static>>();
    laws::no_order_gets_stuck::<Processors<'static>>();
    laws::no_order_is_idle::<Processors<'static>>();
}

/// Two orders that end all processors end alike; and where one does, so does every order with as
/// many rounds of turns behind it as moves are left.
pub fn orders_end_alike()
    ensures alike { (code : Code) (links : Option ℕ) → EndsAlike (system_over code links) }
    ensures rounds { (code : Code) (links : Option ℕ) → EndsInLaps (system_over code links) }
{
    laws::orders_end_alike::<Processors<'static>>();
    laws::rounds_end_all::<Processors<'static>>();
}

/// A run over links of any number of messages, in which no link ever holds more than so many, is,
/// turn for turn, the run over links of that capacity.
pub fn small_links_are_enough()
    ensures same { (code : Code) (links : Option ℕ) → FitsCapacity (system_over code links) }
    ensures reach { (code : Code) (links : Option ℕ) → CarriesReach (system_over code links) }
{
    laws::small_links_are_enough::<Processors<'static>>();
}
