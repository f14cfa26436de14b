//! The laws of timetables, for the processors of a program over links of every capacity.
ghost use Rattle.std.specs.Prelude.{Option, ℕ};
ghost use Rattle.node_form.specs.declared.tables.Tables.{Tables as Code};
ghost use Rattle.grid_meaning.specs.Grid.{system_over};
ghost use Rattle.grid_ticks.specs.Ticks.{TakesEqualTicks, TellsMoves, TellsMovesOn};

use grid_meaning::Processors;
use grid_ticks::laws;

/// The moves that are told along an order are each processor's moves in it; and a turn more tells
/// its move, which may be added to a table of the moves so far.
pub fn moves_are_told()
    ensures moves { (code : Code) (links : Option ℕ) → TellsMoves (system_over code links) }
    ensures turns { (code : Code) (links : Option ℕ) → TellsMovesOn (system_over code links) }
{
    laws::moves_are_told::<Processors<'static>>();
    laws::turns_tell_moves::<Processors<'static>>();
}

/// Two orders after which one program is over take equally many ticks, whatever the latency.
pub fn orders_take_equal_ticks()
    ensures { (code : Code) (links : Option ℕ) → TakesEqualTicks (system_over code links) }
{
    laws::orders_take_equal_ticks::<Processors<'static>>();
}
