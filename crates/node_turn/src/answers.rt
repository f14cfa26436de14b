//! Answers of turns without a message.
ghost use Rattle.std.specs.Prelude.{ℕ};
ghost use Rattle.grid_links.specs.Network.{Network};
ghost use Rattle.grid_meaning.specs.State.{NextHasThree};
ghost use Rattle.grid_meaning.specs.Turn.{act};
ghost use Rattle.node_form.specs.Fits.{Fits};
ghost use Rattle.node_form.specs.declared.tables.Tables.{Tables as Code};
ghost use Rattle.node_local.specs.Workplace.{IsReady, Workplace};
ghost use Rattle.node_turn.specs.Turned.{IsTurn, turn_over};
ghost use Rattle.row_turn.specs.Own.{IsOwn};

use crate::steps::{Step, StuckKind, Traffic};
use grid_meaning::states_are_kept;
use row_turn::OwnTurn;

/// The answer where a processor makes this of its next row by itself.
pub(crate) fn told(turn: OwnTurn) -> Step
    ensures { (code : Code) (p : ℕ) (old new : Workplace) (links : Network) → Fits code
        → NextHasThree code old.local → IsReady code p old
        → IsOwn p (act code p old.local) old new turn
        → IsTurn code p old new links links (turn_over code p old.local links) result }
{
    states_are_kept();
    match turn {
        OwnTurn::Moves => Step::Moved(Traffic::Quiet),
        OwnTurn::Prints(bytes) => Step::Prints(bytes),
        OwnTurn::Unheld => Step::Stuck(StuckKind::Unheld),
    }
}
