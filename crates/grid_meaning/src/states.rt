//! The states that a processor may have.
ghost use Rattle.std.specs.Prelude.{◌≡◌, ◌<◌, ℕ, List, Option};
ghost use Rattle.grid_links.specs.Machine.{Awaits, Goes, Takes};
ghost use Rattle.grid_links.specs.declared.messages.Message.{Message as OneMessage};
ghost use Rattle.node_form.specs.Fits.{Fits};
ghost use Rattle.node_form.specs.declared.tables.Tables.{Tables as Code};
ghost use Rattle.grid_meaning.specs.Local.{Local, processors, start_local};
ghost use Rattle.grid_meaning.specs.State.{IsLocal, NextHasThree};
ghost use Rattle.grid_meaning.specs.Turn.{act, fed};

use grid_layout::zpl_region::tests_tell_the_facts;
use node_form::rows_fit;

/// A processor starts in a state that it may have, and each move keeps it in one, alone and with
/// a message that it awaits. What moves alone ask of a row is what a program's types give.
pub fn states_are_kept()
    ensures start { (code : Code) (p : ℕ) → p < processors code → Fits code
        → IsLocal code p (start_local code p) }
    ensures moves { (code : Code) (p : ℕ) (local next : Local) (sent : Option (ℕ × OneMessage))
        (shown : List ℕ) → Fits code → NextHasThree code local →
        IsLocal code p local → act code p local ≡ Goes next sent shown → IsLocal code p next }
    ensures messages { (code : Code) (p : ℕ) (local next : Local) (from : ℕ)
        (message : OneMessage) →
        Fits code → IsLocal code p local → act code p local ≡ Awaits from →
        fed code p local message ≡ Takes next → IsLocal code p next }
{
    rows_fit();
    tests_tell_the_facts();
}
