//! The laws of saved grids and of runs that go on from them.
ghost use Rattle.std.specs.Prelude.{◌≡◌, ℕ, List, None};
ghost use Rattle.grid_meaning.specs.Grid.{Grid};
ghost use Rattle.grid_runs.specs.Run.{Run};
ghost use Rattle.saved_runs.specs.of_grid_save.Saved.{IsSaved};
ghost use Rattle.node_form.specs.declared.tables.Tables.{Tables as Code};
ghost use Rattle.exec_claims.specs.of_call_claims.Call.{call_of};
ghost use Rattle.exec_claims.specs.of_call_claims.Command.{Asked, IsResume};
ghost use Rattle.exec_claims.specs.of_call_claims.Decided.{IsSettled};
ghost use Rattle.exec_claims.specs.of_call_claims.Execution.{Execution};
ghost use Rattle.resume_claims.specs.Cause.{Cause, onward_run};
ghost use Rattle.resume_claims.specs.Decided.{IsExact};
ghost use Rattle.resume_claims.specs.Onward.{AreOne, EndAsOne, GoesOnFrom};
ghost use Rattle.resume_claims.specs.Saving.{saved_at};
ghost use Rattle.resume_claims.specs.Whole.{CanResume, HasResumed};

use saved_runs::grid_save::texts_tell_one_grid;
use zpl_io::Files;

/// A run that goes on from the grid of another one, as that was saved after some turns, is one with
/// it: after the turns of both, the grid has printed what both printed, and has the states, the
/// messages and the counts that the run came to. Where the first one began with a count of no turns,
/// what came of the other one came of the one run that has the turns of both.
pub fn runs_go_on()
    ensures one { (run : Run) (k : ℕ) (onward : Run) (j : ℕ) → GoesOnFrom run k onward →
        AreOne run k onward j }
    ensures ends { (run : Run) (k : ℕ) (onward : Run) (j : ℕ) → GoesOnFrom run k onward →
        run.start.turns ≡ 0 → EndAsOne run k onward j }
{}

/// A run from any grid that the saved text stands for goes on from the grid that was saved: the text
/// stands for no other.
pub fn saved_runs_go_on()
    ensures { (bytes : List ℕ) (run : Run) (k : ℕ) → run.capacity ≡ None →
        IsSaved bytes run.code (saved_at run k) → (code : Code) (grid : Grid) →
        IsSaved bytes code grid → (asked : Asked) (order : List ℕ) →
        GoesOnFrom run k (onward_run code grid asked order) }
{
    texts_tell_one_grid();
}

/// A status of `resume` that has its cause comes just where its own cause is, where memory wasn't
/// wanting, no put or fetch failed, and the files tell one text a name.
pub fn resume_statuses_are_exact<F: Files>()
    ensures { (files : F) (words : List (List ℕ)) (ran : Execution) (n : ℕ) (told : List ℕ) →
        let call = call_of words (F.tells files) (F.may_fail files)
        (F.may_fail_later files) in
        Cause call ran n told → IsExact call ran n }
{
    texts_tell_one_grid();
}

/// A call of `resume` whose file tells a saved grid, and whose words name an order of its
/// processors, if any, has gone on from the grid under the order, and its status is that of what
/// came of the run: it is over, all turns were given, a processor is stuck, or none can move. So it
/// is where the status has its cause, memory wasn't wanting, no put and no fetch failed, and the
/// files tell one text a name.
pub fn saved_grids_are_resumed<F: Files>()
    ensures { (files : F) (words : List (List ℕ)) (ran : Execution) (status : ℕ) (told : List ℕ) →
        let call = call_of words (F.tells files) (F.may_fail files)
        (F.may_fail_later files) in
        Cause call ran status told → IsSettled call status → (file : List ℕ) (asked : Asked) →
        IsResume call.words file asked → (can : CanResume call file asked) →
        HasResumed can ran status told }
{
    texts_tell_one_grid();
}
