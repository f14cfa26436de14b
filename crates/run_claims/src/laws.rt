//! The laws of causes and runs.
ghost use Rattle.std.specs.Prelude.{◌≡◌, ◌≤◌, ℕ, List};
ghost use Rattle.zpl_io.specs.Sink.{Takes};
ghost use Rattle.call_claims.specs.Call.{call_of};
ghost use Rattle.call_claims.specs.Command.{Asked, IsRun};
ghost use Rattle.call_claims.specs.Decided.{IsSettled};
ghost use Rattle.call_claims.specs.Execution.{Execution, execution_of};
ghost use Rattle.call_claims.specs.declared.ran.Ran.{Ran};
ghost use Rattle.grid_runs.specs.Run.{GoesOnTo, Run, turns_in};
ghost use Rattle.run_claims.specs.Cause.{Cause};
ghost use Rattle.run_claims.specs.Decided.{IsExact, IsLast};
ghost use Rattle.run_claims.specs.Answer.{TakesPrinted};
ghost use Rattle.run_claims.specs.Whole.{CanFinish, HasFinished, meant_by};

use grid_meaning::{given_turns_are_orders, over_stays};
use grid_order::orders_have_their_bounds;
use list_claims::texts_have_one_program;
use zpl_io::{Files, Sink};
use zpl_meaning::endings_stay;

/// A status of `run` that has its cause comes just where its own cause is, where it is neither 9
/// nor 10 and the order is one; for some, where it isn't 2 either and the files tell one text a
/// name. That a processor is stuck, or that none can move, never comes.
pub fn run_causes_are_exact<F: Files>()
    ensures { (files : F) (words : List (List ℕ)) (ran : Execution) (n : ℕ) (told : List ℕ) →
        let call = call_of words (F.tells files) (F.may_fail files)
        (F.may_fail_later files) in
        Cause call ran n told → IsExact call ran n }
{
    given_turns_are_orders();
    over_stays();
    orders_have_their_bounds();
}

/// A call of `run` whose file tells an accepted program, whose words name an order of its
/// processors, if any, and whose turns are enough for what the program means, has finished: what
/// its run has printed is what the program means, and the status is that of the meaning's end. So
/// it is where the status has its cause and is none of 2, 9 and 10, and the files tell one text a
/// name (`finished`). A sink that took what the run has printed has taken what the program means
/// (`taken`).
pub fn runs_print_what_is_meant<F: Files, O: Sink>()
    ensures finished { (files : F) (words : List (List ℕ)) (ran : Execution) (status : ℕ)
        (told : List ℕ) → let call = call_of words (F.tells files) (F.may_fail files)
        (F.may_fail_later files) in
        Cause call ran status told → IsSettled call status → (file : List ℕ) (asked : Asked) →
        IsRun words file asked → (bound : ℕ) → (can : CanFinish call file asked bound) →
        HasFinished can ran status }
    ensures taken { (files : F) (out taken : O) (words : List (List ℕ)) (ran : Ran) (status : ℕ) →
        let call = call_of words (F.tells files) (F.may_fail files)
        (F.may_fail_later files) in
        IsSettled call status → (file : List ℕ) (asked : Asked) → IsRun words file asked →
        (bound : ℕ) → (can : CanFinish call file asked bound) →
        HasFinished can (execution_of ran) status →
        TakesPrinted call ran (O.tells out) (O.tells taken) ran.code →
        Takes (O.tells out) (meant_by can).bytes (O.tells taken) }
{
    given_turns_are_orders();
    over_stays();
    orders_have_their_bounds();
    endings_stay();
    texts_have_one_program();
}

/// A run that is over or idle, or was given all turns, has one number of turns.
pub fn runs_are_one()
    ensures { (run : Run) (k j : ℕ) → GoesOnTo run k → GoesOnTo run j →
        k ≤ turns_in run → j ≤ turns_in run → IsLast run k → IsLast run j → k ≡ j }
{}
