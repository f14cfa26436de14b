//! The laws of causes.
ghost use Rattle.std.specs.Prelude.{ℕ, IsTrue, List};
ghost use Rattle.call_claims.specs.Call.{call_of};
ghost use Rattle.call_claims.specs.Command.{Asked, IsExec};
ghost use Rattle.call_claims.specs.Execution.{Execution};
ghost use Rattle.exec_claims.specs.Cause.{Cause as ExecCause};
ghost use Rattle.exec_claims.specs.declared.status.TheConstants.{STUCK};
ghost use Rattle.check_claims.specs.Cause.{Cause};
ghost use Rattle.check_claims.specs.Decided.{IsExact};

use checked_runs::runs_of_checked_code_go_on;
use node_text::{bytes_have_one_program, what_is_written_is_read};
use zpl_io::Files;

/// A status that has its cause comes just where its own cause is, where it is none of 2, 9 and 10,
/// and the files tell one text a name.
pub fn check_statuses_are_exact<F: Files>()
    ensures { (files : F) (words : List (List ℕ)) (ran : Execution) (n : ℕ) (told : List ℕ) →
        let call = call_of words (F.tells files) (F.may_fail files)
        (F.may_fail_later files) in
        Cause call ran n told → IsExact call n }
{
    bytes_have_one_program();
}

/// A call of `exec` whose words ask for a check has no cause to tell that its run is stuck, or that
/// none of its processors can move: code that was checked goes on after every order of turns.
pub fn checked_calls_are_never_stuck<F: Files>()
    ensures { (files : F) (words : List (List ℕ)) (ran : Execution) (file : List ℕ) (asked : Asked)
        (told : List ℕ) →
        let call = call_of words (F.tells files) (F.may_fail files)
        (F.may_fail_later files) in
        IsExec words file asked → IsTrue asked.checked → ¬ ExecCause call ran STUCK told }
{
    what_is_written_is_read();
    runs_of_checked_code_go_on();
}
