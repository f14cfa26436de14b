//! The law of causes.
ghost use Rattle.std.specs.Prelude.{ℕ, List};
ghost use Rattle.call_claims.specs.Call.{call_of};
ghost use Rattle.call_claims.specs.Execution.{Execution};
ghost use Rattle.time_claims.specs.Cause.{Cause};
ghost use Rattle.time_claims.specs.Decided.{IsExact};

use node_text::bytes_have_one_program;
use zpl_io::Files;

/// A status that has its cause comes just where its own cause is, where it is none of 2, 9 and 10,
/// and the files tell one text a name.
pub fn time_statuses_are_exact<F: Files>()
    ensures { (files : F) (words : List (List ℕ)) (ran : Execution) (n : ℕ) (told : List ℕ) →
        let call = call_of words (F.tells files) (F.may_fail files)
        (F.may_fail_later files) in
        Cause call ran n told → IsExact call ran n }
{
    bytes_have_one_program();
}
