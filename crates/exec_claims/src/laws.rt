//! The law of causes.
ghost use Rattle.std.specs.Prelude.{◌≡◌, ◌↔◌, ℕ, List};
ghost use Rattle.call_claims.specs.Call.{call_of};
ghost use Rattle.call_claims.specs.Command.{Asked, IsExec};
ghost use Rattle.call_claims.specs.Decided.{IsSettled};
ghost use Rattle.call_claims.specs.Execution.{Execution};
ghost use Rattle.call_claims.specs.declared.status.TheConstants.{DONE, TOO_LONG};
ghost use Rattle.call_claims.specs.declared.status.TheConstants.{TRAPPED, TURN_LIMIT};
ghost use Rattle.exec_claims.specs.Cause.{Cause};
ghost use Rattle.exec_claims.specs.Decided.{ExecsBadOrder, ExecsChecked, ExecsNoListing};
ghost use Rattle.exec_claims.specs.Decided.{ExecsTooLong, IsTooLarge, IsUnsound};
ghost use Rattle.exec_claims.specs.Decided.{IsDoneAt, IsStuckOrIdleAt, IsTrapAt, RunsTo};
ghost use Rattle.grid_runs.specs.Run.{IsLimitedAt};
ghost use Rattle.exec_claims.specs.Whole.{CanExecute, HasExecuted};
ghost use Rattle.exec_claims.specs.declared.status.TheConstants.{CHECK_LIMIT, LISTING_REFUSED};
ghost use Rattle.exec_claims.specs.declared.status.TheConstants.{ORDER_REFUSED, STUCK, UNSOUND};

use node_text::bytes_have_one_program;
use zpl_io::Files;

/// Of what was made and run in a call there is a cause of one status, among those that are none of
/// 2, 9 and 10, where the files tell one text a name: each status comes just where its own cause
/// is.
pub fn exec_causes_are_one<F: Files>()
    ensures { (files : F) (words : List (List ℕ)) (ran : Execution) (n m : ℕ)
        (told other : List ℕ) →
        let call = call_of words (F.tells files) (F.may_fail files)
        (F.may_fail_later files) in
        Cause call ran n told → Cause call ran m other →
        IsSettled call n → IsSettled call m → n ≡ m }
{
    bytes_have_one_program();
}

/// A status that has its cause comes just where its own cause is, under the same conditions.
pub fn exec_statuses_are_exact<F: Files>()
    ensures too_long { (files : F) (words : List (List ℕ)) (ran : Execution) (n : ℕ)
        (told : List ℕ) → let call = call_of words (F.tells files) (F.may_fail files)
        (F.may_fail_later files) in
        Cause call ran n told → IsSettled call n → (n ≡ TOO_LONG) ↔ ExecsTooLong call }
    ensures order { (files : F) (words : List (List ℕ)) (ran : Execution) (n : ℕ)
        (told : List ℕ) → let call = call_of words (F.tells files) (F.may_fail files)
        (F.may_fail_later files) in
        Cause call ran n told → IsSettled call n → (n ≡ ORDER_REFUSED) ↔ ExecsBadOrder call }
    ensures listing { (files : F) (words : List (List ℕ)) (ran : Execution) (n : ℕ)
        (told : List ℕ) → let call = call_of words (F.tells files) (F.may_fail files)
        (F.may_fail_later files) in
        Cause call ran n told → IsSettled call n →
        (n ≡ LISTING_REFUSED) ↔ ExecsNoListing call }
    ensures unsound { (files : F) (words : List (List ℕ)) (ran : Execution) (n : ℕ)
        (told : List ℕ) → let call = call_of words (F.tells files) (F.may_fail files)
        (F.may_fail_later files) in
        Cause call ran n told → IsSettled call n → (n ≡ UNSOUND) ↔ ExecsChecked call IsUnsound }
    ensures too_large { (files : F) (words : List (List ℕ)) (ran : Execution) (n : ℕ)
        (told : List ℕ) → let call = call_of words (F.tells files) (F.may_fail files)
        (F.may_fail_later files) in
        Cause call ran n told → IsSettled call n →
        (n ≡ CHECK_LIMIT) ↔ ExecsChecked call IsTooLarge }
    ensures done { (files : F) (words : List (List ℕ)) (ran : Execution) (n : ℕ) (told : List ℕ) →
        let call = call_of words (F.tells files) (F.may_fail files)
        (F.may_fail_later files) in
        Cause call ran n told → IsSettled call n → (n ≡ DONE) ↔ RunsTo call ran IsDoneAt }
    ensures trap { (files : F) (words : List (List ℕ)) (ran : Execution) (n : ℕ) (told : List ℕ) →
        let call = call_of words (F.tells files) (F.may_fail files)
        (F.may_fail_later files) in
        Cause call ran n told → IsSettled call n → (n ≡ TRAPPED) ↔ RunsTo call ran IsTrapAt }
    ensures turn_limit { (files : F) (words : List (List ℕ)) (ran : Execution) (n : ℕ)
        (told : List ℕ) → let call = call_of words (F.tells files) (F.may_fail files)
        (F.may_fail_later files) in
        Cause call ran n told → IsSettled call n → (n ≡ TURN_LIMIT) ↔ RunsTo call ran IsLimitedAt }
    ensures stuck { (files : F) (words : List (List ℕ)) (ran : Execution) (n : ℕ)
        (told : List ℕ) → let call = call_of words (F.tells files) (F.may_fail files)
        (F.may_fail_later files) in
        Cause call ran n told → IsSettled call n → (n ≡ STUCK) ↔ RunsTo call ran IsStuckOrIdleAt }
{
    bytes_have_one_program();
}

/// A call of `exec` whose file tells a listing, of sound code where its words ask for that, and
/// whose words name an order of its processors, if any, has run the listed code under the order,
/// and its status is that of what came of the run: it is over, all turns were given, a processor is
/// stuck, or none can move. So it is where the status has its cause and is none of 2, 9 and 10, and
/// the files tell one text a name.
pub fn listings_are_executed<F: Files>()
    ensures { (files : F) (words : List (List ℕ)) (ran : Execution) (status : ℕ) (told : List ℕ) →
        let call = call_of words (F.tells files) (F.may_fail files)
        (F.may_fail_later files) in
        Cause call ran status told → IsSettled call status → (file : List ℕ) (asked : Asked) →
        IsExec words file asked → (can : CanExecute call file asked) →
        HasExecuted can ran status told }
{
    bytes_have_one_program();
}
