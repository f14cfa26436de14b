//! The laws of causes.
ghost use Rattle.std.specs.Prelude.{◌≡◌, ℕ, List};
ghost use Rattle.zpl_io.specs.Sink.{Takes};
ghost use Rattle.call_claims.specs.Call.{call_of};
ghost use Rattle.call_claims.specs.Command.{Asked, IsMean};
ghost use Rattle.call_claims.specs.Decided.{IsSettled};
ghost use Rattle.call_claims.specs.Ended.{IsStatusOf};
ghost use Rattle.mean_claims.specs.Answer.{TakesOutput};
ghost use Rattle.mean_claims.specs.Cause.{Cause};
ghost use Rattle.mean_claims.specs.Decided.{IsExact};
ghost use Rattle.mean_claims.specs.Whole.{CanMean, meaning_in};

use zpl_io::{Files, Sink};
use zpl_parse::texts_have_one_tree;
use zpl_text::text_is_cut_one_way;

/// In a call there is a cause of one status, among those that are none of 2, 9 and 10, where the
/// files tell one text a name.
pub fn mean_causes_are_one<F: Files>()
    ensures { (files : F) (words : List (List ℕ)) (n m : ℕ) (told other : List ℕ) →
        let call = call_of words (F.tells files) (F.may_fail files)
        (F.may_fail_later files) in
        Cause call n told → Cause call m other → IsSettled call n → IsSettled call m → n ≡ m }
{
    text_is_cut_one_way();
    texts_have_one_tree();
}

/// A status that has its cause comes just where its own cause is, under the same conditions.
pub fn mean_statuses_are_exact<F: Files>()
    ensures { (files : F) (words : List (List ℕ)) (n : ℕ) (told : List ℕ) →
        let call = call_of words (F.tells files) (F.may_fail files)
        (F.may_fail_later files) in
        Cause call n told → IsSettled call n → IsExact call n }
{
    text_is_cut_one_way();
    texts_have_one_tree();
}

/// A call of `mean` whose file tells an accepted program, which ends within the turns that are
/// asked for, has the status of that end (`ended`), where the status has its cause and is none of
/// 2, 9 and 10, and the files tell one text a name. What standard output took is then just what the
/// program means (`taken`).
pub fn accepted_programs_are_meant<F: Files, O: Sink>()
    ensures ended { (files : F) (words : List (List ℕ)) (status : ℕ) (told : List ℕ) →
        let call = call_of words (F.tells files) (F.may_fail files)
        (F.may_fail_later files) in
        Cause call status told → IsSettled call status → (file : List ℕ) (asked : Asked) →
        IsMean words file asked → (can : CanMean call file asked) →
        IsStatusOf (meaning_in can).ending status }
    ensures taken { (files : F) (out taken : O) (words : List (List ℕ)) (status : ℕ) →
        let call = call_of words (F.tells files) (F.may_fail files)
        (F.may_fail_later files) in
        IsSettled call status → (file : List ℕ) (asked : Asked) → IsMean words file asked →
        (can : CanMean call file asked) → IsStatusOf (meaning_in can).ending status →
        TakesOutput call status (O.tells out) (O.tells taken) →
        Takes (O.tells out) (meaning_in can).bytes (O.tells taken) }
{
    text_is_cut_one_way();
    texts_have_one_tree();
}
