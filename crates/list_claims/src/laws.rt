//! The laws of causes and of programs of texts.
ghost use Rattle.std.specs.Prelude.{◌≡◌, ℕ, List};
ghost use Rattle.zpl_tree.specs.Syntax.{Program};
ghost use Rattle.call_claims.specs.Accepted.{IsAccepted};
ghost use Rattle.call_claims.specs.Call.{call_of};
ghost use Rattle.call_claims.specs.Command.{Asked, IsList};
ghost use Rattle.call_claims.specs.Decided.{IsSettled};
ghost use Rattle.call_claims.specs.Execution.{Execution};
ghost use Rattle.list_claims.specs.Cause.{Cause};
ghost use Rattle.list_claims.specs.Decided.{IsExact};
ghost use Rattle.list_claims.specs.Whole.{CanList, HasListed};

use zpl_io::Files;
use zpl_parse::texts_have_one_tree;
use zpl_text::text_is_cut_one_way;

/// A text has at most one program.
pub fn texts_have_one_program()
    ensures { (text : List ℕ) (program other : Program) → IsAccepted text program →
        IsAccepted text other → program ≡ other }
{
    text_is_cut_one_way();
    texts_have_one_tree();
}

/// A status that has its cause comes just where its own cause is, where it is neither 9 nor 10; for
/// some, where it isn't 2 either and the files tell one text a name.
pub fn list_statuses_are_exact<F: Files>()
    ensures { (files : F) (words : List (List ℕ)) (ran : Execution) (n : ℕ) (told : List ℕ) →
        let call = call_of words (F.tells files) (F.may_fail files)
        (F.may_fail_later files) in
        Cause call ran n told → IsExact call ran n }
{}

/// A call of `list` whose file tells an accepted program has listed it: what the program is
/// compiled to was made, and the status is that of work that was done, where it has its cause and
/// is none of 2, 9 and 10, and the files tell one text a name.
pub fn accepted_programs_are_listed<F: Files>()
    ensures { (files : F) (words : List (List ℕ)) (ran : Execution) (status : ℕ) (told : List ℕ) →
        let call = call_of words (F.tells files) (F.may_fail files)
        (F.may_fail_later files) in
        Cause call ran status told → IsSettled call status → (file : List ℕ) (asked : Asked) →
        IsList words file asked → (can : CanList call file asked) →
        HasListed can ran status }
{
    texts_have_one_program();
}
