//! The laws of causes and of lines.
ghost use Rattle.std.specs.Prelude.{ℕ, List};
ghost use Rattle.call_claims.specs.Command.{Asked, IsGen};
ghost use Rattle.call_claims.specs.Execution.{Execution};
ghost use Rattle.gen_claims.specs.Cause.{Cause};
ghost use Rattle.gen_claims.specs.Decided.{IsExact};
ghost use Rattle.gen_claims.specs.Grids.{NamedGrid};
ghost use Rattle.gen_claims.specs.Meant.{AreMeantFor};
ghost use Rattle.gen_claims.specs.Runs.{Went};

use grid_meaning::{given_turns_are_orders, over_stays};
use grid_order::orders_have_their_bounds;
use run_claims::list_claims::texts_have_one_program;
use zpl_meaning::endings_stay;

/// A status that has its cause comes just where its own cause is, where it is neither 9 nor 10.
/// That a processor is stuck, or that none can move, never comes.
pub fn gen_statuses_are_exact()
    ensures { (words : List (List ℕ)) (ran : Execution) (n : ℕ) (told : List ℕ) →
        Cause words ran n told → IsExact words ran n }
{
    given_turns_are_orders();
    over_stays();
    orders_have_their_bounds();
}

/// The lines of runs that ended normally tell of the bytes that the drawn program means, the same
/// for each grid.
pub fn lines_tell_what_is_meant()
    ensures { (words : List (List ℕ)) (seed : ℕ) (asked : Asked) → IsGen words seed asked →
        (so_far : List NamedGrid) (last : Execution) (lines : List ℕ) →
        Went seed asked so_far last lines → AreMeantFor seed asked so_far lines }
{
    given_turns_are_orders();
    over_stays();
    orders_have_their_bounds();
    endings_stay();
    texts_have_one_program();
}
