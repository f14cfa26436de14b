//! The laws.
ghost use Rattle.std.specs.Prelude.{Option, ℕ};
ghost use Rattle.node_form.specs.declared.tables.Tables.{Tables as Code};
ghost use Rattle.zpl_meaning.specs.Program.{Meaning};
ghost use Rattle.zpl_claims.specs.Bound.{EndsInBound};
ghost use Rattle.zpl_claims.specs.Good.{IsGood};
ghost use Rattle.zpl_claims.specs.LockStep.{HasLockSteps};
ghost use Rattle.every_order.specs.InFew.{EndsInFew};

use grid_links::laws::moves_are_turns;
use grid_meaning::{
    Processors, grids_show_their_worlds, orders_are_dominated, orders_end_alike, orders_go_on,
};

/// Where some order in step brings code to what its meaning prints, for every bound on the turns
/// of loops, the code is right after every order: none gets a processor stuck, or all of them to
/// wait before their end; what is printed begins what the meaning prints where each loop has as
/// many turns as the order; and where all have ended, that is all, and they end as the meaning
/// does.
pub fn code_in_step_is_good()
    ensures { (code : Code) (links : Option ℕ) (mean : ℕ → Meaning) →
        HasLockSteps code links mean → IsGood code links mean }
{
    orders_are_dominated();
    orders_end_alike();
    grids_show_their_worlds();
    orders_go_on();
}

/// Where some order ends all processors with few moves of each, wherever the meaning ends, every
/// order ends them that has as many turns round the processors behind it as code may take.
pub fn code_ends_in_time()
    ensures { (code : Code) (links : Option ℕ) (mean : ℕ → Meaning) (steps : ℕ → ℕ) (loops : ℕ) →
        EndsInFew code links mean steps loops → EndsInBound code links mean steps loops }
{
    orders_are_dominated();
    orders_end_alike();
    moves_are_turns::<Processors<'static>>();
    grids_show_their_worlds();
    orders_go_on();
}
