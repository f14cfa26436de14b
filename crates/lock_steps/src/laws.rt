//! The laws.
ghost use Rattle.std.specs.Prelude.{◌≡◌, ℕ, ◌≤◌, Bool, List, Option, All};
ghost use Rattle.zpl_meaning.specs.Outcome.{Outcome};
ghost use Rattle.node_form.specs.declared.tables.Tables.{Tables as Code};
ghost use Rattle.node_form.specs.Fits.{Fits};
ghost use Rattle.grid_meaning.specs.Grid.{IsCapacity};
ghost use Rattle.grid_meaning.specs.State.{HasThree};
ghost use Rattle.zpl_claims.specs.Bound.{EndsInBound};
ghost use Rattle.zpl_claims.specs.Good.{IsGood};
ghost use Rattle.zpl_claims.specs.LockStep.{HasLockSteps};
ghost use Rattle.emitted_orders.specs.of_plan_orders.Brings.{most_loops};
ghost use Rattle.node_emit.specs.Emit.{emitted};
ghost use Rattle.lock_steps.specs.Meant.{ComesInOrder, IsMeant, IsPlanOf, meanings, steps_in};

use emitted_orders::{node_code_comes_as_planned, node_code_runs_as_its_plan};
use every_order::{code_ends_in_time, code_in_step_is_good};

/// Where a flat program shows what is meant, a plan shows what the flat program shows, and each
/// bounded run of the plan has an order of its code, the code has an order in step for every bound
/// on the turns of loops. So it is right after every order; and it comes to its end in time, where
/// no group of the plan has more loops than are told.
pub fn flat_runs_come_in_step()
    ensures in_step { (flat plan code : Code) (links : Option ℕ) (outcomes : ℕ → Outcome) →
        IsMeant flat outcomes → IsPlanOf flat plan links → ComesInOrder plan code links →
        HasLockSteps code links (meanings outcomes) }
    ensures good { (flat plan code : Code) (links : Option ℕ) (outcomes : ℕ → Outcome) →
        IsMeant flat outcomes → IsPlanOf flat plan links → ComesInOrder plan code links →
        IsGood code links (meanings outcomes) }
    ensures in_time { (flat plan code : Code) (links : Option ℕ) (outcomes : ℕ → Outcome)
        (loops : ℕ) →
        IsMeant flat outcomes → IsPlanOf flat plan links → ComesInOrder plan code links →
        most_loops plan ≤ loops →
        EndsInBound code links (meanings outcomes) (steps_in outcomes) loops }
{
    code_in_step_is_good();
    code_ends_in_time();
}

/// The node code of a plan that fits, for the plan's grid, along the tree of processors or not, has
/// an order for each bounded run of the plan, over links of every capacity.
pub fn emitted_code_comes_in_order()
    ensures { (tree : Bool) (grid : List ℕ) (plan : Code) (links : Option ℕ) →
        plan.grid ≡ grid → IsCapacity links → Fits plan → All (HasThree plan) plan.code →
        ComesInOrder plan (emitted tree grid plan) links }
{
    node_code_runs_as_its_plan();
    node_code_comes_as_planned();
}

/// Where a flat program shows what is meant, and a plan that fits shows what the flat program
/// shows, the plan's node code has an order in step for every bound on the turns of loops, none
/// among them. So it is right after every order; and it comes to its end in time, where no group of
/// the plan has more loops than are told.
pub fn emitted_code_comes_in_step()
    ensures in_step { (tree : Bool) (grid : List ℕ) (flat plan : Code) (links : Option ℕ)
        (outcomes : ℕ → Outcome) →
        plan.grid ≡ grid → IsCapacity links → Fits plan → All (HasThree plan) plan.code →
        IsMeant flat outcomes → IsPlanOf flat plan links →
        HasLockSteps (emitted tree grid plan) links (meanings outcomes) }
    ensures good { (tree : Bool) (grid : List ℕ) (flat plan : Code) (links : Option ℕ)
        (outcomes : ℕ → Outcome) →
        plan.grid ≡ grid → IsCapacity links → Fits plan → All (HasThree plan) plan.code →
        IsMeant flat outcomes → IsPlanOf flat plan links →
        IsGood (emitted tree grid plan) links (meanings outcomes) }
    ensures in_time { (tree : Bool) (grid : List ℕ) (flat plan : Code) (links : Option ℕ)
        (outcomes : ℕ → Outcome) (loops : ℕ) →
        plan.grid ≡ grid → IsCapacity links → Fits plan → All (HasThree plan) plan.code →
        IsMeant flat outcomes → IsPlanOf flat plan links → most_loops plan ≤ loops →
        EndsInBound (emitted tree grid plan) links (meanings outcomes) (steps_in outcomes) loops }
{
    emitted_code_comes_in_order();
    flat_runs_come_in_step();
}
