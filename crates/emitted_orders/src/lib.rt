//! Node code does what its plan does, and orders of turns lead it there.
//!
//! The functions here do nothing: each has a law of `node_emit`'s tables as its contract, and a
//! call brings the law into a proof.
#![tactic(auto)]

ghost use Rattle.std.specs.Prelude.{◌≡◌, ◌≤◌, ℕ, Bool, List, Option, All};
ghost use Rattle.node_form.specs.declared.tables.Tables.{Tables as Code};
ghost use Rattle.node_form.specs.Fits.{Fits};
ghost use Rattle.grid_meaning.specs.Grid.{IsCapacity};
ghost use Rattle.grid_meaning.specs.State.{HasThree};
ghost use Rattle.plan_orders.specs.of_plan_meaning.Act.{plan_run};
ghost use Rattle.node_emit.specs.Emit.{emitted};
ghost use Rattle.plan_orders.specs.Brings.{HaveOrders};
ghost use Rattle.plan_orders.specs.Open.{HoldsOpen};
ghost use Rattle.emitted_orders.specs.AsPlanned.{ComesAsPlanned, HoldsAsPlanned};

use plan_orders::laws::{plans_come_in_step, rows_have_orders};

/// The node code of a plan, for the plan's grid, runs as the plan, along the tree of processors or
/// not: for every bound on jumps and on the turns of loops in groups it shows the same bytes and
/// stops alike, also where the plan is wrong. Tables that fit do so still, and arrays of three have
/// three elements.
pub fn node_code_runs_as_its_plan()
    ensures runs { (tree : Bool) (grid : List ℕ) (plan : Code) → plan.grid ≡ grid →
        (links : Option ℕ) (a n : ℕ) →
        plan_run (emitted tree grid plan) links a n ≡ plan_run plan links a n }
    ensures fits { (tree : Bool) (grid : List ℕ) (plan : Code) → plan.grid ≡ grid → Fits plan →
        Fits (emitted tree grid plan) }
    ensures three { (tree : Bool) (grid : List ℕ) (plan : Code) →
        All (HasThree plan) plan.code →
        All (HasThree (emitted tree grid plan)) (emitted tree grid plan).code }
{}

/// For each bounded run of a plan that fits, some order brings its node code from the start to
/// where the run stops, over links of every capacity, unless the run with one jump more, and one
/// turn at least, is wrong. So does one for each row of the code. Where the plan isn't wrong over
/// links of so many messages, the order does the same over links of any number, and no link ever
/// holds more; and for each run over links of any number, none holds more messages than exchanges
/// are open in it at once, or than one.
pub fn node_code_comes_as_planned()
    ensures orders { (tree : Bool) (grid : List ℕ) (plan : Code) (links : Option ℕ) →
        plan.grid ≡ grid → IsCapacity links → Fits plan →
        ComesAsPlanned (emitted tree grid plan) plan links }
    ensures rows { (tree : Bool) (grid : List ℕ) (plan : Code) (links : Option ℕ) →
        plan.grid ≡ grid → IsCapacity links → Fits plan →
        HaveOrders (emitted tree grid plan) links }
    ensures holds { (tree : Bool) (grid : List ℕ) (plan : Code) (most : ℕ) →
        plan.grid ≡ grid → 1 ≤ most → Fits plan →
        HoldsAsPlanned (emitted tree grid plan) plan most }
    ensures holds_open { (tree : Bool) (grid : List ℕ) (plan : Code) →
        plan.grid ≡ grid → Fits plan → HoldsOpen (emitted tree grid plan) plan }
{
    plans_come_in_step();
    rows_have_orders();
}
