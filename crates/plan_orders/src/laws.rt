//! The laws of orders for plans: where nothing goes wrong, some order of turns leads all processors
//! as the plan goes, over links of every capacity (`None`: of any number of messages). Each is the
//! contract of a function that does nothing. The statements stand in `specs/`.
ghost use Rattle.std.specs.Prelude.{◌≡◌, ◌≤◌, Option, Some, None, ℕ};
ghost use Rattle.grid_meaning.specs.Grid.{IsCapacity};
ghost use Rattle.node_form.specs.Fits.{Fits};
ghost use Rattle.node_form.specs.declared.tables.Tables.{Tables as Code};
ghost use Rattle.plan_orders.specs.Brings.{HaveOrders};
ghost use Rattle.plan_meaning.specs.Act.{plan_run};
ghost use Rattle.plan_orders.specs.InStep.{ComesInStep, HoldsFew, ShowsFreely, stops_within};
ghost use Rattle.plan_orders.specs.Open.{HoldsOpen, most_open};

use grid_meaning::states_are_kept;

/// For each row of code that fits, some order leads all processors from where they stand in front
/// of it to where it leads, unless it is wrong there: with the bytes that are printed, at least one
/// move of each and at most so many, and the words of open exchanges on the links. At a loop that
/// wants a further turn behind others it leads each to where it waits or its next move is at least
/// the one with the number of turns that the loop may make.
pub fn rows_have_orders()
    ensures { (code : Code) (links : Option ℕ) → IsCapacity links → Fits code
        → HaveOrders code links }
{}

/// For each bounded run of code that fits, some order brings all processors from their start to
/// where it stops, unless the run with one jump more, and one turn at least, is wrong: what is
/// printed is what the run prints; they have ended as it does, with all links empty, or each rests
/// or has made at least as many moves as the run made jumps and tests, or as a loop that wants more
/// was given turns; and none is stuck. Where the run wants no more, each has made at most so many
/// moves for each row that the run may come to.
pub fn plans_come_in_step()
    ensures { (code : Code) (links : Option ℕ) → IsCapacity links → Fits code
        → ComesInStep code links }
{
    states_are_kept();
}

/// Where a plan isn't wrong over links of so many messages, from one on, such an order does the
/// same over links of any number of messages, and no link ever holds more: no more than exchanges
/// are open at once, or than one. The plan shows the same over links of any number.
pub fn links_hold_few()
    ensures holds { (code : Code) (most : ℕ) → 1 ≤ most → Fits code → HoldsFew code most }
    ensures same { (code : Code) (most : ℕ) → ShowsFreely code most }
{
    plans_come_in_step();
}

/// Over links that hold as many messages as a run over links of any number has exchanges open at
/// once, the plan shows the same, and so isn't wrong where it wasn't. In the order of each run that
/// isn't wrong with one jump more no link ever holds more messages than that many, or than one.
pub fn links_hold_what_is_open()
    ensures same { (code : Code) (most a n : ℕ) → most_open code None a n ≤ most →
        (plan_run code (Some most) a n ≡ plan_run code None a n)
        × (stops_within code (Some most) a n ≡ stops_within code None a n) }
    ensures holds { (code : Code) → Fits code → HoldsOpen code code }
{
    links_hold_few();
}
