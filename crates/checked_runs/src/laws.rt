//! The laws.
ghost use Rattle.std.specs.Prelude.{◌≡◌, ◌≤◌, ℕ, Option};
ghost use Rattle.node_form.specs.declared.tables.Tables.{Tables as Code};
ghost use Rattle.grid_meaning.specs.Action.{StuckKind};
ghost use Rattle.grid_meaning.specs.Grid.{start_grid};
ghost use Rattle.grid_runs.specs.Run.{IsIdleAt, IsStuckAt, Run as OneRun};
ghost use Rattle.counted_code.specs.of_row_orders.Rows.{HasRoom};
ghost use Rattle.counted_code.specs.of_node_check.Sound.{IsChecked};
ghost use Rattle.checked_messages.specs.of_checked_rows.Faced.{AreTables};
ghost use Rattle.checked_messages.specs.of_checked_rows.Visits.{NeverWants};
ghost use Rattle.checked_runs.specs.Stops.{IsSoundOver, NeverStops};

use grid_meaning::{
    grids_show_their_worlds, orders_are_dominated, orders_end_alike, orders_go_on, states_are_kept,
    turns_count,
};

/// Sound code, over links that have room for a message of each exchange that is open at once, is
/// never stuck, and never do all processors wait with one not over: after no order of turns. That
/// is said of code in whose plan no loop ever wants a further turn, from some bound on the turns of
/// loops on.
pub fn sound_code_never_stops()
    ensures { (code : Code) (links : Option ℕ) (least : ℕ) → IsSoundOver code links
        → ((n : ℕ) → least ≤ n → NeverWants code links n) → NeverStops code links }
{
    states_are_kept();
    orders_are_dominated();
    orders_end_alike();
    grids_show_their_worlds();
    orders_go_on();
}

/// Checked code, over links that hold as many messages as it needs, or any number, is never stuck,
/// and never do all processors wait with one not over: after no order of turns.
pub fn checked_code_never_stops()
    ensures { (code : Code) (needed : ℕ) (links : Option ℕ) → AreTables code →
        IsChecked code needed → HasRoom links needed → NeverStops code links }
{
    states_are_kept();
    orders_are_dominated();
    orders_end_alike();
    grids_show_their_worlds();
    orders_go_on();
}

/// So no run of checked code from its start, over such links, is stuck at a turn, and at none are
/// all processors idle.
pub fn runs_of_checked_code_go_on()
    ensures not_stuck { (run : OneRun) (needed k p : ℕ) (kind : StuckKind) → AreTables run.code →
        IsChecked run.code needed → HasRoom run.capacity needed →
        run.start ≡ start_grid run.code → ¬ IsStuckAt run k p kind }
    ensures not_idle { (run : OneRun) (needed k p : ℕ) → AreTables run.code →
        IsChecked run.code needed → HasRoom run.capacity needed →
        run.start ≡ start_grid run.code → ¬ IsIdleAt run k p }
{
    checked_code_never_stops();
    turns_count();
}
