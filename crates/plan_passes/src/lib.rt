//! Plans that passes have rewritten show what they showed before.
//!
//! The functions here do nothing: each has a law of a pass's tables as its contract, and a call
//! brings the law into a proof.
#![tactic(auto)]

ghost use Rattle.std.specs.Prelude.{◌≡◌, Option, true, ℕ};
ghost use Rattle.node_form.specs.declared.tables.Tables.{Tables as Code};
ghost use Rattle.node_form.specs.Fits.{Fits};
ghost use Rattle.code_parts.specs.Early.{is_roomy};
ghost use Rattle.row_runs.specs.Segments.{Keeps};
ghost use Rattle.needs_runs.specs.of_plan_meaning.Act.{plan_run};
ghost use Rattle.comm_combine.specs.Merge.{neighbours_merged};
ghost use Rattle.comm_combine.specs.Repeats.{repeats_dropped};
ghost use Rattle.comm_early.specs.Send.{sent_early};
ghost use Rattle.plan_passes.specs.Threes.{HasThrees};
ghost use Rattle.plan_passes.specs.Units.{IsInUnits};

/// A plan whose starts are moved up for some links shows what it showed before over all links that
/// have room wherever those have, for every bound on its jumps and on the turns of loops in its
/// groups, unless it comes to a row that may not stand there. Each start of the plan has its finish
/// directly behind it.
pub fn starts_moved_up_keep_runs()
    ensures { (code : Code) (links over : Option ℕ) →
        ((count : ℕ) → is_roomy links count ≡ true → is_roomy over count ≡ true) →
        Fits code → IsInUnits code → (a n : ℕ) →
        Keeps (plan_run code over a n) (plan_run (sent_early links code) over a n) }
{}

/// A plan without repeated exchanges shows what it showed before, over links of any capacity, for
/// every bound on its jumps and on the turns of loops in its groups, unless it comes to a row that
/// may not stand there. Each start of the plan has its finish directly behind it.
pub fn repeated_exchanges_dropped_keep_runs()
    ensures { (code : Code) (links : Option ℕ) → Fits code → HasThrees code → IsInUnits code →
        (a n : ℕ) → Keeps (plan_run code links a n) (plan_run (repeats_dropped code) links a n) }
{}

/// And so does a plan in which exchanges that stand directly one behind the other are one.
pub fn neighbours_merged_keep_runs()
    ensures { (code : Code) (links : Option ℕ) → Fits code → HasThrees code → IsInUnits code →
        (a n : ℕ) → Keeps (plan_run code links a n) (plan_run (neighbours_merged code) links a n) }
{}
