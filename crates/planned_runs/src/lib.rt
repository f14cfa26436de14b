//! Plans of flat programs show what these show.
//!
//! The function here does nothing: it has the law as its contract, and a call brings the law into
//! a proof.
#![tactic(auto)]

ghost use Rattle.plan_passes.specs.of_needs_runs.Sharable.{PlansKeepRuns};

/// The plan of a flat program shows what the flat program shows, on each grid, over links that hold
/// a message, and for every bound on jumps and on the turns of loops in groups, unless the flat run
/// comes to a row that may not stand there.
pub fn plans_keep_runs()
    ensures { PlansKeepRuns }
{}
