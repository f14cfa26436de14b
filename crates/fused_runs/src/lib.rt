//! Programs whose loops are joined show what they showed before.
//!
//! The functions here do nothing: each has a law of `fuse_contract`'s tables as its contract, and a
//! call brings the law into a proof.
#![tactic(auto)]

ghost use Rattle.std.specs.Prelude.{◌≡◌, ℕ};
ghost use Rattle.node_form.specs.declared.tables.Tables.{Tables as Code};
ghost use Rattle.node_form.specs.Fits.{Fits};
ghost use Rattle.row_runs.specs.Segments.{Keeps};
ghost use Rattle.flat_form.specs.Act.{flat_run};
ghost use Rattle.contracted_runs.specs.of_fuse_contract.Fusing.{fused};
ghost use Rattle.fused_runs.specs.Typed.{IsTyped};

/// A flat program shows with joined loops what it showed with each loop alone, for every bound on
/// its jumps and on the turns of loops in its groups, unless it comes to a row that may not stand
/// there. Of the tables is asked that they fit, that they have no cells yet, and what their type
/// gives.
pub fn joined_loops_keep_runs()
    ensures { (code : Code) → Fits code → IsTyped code → code.cells ≡ 0 → (a n : ℕ) →
        Keeps (flat_run code a n) (flat_run (fused code) a n) }
{}

/// A flat program shows with each loop alone what it shows with joined loops, unless with joined
/// loops it comes to a row that may not stand there.
pub fn joined_loops_show_the_same()
    ensures { (code : Code) → Fits code → code.cells ≡ 0 → (a n : ℕ) →
        Keeps (flat_run (fused code) a n) (flat_run code a n) }
{}
