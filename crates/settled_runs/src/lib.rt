//! The passes over flat tables, one behind the other, keep what a program shows.
//!
//! The functions here do nothing: each has a law of `zpl_compile`'s tables as its contract, and a
//! call brings the law into a proof.
#![tactic(auto)]

ghost use Rattle.std.specs.Prelude.{◌≡◌, ℕ};
ghost use Rattle.node_form.specs.declared.tables.Tables.{Tables as Code};
ghost use Rattle.row_runs.specs.Segments.{Keeps};
ghost use Rattle.flat_form.specs.Act.{flat_run};
ghost use Rattle.flat_form.specs.Flat.{IsFlat};
ghost use Rattle.fused_runs.specs.Typed.{IsTyped};
ghost use Rattle.zpl_claims.specs.Build.{Build};
ghost use Rattle.zpl_compile.specs.Compile.{settled};

/// A flat program shows what it shows once its tables are settled for a build, for every bound on
/// its jumps and on the turns of loops in its groups, unless it comes to a row that may not stand
/// there. Of the tables is asked that they are a flat program's and have no cells yet, and what
/// their type gives.
pub fn flat_passes_keep_runs()
    ensures { (build : Build) (code : Code) → IsFlat code → IsTyped code → code.cells ≡ 0 →
        (a n : ℕ) → Keeps (flat_run code a n) (flat_run (settled build code) a n) }
{}
