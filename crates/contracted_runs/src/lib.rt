//! Programs whose arrays become cells show what they showed before.
//!
//! The functions here do nothing: each has a law of `fuse_contract`'s tables as its contract, and a
//! call brings the law into a proof.
#![tactic(auto)]

ghost use Rattle.std.specs.Prelude.{ℕ};
ghost use Rattle.node_form.specs.declared.tables.Tables.{Tables as Code};
ghost use Rattle.node_form.specs.Fits.{Fits};
ghost use Rattle.row_runs.specs.Segments.{Keeps};
ghost use Rattle.normal_runs.specs.of_flat_form.Act.{flat_run};
ghost use Rattle.fuse_contract.specs.of_temp_norm.Normalised.{normalised};
ghost use Rattle.fuse_contract.specs.of_bound_check.Checked.{checked};
ghost use Rattle.fuse_contract.specs.Contracting.{contracted};
ghost use Rattle.fuse_contract.specs.Fusing.{fused};
ghost use Rattle.contracted_runs.specs.Three.{HaveThreeDims};

/// A flat program with cells in the place of arrays shows what it showed with the arrays, for every
/// bound on its jumps and on the turns of loops in its groups, unless it comes to a row that may
/// not stand there. Of the tables is asked that they fit, and what their type gives.
pub fn cells_for_arrays_keep_runs()
    ensures { (code : Code) → Fits code → HaveThreeDims code → (a n : ℕ) →
        Keeps (flat_run code a n) (flat_run (contracted code) a n) }
{}

/// The passes before it leave each array its three dimensions, and so does it.
pub fn arrays_keep_three_dims()
    ensures normalised { (code : Code) → HaveThreeDims code → HaveThreeDims (normalised code) }
    ensures checked { (code : Code) → HaveThreeDims code → HaveThreeDims (checked code) }
    ensures fused { (code : Code) → HaveThreeDims code → HaveThreeDims (fused code) }
    ensures contracted { (code : Code) → HaveThreeDims code → HaveThreeDims (contracted code) }
{}
