//! Programs whose loops go through temporaries show what they showed before.
//!
//! The functions here do nothing: each has a law of `temp_norm`'s tables as its contract, and a
//! call brings the law into a proof.
#![tactic(auto)]

ghost use Rattle.std.specs.Prelude.{ℕ};
ghost use Rattle.temp_norm.specs.of_node_form.declared.tables.Tables.{Tables as Code};
ghost use Rattle.temp_norm.specs.of_node_form.Fits.{Fits};
ghost use Rattle.temp_norm.specs.of_row_runs.Segments.{Keeps};
ghost use Rattle.temp_norm.specs.of_flat_form.Act.{flat_run};
ghost use Rattle.temp_norm.specs.Normalised.{normalised};

/// A flat program whose values go through temporaries shows what it showed without them, for every
/// bound on its jumps and on the turns of loops in its groups, unless it comes to a row that may
/// not stand there.
pub fn values_through_temporaries_keep_runs()
    ensures { (code : Code) → Fits code → (a n : ℕ) →
        Keeps (flat_run code a n) (flat_run (normalised code) a n) }
{}
