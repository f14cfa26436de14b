//! Settled tables of a flat program are sharable: plans of them show what they show.
//!
//! The functions here do nothing: each has a law of the passes' tables as its contract, and a call
//! brings the law into a proof.
#![tactic(auto)]

ghost use Rattle.node_form.specs.declared.tables.Tables.{Tables as Code};
ghost use Rattle.needs_runs.specs.Sharable.{IsSharable, PutsNoneShifted};
ghost use Rattle.temp_norm.specs.Normalised.{IsNormal};
ghost use Rattle.zpl_claims.specs.Build.{Build};
ghost use Rattle.zpl_compile.specs.Compile.{settled};
ghost use Rattle.sharable_tables.specs.Owed.{OwesPlan};

/// In normal tables no group puts an array that it reads with a shift, whatever its number is.
pub fn normal_tables_put_none_shifted()
    ensures { (code : Code) → IsNormal code → PutsNoneShifted code }
{}

/// The tables that are planned from are sharable, for each build, where those that they are
/// settled from owe what `OwesPlan` says.
pub fn settled_tables_are_sharable()
    ensures { (build : Build) (code : Code) → OwesPlan code → IsSharable (settled build code) }
{}
