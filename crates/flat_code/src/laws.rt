//! The law of the tables that the passes come to.
//!
//! The function does nothing: a call brings the law into a proof.
ghost use Rattle.node_form.specs.Fits.{Fits};
ghost use Rattle.node_form.specs.Grid.{IsGrid};
ghost use Rattle.node_form.specs.declared.tables.Tables.{Tables as Code};
ghost use Rattle.flat_form.specs.Flat.{IsFlat};
ghost use Rattle.stored_shifts.specs.Stored.{ShiftsAreStored};
ghost use Rattle.flat_code.specs.Passes.{node_tables};
ghost use Rattle.flat_code.specs.declared.builds.Build.{Build};

/// The node code of a flat program, for any build, breaks no rule, where what its expressions read
/// with a shift is stored.
pub fn node_tables_fit()
    ensures { (build : Build) (flat : Code) → IsGrid build.grid → IsFlat flat →
        ShiftsAreStored flat → Fits (node_tables build flat) }
{}
