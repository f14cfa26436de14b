//! The laws of the tables that programs are lowered and compiled to.
//!
//! The functions do nothing: a call brings the law into a proof.
ghost use Rattle.std.specs.Prelude.{List};
ghost use Rattle.zpl_tree.specs.Grammar.{IsProgram};
ghost use Rattle.zpl_tree.specs.Syntax.{Program};
ghost use Rattle.zpl_names.specs.Accepted.{IsFaultless};
ghost use Rattle.zpl_binding.specs.Bound.{IsAcceptedWith};
ghost use Rattle.zpl_binding.specs.Settings.{Setting};
ghost use Rattle.node_form.specs.Fits.{Fits};
ghost use Rattle.node_form.specs.Grid.{IsGrid};
ghost use Rattle.stored_shifts.specs.Stored.{ShiftsAreStored};
ghost use Rattle.zpl_lowering.specs.Tables.{flat_tables};
ghost use Rattle.lowered_flat.specs.Apart.{NamesStandApart};
ghost use Rattle.zpl_claims.specs.Build.{Build};
ghost use Rattle.zpl_compile.specs.Compile.{compiled};

use lowered_flat::lowering_fits::lowered_programs_fit;
use lowered_flat::{declarations_fit, lowered_programs_are_flat};

/// What the lowered tables of a program without faults, with settings that it accepts, read with a
/// shift is stored.
pub fn lowered_shifts_are_stored()
    ensures { (program : Program) (settings : List Setting) → IsProgram program →
        IsFaultless program → IsAcceptedWith program settings →
        ShiftsAreStored (flat_tables program settings) }
{
    declarations_fit();
    lowered_programs_fit();
}

/// What such a program is compiled to, for any grid, breaks no rule of node code.
pub fn compiled_programs_fit()
    ensures { (build : Build) (program : Program) → IsProgram program → IsFaultless program →
        NamesStandApart program → IsAcceptedWith program build.settings → IsGrid build.grid →
        Fits (compiled build program) }
{
    lowered_programs_are_flat();
    lowered_shifts_are_stored();
}
