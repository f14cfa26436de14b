//! The laws of checks in lowered programs.
ghost use Rattle.std.specs.Prelude.{◌≡◌, List, None};
ghost use Rattle.zpl_tree.specs.Grammar.{IsProgram};
ghost use Rattle.zpl_tree.specs.Syntax.{Program};
ghost use Rattle.zpl_names.specs.Accepted.{IsFaultless};
ghost use Rattle.zpl_binding.specs.Bound.{IsAcceptedWith};
ghost use Rattle.zpl_binding.specs.Settings.{Setting};
ghost use Rattle.node_form.specs.declared.tables.Tables.{Tables as Code};
ghost use Rattle.row_runs.specs.Straight.{Every};
ghost use Rattle.lowering_fits.specs.of_flat_form.Laws.{IsInline};
ghost use Rattle.lowering_fits.specs.of_flat_form.Row.{Row, all_inlined};
ghost use Rattle.pass_parts.specs.Checks.{ChecksWhatFollows, StandsWithWhatFollows};
ghost use Rattle.lowering_fits.specs.of_zpl_lowering.Program.{lowered_program};
ghost use Rattle.lowering_fits.specs.of_zpl_lowering.Tables.{flat_tables, rows_of};
ghost use Rattle.lowering_fits.specs.Declarations.{FitsProgram};
ghost use Rattle.lowering_checks.specs.Prepared.{ArePrepared};
ghost use Rattle.lowering_checks.specs.Stands.{PutsAlike, ReadsApart};
ghost use Rattle.lowering_checks.specs.Totals.{AreApart, FirstPuts, NoneAccumulates};
ghost use Rattle.lowering_checks.specs.Walked.{AreChecked};

use meaning_ranks::ranks_agree;
use zpl_meaning::{no_stand_in_is_met, what_is_computed_has_a_value};
use zpl_names::{
    declared_ranks_are_at_most_three, faultless_programs_have_faultless_sites,
    faultless_programs_leave_nothing_open, procedures_are_there, ranks_are_at_most_three,
};

/// In the rows of a program of the grammar without faults, under settings that it accepts, the
/// checks that alone stand between two loops over one slot are those of the second one's
/// references.
pub fn loops_are_checked()
    ensures { (program : Program) (settings : List Setting) → IsProgram program →
        IsFaultless program → IsAcceptedWith program settings →
        AreChecked None (rows_of (lowered_program program settings)) }
{
    ranks_agree();
    no_stand_in_is_met();
    what_is_computed_has_a_value();
}

/// Where the rows of tables are checked so, the tables' checks say what follows.
pub fn checks_say_what_follows()
    ensures { (tables : Code) (rows : List Row) → all_inlined tables ≡ rows →
        AreChecked None rows → ChecksWhatFollows tables }
{}

/// In the rows of a program, whatever it is, at least as many check places, make places for
/// temporaries or fill slots as are loops that put an array.
pub fn loops_are_prepared()
    ensures { (program : Program) (settings : List Setting) →
        ArePrepared (rows_of (lowered_program program settings)) }
{}

/// Each row of a program, whatever it is, has its expressions, its group and its text in its place.
pub fn all_rows_are_inline()
    ensures { (program : Program) (settings : List Setting) →
        Every IsInline (rows_of (lowered_program program settings)) }
{}

/// Where checks alone stand between two loops of a program, whatever it is, neither accumulates,
/// and the first one puts an array: along its rows, and so in tables with these rows.
pub fn totals_stand_apart()
    ensures rows { (program : Program) (settings : List Setting) →
        AreApart None (rows_of (lowered_program program settings)) }
    ensures tables { (tables : Code) (rows : List Row) → all_inlined tables ≡ rows →
        AreApart None rows → NoneAccumulates tables }
    ensures puts { (tables : Code) (rows : List Row) → all_inlined tables ≡ rows →
        AreApart None rows → FirstPuts tables }
{}

/// Wherever checks alone stand between two loops over one slot, the second one may stand where the
/// first one does, where besides it reads no scalar that some loop accumulates, and what both put
/// has the same flood dimensions.
pub fn loops_stand_where_others_do()
    ensures { (tables : Code) → NoneAccumulates tables → FirstPuts tables → ReadsApart tables →
        PutsAlike tables → StandsWithWhatFollows tables }
{}

/// In the tables of a program without faults, whose checks say what follows, a loop with checks
/// alone between it and one before it over the same slot reads no scalar that some loop
/// accumulates.
pub fn loops_read_apart()
    ensures { (program : Program) (settings : List Setting) → IsFaultless program →
        all_inlined (flat_tables program settings) ≡ rows_of (lowered_program program settings) →
        ChecksWhatFollows (flat_tables program settings) →
        ReadsApart (flat_tables program settings) }
{
    faultless_programs_leave_nothing_open();
}

/// In the tables of a program of the grammar without faults, under settings that it accepts, where
/// arrays are declared as the text says, a loop with checks alone between it and one before it over
/// the same slot puts arrays with the flood dimensions of what that one puts.
pub fn puts_are_alike()
    ensures { (program : Program) (settings : List Setting) → IsProgram program →
        IsFaultless program → IsAcceptedWith program settings → FitsProgram program settings →
        all_inlined (flat_tables program settings) ≡ rows_of (lowered_program program settings) →
        PutsAlike (flat_tables program settings) }
{
    ranks_agree();
    no_stand_in_is_met();
    what_is_computed_has_a_value();
    ranks_are_at_most_three();
    declared_ranks_are_at_most_three();
    faultless_programs_have_faultless_sites();
    faultless_programs_leave_nothing_open();
    procedures_are_there();
}
