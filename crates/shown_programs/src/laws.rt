//! The laws of whole programs in lowered code.
//!
//! Each law is the contract of a function that does nothing: a call brings the law into a proof.
ghost use Rattle.std.specs.Prelude.{◌≡◌, ◌≢◌, ℕ, Contains, List, Some};
ghost use Rattle.zpl_tree.specs.Grammar.{IsProgram};
ghost use Rattle.zpl_tree.specs.Syntax.{Dir, Program};
ghost use Rattle.zpl_names.specs.Accepted.{IsFaultless};
ghost use Rattle.zpl_names.specs.Declared.{Routine, routines_of, scope_of};
ghost use Rattle.zpl_names.specs.Ranks.{dir_rank};
ghost use Rattle.zpl_binding.specs.Bound.{IsAcceptedWith};
ghost use Rattle.zpl_binding.specs.Declarations.{known_of};
ghost use Rattle.zpl_binding.specs.Settings.{Setting};
ghost use Rattle.zpl_meaning.specs.Program.{outcome_of};
ghost use Rattle.zpl_meaning.specs.Regions.{vector_in};
ghost use Rattle.row_runs.specs.Run.{Wrong};
ghost use Rattle.flat_form.specs.Act.{flat_run};
ghost use Rattle.zpl_lowering.specs.Tables.{flat_tables};
ghost use Rattle.lowered_flat.specs.Apart.{NamesStandApart};
ghost use Rattle.served_places.specs.of_lowering_runs.Shown.{Shows};
ghost use Rattle.point_runs.specs.of_array_runs.Reads.{IsShift};
ghost use Rattle.served_places.specs.Given.{KnowsGiven};
ghost use Rattle.shown_programs.specs.Text.{IsShownProgram};

use lowered_flat::lowering_fits::all_code_is_numbered;
use lowered_flat::{declarations_fit, lowered_rows_are_inline};
use meaning_ranks::ranks_agree;
use meaning_runs::regions_have_been_computed;
use zpl_meaning::{no_stand_in_is_met, what_is_computed_has_a_value};
use zpl_names::{
    declared_ranks_are_at_most_three, faultless_programs_have_faultless_sites,
    faultless_programs_leave_nothing_open, procedures_are_there, ranks_are_at_most_three,
};
use zpl_region::tests_tell_the_facts;

/// With accepted settings, what a procedure of a program without faults names was computed before
/// the run: declared regions are in their slots and have the shapes of their texts, and directions
/// have vectors of their ranks.
pub fn what_is_named_is_given()
    ensures names { (program : Program) (settings : List Setting) → IsProgram program →
        IsFaultless program → IsAcceptedWith program settings → (routine : Routine) →
        Contains (routines_of program) routine →
        KnowsGiven (known_of program settings) (scope_of program routine) }
    ensures vectors { (program : Program) (settings : List Setting) → IsProgram program →
        IsFaultless program → IsAcceptedWith program settings → (routine : Routine) →
        Contains (routines_of program) routine → (rank : ℕ) (dir : Dir) →
        dir_rank (scope_of program routine) dir ≡ Some rank →
        IsShift rank (vector_in (known_of program settings) dir) }
{
    what_is_computed_has_a_value();
    ranks_are_at_most_three();
    declared_ranks_are_at_most_three();
    faultless_programs_have_faultless_sites();
    faultless_programs_leave_nothing_open();
    procedures_are_there();
}

/// The flat program of a program in which no two arrays' names stand at one offset, and all of
/// whose statements are of the forms of the language, with numbers of 64 bits (`IsShownProgram`),
/// shows what the program means: with some bound on its jumps, where each loop that is entered may
/// make n turns, it prints the same bytes and ends in the same way as the meaning does with n
/// turns. The bound is few times the steps, or more turns are wanted and it is at least n.
pub fn array_programs_are_shown()
    ensures shown { (program : Program) (settings : List Setting) → IsProgram program →
        IsFaultless program → NamesStandApart program → IsAcceptedWith program settings →
        IsShownProgram program settings → (n : ℕ) →
        Shows (λ a. flat_run (flat_tables program settings) a n) n
        (outcome_of program settings n) }
    // It never comes to a row that may not stand there.
    ensures right { (program : Program) (settings : List Setting) → IsProgram program →
        IsFaultless program → NamesStandApart program → IsAcceptedWith program settings →
        IsShownProgram program settings → (a n : ℕ) →
        (flat_run (flat_tables program settings) a n).stop ≢ Wrong }
{
    no_stand_in_is_met();
    ranks_agree();
    what_is_computed_has_a_value();
    regions_have_been_computed();
    declarations_fit();
    lowered_rows_are_inline();
    all_code_is_numbered();
    ranks_are_at_most_three();
    declared_ranks_are_at_most_three();
    faultless_programs_have_faultless_sites();
    faultless_programs_leave_nothing_open();
    procedures_are_there();
    tests_tell_the_facts();
}
