//! The laws.
ghost use Rattle.std.specs.Prelude.{ℕ, List, length};
ghost use Rattle.zpl_text.specs.declared.tokens.Token.{Token};
ghost use Rattle.zpl_tree.specs.Syntax.{Program};
ghost use Rattle.zpl_names.specs.Expansion.{shattered_loops};
ghost use Rattle.zpl_meaning.specs.Program.{mean_of, outcome_of, steps_of};
ghost use Rattle.node_form.specs.Grid.{IsGrid};
ghost use Rattle.zpl_lowering.specs.Tables.{flat_tables};
ghost use Rattle.compiled_runs.specs.of_lock_steps.Meant.{IsMeant};
ghost use Rattle.zpl_claims.specs.Bound.{EndsInBound};
ghost use Rattle.zpl_claims.specs.Build.{Build, OverAllLinks};
ghost use Rattle.zpl_claims.specs.Good.{IsGood};
ghost use Rattle.zpl_claims.specs.LockStep.{HasLockSteps};
ghost use Rattle.zpl_claims.specs.Compiled.{IsCompiled};
ghost use Rattle.zpl_claims.specs.Origin.{origin_of};
ghost use Rattle.compiled_runs.specs.of_zpl_compile.Compile.{compiled, settled};
ghost use Rattle.compiled_tidy.specs.Accepted.{IsAcceptedText};
ghost use Rattle.right_code.specs.Accepted.{IsAccepted};

use compiled_runs::arranged_runs::plan_passes_keep_runs;
use compiled_runs::compiled_plans_keep_runs;
use compiled_runs::lock_steps::emitted_code_comes_in_step;
use compiled_runs::settled_runs::flat_passes_keep_runs;
use compiled_tidy::accepted_code_is_tidy;
use every_form::faultless_programs_have_shown_forms;
use every_form::shown_programs::array_programs_are_shown;
use every_form::shown_texts::texts_of_shown_forms_are_shown;
use owed_tables::lowered_flat::{
    lowered_programs_are_flat, lowered_tables_are_typed, parsed_names_stand_apart,
};
use owed_tables::lowered_tables_owe_nothing_more;
use owed_tables::lowering_loops::groups_turn_as_statements_do;
use owed_tables::pass_promises::groups_gain_no_loops;
use owed_tables::sharable_tables::settled_tables_are_sharable;

/// Of an accepted program whose lowered program shows what it means, for each bound on the turns of
/// loops, the code for a build is right over all links that it is for: some order of turns brings
/// it in step to what is meant, for every bound; after every order it has printed a front of that,
/// and no run is stuck; and it comes to its end in time where the meaning ends.
pub fn code_of_meant_programs_is_right()
    ensures in_step { (program : Program) (build : Build) → IsAccepted program build →
        IsMeant (flat_tables program build.settings) (outcome_of program build.settings) →
        OverAllLinks build (λ links.
        HasLockSteps (compiled build program) links (mean_of program build.settings)) }
    ensures good { (program : Program) (build : Build) → IsAccepted program build →
        IsMeant (flat_tables program build.settings) (outcome_of program build.settings) →
        OverAllLinks build (λ links.
        IsGood (compiled build program) links (mean_of program build.settings)) }
    ensures in_time { (program : Program) (build : Build) → IsAccepted program build →
        IsMeant (flat_tables program build.settings) (outcome_of program build.settings) →
        OverAllLinks build (λ links.
        EndsInBound (compiled build program) links (mean_of program build.settings)
        (steps_of program build.settings) (shattered_loops program)) }
{
    plan_passes_keep_runs();
    compiled_plans_keep_runs();
    emitted_code_comes_in_step();
    groups_gain_no_loops();
    groups_turn_as_statements_do();
    lowered_programs_are_flat();
    lowered_tables_are_typed();
    lowered_tables_owe_nothing_more();
    settled_tables_are_sharable();
}

/// The lowered program of an accepted text shows what the text means, for each bound on the turns of
/// loops, and never comes to a row that may not stand there (`lowered`). So it is behind the passes
/// over flat programs that a build asks for, fused, contracted or not (`settled`).
pub fn accepted_texts_are_shown()
    ensures lowered { (text : List ℕ) (tokens : List Token) (program : Program) (build : Build) →
        IsAcceptedText text tokens program build →
        IsMeant (flat_tables program build.settings) (outcome_of program build.settings) }
    ensures settled { (text : List ℕ) (tokens : List Token) (program : Program) (build : Build) →
        IsAcceptedText text tokens program build →
        IsMeant (settled build (flat_tables program build.settings))
        (outcome_of program build.settings) }
{
    array_programs_are_shown();
    faultless_programs_have_shown_forms();
    flat_passes_keep_runs();
    lowered_programs_are_flat();
    lowered_tables_are_typed();
    parsed_names_stand_apart();
    texts_of_shown_forms_are_shown();
}

/// All that is claimed of code holds of the code of every accepted text: over all links that it is
/// for it is right after every order of turns, in step, and over in time; and it is tidy.
pub fn code_of_accepted_texts_is_right()
    ensures { (text : List ℕ) (tokens : List Token) (program : Program) (build : Build) →
        IsAcceptedText text tokens program build → IsGrid build.grid →
        IsCompiled (origin_of build program (length tokens)) (compiled build program) }
{
    accepted_code_is_tidy();
    accepted_texts_are_shown();
    code_of_meant_programs_is_right();
    parsed_names_stand_apart();
}
