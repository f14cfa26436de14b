//! The laws of compiled code.
ghost use Rattle.std.specs.Prelude.{◌≡◌, ℕ, List, [], length, true};
ghost use Rattle.zpl_text.specs.declared.tokens.Token.{Token};
ghost use Rattle.zpl_tree.specs.Syntax.{Program};
ghost use Rattle.flat_form.specs.Flat.{IsFlat};
ghost use Rattle.code_parts.specs.Contracted.{IsContracted};
ghost use Rattle.code_parts.specs.Early.{IsEarly};
ghost use Rattle.code_parts.specs.Exchanged.{HasNoRepeats, IsMerged};
ghost use Rattle.code_parts.specs.Fused.{IsFused};
ghost use Rattle.compiled_sizes.specs.of_pass_parts.Checks.{ChecksWhatFollows, StandsWithWhatFollows};
ghost use Rattle.zpl_claims.specs.Build.{Build};
ghost use Rattle.zpl_claims.specs.Origin.{Origin, origin_of};
ghost use Rattle.zpl_claims.specs.Tidy.{IsLean, IsTidy};
ghost use Rattle.compiled_sizes.specs.of_zpl_compile.Compile.{compiled};
ghost use Rattle.compiled_tidy.specs.Accepted.{IsAcceptedText};
ghost use Rattle.compiled_tidy.specs.Lowered.{IsLoweredTidily, lowered_for};

use compiled_sizes::lowering_checks::{
    checks_say_what_follows, loops_are_checked, loops_read_apart, puts_are_alike,
    totals_stand_apart,
};
use compiled_sizes::lowering_sizes::texts_hold_their_words;
use program_boxes::boxes_of_texts_are_stored;
use program_boxes::lowered_flat::{
    declarations_fit, lowered_programs_are_flat, parsed_names_stand_apart,
};

/// The code of a program is free of what each optimisation leaves out that is asked for, whichever
/// others are: of repeated exchanges, of exchanges that could be one, and of starts that could be
/// earlier; of arrays that could be cells, where the lowered tables are a flat program's; and of
/// loops that could be one, where besides wherever checks alone stand between two loops over one
/// slot the references of the second one are among theirs, and it may stand wherever the first one
/// does.
pub fn letters_are_kept()
    ensures fused { (build : Build) (program : Program) → IsFlat (lowered_for build program) →
        ChecksWhatFollows (lowered_for build program) →
        StandsWithWhatFollows (lowered_for build program) → build.options.fuse ≡ true →
        IsFused (compiled build program) }
    ensures contracted { (build : Build) (program : Program) → IsFlat (lowered_for build program) →
        build.options.contract ≡ true → IsContracted (compiled build program) }
    ensures not_redundant { (build : Build) (program : Program) →
        build.options.redundant ≡ true → HasNoRepeats (compiled build program) }
    ensures merged { (build : Build) (program : Program) →
        build.options.merge ≡ true → IsMerged (compiled build program) }
    ensures early { (build : Build) (program : Program) →
        build.options.early ≡ true → IsEarly build.links (compiled build program) }
{}

/// The code of a program is tidy for its build, where the lowered tables are as that asks for.
pub fn compiled_code_is_tidy()
    ensures { (origin : Origin) → IsLoweredTidily origin →
        IsTidy origin (compiled origin.build origin.program) }
{}

/// The code of each text whose program is accepted is tidy: it is for the grid that is asked for, no
/// larger than is allowed, has the program's arrays and no others, and is free of what each
/// optimisation leaves out.
pub fn accepted_code_is_tidy()
    ensures { (text : List ℕ) (tokens : List Token) (program : Program) (build : Build) →
        IsAcceptedText text tokens program build →
        IsTidy (origin_of build program (length tokens)) (compiled build program) }
{
    lowered_programs_are_flat();
    parsed_names_stand_apart();
    texts_hold_their_words();
    loops_are_checked();
    checks_say_what_follows();
    totals_stand_apart();
    loops_read_apart();
    declarations_fit();
    puts_are_alike();
    boxes_of_texts_are_stored();
    compiled_code_is_tidy();
}
