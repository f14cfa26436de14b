//! The laws of stored arrays of whole programs.
ghost use Rattle.std.specs.Prelude.{Contains, List, [], length, map, sum_by};
ghost use Rattle.std.specs.Prelude.{◌++◌, ◌≡◌, ℕ};
ghost use Rattle.zpl_text.specs.declared.tokens.Token.{Token};
ghost use Rattle.zpl_text.specs.Tokens.{IsTokens};
ghost use Rattle.zpl_tree.specs.Grammar.{IsProgram};
ghost use Rattle.zpl_tree.specs.Syntax.{Program};
ghost use Rattle.zpl_grammar.specs.Texts.{IsTreeOf};
ghost use Rattle.zpl_names.specs.Accepted.{IsFaultless};
ghost use Rattle.zpl_names.specs.Declared.{Routine, routines_of};
ghost use Rattle.zpl_names.specs.Expansion.{expanded_arrays, expanded_copies, expanded_shifts};
ghost use Rattle.zpl_binding.specs.Bound.{IsAcceptedWith};
ghost use Rattle.zpl_binding.specs.Declarations.{known_of};
ghost use Rattle.zpl_binding.specs.Settings.{Setting};
ghost use Rattle.grid_meaning.specs.Stored.{arrangement_of};
ghost use Rattle.zpl_lowering.specs.Hoist.{Shifted};
ghost use Rattle.zpl_lowering.specs.Program.{lowered_program};
ghost use Rattle.zpl_lowering.specs.Tables.{flat_tables};
ghost use Rattle.lowered_flat.specs.Apart.{NamesStandApart};
ghost use Rattle.zpl_claims.specs.Boxes.{boxes_of};
ghost use Rattle.stored_boxes.specs.Different.{IsToldApart};
ghost use Rattle.program_boxes.specs.Own.{copied_of, noted_of, number_in, storages_of};

use lowered_flat::{declarations_fit, parsed_names_stand_apart, storages_fit};
use meaning_ranks::ranks_agree;
use stored_boxes::arrays_are_different;
use zpl_meaning::{no_stand_in_is_met, what_is_computed_has_a_value};
use zpl_region::tests_tell_the_facts;
use zpl_text::tokens_are_in_order;

/// The code of a program has of its own what the program with every call expanded has: the storages
/// of its arrays, in order; a copy for each read that wraps round; and it notes the shifts of the
/// other reads and those of the copies, in whatever order. Where no two arrays' names stand at one
/// offset, and in the text of each procedure neither two calls do, nor two names.
pub fn code_has_what_is_expanded()
    ensures arrays { (program : Program) (settings : List Setting) → IsProgram program →
        IsFaultless program → NamesStandApart program → IsAcceptedWith program settings →
        ((routine : Routine) → Contains (routines_of program) routine →
        IsToldApart program routine) →
        (let all = expanded_arrays program in
        (lowered_program program settings).arrays ≡
        storages_of program (known_of program settings) (number_in all) all) }
    ensures copies { (program : Program) (settings : List Setting) → IsProgram program →
        IsFaultless program → NamesStandApart program → IsAcceptedWith program settings →
        ((routine : Routine) → Contains (routines_of program) routine →
        IsToldApart program routine) →
        (let lowered = lowered_program program settings in
        lowered.copies ++ lowered.later ≡
        copied_of program (known_of program settings) (number_in (expanded_arrays program))
        (expanded_copies program)) }
    ensures shifts { (program : Program) (settings : List Setting) → IsProgram program →
        IsFaultless program → NamesStandApart program → IsAcceptedWith program settings →
        ((routine : Routine) → Contains (routines_of program) routine →
        IsToldApart program routine) →
        (f : Shifted → ℕ) →
        (let all = expanded_arrays program in
        sum_by f (lowered_program program settings).shifts ≡
        noted_of program (known_of program settings) (number_in all) f (length all)
        (expanded_shifts program) (expanded_copies program)) }
{
    declarations_fit();
    ranks_agree();
    no_stand_in_is_met();
    what_is_computed_has_a_value();
    arrays_are_different();
}

/// So the stored arrays of the tables that it is lowered to are the program's: each with its
/// storage, and as far around it as it is read.
pub fn boxes_are_stored()
    ensures { (program : Program) (settings : List Setting) → IsProgram program →
        IsFaultless program → NamesStandApart program → IsAcceptedWith program settings →
        ((routine : Routine) → Contains (routines_of program) routine →
        IsToldApart program routine) →
        (arrangement_of (flat_tables program settings)).boxes ≡
        boxes_of program (known_of program settings) }
{
    declarations_fit();
    storages_fit();
    ranks_agree();
    no_stand_in_is_met();
    tests_tell_the_facts();
    what_is_computed_has_a_value();
    arrays_are_different();
}

/// In the tree of a text without faults calls and names have offsets of their own: in the text of
/// each procedure no two calls stand at one offset, and no two names that are declared for it.
pub fn parsed_texts_are_told_apart()
    ensures { (text : List ℕ) (tokens : List Token) (program : Program) →
        IsTokens text tokens → IsTreeOf text tokens program → IsFaultless program →
        (routine : Routine) → Contains (routines_of program) routine →
        IsToldApart program routine }
{
    tokens_are_in_order();
}

/// So the stored arrays of the tables of each text are its program's, under settings that it
/// accepts.
pub fn boxes_of_texts_are_stored()
    ensures { (text : List ℕ) (tokens : List Token) (program : Program)
        (settings : List Setting) → IsTokens text tokens → IsTreeOf text tokens program →
        IsFaultless program → IsAcceptedWith program settings →
        (arrangement_of (flat_tables program settings)).boxes ≡
        boxes_of program (known_of program settings) }
{
    parsed_names_stand_apart();
    parsed_texts_are_told_apart();
    boxes_are_stored();
}
