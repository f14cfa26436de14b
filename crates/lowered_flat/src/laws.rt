//! The laws of programs that are lowered to flat ones.
ghost use Rattle.std.specs.Prelude.{◌≡◌, ◌++◌, ℕ, List};
ghost use Rattle.row_runs.specs.Straight.{Every};
ghost use Rattle.zpl_text.specs.declared.tokens.Token.{Token};
ghost use Rattle.zpl_text.specs.Tokens.{IsTokens};
ghost use Rattle.zpl_tree.specs.Grammar.{IsProgram};
ghost use Rattle.zpl_tree.specs.Syntax.{Program};
ghost use Rattle.zpl_grammar.specs.Texts.{IsTreeOf};
ghost use Rattle.zpl_names.specs.Accepted.{IsFaultless};
ghost use Rattle.zpl_binding.specs.Bound.{IsAcceptedWith};
ghost use Rattle.zpl_binding.specs.Settings.{Setting};
ghost use Rattle.node_form.specs.Grid.{IsGrid};
ghost use Rattle.lowering_fits.specs.of_flat_form.Flat.{IsFlat};
ghost use Rattle.lowering_fits.specs.of_flat_form.Laws.{IsInline};
ghost use Rattle.typed_tables.specs.Typed.{AreTyped};
ghost use Rattle.lowering_fits.specs.of_zpl_lowering.Program.{lowered_program};
ghost use Rattle.lowering_fits.specs.of_zpl_lowering.Tables.{flat_tables, rows_of, tables_of, unshared_tables};
ghost use Rattle.lowering_fits.specs.Declarations.{FitsProgram};
ghost use Rattle.lowering_fits.specs.Storages.{AllStorages};
ghost use Rattle.lowered_flat.specs.Apart.{NamesStandApart};

use lowering_fits::meaning_ranks::ranks_agree;
use lowering_fits::text_sharing::shared_tables_fit;
use lowering_fits::zpl_meaning::{no_stand_in_is_met, what_is_computed_has_a_value};
use lowering_fits::{lowered_programs_fit, numbered_code_makes_a_flat_program};
use zpl_names::{
    counts_add_up, declared_ranks_are_at_most_three, faultless_programs_have_faultless_sites,
    faultless_programs_leave_nothing_open, procedures_are_there, ranks_are_at_most_three,
};
use zpl_region::tests_tell_the_facts;
use zpl_text::tokens_are_in_order;

/// In a program of the grammar without faults, under settings that it accepts, each declared array
/// has a home box and a storage of the rank that its text says, which are boxes within the limit.
pub fn declarations_fit()
    ensures { (program : Program) (settings : List Setting) → IsProgram program →
        IsFaultless program → IsAcceptedWith program settings → FitsProgram program settings }
{
    tests_tell_the_facts();
    what_is_computed_has_a_value();
    ranks_are_at_most_three();
    declared_ranks_are_at_most_three();
    faultless_programs_have_faultless_sites();
    faultless_programs_leave_nothing_open();
    procedures_are_there();
}

/// Where no two arrays' names stand at one offset, all storages of such a program's lowered code
/// are boxes within the limit: those of its arrays, of the copies that parameters are, and of the
/// copies of reads that wrap round.
pub fn storages_fit()
    ensures { (program : Program) (settings : List Setting) → IsProgram program →
        IsFaultless program → NamesStandApart program → IsAcceptedWith program settings →
        (let lowered = lowered_program program settings in
        AllStorages (lowered.arrays ++ (lowered.copies ++ lowered.later))) }
{
    declarations_fit();
    ranks_agree();
    no_stand_in_is_met();
    tests_tell_the_facts();
    what_is_computed_has_a_value();
    counts_add_up();
}

/// So the tables that it is lowered to are a flat program's, on each grid, and with each different
/// text once.
pub fn lowered_programs_are_flat()
    ensures grids { (program : Program) (settings : List Setting) → IsProgram program →
        IsFaultless program → NamesStandApart program → IsAcceptedWith program settings →
        (grid : List ℕ) → IsGrid grid →
        IsFlat (tables_of grid (lowered_program program settings)) }
    ensures unshared { (program : Program) (settings : List Setting) → IsProgram program →
        IsFaultless program → NamesStandApart program → IsAcceptedWith program settings →
        IsFlat (unshared_tables program settings) }
    ensures flat { (program : Program) (settings : List Setting) → IsProgram program →
        IsFaultless program → NamesStandApart program → IsAcceptedWith program settings →
        IsFlat (flat_tables program settings) }
{
    declarations_fit();
    storages_fit();
    lowered_programs_fit();
    shared_tables_fit();
}

/// In the tree of a text no two arrays' names stand at one offset.
pub fn parsed_names_stand_apart()
    ensures { (text : List ℕ) (tokens : List Token) (program : Program) →
        IsTokens text tokens → IsTreeOf text tokens program → NamesStandApart program }
{
    tokens_are_in_order();
}

/// In a program of the grammar without faults, under settings that it accepts, each row of the
/// lowered code has its expressions and its group in its place.
pub fn lowered_rows_are_inline()
    ensures { (program : Program) (settings : List Setting) → IsProgram program →
        IsFaultless program → IsAcceptedWith program settings →
        Every IsInline (rows_of (lowered_program program settings)) }
{
    declarations_fit();
    lowered_programs_fit();
}

/// The tables of such a program are as a program's types give them: of three dimensions. They have
/// no cells, whatever the program.
pub fn lowered_tables_are_typed()
    ensures typed { (program : Program) (settings : List Setting) → IsProgram program →
        IsFaultless program → NamesStandApart program → IsAcceptedWith program settings →
        AreTyped (flat_tables program settings) }
    ensures cells { (program : Program) (settings : List Setting) →
        (flat_tables program settings).cells ≡ 0 }
{
    declarations_fit();
    storages_fit();
    lowered_programs_fit();
    numbered_code_makes_a_flat_program();
}
