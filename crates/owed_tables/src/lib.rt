//! The tables that a program is lowered to owe nothing more: there is a plan of what passes make of
//! them that shows what they show.
//!
//! The function here does nothing: it has the law as its contract, and a call brings the law into
//! a proof.
#![tactic(auto)]

ghost use Rattle.std.specs.Prelude.{List};
ghost use Rattle.zpl_tree.specs.Grammar.{IsProgram};
ghost use Rattle.zpl_tree.specs.Syntax.{Program};
ghost use Rattle.zpl_names.specs.Accepted.{IsFaultless};
ghost use Rattle.zpl_binding.specs.Bound.{IsAcceptedWith};
ghost use Rattle.zpl_binding.specs.Settings.{Setting};
ghost use Rattle.zpl_lowering.specs.Tables.{flat_tables};
ghost use Rattle.lowered_flat.specs.Apart.{NamesStandApart};
ghost use Rattle.sharable_tables.specs.Owed.{OwesPlan};

pub use lowered_flat;
use lowered_flat::lowering_fits::{lowered_programs_fit, numbered_code_makes_a_flat_program};
use lowered_flat::{declarations_fit, lowered_programs_are_flat, lowered_tables_are_typed};
pub use lowering_loops;
use lowering_loops::loops_stand_in_one_unit;
pub use lowering_loops::pass_promises;
pub use sharable_tables;

/// The tables of a program of the grammar without faults, under settings that it accepts, in which
/// no two arrays' names stand at one offset, have all that a plan asks of a flat program.
pub fn lowered_tables_owe_nothing_more()
    ensures { (program : Program) (settings : List Setting) → IsProgram program →
        IsFaultless program → NamesStandApart program → IsAcceptedWith program settings →
        OwesPlan (flat_tables program settings) }
{
    declarations_fit();
    lowered_programs_are_flat();
    lowered_tables_are_typed();
    lowered_programs_fit();
    numbered_code_makes_a_flat_program();
    loops_stand_in_one_unit();
}
