//! Laws towards one theorem, that lowered code is sound: flat code in which demands are met.
//!
//! The functions here do nothing: each has a law as its contract, and a call brings the law into
//! a proof.
#![tactic(auto)]

ghost use Rattle.std.specs.Prelude.{◌≡◌, ◌++◌, ◌∷◌, ℕ, List, [], Some, slice_get, true};
ghost use Rattle.zpl_lowering.specs.of_zpl_tree.Syntax.{Program};
ghost use Rattle.zpl_binding.specs.Settings.{Setting};
ghost use Rattle.zpl_lowering.specs.of_node_form.declared.instructions.Instr.{Instr};
ghost use Rattle.zpl_lowering.specs.of_node_form.declared.instructions.Instr.TheVariants as instr;
ghost use Rattle.zpl_lowering.specs.of_node_form.declared.tables.Tables.{Tables as Code};
ghost use Rattle.zpl_lowering.specs.of_row_runs.Structured.{Piece};
ghost use Rattle.zpl_lowering.specs.of_flat_form.Flat.{IsFlat};
ghost use Rattle.zpl_lowering.specs.of_flat_form.Row as row;
ghost use Rattle.zpl_lowering.specs.of_flat_form.Row.{Row, all_inlined};
ghost use Rattle.zpl_lowering.specs.of_flat_form.Static.{HasFringes};
ghost use Rattle.zpl_lowering.specs.Check.{Check};
ghost use Rattle.zpl_lowering.specs.Program.{lowered_program};
ghost use Rattle.zpl_lowering.specs.Tables.{rows_of};
ghost use Rattle.lowering_checks.specs.Walked.{laid};
ghost use Rattle.node_check.specs.declared.facts.Fact.{Fact};
ghost use Rattle.node_check.specs.Path.{AreFacts};
ghost use Rattle.node_check.specs.Sound.{IsSound, MeetsDemand};
ghost use Rattle.sound_lowering.specs.Goes.{Goes};
ghost use Rattle.sound_lowering.specs.Undecided.{IsUndecidedSound};
ghost use Rattle.sound_lowering.specs.Uniform.{AreFolded, AreTaken, asks_scalars, uniform_at};

pub use lowering_checks;
pub use node_check;

/// In the rows of a program, whatever it is, a loop accumulates one scalar at most, and its fold
/// stands right behind it. So it does in tables that have such rows.
pub fn folds_stand_behind_loops()
    ensures rows { (program : Program) (settings : List Setting) →
        AreFolded (rows_of (lowered_program program settings)) }
    ensures tables { (code : Code) (rows : List Row) → all_inlined code ≡ rows →
        AreFolded rows → AreTaken code }
{}

/// In a flat program with folds right behind loops all scalars are uniform but those whose folds are
/// awaited; and the demand of each row is met but for loops and rows that act on whole arrays.
pub fn scalars_are_uniform()
    ensures facts { (code : Code) → IsFlat code → AreTaken code →
        AreFacts code (uniform_at code) }
    ensures met { (code : Code) → IsFlat code → AreTaken code → (at : ℕ) (one : Instr) →
        slice_get code.code at ≡ Some one → asks_scalars one ≡ true → MeetsDemand code at one }
{}

/// A flat program with folds right behind loops, and shifts within fringes, is sound where it is
/// structured code in which each demand on slots is met.
pub fn code_that_goes_is_sound()
    ensures undecided { (code : Code) (one : Piece Row Check) (after : List Fact) → IsFlat code →
        AreTaken code → HasFringes code →
        all_inlined code ≡ laid 0 one ++ row.Plain instr.End ∷ [] → Goes code [] one after →
        IsUndecidedSound code }
    ensures sound { (code : Code) → IsFlat code → IsUndecidedSound code → IsSound code }
{}
