//! No group of lowered code has more loops than a shattered statement of its program, and one that
//! has loops has one outermost member.
//!
//! The functions here do nothing: each has a law as its contract, and a call brings the law into
//! a proof.
#![tactic(auto)]

ghost use Rattle.std.specs.Prelude.{List};
ghost use Rattle.zpl_tree.specs.Syntax.{Program};
ghost use Rattle.zpl_names.specs.Expansion.{shattered_loops};
ghost use Rattle.zpl_binding.specs.Settings.{Setting};
ghost use Rattle.zpl_lowering.specs.Tables.{flat_tables};
ghost use Rattle.flat_form.specs.Static.{HasOneUnitALoop};
ghost use Rattle.pass_promises.specs.Promises.{HasLoopsUpTo};

pub use pass_promises;

/// In the tables of a program no group has more `while` and `repeat` than are within one shattered
/// statement of its text, whatever the program and the settings.
pub fn groups_turn_as_statements_do()
    ensures { (program : Program) (settings : List Setting) →
        HasLoopsUpTo (shattered_loops program) (flat_tables program settings) }
{}

/// A group that has `while` or `repeat` has one outermost member, whatever the program and the
/// settings.
pub fn loops_stand_in_one_unit()
    ensures { (program : Program) (settings : List Setting) →
        HasOneUnitALoop (flat_tables program settings) }
{}
