//! The laws of border statements in lowered code.
//!
//! Each law is the contract of a function that does nothing: a call brings the law into a proof.
ghost use Rattle.std.specs.Prelude.{ℕ, List};
ghost use Rattle.zpl_nums.specs.declared.ends.Border.{Border as Kind};
ghost use Rattle.zpl_tree.specs.Syntax.{Border, Form, Name};
ghost use Rattle.zpl_meaning.specs.Statement.{exec_form};
ghost use Rattle.prefix_runs.specs.of_zpl_lowering.Statement.{lowered_form};
ghost use Rattle.prefix_runs.specs.of_lowering_runs.Goes.{Goes, World};
ghost use Rattle.border_runs.specs.Bordered.{BorderLeaf, IsBorderServed};

/// The code of a border statement goes as the statement does, from each state that its place fits:
/// the region of the sources is computed once, which never passes the limit; then each array in its
/// turn gets on the border what it has at the sources. Or it traps at the same line: where the
/// border doesn't conform, before any array is set; and else behind the arrays that were set, where
/// the border or its sources aren't within an array's storage.
pub fn borders_go_alike()
    ensures { (world : World) (at : ℕ) (kind : Kind) (names : List Name) →
        Goes world (IsBorderServed names)
        (λ c store. exec_form c world.turns at (Border kind names) store)
        (λ l next. lowered_form l next at (Border kind names)) 0 }
{}

/// So do all forms that are such statements, with a jump to spare, as the recursion over statements
/// takes them.
pub fn border_leaves_go_alike()
    ensures { (world : World) (at : ℕ) (form : Form) →
        Goes world (BorderLeaf at form) (λ c store. exec_form c world.turns at form store)
        (λ l next. lowered_form l next at form) 1 }
{}
