//! The laws of prints in lowered code.
//!
//! Each law is the contract of a function that does nothing: a call brings the law into a proof.
ghost use Rattle.std.specs.Prelude.{ℕ, Bool, List};
ghost use Rattle.zpl_tree.specs.Syntax.{Form, Item, Write};
ghost use Rattle.zpl_meaning.specs.Statement.{exec_form};
ghost use Rattle.array_runs.specs.of_zpl_lowering.Statement.{lowered_form};
ghost use Rattle.array_runs.specs.of_lowering_runs.Goes.{Goes, World};
ghost use Rattle.print_runs.specs.Printed.{ArePrinted, PrintLeaf};

/// The code of a print goes as the print does, from each state that its place fits: all values are
/// computed first, those of scalars into scalars and those of arrays into temporaries, in the order
/// of the text; then the same bytes are printed. Or it traps at the same line: first where a
/// reference isn't within its array's storage, and then where some value divides by 0.
pub fn prints_go_alike()
    ensures { (world : World) (at : ℕ) (ends : Bool) (items : List Item) →
        Goes world (ArePrinted items)
        (λ c store. exec_form c world.turns at (Write ends items) store)
        (λ l next. lowered_form l next at (Write ends items)) 0 }
{}

/// So do all forms that are such prints, with a jump to spare, as the recursion over statements
/// takes them.
pub fn print_leaves_go_alike()
    ensures { (world : World) (at : ℕ) (form : Form) →
        Goes world (PrintLeaf at form) (λ c store. exec_form c world.turns at form store)
        (λ l next. lowered_form l next at form) 1 }
{}
