//! The laws of shattered statements in lowered code.
//!
//! Each law is the contract of a function that does nothing: a call brings the law into a proof.
ghost use Rattle.std.specs.Prelude.{ℕ};
ghost use Rattle.zpl_tree.specs.Syntax.{Arms, Expr, Form, If, Otherwise, Repeat, Stmts, While};
ghost use Rattle.zpl_meaning.specs.Statement.{exec_form};
ghost use Rattle.array_runs.specs.of_zpl_lowering.Statement.{lowered_form};
ghost use Rattle.array_runs.specs.of_lowering_runs.Goes.{Goes, World};
ghost use Rattle.point_runs.specs.Shattered.{IsSplit, SplitLeaf};

/// The code of a shattered `if`, `while` or `repeat` goes as the statement does, from each state
/// that its place fits: each tuple of the current region that isn't masked out runs all of it by
/// itself, on its own values, and all arrays get what the tuples have left. Or both end alike: with
/// the trap of a reference or a mask outside its storage; else, where a loop at some tuple wants
/// more turns than it may make, for want of a turn; else, where some tuple divides by 0, with that
/// trap. All traps are at the line of the whole statement.
pub fn shattered_statements_go_alike()
    ensures choices { (world : World) (at : ℕ) (arms : Arms) (otherwise : Otherwise) →
        Goes world (IsSplit (If arms otherwise))
        (λ c store. exec_form c world.turns at (If arms otherwise) store)
        (λ l next. lowered_form l next at (If arms otherwise)) 0 }
    ensures loops { (world : World) (at : ℕ) (test : Expr) (body : Stmts) →
        Goes world (IsSplit (While test body))
        (λ c store. exec_form c world.turns at (While test body) store)
        (λ l next. lowered_form l next at (While test body)) 0 }
    ensures turns { (world : World) (at : ℕ) (body : Stmts) (until : ℕ) (test : Expr) →
        Goes world (IsSplit (Repeat body until test))
        (λ c store. exec_form c world.turns at (Repeat body until test) store)
        (λ l next. lowered_form l next at (Repeat body until test)) 0 }
{}

/// So do all forms that are such statements, with a jump to spare, as the recursion over statements
/// takes them.
pub fn shattered_leaves_go_alike()
    ensures { (world : World) (at : ℕ) (form : Form) →
        Goes world (SplitLeaf at form) (λ c store. exec_form c world.turns at form store)
        (λ l next. lowered_form l next at form) 1 }
{}
