//! The laws of operators over regions in lowered code.
//!
//! Each law is the contract of a function that does nothing: a call brings the law into a proof.
ghost use Rattle.std.specs.Prelude.{ℕ, ◌+◌, Bool, List, None, Option, sum_by};
ghost use Rattle.zpl_nums.specs.declared.operators.Op.{Op as Operator};
ghost use Rattle.zpl_names.specs.Counts.{expr_nodes, item_nodes};
ghost use Rattle.zpl_tree.specs.Syntax.{Assign, Expr, Item, Name, Return, Stmt, Write};
ghost use Rattle.zpl_meaning.specs.Context.{Setup};
ghost use Rattle.zpl_meaning.specs.Statement.{exec, exec_form, test_of};
ghost use Rattle.zpl_meaning.specs.Store.{Store};
ghost use Rattle.node_form.specs.declared.tables.Tables.{Tables as Code};
ghost use Rattle.flat_form.specs.Whole.{Whole};
ghost use Rattle.print_runs.specs.of_zpl_lowering.Where.{Next, Where, line_of};
ghost use Rattle.print_runs.specs.of_zpl_lowering.Statement as low;
ghost use Rattle.print_runs.specs.of_zpl_lowering.Statement.{lowered, lowered_form};
ghost use Rattle.print_runs.specs.of_lowering_runs.Called.{CallsAgree};
ghost use Rattle.print_runs.specs.of_lowering_runs.Goes.{Goes, ValuesGo, World};
ghost use Rattle.print_runs.specs.of_lowering_runs.Heads.{Heads};
ghost use Rattle.print_runs.specs.of_lowering_runs.Run.{decide, does};
ghost use Rattle.print_runs.specs.of_lowering_runs.Seen.{Sight, seen_place};
ghost use Rattle.print_runs.specs.of_lowering_runs.Stands.{HasRoom, IsBefore, IsLike, Stands};
ghost use Rattle.print_runs.specs.of_lowering_runs.Suits.{SuitsStmtBy};
ghost use Rattle.call_runs.specs.of_prefix_runs.Under.{IsUnder};
ghost use Rattle.call_runs.specs.Answered.{Returns};
ghost use Rattle.operator_runs.specs.Operated.{IsOperated};
ghost use Rattle.operator_runs.specs.Served.{
  ArePrintedOperated,
  IsArrayOperated,
  IsScalarOperated,
};
ghost use Rattle.operator_runs.specs.Served.{AnyLeaf, AnyTest, OperatedValue};

/// Names of procedures that may be called.
pub trait Callables {
    ghost IsCallable: { List ℕ → Type 0 };
}

/// The code of an assignment of a scalar goes as the assignment does, where its value has operators
/// over regions: each is computed by rows of its own, inner before outer and left before right,
/// behind the references of all of them. It comes to the same value, or to the same trap at the
/// same line, with no more jumps than the value has nodes.
pub fn scalars_by_operators_go_alike()
    ensures { (world : World) (at : ℕ) (name : Name) (op : Option Operator) (value : Expr) →
        Goes world (IsScalarOperated name op value)
        (λ c store. exec_form c world.turns at (Assign name op value) store)
        (λ l next. lowered_form l next at (Assign name op value)) (expr_nodes value) }
{}

/// So does that of an assignment of an array, whose value has operators over regions.
pub fn arrays_by_operators_go_alike()
    ensures { (world : World) (at : ℕ) (name : Name) (op : Option Operator) (value : Expr) →
        Goes world (IsArrayOperated name op value)
        (λ c store. exec_form c world.turns at (Assign name op value) store)
        (λ l next. lowered_form l next at (Assign name op value)) (expr_nodes value) }
{}

/// So does that of a print of texts, scalars and arrays of any ranks: all operators are computed
/// before the first value, and all values before the first of them is printed; the values of an
/// array, over the current region of its rank, into a temporary of its own.
pub fn prints_by_operators_go_alike()
    ensures { (world : World) (at : ℕ) (ends : Bool) (items : List Item) →
        Goes world (ArePrintedOperated items)
        (λ c store. exec_form c world.turns at (Write ends items) store)
        (λ l next. lowered_form l next at (Write ends items)) (sum_by item_nodes items) }
{}

/// The rows before a test, and the test, go as the test's value does, where that has operators over
/// regions: code comes to the test in a state that is like the same store, and it says what the
/// value says; or it ends with the trap that the value has. It makes no more jumps than the test
/// has nodes. From here arms and loops may go on.
pub fn tests_by_operators_go_alike()
    ensures { (tables : Code) (n : ℕ) (sight : Sight) (w : Where) (next from : Next)
        (start : Whole) (at : ℕ) (expr : Expr) → Stands sight.spots w next → IsBefore next from →
        IsOperated w (seen_place sight w start) None expr →
        HasRoom tables from (low.test_of w from expr at).before → (store : Store) (now : Whole) →
        IsLike tables sight.spots w next start store now →
        Heads (IsLike tables sight.spots w next start store)
        ((test_of (seen_place sight w start) expr at).value store) (line_of w at)
        (expr_nodes expr) (decide tables n (low.test_of w from expr at).check)
        (does tables n (low.test_of w from expr at).before.code now) }
{}

/// What computes several values goes as they do: all operators over regions before the first value,
/// and each value into a scalar of its own. From here a `for` or a call may go on.
pub fn values_by_operators_go_alike()
    ensures { (world : World) → ValuesGo world OperatedValue }
{}

/// A `return` goes alike, where its value has operators over regions: to where the answer is in its
/// place in the store, and in the scalar that takes it.
pub fn returns_by_operators_go_alike()
    ensures { (world : World) (at : ℕ) (value : Expr) →
        Returns world (OperatedValue value)
        (λ c store. exec_form c world.turns at (Return value) store)
        (λ l next. lowered_form l next at (Return value)) (1 + expr_nodes value) }
{}

/// Statements of scalars and arrays go alike, under prefixes, whose assignments, prints of scalars,
/// tests of `if`, `while` and `repeat`, and bounds of `for` may have operators over regions.
pub fn statements_by_operators_go_alike<C: Callables>()
    ensures { (world : World) (setup : Setup) → CallsAgree world setup C.IsCallable →
        (stmt : Stmt) →
        Goes world (SuitsStmtBy IsUnder AnyTest OperatedValue (AnyLeaf setup C.IsCallable) stmt)
        (λ c store. exec c world.turns stmt store) (λ l next. lowered l next stmt) 0 }
{}
