//! The laws of calls in lowered code.
//!
//! Each law is the contract of a function that does nothing: a call brings the law into a proof.
ghost use Rattle.std.specs.Prelude.{ℕ, ◌+◌, ◌<◌, List, None, length};
ghost use Rattle.zpl_tree.specs.Syntax.{
  Assign,
  Call,
  Expr,
  Exprs,
  Form,
  Invoke,
  Name,
  Return,
  Stmt,
};
ghost use Rattle.zpl_names.specs.Counts.{expr_nodes, exprs_nodes, own_nodes};
ghost use Rattle.zpl_meaning.specs.Calls.{Called};
ghost use Rattle.zpl_meaning.specs.Context.{Place};
ghost use Rattle.zpl_meaning.specs.Statement.{exec, exec_form};
ghost use Rattle.node_form.specs.declared.tables.Tables.{Tables as Code};
ghost use Rattle.flat_form.specs.Whole.{Whole};
ghost use Rattle.prefix_runs.specs.of_zpl_lowering.Statement.{Given, lowered, lowered_form};
ghost use Rattle.prefix_runs.specs.of_zpl_lowering.Where.{Next, Stored, Where};
ghost use Rattle.prefix_runs.specs.of_lowering_runs.Goes.{Goes, ValuesGo, World};
ghost use Rattle.prefix_runs.specs.of_lowering_runs.Stands.{IsSound, IsStored};
ghost use Rattle.call_runs.specs.Answered.{CallsAnswer, IsAnswered, Returns};
ghost use Rattle.call_runs.specs.Copied.{IsCopied, copy_at};
ghost use Rattle.call_runs.specs.Ending.{IsAnsweringBody};
ghost use Rattle.call_runs.specs.Leaf.{CallLeaf};
ghost use Rattle.call_runs.specs.Taken.{CallsGo, IsInvoked};

/// What is said of a call. No program calls this: laws are said of it.
pub trait Calling {
    ghost IsCalled: { Where → List Given → Called → Type 0 };
}

/// What is asked of a value that a parameter takes, or that is returned, where it stands.
pub trait Values {
    ghost IsValue: { Expr → Where → Place → Type 0 };
}

/// What is asked of a statement where it stands.
pub trait Serving {
    ghost IsServed: { Stmt → Where → Place → Type 0 };
}

/// The code of a call as a statement goes as the call does, where what is called does, and so do
/// values: with values of scalars, references, and copies of arrays.
pub fn calls_go_alike<C: Calling, V: Values>()
    ensures { (world : World) → CallsGo C.IsCalled world → ValuesGo world V.IsValue → (at : ℕ)
        (name : Name) (actuals : Exprs) →
        Goes world (IsInvoked C.IsCalled V.IsValue name actuals)
        (λ c store. exec_form c world.turns at (Invoke name actuals) store)
        (λ l next. lowered_form l next at (Invoke name actuals)) (exprs_nodes actuals) }
{}

/// So does that of a call whose answer is assigned to a scalar, where what is called answers into
/// it.
pub fn answers_go_alike<C: Calling, V: Values>()
    ensures { (world : World) → CallsAnswer C.IsCalled world → ValuesGo world V.IsValue →
        (at offset : ℕ) (name callee : Name) (actuals : Exprs) →
        Goes world (IsAnswered C.IsCalled V.IsValue name callee actuals)
        (λ c store. exec_form c world.turns at (Assign name None (Call offset callee actuals))
        store)
        (λ l next. lowered_form l next at (Assign name None (Call offset callee actuals)))
        (exprs_nodes actuals) }
{}

/// So do all forms that are such calls, with jumps to spare, as the recursion over statements takes
/// them; of calls that answer something else may be said.
pub fn call_leaves_go_alike<C: Calling, A: Calling, V: Values>()
    ensures { (world : World) → CallsGo C.IsCalled world → CallsAnswer A.IsCalled world →
        ValuesGo world V.IsValue → (at : ℕ) (form : Form) →
        Goes world (CallLeaf C.IsCalled A.IsCalled V.IsValue at form)
        (λ c store. exec_form c world.turns at form store)
        (λ l next. lowered_form l next at form) (1 + own_nodes form) }
{}

/// A body whose last statement is a `return` goes as its code does, both behind any prefixes, to
/// where the answer is in its place in the store and in the scalar that takes it, if its other
/// statements go alike, and so does a `return` by itself.
pub fn bodies_return_alike<V: Values, S: Serving>()
    ensures { (world : World) →
        ((at : ℕ) (value : Expr) → Returns world (V.IsValue value)
        (λ c store. exec_form c world.turns at (Return value) store)
        (λ l next. lowered_form l next at (Return value)) (1 + expr_nodes value)) →
        ((stmt : Stmt) → Goes world (S.IsServed stmt)
        (λ c store. exec c world.turns stmt store) (λ l next. lowered l next stmt) 0) →
        (body : Stmt) →
        Returns world (IsAnsweringBody V.IsValue S.IsServed body)
        (λ c store. exec c world.turns body store) (λ l next. lowered l next body) 0 }
{}

/// The code of a copy, which a parameter takes, makes the array that is free what another one is,
/// and leaves all else as it was but for a slot that is free.
pub fn copies_are_made()
    ensures { (tables : Code) (n line : ℕ) (next : Next) (from : Stored) (now : Whole) →
        IsSound tables now → IsStored tables from → IsStored tables (copy_at next from) →
        next.slots < length tables.slots → IsCopied tables n line next from now }
{}
