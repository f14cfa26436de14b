//! The laws of statements under prefixes, in lowered code.
//!
//! Each law is the contract of a function that does nothing: a call brings the law into a proof.
ghost use Rattle.std.specs.Prelude.{ℕ, ◌+◌, Bool, List};
ghost use Rattle.zpl_names.specs.Counts.{own_nodes};
ghost use Rattle.zpl_tree.specs.Syntax.{Expr, Form, Prefix, Stmt};
ghost use Rattle.array_runs.specs.of_zpl_meaning.Context.{Place, Setup};
ghost use Rattle.array_runs.specs.of_zpl_meaning.Outcome.{Outcome};
ghost use Rattle.array_runs.specs.of_zpl_meaning.Statement.{Context, exec, exec_form, under};
ghost use Rattle.array_runs.specs.of_zpl_meaning.Store.{Store};
ghost use Rattle.array_runs.specs.of_zpl_lowering.Lowered.{Lowered};
ghost use Rattle.array_runs.specs.of_zpl_lowering.Statement.{Lowering, lowered, lowered_form, lowered_under};
ghost use Rattle.array_runs.specs.of_zpl_lowering.Where.{Next, Where};
ghost use Rattle.array_runs.specs.of_lowering_runs.Called.{CallsAgree};
ghost use Rattle.array_runs.specs.of_lowering_runs.Goes.{Goes, TestsGo, ValuesGo, World};
ghost use Rattle.array_runs.specs.of_lowering_runs.Suits.{SuitsStmt, SuitsStmtBy};
ghost use Rattle.prefix_runs.specs.Plain.{PlainLeaf};
ghost use Rattle.prefix_runs.specs.Under.{IsUnder};

/// What is asked where a statement stands. No program calls this: laws are said of it.
pub trait Standing {
    ghost IsServed: { Where → Place → Type 0 };
}

/// What is asked of a test of `if`, `while` or `repeat`, where it stands.
pub trait Tests {
    ghost IsTest: { Expr → Where → Place → Type 0 };
}

/// What is asked of a bound of `for`, where it stands.
pub trait Bounds {
    ghost IsBound: { Expr → Where → Place → Type 0 };
}

/// What is asked of a form that has no statements in it, or is shattered, where it stands.
pub trait Leaves {
    ghost IsLeaf: { ℕ → Form → Where → Place → Type 0 };
}

/// Names of procedures that may be called.
pub trait Callables {
    ghost IsCallable: { List ℕ → Type 0 };
}

/// Code under prefixes goes as what it was lowered from, where it does so behind them: each bracket
/// is computed once, under those before it, and fills a slot with the region that it means, or
/// traps as it does, at its own line. What stands behind is run with these regions current, and
/// with their masks.
pub fn prefixes_go_alike<S: Standing>()
    ensures { (world : World) (borders : Bool) (prefixes : List Prefix)
        (run : Context → Store → Outcome) (made : Lowering → Next → Lowered) (spare : ℕ) →
        Goes world S.IsServed run made spare →
        Goes world (IsUnder borders prefixes S.IsServed)
        (λ c store. under c prefixes store (λ inner. run inner store))
        (λ l next. lowered_under borders l next prefixes made) spare }
{}

/// The code of a statement goes as the statement does, with all prefixes, branches, loops and
/// blocks in it, if tests and bounds go alike, and so does that of the forms in it that have no
/// statements in them.
pub fn statements_go_alike<T: Tests, B: Bounds, L: Leaves>()
    ensures { (world : World) → TestsGo world T.IsTest → ValuesGo world B.IsBound →
        ((at : ℕ) (form : Form) →
        Goes world (L.IsLeaf at form) (λ c store. exec_form c world.turns at form store)
        (λ l next. lowered_form l next at form) (1 + own_nodes form)) →
        (stmt : Stmt) →
        Goes world (SuitsStmtBy IsUnder T.IsTest B.IsBound L.IsLeaf stmt)
        (λ c store. exec c world.turns stmt store) (λ l next. lowered l next stmt) 0 }
{}

/// So does that of statements of scalars and arrays, under prefixes: assignments of arrays without
/// operators over regions, and all that stands in programs of scalars.
pub fn statements_with_arrays_go_alike<C: Callables>()
    ensures { (world : World) (setup : Setup) → CallsAgree world setup C.IsCallable →
        (stmt : Stmt) →
        Goes world (SuitsStmt IsUnder (PlainLeaf setup C.IsCallable) stmt)
        (λ c store. exec c world.turns stmt store) (λ l next. lowered l next stmt) 0 }
{}
