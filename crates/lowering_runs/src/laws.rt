//! The laws of lowered code.
//!
//! Each law is the contract of a function that does nothing: a call brings the law into a proof.
ghost use Rattle.std.specs.Prelude.{◌≡◌, ◌≢◌, ℕ, List};
ghost use Rattle.zpl_tree.specs.Syntax.{Program, Stmt};
ghost use Rattle.zpl_tree.specs.Grammar.{IsProgram};
ghost use Rattle.zpl_names.specs.Accepted.{IsFaultless};
ghost use Rattle.lowering_fits.specs.of_zpl_binding.Settings.{Setting};
ghost use Rattle.lowering_fits.specs.of_zpl_meaning.Context.{Place, Setup};
ghost use Rattle.lowering_fits.specs.of_zpl_meaning.Program.{outcome_of};
ghost use Rattle.lowering_fits.specs.of_zpl_meaning.Proper.{IsProperStmt};
ghost use Rattle.lowering_fits.specs.of_zpl_meaning.Statement.{exec};
ghost use Rattle.lowering_fits.specs.of_zpl_meaning.Visited.{IsVisited};
ghost use Rattle.node_form.specs.declared.tables.Tables.{Tables as Code};
ghost use Rattle.row_runs.specs.Run.{Wrong};
ghost use Rattle.lowering_fits.specs.of_flat_form.Act.{flat_run};
ghost use Rattle.lowering_fits.specs.of_zpl_lowering.Statement.{lowered};
ghost use Rattle.lowering_fits.specs.of_zpl_lowering.Tables.{flat_tables};
ghost use Rattle.lowering_runs.specs.Called.{CallsAgree, world_at};
ghost use Rattle.lowering_runs.specs.Goes.{Goes, World};
ghost use Rattle.lowering_runs.specs.ScalarText.{IsScalarCall, IsScalarProgram};
ghost use Rattle.lowering_runs.specs.Served.{IsServed};
ghost use Rattle.lowering_runs.specs.Shown.{Shows};

use lowering_fits::all_code_is_numbered;
use lowering_fits::zpl_meaning::no_stand_in_is_met;

/// Names of procedures that may be called. No program calls this: laws are said of it.
pub trait Callables {
    ghost IsCallable: { List ℕ → Type 0 };
}

/// The flat program of a program of scalars shows what the program means: with some bound on its
/// jumps, where each loop that is entered may make n turns, it prints the same bytes and ends in
/// the same way as the meaning does with n turns. The bound is few times the steps, or more turns
/// are wanted and it is at least n.
pub fn scalar_programs_are_shown()
    ensures shown { (program : Program) (settings : List Setting) → IsProgram program →
        IsFaultless program → IsScalarProgram program settings → (n : ℕ) →
        Shows (λ a. flat_run (flat_tables program settings) a n) n
        (outcome_of program settings n) }
    // It never comes to a row that may not stand there.
    ensures right { (program : Program) (settings : List Setting) → IsProgram program →
        IsFaultless program → IsScalarProgram program settings → (a n : ℕ) →
        (flat_run (flat_tables program settings) a n).stop ≢ Wrong }
{
    no_stand_in_is_met();
    all_code_is_numbered();
}

/// The code of a statement of scalars goes as the statement does, wherever it stands, if that of
/// what it calls does.
pub fn scalar_statements_go_alike<C: Callables>()
    ensures { (world : World) (setup : Setup) → CallsAgree world setup C.IsCallable →
        ((place : Place) (stmt : Stmt) → IsVisited setup place stmt → IsProperStmt place stmt) →
        (stmt : Stmt) →
        Goes world (λ _ place. IsServed setup C.IsCallable stmt place)
        (λ c store. exec c world.turns stmt store) (λ l next. lowered l next stmt) 0 }
{}

/// The code of a call goes as the call does, down any chain of calls of such procedures.
pub fn scalar_calls_go_alike()
    ensures { (tables : Code) (n : ℕ) (setup : Setup) →
        ((place : Place) (stmt : Stmt) → IsVisited setup place stmt → IsProperStmt place stmt) →
        (depth : ℕ) → CallsAgree (world_at tables n setup depth) setup
        (IsScalarCall setup.program depth) }
{}
