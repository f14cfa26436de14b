//! The laws of the meaning.
ghost use Rattle.std.specs.Prelude.{◌≡◌, ◌≢◌, ◌≤◌, ◌↔◌, ◌+◌, ◌∷◌, ℕ, ℤ, List, None, Contains};
ghost use Rattle.zpl_lists.specs.Front.{IsFrontOf};
ghost use Rattle.zpl_binding.specs.of_zpl_nums.declared.ends.End.TheVariants.{More, Trap};
ghost use Rattle.zpl_binding.specs.of_zpl_nums.declared.ends.TrapKind.{TrapKind};
ghost use Rattle.zpl_binding.specs.of_zpl_tree.Syntax.{Assign, Call, Expr, Exprs, For, ForHead, Form, Invoke};
ghost use Rattle.zpl_binding.specs.of_zpl_tree.Syntax.{Name, Prefix, Prefixed, Program, Stmt, Stmts};
ghost use Rattle.zpl_binding.specs.of_zpl_names.Counts.{expr_nodes};
ghost use Rattle.zpl_binding.specs.of_zpl_names.Reached.{longest_chain};
ghost use Rattle.zpl_binding.specs.of_zpl_names.Accepted.{IsFaultless};
ghost use Rattle.zpl_binding.specs.Settings.{Setting};
ghost use Rattle.zpl_binding.specs.of_zpl_names.Sites.{Role};
ghost use Rattle.zpl_meaning.specs.Store.{Store};
ghost use Rattle.zpl_meaning.specs.Context.{Place, Setup};
ghost use Rattle.zpl_meaning.specs.Value.{value_of};
ghost use Rattle.zpl_meaning.specs.Settled.{Placed};
ghost use Rattle.zpl_meaning.specs.Phases.{scalar_in, scalars_in};
ghost use Rattle.zpl_meaning.specs.Scalars.{AreScalars, IsScalar, values_of};
ghost use Rattle.zpl_meaning.specs.Computed.{Traps};
ghost use Rattle.zpl_meaning.specs.Regions.{over_in};
ghost use Rattle.zpl_meaning.specs.Outcome.{Count, counting, ends, for_turns, Outcome};
ghost use Rattle.zpl_meaning.specs.Outcome.{repeat_turns, Test, tested, then_do, while_turns};
ghost use Rattle.zpl_meaning.specs.Points.{all_runs, Run};
ghost use Rattle.zpl_meaning.specs.Calls.{actuals_in, Called};
ghost use Rattle.zpl_meaning.specs.Statement.{Context, exec, exec_form, head_value, line_of};
ghost use Rattle.zpl_meaning.specs.Statement.{nodes_under, test_of};
ghost use Rattle.zpl_meaning.specs.Single.{HasTrapped, IsSingle};
ghost use Rattle.zpl_meaning.specs.Wanting.{CallsEnd, ChoiceWants, ForWants, HasNoLoop};
ghost use Rattle.zpl_meaning.specs.Wanting.{IsWithoutLoops, RepeatWants, SomeRunWants, ThenWants};
ghost use Rattle.zpl_meaning.specs.Wanting.{WhileWants};
ghost use Rattle.zpl_meaning.specs.Program.{mean_of, outcome_of, steps_of};
ghost use Rattle.zpl_meaning.specs.Depth.{outcome_down};
ghost use Rattle.zpl_meaning.specs.Given.{IsGiven};
ghost use Rattle.zpl_binding.specs.of_zpl_region.declared.regions.Region.{Region};
ghost use Rattle.zpl_binding.specs.Outcome.{outcome_of as value_named};
ghost use Rattle.zpl_binding.specs.Vectors.{vector_of};
ghost use Rattle.zpl_binding.specs.Declarations.{known_of};
ghost use Rattle.zpl_binding.specs.Storages.{arrays_of, borders_of, home_of, Shaped, storage_of};
ghost use Rattle.zpl_binding.specs.Bound.{IsAcceptedWith, vectors_in};
ghost use Rattle.zpl_binding.specs.of_zpl_tree.Grammar.{IsProgram};
ghost use Rattle.zpl_meaning.specs.Proper.{IsProperStmt};
ghost use Rattle.zpl_meaning.specs.Visited.{first_setup, IsVisited, IsVisitedCall};

use zpl_binding::accepted_settings_bind;
use zpl_binding::zpl_names::{
    declared_ranks_are_at_most_three, faultless_programs_are_shallow,
    faultless_programs_have_faultless_sites, faultless_programs_leave_nothing_open,
    procedures_are_there, ranks_are_at_most_three,
};

/// What a program prints with a bound on its loops begins what it prints with a greater one.
pub fn meaning_grows()
    ensures { (program : Program) (settings : List Setting) (n m : ℕ) → n ≤ m →
        IsFrontOf (mean_of program settings n).bytes (mean_of program settings m).bytes }
{}

/// A run that has ended within a bound ends so, with the same bytes and steps, within each greater
/// one.
pub fn endings_stay()
    ensures meaning { (program : Program) (settings : List Setting) (n m : ℕ) → n ≤ m →
        (mean_of program settings n).ending ≢ More →
        mean_of program settings m ≡ mean_of program settings n }
    ensures steps { (program : Program) (settings : List Setting) (n m : ℕ) → n ≤ m →
        (mean_of program settings n).ending ≢ More →
        steps_of program settings m ≡ steps_of program settings n }
{}

/// Of numbers, truth values, scalars and operators on them, the values that a statement computes
/// are those that the expressions have by themselves.
pub fn scalars_have_their_values()
    ensures one { (place : Place) (store : Store) (role : Role) (expr : Expr) →
        IsScalar place.environment expr →
        scalar_in place store role expr ≡ value_of place.environment store expr }
    ensures all { (place : Place) (store : Store) (exprs : List Placed) →
        AreScalars place.environment exprs →
        scalars_in place store exprs ≡ values_of place.environment store exprs }
{}

/// A statement that has no other in it, and that traps, has written and printed nothing, and its
/// trap has the statement's line. So has what is evaluated around other statements: a prefix, with
/// the line of its `[`; a test, with that of its offset; the three values of a `for`, and the
/// actuals of a call.
pub fn traps_leave_nothing_behind()
    ensures statements { (context : Context) (n at : ℕ) (form : Form) (store : Store) →
        IsSingle context form →
        (kind : TrapKind) (line : ℕ) →
        (exec_form context n at form store).ending ≡ Trap kind line →
        HasTrapped store (line_of context.place at) (exec_form context n at form store) line }
    ensures prefixes { (context : Context) (n at : ℕ) (prefix : Prefix) (rest : List Prefix)
        (form : Form) (store : Store) (kind : TrapKind) →
        over_in context.place store prefix ≡ Traps kind →
        exec context n (Prefixed at (prefix ∷ rest) form) store ≡
        counting (1 + nodes_under (prefix ∷ rest) form)
        (ends store (Trap kind (line_of context.place prefix.at))) }
    ensures tests { (place : Place) (test : Expr) (at : ℕ) (one other : Store → Outcome)
        (store : Store) (kind : TrapKind) →
        (test_of place test at).value store ≡ Traps kind →
        tested (test_of place test at) one other store ≡
        counting (1 + expr_nodes test) (ends store (Trap kind (line_of place at))) }
    ensures heads { (context : Context) (n at : ℕ) (head : ForHead) (body : Stmts) (store : Store)
        (kind : TrapKind) →
        head_value context.place store head ≡ Traps kind →
        exec_form context n at (For head body) store ≡
        ends store (Trap kind (line_of context.place at)) }
    ensures actuals { (context : Context) (n at : ℕ) (name : Name) (actuals : Exprs) (store : Store)
        (kind : TrapKind) →
        actuals_in context.place store name actuals ≡ Traps kind →
        exec_form context n at (Invoke name actuals) store ≡
        ends store (Trap kind (line_of context.place at)) }
    ensures answers { (context : Context) (n at offset : ℕ) (target name : Name) (actuals : Exprs)
        (store : Store) (kind : TrapKind) →
        actuals_in context.place store name actuals ≡ Traps kind →
        exec_form context n at (Assign target None (Call offset name actuals)) store ≡
        ends store (Trap kind (line_of context.place at)) }
{}

/// A loop wants more exactly where it wants a turn that it may not make, or one of its turns wants
/// more. Of other things, each wants more exactly where a part that it runs does: two things one
/// after the other, two choices, the tuples of a shattered statement. A statement without loops
/// doesn't, where what it calls doesn't; and a program without loops never does.
pub fn loops_alone_want_more()
    ensures before { (test : Test) (body : Store → Outcome) (n : ℕ) (store : Store) →
        ((while_turns n test body store).ending ≡ More) ↔ WhileWants test body n store }
    ensures after { (test : Test) (body : Store → Outcome) (n : ℕ) (store : Store) →
        ((repeat_turns n test body store).ending ≡ More) ↔ RepeatWants test body n store }
    ensures counting { (count : Count) (set : ℤ → Store → Store) (body : Store → Outcome) (n : ℕ)
        (value : ℤ) (store : Store) →
        ((for_turns n count set body value store).ending ≡ More) ↔
        ForWants count set body n value store }
    ensures sequences { (first : Outcome) (next : Store → Outcome) →
        ((then_do first next).ending ≡ More) ↔ ThenWants first next }
    ensures choices { (test : Test) (one other : Store → Outcome) (store : Store) →
        ((tested test one other store).ending ≡ More) ↔ ChoiceWants test one other store }
    ensures tuples { (store : Store) (runs : List Run) →
        ((all_runs store runs).ending ≡ More) ↔ SomeRunWants runs }
    ensures statements { (n : ℕ) (call : Called → Store → Outcome) → CallsEnd call →
        (stmt : Stmt) → HasNoLoop stmt → (place : Place) (store : Store) →
        (exec (record { place = place; call = call }) n stmt store).ending ≢ More }
    ensures programs { (program : Program) (settings : List Setting) (n : ℕ) →
        IsWithoutLoops program → (mean_of program settings n).ending ≢ More }
{}

/// In a program without faults no chain of calls is longer than the longest that a run goes down: a
/// run that may go deeper is the same.
pub fn no_call_is_cut_off()
    ensures { (program : Program) (settings : List Setting) (n depth : ℕ) →
        IsFaultless program → longest_chain ≤ depth →
        outcome_down depth program settings n ≡ outcome_of program settings n }
{
    faultless_programs_have_faultless_sites();
    faultless_programs_are_shallow();
}

/// No program of the grammar without faults meets an answer that stands in for a missing one: at
/// each place where one of its statements is run, names stand for what is asked for, ranks have
/// current regions, forms have a meaning, and procedures are there, whatever values variables have.
pub fn no_stand_in_is_met()
    ensures { (program : Program) (settings : List Setting) → IsProgram program →
        IsFaultless program → (place : Place) (stmt : Stmt) →
        IsVisited (first_setup program settings) place stmt → IsProperStmt place stmt }
{
    faultless_programs_have_faultless_sites();
    faultless_programs_leave_nothing_open();
    declared_ranks_are_at_most_three();
    procedures_are_there();
    ranks_are_at_most_three();
}

/// With accepted settings all that is computed before the run has a value, so that none stands in
/// for a failed one: configs and constants, declared regions, directions, vectors in statements,
/// and the storage and the home box of each declared array.
pub fn what_is_computed_has_a_value()
    ensures values { (program : Program) (settings : List Setting) →
        IsAcceptedWith program settings → (text : List ℕ) (default : ℤ) →
        IsGiven ℤ (value_named default (known_of program settings).values text) }
    ensures regions { (program : Program) (settings : List Setting) →
        IsAcceptedWith program settings → (text : List ℕ) (default : Region) →
        IsGiven Region (value_named default (known_of program settings).regions text) }
    ensures directions { (program : Program) (settings : List Setting) →
        IsAcceptedWith program settings → (text : List ℕ) (default : List ℤ) →
        IsGiven (List ℤ) (value_named default (known_of program settings).directions text) }
    ensures vectors { (program : Program) (settings : List Setting) →
        IsAcceptedWith program settings → (parts : Exprs) → Contains (vectors_in program) parts →
        IsGiven (List ℤ) (vector_of (known_of program settings).values parts) }
    ensures storages { (program : Program) (settings : List Setting) →
        IsAcceptedWith program settings → (array : Shaped) → Contains (arrays_of program) array →
        IsGiven Region
        (storage_of (known_of program settings) (borders_of program) array.region) }
    ensures homes { (program : Program) (settings : List Setting) →
        IsAcceptedWith program settings → (array : Shaped) → Contains (arrays_of program) array →
        IsGiven Region (home_of (known_of program settings) array.region) }
{
    accepted_settings_bind();
}

/// A visited statement makes no call but visited ones: what another call would do makes no
/// difference to it.
pub fn visited_statements_make_visited_calls()
    ensures { (setup : Setup) (n : ℕ) (one other : Called → Store → Outcome) →
        ((called : Called) (store : Store) → IsVisitedCall setup called →
        one called store ≡ other called store) →
        (place : Place) (stmt : Stmt) → IsVisited setup place stmt → (store : Store) →
        exec (record { place = place; call = one }) n stmt store ≡
        exec (record { place = place; call = other }) n stmt store }
{}
