//! The laws of what runs come to.
ghost use Rattle.std.specs.Prelude.{◌≡◌, ◌↔◌, ◌<◌, ℕ, zero, ℤ, length, pos, List, Contains, Option};
ghost use Rattle.std.specs.Prelude.{Some};
ghost use Rattle.zpl_nums.specs.declared.ends.End.TheVariants.{More, Trap};
ghost use Rattle.zpl_nums.specs.declared.ends.TrapKind.{TrapKind};
ghost use Rattle.zpl_nums.specs.declared.ends.Border.{Border};
ghost use Rattle.zpl_region.specs.declared.regions.Region.{Region};
ghost use Rattle.zpl_meaning.specs.of_zpl_tree.Syntax.{Expr, Form, Name, Posts, Pre, Prefix, Prefixed, Program};
ghost use Rattle.zpl_meaning.specs.of_zpl_tree.Syntax.{Return, Stmt, Stmts};
ghost use Rattle.zpl_meaning.specs.of_zpl_tree.Grammar.{IsProgram};
ghost use Rattle.zpl_meaning.specs.of_zpl_names.Kinds as kind;
ghost use Rattle.zpl_meaning.specs.of_zpl_names.Scope.{kind_of};
ghost use Rattle.zpl_meaning.specs.of_zpl_names.Shapes.{unknown_shapes};
ghost use Rattle.zpl_meaning.specs.of_zpl_names.Declared.{Routine, routine_named, routines_of};
ghost use Rattle.zpl_meaning.specs.of_zpl_names.Sites.{routine_sites, Site};
ghost use Rattle.zpl_meaning.specs.of_zpl_names.Accepted.{IsFaultless};
ghost use Rattle.zpl_meaning.specs.of_zpl_binding.Outcome.{BindFault, Fails, Gives, RegionLimit};
ghost use Rattle.zpl_meaning.specs.of_zpl_binding.Settings.{Setting};
ghost use Rattle.zpl_meaning.specs.of_zpl_binding.Regions.{before, behind};
ghost use Rattle.zpl_meaning.specs.of_zpl_binding.Declarations.{known_of, names_of};
ghost use Rattle.zpl_meaning.specs.of_zpl_binding.Bound.{IsAcceptedWith};
ghost use Rattle.zpl_meaning.specs.Context.{Place, Setup};
ghost use Rattle.zpl_meaning.specs.Variables.{with_new_scalar};
ghost use Rattle.zpl_meaning.specs.Calls.{Called};
ghost use Rattle.zpl_meaning.specs.Store.{Store, cut_back};
ghost use Rattle.zpl_meaning.specs.Outcome.{Count, Outcome, Test};
ghost use Rattle.zpl_meaning.specs.Points.{Point, point_stmt, point_stmts};
ghost use Rattle.zpl_meaning.specs.Statement.{borders, Context, exec, exec_all};
ghost use Rattle.zpl_meaning.specs.Program.{call_at, mean_of};
ghost use Rattle.zpl_meaning.specs.Proper.{IsProperStmt};
ghost use Rattle.zpl_meaning.specs.Visited.{first_setup, IsVisited};
ghost use Rattle.meaning_runs.specs.Comes.{ComesToTest, ComesToTurn, ComesToValue};
ghost use Rattle.meaning_runs.specs.Kept.{AlwaysKeeps, CallsKeep, IsNoShorter};
ghost use Rattle.meaning_runs.specs.Met.{ComesUnder, IsMet, MakesCall, opening_of, set_at};
ghost use Rattle.meaning_runs.specs.Tuple.{IsMetBy};
ghost use Rattle.meaning_runs.specs.Stops.{SomeLoopStops};
ghost use Rattle.meaning_runs.specs.Traps.{SomeStatementTraps};
ghost use Rattle.meaning_runs.specs.Held.{HasPlaces, HasResult};
ghost use Rattle.meaning_runs.specs.Computed.{HasVectors, IsComputedAt};

use zpl_meaning::zpl_binding::bound_lists_follow_the_text;
use zpl_meaning::{no_stand_in_is_met, what_is_computed_has_a_value};

/// A run wants more exactly where it comes to a loop that wants a turn which it may not make: a
/// `while`, a `repeat` or a `for`, or one in a shattered statement for some tuple.
pub fn more_comes_of_loops()
    ensures { (program : Program) (settings : List Setting) (n : ℕ) →
        ((mean_of program settings n).ending ≡ More) ↔
        SomeLoopStops (opening_of program settings n) }
{}

/// A run ends with a trap, and its line, exactly where it comes to a statement that traps so by
/// itself: in a prefix, a test, the head of a `for` or the actuals of a call, or as a statement
/// with no other in it.
pub fn traps_come_of_statements()
    ensures { (program : Program) (settings : List Setting) (n : ℕ) (kind : TrapKind) (line : ℕ) →
        ((mean_of program settings n).ending ≡ Trap kind line) ↔
        SomeStatementTraps (opening_of program settings n) kind line }
{}

/// Each statement that a run comes to is visited.
pub fn met_statements_are_visited()
    ensures { (program : Program) (settings : List Setting) (n deeper : ℕ) (place : Place)
        (stmt : Stmt) (store : Store) →
        IsMet (opening_of program settings n) deeper place stmt store →
        IsVisited (first_setup program settings) place stmt }
{}

/// In a program of the grammar without faults each statement that a run comes to is proper where it
/// stands, so that no answer stands in there for a missing one.
pub fn met_statements_are_proper()
    ensures { (program : Program) (settings : List Setting) → IsProgram program →
        IsFaultless program → (n deeper : ℕ) (place : Place) (stmt : Stmt) (store : Store) →
        IsMet (opening_of program settings n) deeper place stmt store → IsProperStmt place stmt }
{
    no_stand_in_is_met();
}

/// At each statement that a run comes to, the store has each scalar and each array that a name
/// stands for, and the array of each mask; so it has behind the statement's prefixes, and wherever
/// the run of a tuple comes to in a shattered one.
pub fn stores_have_what_names_stand_for()
    ensures statements { (program : Program) (settings : List Setting) (n deeper : ℕ)
        (place : Place) (stmt : Stmt) (store : Store) →
        IsMet (opening_of program settings n) deeper place stmt store → HasPlaces store place }
    ensures behind { (program : Program) (settings : List Setting) (n deeper : ℕ)
        (place inner : Place) (at : ℕ) (prefixes : List Prefix) (form : Form) (store : Store) →
        IsMet (opening_of program settings n) deeper place (Prefixed at prefixes form) store →
        ComesUnder store prefixes place inner → HasPlaces store inner }
    ensures tuples { (program : Program) (settings : List Setting) (n deeper : ℕ)
        (place inner : Place) (at : ℕ) (prefixes : List Prefix) (form : Form) (store : Store) →
        IsMet (opening_of program settings n) deeper place (Prefixed at prefixes form) store →
        ComesUnder store prefixes place inner →
        (line : ℕ) (tuple : List ℤ) (part : Form) (later : Store) →
        IsMetBy inner line n form store tuple part later → HasPlaces later inner }
{}

/// No run takes away a place for a scalar or an array: no statement and no statements one after
/// another, where what is called doesn't; nothing that is called; no tuple of a shattered
/// statement. So no loop whose body doesn't has done so where it reads its test or sets its
/// variable; and what names and masks stand for is there in each store that is no shorter.
pub fn runs_keep_what_there_is()
    ensures statements { (context : Context) (n : ℕ) → CallsKeep context.call → (stmt : Stmt) →
        AlwaysKeeps (exec context n stmt) }
    ensures bodies { (context : Context) (n : ℕ) → CallsKeep context.call → (stmts : Stmts) →
        AlwaysKeeps (exec_all context n stmts) }
    ensures borders { (place : Place) (kind : Border) (names : List Name) (line : ℕ) →
        AlwaysKeeps (borders place kind names line) }
    ensures calls { (setup : Setup) (n deeper : ℕ) → CallsKeep (call_at setup n deeper) }
    ensures answers { (setup : Setup) (n deeper : ℕ) (called : Called) (store : Store) →
        IsNoShorter store
        (cut_back store (call_at setup n deeper called (with_new_scalar store (pos 0))).store) }
    ensures tuples { (point : Point) (n : ℕ) (stmt : Stmt) →
        AlwaysKeeps (point_stmt point n stmt) }
    ensures tuple_bodies { (point : Point) (n : ℕ) (stmts : Stmts) →
        AlwaysKeeps (point_stmts point n stmts) }
    ensures tests { (test : Test) (body : Store → Outcome) → AlwaysKeeps body →
        (n : ℕ) (store : Store) (left : ℕ) (later : Store) →
        ComesToTest test body n store left later → IsNoShorter store later }
    ensures turns { (test : Test) (body : Store → Outcome) → AlwaysKeeps body →
        (n : ℕ) (store : Store) (left : ℕ) (later : Store) →
        ComesToTurn test body n store left later → IsNoShorter store later }
    ensures values { (count : Count) (target : ℕ) (body : Store → Outcome) → AlwaysKeeps body →
        (n : ℕ) (value : ℤ) (store : Store) (left : ℕ) (reached : ℤ) (later : Store) →
        ComesToValue count (set_at target) body n value store left reached later →
        IsNoShorter store later }
    ensures places { (before after : Store) (place : Place) → IsNoShorter before after →
        HasPlaces before place → HasPlaces after place }
{}

/// In a program without faults, at each `return` that a run comes to the store has a scalar for the
/// answer, which no name stands for. Wherever a call has answered, the store has the scalar that
/// was added for it.
pub fn answers_have_places()
    ensures given { (program : Program) (settings : List Setting) (n : ℕ) → IsFaultless program →
        (deeper : ℕ) (place inner : Place) (at : ℕ) (prefixes : List Prefix) (value : Expr)
        (store : Store) →
        IsMet (opening_of program settings n) deeper place (Prefixed at prefixes (Return value))
        store →
        ComesUnder store prefixes place inner → HasResult store inner }
    ensures taken { (setup : Setup) (n deeper : ℕ) (called : Called) (store : Store) →
        length store.scalars <
        length (call_at setup n deeper called (with_new_scalar store (pos 0))).store.scalars }
{}

/// In a program without faults no run comes to a call where the depth of calls is used up, and each
/// call that one comes to names a procedure of the text.
pub fn no_run_comes_to_the_end_of_calls()
    ensures depth { (program : Program) (settings : List Setting) (n : ℕ) → IsFaultless program →
        (place inner : Place) (at : ℕ) (prefixes : List Prefix) (form : Form) (store : Store)
        (called : Called) (before : Store) →
        IsMet (opening_of program settings n) zero place (Prefixed at prefixes form) store →
        ComesUnder store prefixes place inner → ¬ MakesCall inner store form called before }
    ensures there { (program : Program) (settings : List Setting) (n : ℕ) → IsFaultless program →
        (deeper : ℕ) (place inner : Place) (at : ℕ) (prefixes : List Prefix) (form : Form)
        (store : Store) (called : Called) (before : Store) →
        IsMet (opening_of program settings n) deeper place (Prefixed at prefixes form) store →
        ComesUnder store prefixes place inner → MakesCall inner store form called before →
        (routine : Routine) × (routine_named program called.name ≡ Some routine) }
{}

/// In a program without faults, each region and each direction that a statement of the text names
/// is among those for which one was computed, and so are the vectors there; and where a run comes
/// to, each name that stands for a region or a direction is. With accepted settings, the only fault
/// of forms around a region that stands in a statement is the limit of regions.
pub fn regions_have_been_computed()
    ensures sites { (program : Program) (settings : List Setting) → IsFaultless program →
        (routine : Routine) → Contains (routines_of program) routine → (site : Site) →
        Contains (routine_sites program unknown_shapes routine) site →
        IsComputedAt program (known_of program settings) site }
    ensures regions { (program : Program) (settings : List Setting) (n deeper : ℕ) (place : Place)
        (stmt : Stmt) (store : Store) →
        IsMet (opening_of program settings n) deeper place stmt store →
        (name : Name) (shape : Option kind.Shape) →
        kind_of place.scope name ≡ Some (kind.Region shape) →
        Contains (names_of (known_of program settings).regions) name.text }
    ensures directions { (program : Program) (settings : List Setting) (n deeper : ℕ)
        (place : Place) (stmt : Stmt) (store : Store) →
        IsMet (opening_of program settings n) deeper place stmt store →
        (name : Name) (rank : kind.Rank) → kind_of place.scope name ≡ Some (kind.Direction rank) →
        Contains (names_of (known_of program settings).directions) name.text }
    ensures forms { (program : Program) (settings : List Setting) →
        IsAcceptedWith program settings → (pre : List Pre) (region : Region) (post : Posts)
        (fault : BindFault) → HasVectors program post →
        before (known_of program settings) pre
        (behind (known_of program settings) (Gives region) post) ≡ Fails fault →
        fault ≡ RegionLimit }
{
    bound_lists_follow_the_text();
    what_is_computed_has_a_value();
}
