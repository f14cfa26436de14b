//! The laws of phases.
ghost use Rattle.std.specs.Prelude.{◌≡◌, ℕ, ℤ, List, Bool, Some, Contains};
ghost use Rattle.zpl_nums.specs.declared.ends.Border.{Border as BorderKind};
ghost use Rattle.zpl_nums.specs.declared.ends.TrapKind.{TrapKind};
ghost use Rattle.zpl_nums.specs.declared.ends.TrapKind.TheVariants.{DivideByZero};
ghost use Rattle.zpl_arrays.specs.Array.{Array};
ghost use Rattle.zpl_region.specs.declared.regions.Region.{Region};
ghost use Rattle.zpl_tree.specs.Syntax.{Expr, Exprs, Form, ForHead, Item, Name, Return, Write};
ghost use Rattle.zpl_names.specs.Counts.{form_nodes};
ghost use Rattle.zpl_names.specs.Kinds.{Rank};
ghost use Rattle.zpl_names.specs.Sites.{Role};
ghost use Rattle.zpl_meaning.specs.Computed.{Gives, Traps};
ghost use Rattle.zpl_meaning.specs.Store.{ArrayAt, Scalar, Store};
ghost use Rattle.zpl_meaning.specs.Context.{Edge, Over, Place};
ghost use Rattle.zpl_meaning.specs.Outcome.{counting, Outcome};
ghost use Rattle.zpl_meaning.specs.Points.{shattered_at};
ghost use Rattle.zpl_meaning.specs.Term.{Terms};
ghost use Rattle.zpl_meaning.specs.Settled.{Placed, settled_each};
ghost use Rattle.zpl_meaning.specs.Fields.{Field, fields_of};
ghost use Rattle.zpl_meaning.specs.Calls.{actuals_in, Handed};
ghost use Rattle.zpl_meaning.specs.Statement.{assign_to, border_thing, Context, exec_form};
ghost use Rattle.zpl_meaning.specs.Statement.{head_value, line_of, Start, test_of};
ghost use Rattle.meaning_phases.specs.Phased.{IsComputedIn, IsRunIn};
ghost use Rattle.meaning_phases.specs.Statements.{actuals, answer, array_assignment, border, head};
ghost use Rattle.meaning_phases.specs.Statements.{print, scalar_assignment, split, test};
ghost use Rattle.meaning_phases.specs.Trapping.{HaveNoRemap, IsRegionTrap, IsValueTrap};

/// An assignment to a scalar or to an array, a print, a border statement of one array and a
/// `return` go through their phases one after another: the first that fails gives the trap, and
/// then nothing is written or printed; where none fails, all is. So does a shattered statement
/// before its tuples run.
pub fn statements_go_through_their_phases()
    ensures scalars { (place : Place) (role : Role) (target : ℕ) (value : Expr) (line : ℕ)
        (store : Store) →
        IsRunIn (scalar_assignment place role target value store) store line
        (assign_to place role (Some (Scalar target)) value line store) }
    ensures arrays { (place : Place) (role : Role) (target : ℕ) (home : Region) (value : Expr)
        (line : ℕ) (store : Store) →
        IsRunIn (array_assignment place role target value store) store line
        (assign_to place role (Some (ArrayAt target home)) value line store) }
    ensures prints { (context : Context) (n at : ℕ) (ends : Bool) (items : List Item)
        (store : Store) →
        IsRunIn (print context.place ends items store) store (line_of context.place at)
        (exec_form context n at (Write ends items) store) }
    ensures borders { (kind : BorderKind) (edge : Edge) (target : ℕ) (home : Region) (line : ℕ)
        (store : Store) →
        IsRunIn (border kind edge target store) store line
        (border_thing kind (Some edge) (Some (ArrayAt target home)) line store) }
    ensures shattered { (place : Place) (rank : Rank) (over : Over) (line n : ℕ) (form : Form)
        (store : Store) →
        (outcome : Outcome) × IsRunIn (split place rank over line n form store) store line outcome ×
        (shattered_at place rank over line n form store ≡ counting (form_nodes form) outcome) }
    ensures answers { (context : Context) (n at : ℕ) (value : Expr) (store : Store) →
        IsRunIn (answer context.place value store) store (line_of context.place at)
        (exec_form context n at (Return value) store) }
{}

/// So do a test of rank 0, the three values of a `for` and the actuals of a call: the first phase
/// that fails gives the trap, and where none does they give what the run goes on with.
pub fn evaluations_go_through_their_phases()
    ensures tests { (place : Place) (expr : Expr) (at : ℕ) (store : Store) →
        IsComputedIn (test place expr store) ((test_of place expr at).value store) }
    ensures heads { (place : Place) (for : ForHead) (store : Store) →
        IsComputedIn (head place for store) (head_value place store for) }
    ensures calls { (place : Place) (name : Name) (exprs : Exprs) (store : Store) →
        IsComputedIn (actuals place name exprs store) (actuals_in place store name exprs) }
{}

/// The first phase fails for a zero divisor or for the limit of regions alone. The operators over
/// regions of the fourth fail for a zero divisor, or for a remap read past the storage where there
/// is one; and what is left at each tuple for a zero divisor.
pub fn phases_have_their_traps()
    ensures regions { (place : Place) (store : Store) (exprs : List Placed) (kind : TrapKind) →
        settled_each place store exprs ≡ Traps kind → IsRegionTrap kind }
    ensures values { (store : Store) (terms : Terms) (kind : TrapKind) →
        fields_of store terms ≡ Traps kind → IsValueTrap kind }
    ensures plain { (store : Store) (terms : Terms) (kind : TrapKind) → HaveNoRemap terms →
        fields_of store terms ≡ Traps kind → kind ≡ DivideByZero }
    ensures left { (store : Store) (terms : Terms) (fields : List Field) (field : Field)
        (t : List ℤ) (kind : TrapKind) → fields_of store terms ≡ Gives fields →
        Contains fields field → field t ≡ Traps kind → kind ≡ DivideByZero }
{}
