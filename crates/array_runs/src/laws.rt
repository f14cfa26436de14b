//! The laws of arrays in lowered code.
//!
//! Each law is the contract of a function that does nothing: a call brings the law into a proof.
ghost use Rattle.std.specs.Prelude.{ℕ, ◌≤◌, Option, slice_get};
ghost use Rattle.zpl_nums.specs.declared.operators.Op.{Op as Operator};
ghost use Rattle.zpl_tree.specs.Syntax.{Assign, Expr, Name};
ghost use Rattle.zpl_names.specs.Sites.{Role};
ghost use Rattle.array_puts.specs.of_zpl_meaning.Statement.{assign_array, exec_form};
ghost use Rattle.array_puts.specs.of_zpl_meaning.Store.{Store};
ghost use Rattle.node_form.specs.declared.tables.Tables.{Tables as Code};
ghost use Rattle.lowering_runs.specs.of_flat_form.Whole.{Whole};
ghost use Rattle.lowering_runs.specs.of_zpl_lowering.Where.{Next, Where, rank_for, slotted_at};
ghost use Rattle.lowering_runs.specs.of_zpl_lowering.Statement.{lowered_array, lowered_form, placed_in};
ghost use Rattle.lowering_runs.specs.Agrees.{Agrees};
ghost use Rattle.lowering_runs.specs.Goes.{Goes, World, context, lowering};
ghost use Rattle.lowering_runs.specs.Run.{does};
ghost use Rattle.lowering_runs.specs.Seen.{Sight, seen_place};
ghost use Rattle.lowering_runs.specs.Stands.{HasRoom, IsLike, Stands};
ghost use Rattle.array_runs.specs.Assigned.{IsArrayAssigned, IsAssigned};
ghost use Rattle.array_runs.specs.Floods.{IsArrayServed};

/// The code of an assignment of an array without operators over regions goes as the assignment
/// does, from each state that its place fits: it comes to the same values in the array and leaves
/// all else; or it traps at the same line, first where a reference or a mask isn't within its
/// array's storage, and then where some value that isn't masked out divides by 0.
pub fn array_assignments_go_alike()
    ensures { (tables : Code) (n : ℕ) (sight : Sight) (w : Where) (next : Next) (start : Whole)
        (role : Role) (line target : ℕ) (value : Expr) → Stands sight.spots w next →
        next.scalars ≤ tables.scalars →
        IsAssigned w (seen_place sight w start) role target value → (store : Store) (now : Whole) →
        IsLike tables sight.spots w next start store now →
        Agrees (IsLike tables sight.spots w next start) n 0
        (assign_array (seen_place sight w start) role target value line store)
        (does tables n (lowered_array w line next (slotted_at w.currents (rank_for w role))
        (placed_in w role value) (slice_get w.numbers.arrays target)).code now) }
{}

/// So does the code of a statement whose name stands for such an array.
pub fn array_statements_go_alike()
    ensures { (world : World) (sight : Sight) (w : Where) (next : Next) (start : Whole) (at : ℕ)
        (name : Name) (op : Option Operator) (value : Expr) → Stands sight.spots w next →
        IsArrayAssigned w (seen_place sight w start) name op value →
        HasRoom world.tables next (lowered_form (lowering world w) next at (Assign name op value)) →
        (store : Store) (now : Whole) → IsLike world.tables sight.spots w next start store now →
        Agrees (IsLike world.tables sight.spots w next start) world.turns 0
        (exec_form (context world sight w start) world.turns at (Assign name op value) store)
        (does world.tables world.turns
        (lowered_form (lowering world w) next at (Assign name op value)).code now) }
{}

/// So it does where flood dimensions are known before the run: those of the slot that has the
/// current region, of the array, and of what is read. No region is named, so this holds whatever
/// bounds the prefixes around the statement have.
pub fn known_arrays_go_alike()
    ensures { (world : World) (at : ℕ) (name : Name) (op : Option Operator) (value : Expr) →
        Goes world (IsArrayServed name op value)
        (λ c store. exec_form c world.turns at (Assign name op value) store)
        (λ l next. lowered_form l next at (Assign name op value)) 0 }
{}
