//! The laws of stored arrays.
ghost use Rattle.std.specs.Prelude.{List, Some, filter, flat_map, length, map, slice_get, sum_by};
ghost use Rattle.std.specs.Prelude.{[], Contains, ◌++◌, ◌==◌, ◌≡◌, ℕ, ℤ};
ghost use Rattle.zpl_region.specs.declared.regions.Region.{Region};
ghost use Rattle.zpl_tree.specs.Grammar.{IsProgram};
ghost use Rattle.zpl_tree.specs.Syntax.{Expr, Name, Program};
ghost use Rattle.zpl_names.specs.Kinds.{Rank};
ghost use Rattle.zpl_names.specs.Sites.{Reach, expr_sites};
ghost use Rattle.zpl_names.specs.Accepted.{IsFaultless};
ghost use Rattle.zpl_names.specs.Declared.{Routine, routines_of};
ghost use Rattle.zpl_names.specs.Expansion.{ExpandedArray, Instance, array_named};
ghost use Rattle.zpl_names.specs.Expansion.{expanded_arrays, is_same_array};
ghost use Rattle.zpl_binding.specs.Declarations.{known_of};
ghost use Rattle.zpl_binding.specs.Regions.{Known};
ghost use Rattle.zpl_binding.specs.Settings.{Setting};
ghost use Rattle.zpl_binding.specs.Storages.{borders_of};
ghost use Rattle.zpl_meaning.specs.Program.{first_frame};
ghost use Rattle.zpl_meaning.specs.Store.{ArrayAt, Environment, thing_of};
ghost use Rattle.grid_meaning.specs.Stored.{arrangement_of, box_of};
ghost use Rattle.zpl_lowering.specs.Hoist.{Shifted, hoisted};
ghost use Rattle.zpl_lowering.specs.Program.{Framed};
ghost use Rattle.zpl_lowering.specs.Slate.{settled};
ghost use Rattle.zpl_lowering.specs.Tables.{flat_tables, stored_row};
ghost use Rattle.zpl_lowering.specs.Where.{Next, Numbers, Stored, Where};
ghost use Rattle.lowered_flat.specs.of_lowering_fits.Storages.{IsStorage};
ghost use Rattle.lowered_flat.specs.Apart.{NamesStandApart};
ghost use Rattle.array_numbers.specs.Calls.{IsCallOf};
ghost use Rattle.zpl_claims.specs.Boxes.{box_read, boxes_of};
ghost use Rattle.stored_boxes.specs.Declared.{IsStoredAs};
ghost use Rattle.stored_boxes.specs.Different.{AreDifferent, IsToldApart};
ghost use Rattle.stored_boxes.specs.Noted.{AreVectors, noted};
ghost use Rattle.stored_boxes.specs.Reads.{IsAt, IsNoted, IsQuietWithin, IsReadAs};

use lowered_flat::lowering_fits::all_code_is_numbered;

/// A stored array of lowered tables has its storage, and the greatest shifts of vectors for its
/// fringe, where the shifts that the code notes of it are those of these vectors that move it, in
/// whatever order: each sum over the ones is that over the others.
pub fn fringes_are_greatest_shifts()
    ensures { (number : ℕ) (storage : Region) (shifts : List Shifted) (vectors : List (List ℤ)) →
        IsStorage storage → AreVectors storage.rank vectors →
        ((f : List ℤ → ℕ) →
        sum_by f (map (λ one. one.shift) (filter (λ one. one.array == number) shifts)) ≡
        sum_by f (flat_map (noted storage) vectors)) →
        box_of (stored_row number shifts storage) ≡ box_read storage vectors }
{}

/// Wherever the body of a procedure is lowered, what a name of an array stands for has the home box
/// and the storage that are declared of the expanded program's array, where no two arrays' names
/// stand at one offset.
pub fn names_are_stored_as_declared()
    ensures { (program : Program) (known : Known) → IsProgram program → IsFaultless program →
        NamesStandApart program → (instance : Instance) (framed : Framed) (arrays : ℕ) →
        IsCallOf program known (borders_of program) instance framed arrays →
        (name : Name) (place : ℕ) (home : Region) (stored : Stored) →
        (let globals = (first_frame program known (borders_of program)).names in
        thing_of (record { names = framed.names ++ globals }) name.text ≡
        Some (ArrayAt place home)) →
        slice_get framed.numbers.arrays place ≡ Some stored →
        IsStoredAs program known (array_named program instance name) home stored.storage }
{}

/// What an expression has of its own when it is lowered: the copies of the reads that wrap round at
/// its sites, in order, and the shifts of these and of the reads with a shift, in whatever order.
/// Wherever names stand for arrays with numbers, and the brackets and the vectors in it have no
/// such reads.
pub fn expressions_note_their_reads()
    ensures { (program : Program) (known : Known) (number : ExpandedArray → ℕ)
        (instance : Instance) (numbers : Numbers) (environment : Environment) →
        ((name : Name) → IsReadAs program known number numbers
        (thing_of environment name.text) (array_named program instance name)) →
        (w : Where) → IsAt known environment w → (line : ℕ) (next : Next) (rank : Rank)
        (reach : Reach) (whole : Rank) (expr : Expr) →
        IsQuietWithin program instance environment reach whole expr →
        (let one = settled w line next rank expr in
        IsNoted program known number instance next.copies (expr_sites reach whole expr)
        one.copies (λ free. (hoisted numbers line free one.slate).shifts)) }
{}

/// The lowered tables store as many arrays as the program has; so where it has none, they are its.
pub fn arrays_are_as_many()
    ensures many { (program : Program) (settings : List Setting) → IsProgram program →
        IsFaultless program → length (arrangement_of (flat_tables program settings)).boxes ≡
        length (boxes_of program (known_of program settings)) }
    ensures none { (program : Program) (settings : List Setting) → IsProgram program →
        IsFaultless program → boxes_of program (known_of program settings) ≡ [] →
        (arrangement_of (flat_tables program settings)).boxes ≡
        boxes_of program (known_of program settings) }
{
    all_code_is_numbered();
}

/// No two arrays of the expanded program are the same, where in the text of each procedure no two
/// calls stand at one offset, and no two names that are declared for it. So two of them are the
/// same exactly where their numbers are.
pub fn arrays_are_different()
    ensures different { (program : Program) → IsFaultless program → ((routine : Routine) →
        Contains (routines_of program) routine → IsToldApart program routine) →
        AreDifferent (expanded_arrays program) }
    ensures numbers { (program : Program) → IsFaultless program → ((routine : Routine) →
        Contains (routines_of program) routine → IsToldApart program routine) →
        (i j : ℕ) (one other : ExpandedArray) →
        slice_get (expanded_arrays program) i ≡ Some one →
        slice_get (expanded_arrays program) j ≡ Some other →
        is_same_array one other ≡ (j == i) }
{}
