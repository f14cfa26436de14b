//! The laws of places where code goes as statements do.
//!
//! Each law is the contract of a function that does nothing: a call brings the law into a proof.
ghost use Rattle.std.specs.Prelude.{◌≡◌, ℕ, Bool, List, [], Option, Some, find, length};
ghost use Rattle.std.specs.Str.{bytes_eq};
ghost use Rattle.zpl_nums.specs.declared.operators.Op.{Op as Operator};
ghost use Rattle.zpl_region.specs.declared.regions.Region.{Region as Places};
ghost use Rattle.zpl_region.specs.Region.{IsRegion};
ghost use Rattle.zpl_tree.specs.Syntax.{Assign, Base, Expr, Mask as MaskText, Name, Prefix, Stmt};
ghost use Rattle.zpl_names.specs.Faults.{flood_clashes};
ghost use Rattle.zpl_names.specs.Kinds.{Rank, Shape};
ghost use Rattle.zpl_names.specs.Shapes.{Shapes, inner_shape, prefix_rank, shapes_under};
ghost use Rattle.zpl_names.specs.Sites.{Assigned, AtMask, AtStmt, expr_sites, whole_rank};
ghost use Rattle.zpl_binding.specs.Outcome.{Computed as Bound, Gives};
ghost use Rattle.zpl_binding.specs.Regions.{Known};
ghost use Rattle.zpl_meaning.specs.Context.{Currents, Edge, Place, Setup};
ghost use Rattle.zpl_meaning.specs.Proper.{IsPlainAssign, IsProperPrefix};
ghost use Rattle.zpl_meaning.specs.Store.{ArrayAt, Environment, thing_of};
ghost use Rattle.meaning_ranks.specs.Ranked.{IsMaskOf, IsRankedPrefix, IsRankedValue};
ghost use Rattle.prefix_runs.specs.of_zpl_lowering.Statement.{under_prefix};
ghost use Rattle.prefix_runs.specs.of_zpl_lowering.Where.{Where};
ghost use Rattle.prefix_runs.specs.of_lowering_runs.Seen.{Spot};
ghost use Rattle.prefix_runs.specs.of_lowering_runs.Suits.{SuitsStmt};
ghost use Rattle.prefix_runs.specs.of_array_runs.Floods.{IsArrayServed};
ghost use Rattle.prefix_runs.specs.Opens.{IsGivenRegion};
ghost use Rattle.prefix_runs.specs.Plain.{PlainLeaf};
ghost use Rattle.prefix_runs.specs.Under.{IsUnder, OpensPrefix, opened_at};
ghost use Rattle.served_places.specs.Clean.{IsCleanStmt, StandsAsTold};
ghost use Rattle.served_places.specs.Given.{IsSound, KnowsGiven};
ghost use Rattle.served_places.specs.Told.{AreFree, IsPlainExpr, IsSeenFrom, IsTold, place_of};
ghost use Rattle.served_places.specs.Told.{reach_told};

/// Names of procedures that may be called. No program calls this: laws are said of it.
pub trait Callables {
    ghost IsCallable: { List ℕ → Type 0 };
}

/// Where current regions and arrays are as the text says, and the text has no clash of flood
/// dimensions, all that is asked of an assignment of an array without operators over regions holds:
/// the array has the flood dimensions of the current region, and what is read has them at least
/// there. That the statement is proper and that its ranks agree are laws of visited places.
pub fn assigned_arrays_are_served()
    ensures { (spots : List Spot) (w : Where) (environment : Environment) (answer : ℕ)
        (currents : Currents) (edge : Option Edge) → IsSeenFrom spots w environment currents →
        (shapes : Shapes) → IsTold w shapes → (shattered : Rank) (result : Option Base) (at : ℕ)
        (prefixes : List Prefix) (name : Name)
        (op : Option Operator) (value : Expr) (target : ℕ) (home : Places) →
        thing_of w.environment name.text ≡ Some (ArrayAt target home) → IsPlainExpr value →
        IsPlainAssign (place_of w environment answer currents edge) name op value →
        IsRankedValue (place_of w environment answer currents edge) name op value →
        flood_clashes (AtStmt (reach_told w shapes shattered result) at prefixes
        (Assign name op value)) ≡ [] →
        AreFree (expr_sites (reach_told w shapes shattered result)
        (whole_rank (reach_told w shapes shattered result) (Assigned name op) value) value) →
        IsArrayServed name op value w (place_of w environment answer currents edge) }
{}

/// A proper prefix whose ranks agree may be opened, where what was computed before the run has no
/// fault.
pub fn prefixes_may_be_opened()
    ensures { (place : Place) → KnowsGiven place.setup.known place.scope → (prefix : Prefix) →
        IsProperPrefix place prefix → IsRankedPrefix place prefix →
        IsSound place.setup.known prefix.region → OpensPrefix prefix place }
{}

/// Where current regions and arrays are as the text says, they are so behind a prefix: the slot of
/// its bracket has the flood dimensions of the shape that the text tells, whichever rows fill it,
/// and its mask has a value at each tuple of the region.
pub fn told_behind_prefixes()
    ensures { (w : Where) (environment : Environment) (answer : ℕ) (currents : Currents)
        (edge : Option Edge) (shapes : Shapes) → IsTold w shapes →
        KnowsGiven w.setup.known w.scope → (shattered : Rank) (result : Option Base)
        (prefix : Prefix) → OpensPrefix prefix (place_of w environment answer currents edge) →
        IsMaskOf (place_of w environment answer currents edge)
        (prefix_rank w.scope w.prefix prefix) prefix.mask →
        (shape : Shape) →
        inner_shape w.scope shapes (prefix_rank w.scope w.prefix prefix) prefix.region
        ≡ Some shape →
        Some (length shape) ≡ prefix_rank w.scope w.prefix prefix →
        ((mask : MaskText) → prefix.mask ≡ Some mask →
        flood_clashes (AtMask (reach_told w shapes shattered result) prefix mask) ≡ []) →
        (borders : Bool) (slot line : ℕ) →
        IsTold (under_prefix w prefix (opened_at borders w slot line prefix))
        (shapes_under w.scope shapes (prefix_rank w.scope w.prefix prefix) prefix) }
{}

/// A declared region without a fault is the one in the slot of its name.
pub fn declared_regions_are_given()
    ensures { (known : Known) (name : Name) (one : Bound Places) (region : Places) →
        find (λ one. bytes_eq one.name name.text) known.regions ≡ Some one →
        one.outcome ≡ Gives region → IsRegion region → length region.dims ≡ 3 →
        IsGivenRegion known name }
{}

/// Clean statements suit their places: where the place is as the text says, all that is asked of a
/// statement, so that its code goes as it does, holds at each place that a part of it comes to.
pub fn clean_statements_suit<C: Callables>()
    ensures { (spots : List Spot) (setup : Setup) (shattered : Rank) (result : Option Base)
        (environment : Environment) (answer : ℕ) (stmt : Stmt) (w : Where) (currents : Currents)
        (edge : Option Edge) (shapes : Shapes) →
        StandsAsTold spots environment w currents shapes →
        IsCleanStmt setup C.IsCallable shattered result stmt
        (place_of w environment answer currents edge) shapes →
        SuitsStmt IsUnder (PlainLeaf setup C.IsCallable) stmt w
        (place_of w environment answer currents edge) }
{}
