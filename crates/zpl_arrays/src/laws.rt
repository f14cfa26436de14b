//! The laws of arrays, references, sources, folds and scans that meaning, plans and rows stand
//! on.
//!
//! Each law is the contract of a function that does nothing: a call brings the law into a proof.
ghost use Rattle.std.specs.Prelude.{◌≡◌, ◌≢◌, ℕ, ◌-◌, ℤ, pos, Bool, false, not, ◌&&◌, List, map};
ghost use Rattle.std.specs.Prelude.{flat_map, length, slice_get, slice_index_or, IsTrue, Some, All};
ghost use Rattle.std.specs.Prelude.{IsPermutation};
ghost use Rattle.std.specs.List.{AllZip};
ghost use Rattle.zpl_nums.specs.declared.ends.Border.{Border};
ghost use Rattle.zpl_nums.specs.declared.ends.Border.TheVariants.{Wrap};
ghost use Rattle.zpl_nums.specs.declared.folds.Fold.{Fold as Operator};
ghost use Rattle.zpl_nums.specs.Fold.{folded, joined, unit_of};
ghost use Rattle.zpl_region.specs.declared.regions.Region.{Region as Tuples};
ghost use Rattle.zpl_region.specs.Dim.{HasStep};
ghost use Rattle.zpl_region.specs.Ends.{has_none};
ghost use Rattle.zpl_region.specs.Hull.{IsBoxed};
ghost use Rattle.zpl_region.specs.Region.{IsMember, IsRegion, members, outside_of, tuple_moved};
ghost use Rattle.zpl_arrays.specs.Around.{around_source, copy_shift, copy_storage};
ghost use Rattle.zpl_arrays.specs.AroundCopy.{around_copy, copied_from};
ghost use Rattle.zpl_arrays.specs.Array.{Array, IsArray, array_of, element, flattened, has_place};
ghost use Rattle.zpl_arrays.specs.Array.{place_among, updated};
ghost use Rattle.zpl_arrays.specs.Border.{border_conforms, border_source, border_sources};
ghost use Rattle.zpl_arrays.specs.Conformity.{flood_conforms};
ghost use Rattle.zpl_arrays.specs.Flood.{flood_source};
ghost use Rattle.zpl_arrays.specs.Fold.{kept_fold};
ghost use Rattle.zpl_arrays.specs.Line.{line_through, masked_value};
ghost use Rattle.zpl_arrays.specs.Reference.{IsCovered, is_reference, lies_in};
ghost use Rattle.zpl_arrays.specs.Row.{running};
ghost use Rattle.zpl_arrays.specs.Scan.{is_below, is_earlier_line, is_up_along, scanned};
ghost use Rattle.zpl_arrays.specs.Scan.{scanned_along};

/// A tuple of a region stands at its place in row-major order, and at no other one.
pub fn tuples_stand_at_their_places()
    ensures stands { (r : Tuples) (t : List ℤ) → All HasStep r.dims → IsMember r t
        → slice_get (members r) (place_among r.dims t) ≡ Some t }
    ensures only { (r : Tuples) (t : List ℤ) (k : ℕ) → All HasStep r.dims
        → slice_get (members r) k ≡ Some t → place_among r.dims t ≡ k }
{}

/// An array that is made of a function has its values, whatever the coordinates of flood
/// dimensions are, and 0 outside the storage.
pub fn elements_are_the_values_given()
    ensures array { (r : Tuples) (f : List ℤ → ℤ) → All HasStep r.dims → IsArray (array_of r f) }
    ensures inside { (r : Tuples) (f : List ℤ → ℤ) (t : List ℤ) → All HasStep r.dims
        → IsTrue (has_place r t) → element (array_of r f) t ≡ f (flattened r.dims t) }
    ensures member { (r : Tuples) (f : List ℤ → ℤ) (t : List ℤ) → All HasStep r.dims → IsMember r t
        → element (array_of r f) t ≡ f t }
    ensures outside { (a : Array) (t : List ℤ) → has_place a.storage t ≡ false
        → element a t ≡ pos 0 }
{}

/// An array is given by its elements.
pub fn arrays_are_their_elements()
    ensures at_place { (a : Array) (k : ℕ) (t : List ℤ) → IsArray a
        → slice_get (members a.storage) k ≡ Some t
        → element a t ≡ slice_index_or a.values k (pos 0) }
    ensures made { (a : Array) → IsArray a → a ≡ array_of a.storage (element a) }
    ensures same { (a b : Array) → IsArray a → IsArray b → a.storage ≡ b.storage
        → ((t : List ℤ) → IsMember a.storage t → element a t ≡ element b t) → a ≡ b }
{}

/// An update gives a tuple its value, and leaves the others theirs.
pub fn updates_change_one_element()
    ensures array { (a : Array) (t : List ℤ) (value : ℤ) → IsArray a → IsArray (updated a t value) }
    ensures here { (a : Array) (t : List ℤ) (value : ℤ) → IsArray a → IsTrue (has_place a.storage t)
        → element (updated a t value) t ≡ value }
    ensures elsewhere { (a : Array) (t u : List ℤ) (value : ℤ) → IsArray a
        → IsTrue (has_place a.storage t) → IsTrue (has_place a.storage u)
        → flattened a.storage.dims u ≢ flattened a.storage.dims t
        → element (updated a t value) u ≡ element a u }
{}

/// A region lies in a box where all its tuples have a place there; and so back, where no flood
/// dimension of it meets a range of the box.
pub fn references_lie_where_their_tuples_do()
    ensures places { (r box : Tuples) (t : List ℤ) → All HasStep r.dims → All IsBoxed box.dims
        → length r.dims ≡ length box.dims → IsTrue (lies_in r box) → IsMember r t
        → IsTrue (has_place box t) }
    ensures lies { (r box : Tuples) → All HasStep r.dims → All IsBoxed box.dims
        → AllZip IsCovered r.dims box.dims
        → ((t : List ℤ) → IsMember r t → IsTrue (has_place box t)) → IsTrue (lies_in r box) }
    ensures moved { (r box : Tuples) (d t : List ℤ) → IsRegion r → All IsBoxed box.dims
        → length r.dims ≡ 3 → length box.dims ≡ 3 → length d ≡ 3
        → IsTrue (is_reference d r box) → IsMember r t
        → IsTrue (has_place box (tuple_moved d r t)) }
{}

/// The source of a border tuple is a source tuple where the border conforms, that of a flood a
/// tuple of its source region, and that of a read that wraps round lies in the home box.
pub fn sources_lie_where_they_should()
    ensures border { (kind : Border) (r : Tuples) (d t : List ℤ) → IsTrue (border_conforms d r)
        → IsMember (outside_of d r) t
        → IsMember (border_sources kind r d) (border_source kind r d t) }
    ensures flood { (target source : Tuples) (t : List ℤ)
        → All HasStep target.dims → All HasStep source.dims
        → length target.dims ≡ length source.dims → IsTrue (flood_conforms target source)
        → IsMember target t → IsMember source (flood_source source t) }
    ensures around { (home : Tuples) (d t : List ℤ) → All IsBoxed home.dims → has_none home ≡ false
        → length d ≡ length home.dims → length t ≡ length home.dims
        → IsTrue (has_place home (around_source home d t)) }
{}

/// Each source tuple of a border that conforms is the source of one of the border's tuples.
pub fn border_sources_are_sources()
    ensures { (kind : Border) (r : Tuples) (d s : List ℤ) → IsTrue (border_conforms d r)
        → IsMember (border_sources kind r d) s
        → (t : List ℤ) × (IsMember (outside_of d r) t × (border_source kind r d t ≡ s)) }
{}

/// A read that wraps round is its copy, read with the copy's shift. Over the home box the copy is
/// the array itself, and a `wrap` sets the home box's borders to what it holds there. A region lies
/// in the home box where it lies in the copy's storage, both unmoved and moved by that shift.
pub fn copies_hold_what_wraps_round()
    ensures read { (home : Tuples) (a : Array) (d t : List ℤ) → IsRegion home
        → All IsBoxed home.dims → length home.dims ≡ 3 → length d ≡ 3 → IsMember home t
        → element (around_copy home d a) (tuple_moved (copy_shift home d) home t)
        ≡ element a (around_source home d t) }
    ensures home { (home : Tuples) (a : Array) (d t : List ℤ) → IsRegion home
        → All IsBoxed home.dims → length home.dims ≡ 3 → length d ≡ 3 → IsMember home t
        → element (around_copy home d a) t ≡ element a t }
    ensures border { (home : Tuples) (v t : List ℤ) → All IsBoxed home.dims → length home.dims ≡ 3
        → length v ≡ 3 → IsTrue (border_conforms v home) → IsMember (outside_of v home) t
        → border_source Wrap home v t ≡ copied_from home t }
    ensures lies { (home r : Tuples) (d : List ℤ) → IsRegion home → IsRegion r
        → All IsBoxed home.dims → r.rank ≡ home.rank → length home.dims ≡ 3
        → length r.dims ≡ 3 → length d ≡ 3
        → lies_in r home ≡ (lies_in r (copy_storage home d)
        && is_reference (copy_shift home d) r (copy_storage home d)) }
{}

/// The fold over tuples that are kept is the join of the folds over parts, whatever the parts and
/// their order are.
pub fn folds_go_by_parts()
    ensures { (op : Operator) (is_kept : List ℤ → Bool) (e : List ℤ → ℤ) (tuples : List (List ℤ))
        (parts : List (List (List ℤ))) → IsPermutation tuples (flat_map (λ part. part) parts)
        → kept_fold op is_kept e tuples ≡ folded op (map (kept_fold op is_kept e) parts) }
{}

/// The value of a scan in row-major order is the join of earlier lines and the scan of its own
/// line. That of a line is the join of what stands below a number and of what stands from it on.
pub fn scans_go_by_lines()
    ensures lines { (op : Operator) (r : Tuples) (is_kept : List ℤ → Bool) (e : List ℤ → ℤ)
        (x : List ℤ)
        → IsRegion r → length r.dims ≡ 3 → IsMember r x
        → scanned op r is_kept e x
        ≡ joined op
        (kept_fold op (λ t. is_kept t && is_earlier_line (r.rank - 1) x t) e (members r))
        (scanned_along r.rank op r is_kept e x) }
    ensures parts { (k : ℕ) (op : Operator) (r : Tuples) (is_kept : List ℤ → Bool)
        (e : List ℤ → ℤ) (x : List ℤ)
        (low : ℤ) → scanned_along k op r is_kept e x
        ≡ joined op
        (kept_fold op (λ t. (is_kept t && is_up_along (k - 1) x t) && is_below (k - 1) low t)
        e (members r))
        (kept_fold op (λ t. (is_kept t && is_up_along (k - 1) x t) && not (is_below (k - 1) low t))
        e (members r)) }
{}

/// The running scan of a line has at each place the scan along the line's dimension. Where it goes
/// on from the fold of the earlier lines, it has the scan in row-major order.
pub fn running_scans_lines()
    ensures along { (k : ℕ) (op : Operator) (r : Tuples) (is_kept : List ℤ → Bool)
        (e : List ℤ → ℤ) (x t : List ℤ) (i : ℕ) → slice_get (line_through k r x) i ≡ Some t
        → slice_get
        (running op (unit_of op) (map (masked_value is_kept e) (line_through k r x))) i
        ≡ Some (scanned_along k op r is_kept e t) }
    ensures onward { (k : ℕ) (op : Operator) (r : Tuples) (is_kept : List ℤ → Bool)
        (e : List ℤ → ℤ) (x t : List ℤ) (i : ℕ) (before : ℤ)
        → joined op (unit_of op) before ≡ before → slice_get (line_through k r x) i ≡ Some t
        → slice_get (running op before (map (masked_value is_kept e) (line_through k r x))) i
        ≡ Some (joined op before (scanned_along k op r is_kept e t)) }
    ensures whole { (op : Operator) (r : Tuples) (is_kept : List ℤ → Bool) (e : List ℤ → ℤ)
        (x t : List ℤ) (i : ℕ) → IsRegion r → length r.dims ≡ 3
        → slice_get (line_through r.rank r x) i ≡ Some t
        → slice_get
        (running op
        (kept_fold op (λ u. is_kept u && is_earlier_line (r.rank - 1) x u) e (members r))
        (map (masked_value is_kept e) (line_through r.rank r x))) i
        ≡ Some (scanned op r is_kept e t) }
{}
