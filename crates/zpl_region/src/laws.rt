//! The laws of regions that layout, lowering and plans stand on.
//!
//! Each law is the contract of a function that does nothing: a call brings the law into a proof.
ghost use Rattle.std.specs.Prelude.{◌≡◌, ◌≢◌, ◌↔◌, ℕ, ◌+◌, ◌-◌, ◌^◌, ◌<◌, ◌≤◌, ℤ, ◌<ℤ◌, ◌≤ℤ◌, Bool};
ghost use Rattle.std.specs.Prelude.{◌&&◌, List, [], ◌∷◌, map, filter, find, flat_map, length};
ghost use Rattle.std.specs.Prelude.{slice_get, count_by, IsTrue, Some, All, AllPairs, Contains};
ghost use Rattle.std.specs.Prelude.{IsPermutation};
ghost use Rattle.std.specs.List.{AllZip};
ghost use Rattle.zpl_region.specs.declared.dims.Dim.{Dim as Dimension};
ghost use Rattle.zpl_region.specs.declared.progressions.Progression.{Progression as Numbers};
ghost use Rattle.zpl_region.specs.declared.regions.Region.{Region as Tuples};
ghost use Rattle.zpl_region.specs.Blocks.{Block, InOneBlock, choices, each_has};
ghost use Rattle.zpl_region.specs.Dim.{HasStep, IsCoordinate, IsSameSet, coordinates};
ghost use Rattle.zpl_region.specs.Ends.{coordinate_count, first_of, greatest_member, last_of};
ghost use Rattle.zpl_region.specs.Ends.{least_member, single_of, tuple_count};
ghost use Rattle.zpl_region.specs.Hull.{AreAlike, IsBoxed, hull, hull_with};
ghost use Rattle.zpl_region.specs.Progression.{IsNormal, terms};
ghost use Rattle.zpl_region.specs.Region.{IsMember, IsPadded, IsRegion, IsWithinLimit, is_before};
ghost use Rattle.zpl_region.specs.Region.{lies_in_box, members, met, moved, tuple_moved};
ghost use Rattle.zpl_region.specs.Tests.{is_in_box, is_member, is_same_set, is_within_limit};

/// The coordinates of a dimension are the numbers of its set, in ascending order.
pub fn coordinates_are_the_set()
    ensures set { (d : Dimension) (x : ℤ) → HasStep d → Contains (coordinates d) x
        ↔ IsCoordinate d x }
    ensures ascending { (d : Dimension) → AllPairs ◌<ℤ◌ (coordinates d) }
{}

/// A tuple is in a region exactly where each component is a coordinate of its dimension.
pub fn members_are_tuples_of_coordinates()
    ensures { (r : Tuples) (t : List ℤ) → All HasStep r.dims → Contains (members r) t
        ↔ IsMember r t }
{}

/// The tuples of a region stand in row-major order, and no two are the same.
pub fn members_are_in_row_major_order()
    ensures order { (r : Tuples) → AllPairs (λ t u. IsTrue (is_before t u)) (members r) }
    ensures distinct { (r : Tuples) → AllPairs ◌≢◌ (members r) }
{}

/// The first tuple that stands after the one at a place is the one at the next place, if there is
/// one.
pub fn next_member_is_the_one_after()
    ensures { (r : Tuples) (i : ℕ) (t : List ℤ) → slice_get (members r) i ≡ Some t
        → find (is_before t) (members r) ≡ slice_get (members r) (i + 1) }
{}

/// A region that is moved has its tuples moved, in the same order.
pub fn moving_moves_each_member()
    ensures { (r : Tuples) (d : List ℤ) → members (moved d r) ≡ map (tuple_moved d r) (members r) }
{}

/// The part of a region in a box has the tuples that lie in the box, in the same order.
pub fn meeting_keeps_members_in_order()
    ensures { (r : Tuples) (lo hi : List ℤ)
        → members (met lo hi r) ≡ filter (lies_in_box lo hi r) (members r) }
{}

/// Where each tuple lies in exactly one of several boxes, the parts in the boxes have each tuple
/// once.
pub fn blocks_partition_members()
    ensures { (r : Tuples) (boxes : List (List ℤ × List ℤ))
        → All (λ t. count_by (λ b. lies_in_box b.0 b.1 r t) boxes ≡ 1) (members r)
        → IsPermutation (members r) (flat_map (λ b. members (met b.0 b.1 r)) boxes) }
{}

/// Dimensions that are the same set have one list of coordinates, and a list of coordinates has one
/// normal form.
pub fn same_sets_have_one_normal_form()
    ensures list { (d e : Dimension) → HasStep d → HasStep e → IsSameSet d e → coordinates d
        ≡ coordinates e }
    ensures normal { (p q : Numbers) → IsNormal p → IsNormal q → terms p ≡ terms q → p ≡ q }
{}

/// Where each tuple lies in exactly one of several parts, the parts have each tuple once. Which
/// part has a tuple is told by any test on the part's number.
pub fn parts_partition_members()
    ensures { (r : Tuples) (numbers : List ℕ) (has : ℕ → List ℤ → Bool)
        → All (λ t. count_by (λ n. has n t) numbers ≡ 1) (members r)
        → IsPermutation (members r) (flat_map (λ n. filter (has n) (members r)) numbers) }
{}

/// Where each coordinate of a range lies in exactly one of its dimension's blocks, and exactly one
/// block of a flood dimension is the receiver's, the choices of a block of each dimension have each
/// tuple once.
pub fn blocks_partition_members_by_dimension()
    ensures { (r : Tuples) (grid : List (List Block))
        → AllZip InOneBlock grid r.dims
        → IsPermutation (members r)
        (flat_map (λ blocks. filter (each_has blocks r.dims) (members r)) (choices grid)) }
{}

/// The tests tell what the facts say, where steps are at least 1.
pub fn tests_tell_the_facts()
    ensures member { (r : Tuples) (t : List ℤ) → All HasStep r.dims → IsTrue (is_member r t)
        ↔ IsMember r t }
    ensures same_set { (d e : Dimension) → HasStep d → HasStep e → IsTrue (is_same_set d e)
        ↔ IsSameSet d e }
    ensures limit { (r : Tuples) → All HasStep r.dims → IsTrue (is_within_limit r)
        ↔ IsWithinLimit r }
    ensures in_box { (r : Tuples) (lo hi : List ℤ) → All HasStep r.dims
        → IsTrue (is_in_box lo hi r) ↔ All (λ t. IsTrue (lies_in_box lo hi r t)) (members r) }
{}

/// Counts and ends by arithmetic are those of the lists, where steps are at least 1.
pub fn ends_are_those_of_the_lists()
    ensures count { (d : Dimension) → HasStep d → length (coordinates d) ≡ coordinate_count d }
    ensures between { (d : Dimension) (x : ℤ) → HasStep d → IsCoordinate d x
        → (first_of d ≤ℤ x) × (x ≤ℤ last_of d) }
    ensures single { (d : Dimension) (x : ℤ) → HasStep d
        → (single_of d ≡ Some x) ↔ ((d ≢ Dimension.Flood) × (coordinates d ≡ x ∷ [])) }
    ensures members { (r : Tuples) → All HasStep r.dims → length (members r) ≡ tuple_count r.dims }
    ensures least { (r : Tuples) → All HasStep r.dims → slice_get (members r) 0 ≡ least_member r }
    ensures greatest { (r : Tuples) → All HasStep r.dims
        → slice_get (members r) (length (members r) - 1) ≡ greatest_member r }
{}

/// The hull of a region is a box that has its tuples and lies in each box in which they lie.
pub fn hull_is_the_least_box()
    ensures holds { (r : Tuples) (t : List ℤ) → All HasStep r.dims → IsMember r t
        → IsMember (hull r) t }
    ensures least { (r : Tuples) (lo hi : List ℤ) → IsRegion r → is_in_box lo hi (hull r)
        ≡ is_in_box lo hi r }
    ensures boxed { (r : Tuples) → IsRegion r → All IsBoxed (hull r).dims }
    ensures region { (r : Tuples) → IsRegion r → IsRegion (hull r) }
{}

/// The hull of two regions is a box that has the tuples of both and lies in each box in which all
/// of these lie.
pub fn hull_of_two_is_the_least_box()
    ensures mine { (r s : Tuples) (t : List ℤ) → AreAlike r s → IsMember r t
        → IsMember (hull_with r s) t }
    ensures theirs { (r s : Tuples) (t : List ℤ) → AreAlike r s → IsMember s t
        → IsMember (hull_with r s) t }
    ensures least { (r s : Tuples) (lo hi : List ℤ) → AreAlike r s
        → is_in_box lo hi (hull_with r s) ≡ (is_in_box lo hi r && is_in_box lo hi s) }
    ensures boxed { (r s : Tuples) → AreAlike r s → All IsBoxed (hull_with r s).dims }
    ensures region { (r s : Tuples) → AreAlike r s → IsRegion (hull_with r s) }
{}

/// A region within the limit is one that the calls take, and its tuples can be counted.
pub fn limited_regions_are_regions()
    ensures region { (r : Tuples) → 1 ≤ r.rank → r.rank ≤ 3 → All HasStep r.dims
        → IsPadded r.rank r.dims
        → IsWithinLimit r → IsRegion r }
    ensures points { (r : Tuples) → IsWithinLimit r → length (members r) < 2 ^ 64 }
{}
