//! The laws of partial folds that plans and rows stand on.
//!
//! Each law is the contract of a function that does nothing: a call brings the law into a proof.
ghost use Rattle.std.specs.Prelude.{◌≡◌, ◌<◌, ℕ, ℤ, List, All, IsPermutation, filter, flat_map};
ghost use Rattle.std.specs.Prelude.{length, map};
ghost use Rattle.region_places.specs.of_zpl_nums.declared.folds.Fold.{Fold as Operator};
ghost use Rattle.region_places.specs.of_zpl_nums.Fold.{folded};
ghost use Rattle.grid_layout.specs.of_zpl_region.declared.regions.Region.{Region as Tuples};
ghost use Rattle.grid_layout.specs.of_zpl_region.Dim.{HasStep};
ghost use Rattle.grid_layout.specs.of_zpl_region.Region.{IsRegion, members};
ghost use Rattle.region_places.specs.of_zpl_arrays.Array.{array_of};
ghost use Rattle.region_places.specs.of_zpl_arrays.Fold.{partly_reduced};
ghost use Rattle.grid_layout.specs.declared.blocks.Blocks.{Blocks as Cut};
ghost use Rattle.grid_layout.specs.Grid.{processors_of};
ghost use Rattle.grid_layout.specs.Layout.{AreBlocks};
ghost use Rattle.grid_layout.specs.Piece.{owned_part};
ghost use Rattle.grid_layout.specs.Words.{processors};
ghost use Rattle.reduce_plan.specs.Partial.{is_reached, partials_of};

/// The partial folds of a block that has the values of a function are the partial reductions of
/// that function over the block, at the indices that it reaches.
pub fn partial_folds_are_reductions_over_the_block()
    ensures { (op : Operator) (target within block : Tuples) (e : List ℤ → ℤ)
        → All HasStep block.dims
        → partials_of op target within (array_of block e)
        ≡ map (partly_reduced op target block e)
        (filter (is_reached target block) (members within)) }
{}

/// Where blocks have each tuple of a source once, the partial reduction over the source is the fold
/// over those of the blocks that reach the index, in any order.
pub fn partial_folds_join_to_the_fold()
    ensures { (op : Operator) (target source : Tuples) (e : List ℤ → ℤ) (x : List ℤ)
        (blocks : List Tuples) (folds : List ℤ)
        → IsPermutation (members source) (flat_map members blocks)
        → IsPermutation
        (map (λ block. partly_reduced op target block e x)
        (filter (λ block. is_reached target block x) blocks)) folds
        → folded op folds ≡ partly_reduced op target source e x }
{}

/// So it is with the parts of the source that the processors of a grid own, for any receiver.
pub fn partial_folds_of_all_processors_join_to_the_fold()
    ensures { (cut : Cut) (to : ℕ) (op : Operator) (target source : Tuples) (e : List ℤ → ℤ)
        (x : List ℤ) (folds : List ℤ)
        → AreBlocks cut → IsRegion source → length source.dims ≡ 3 → to < processors_of cut.grid
        → IsPermutation
        (map (λ block. partly_reduced op target block e x)
        (filter (λ block. is_reached target block x)
        (map (λ from. owned_part cut from to source) (processors cut.grid)))) folds
        → folded op folds ≡ partly_reduced op target source e x }
{}
