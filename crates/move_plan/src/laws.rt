//! The laws of pieces that plans and the programs of processors stand on.
//!
//! Each law is the contract of a function that does nothing: a call brings the law into a proof.
ghost use Rattle.std.specs.Prelude.{◌≡◌, ◌==◌, ◌<◌, ◌≤◌, ℕ, ℤ, List, All, IsTrue, IsPermutation};
ghost use Rattle.std.specs.Prelude.{filter, flat_map, length};
ghost use Rattle.zpl_arrays.specs.of_zpl_nums.declared.ends.Border.{Border};
ghost use Rattle.zpl_arrays.specs.of_zpl_region.declared.regions.Region.{Region as Tuples};
ghost use Rattle.zpl_arrays.specs.of_zpl_region.Dim.{IsDimWithinLimit, IsUpTo};
ghost use Rattle.zpl_arrays.specs.of_zpl_region.Region.{IsRegion, members};
ghost use Rattle.zpl_arrays.specs.Border.{border_source};
ghost use Rattle.zpl_arrays.specs.Conformity.{flood_conforms};
ghost use Rattle.zpl_arrays.specs.Flood.{flood_source};
ghost use Rattle.grid_layout.specs.declared.blocks.Blocks.{Blocks as Cut};
ghost use Rattle.grid_layout.specs.Grid.{processors_of};
ghost use Rattle.grid_layout.specs.Layout.{AreBlocks};
ghost use Rattle.grid_layout.specs.Piece.{owner_for};
ghost use Rattle.grid_layout.specs.Words.{processors};
ghost use Rattle.move_plan.specs.BorderPiece.{border_piece_in, border_targets};
ghost use Rattle.move_plan.specs.FloodPiece.{flood_piece_in, flood_targets};

/// A border's piece has the receiver's targets whose source the owner has, in their order; and the
/// pieces of all owners have each target once.
pub fn border_pieces_go_by_sources()
    ensures piece { (blocks : Cut) (kind : Border) (r : Tuples) (d : List ℤ) (from to : ℕ)
        → AreBlocks blocks
        → IsRegion r → All IsDimWithinLimit r.dims → length r.dims ≡ 3 → All (IsUpTo 31) d
        → length d ≡ 3
        → to < processors_of blocks.grid → from < processors_of blocks.grid
        → members (border_piece_in blocks kind r d from to)
        ≡ filter (λ t. owner_for blocks to r (border_source kind r d t) == from)
        (members (border_targets blocks r d to)) }
    ensures partition { (blocks : Cut) (kind : Border) (r : Tuples) (d : List ℤ) (to : ℕ)
        → AreBlocks blocks
        → IsRegion r → All IsDimWithinLimit r.dims → length r.dims ≡ 3 → All (IsUpTo 31) d
        → length d ≡ 3
        → to < processors_of blocks.grid
        → IsPermutation (members (border_targets blocks r d to))
        (flat_map (λ from. members (border_piece_in blocks kind r d from to))
        (processors blocks.grid)) }
{}

/// A flood's piece has the receiver's targets whose source the owner has, in their order, where the
/// regions conform; and the pieces of all owners have each target once.
pub fn flood_pieces_go_by_sources()
    ensures piece { (blocks : Cut) (target source : Tuples) (from to : ℕ) → AreBlocks blocks
        → IsRegion target → IsRegion source → target.rank ≡ source.rank → length target.dims ≡ 3
        → length source.dims ≡ 3 → IsTrue (flood_conforms target source)
        → to < processors_of blocks.grid → from < processors_of blocks.grid
        → members (flood_piece_in blocks target source from to)
        ≡ filter (λ t. owner_for blocks to source (flood_source source t) == from)
        (members (flood_targets blocks target to)) }
    ensures partition { (blocks : Cut) (target source : Tuples) (to : ℕ) → AreBlocks blocks
        → IsRegion target → IsRegion source → target.rank ≡ source.rank → length target.dims ≡ 3
        → length source.dims ≡ 3 → IsTrue (flood_conforms target source)
        → to < processors_of blocks.grid
        → IsPermutation (members (flood_targets blocks target to))
        (flat_map (λ from. members (flood_piece_in blocks target source from to))
        (processors blocks.grid)) }
{}
