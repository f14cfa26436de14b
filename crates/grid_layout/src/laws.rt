//! The laws of layouts that plans and the programs of processors stand on.
//!
//! Each law is the contract of a function that does nothing: a call brings the law into a proof.
ghost use Rattle.std.specs.Prelude.{◌≡◌, ◌↔◌, ◌<◌, ◌≤◌, ◌≤ℤ◌, ℕ, ℤ, List, All, length};
ghost use Rattle.std.specs.Prelude.{◌==◌, IsPermutation, filter, flat_map};
ghost use Rattle.zpl_region.specs.declared.regions.Region.{Region as Tuples};
ghost use Rattle.zpl_region.specs.Dim.{HasBounds, IsUpTo};
ghost use Rattle.zpl_region.specs.Region.{IsMember, IsRegion, members};
ghost use Rattle.grid_layout.specs.Piece.{IsRange, needed_of, owned_part, owner_for, piece_of};
ghost use Rattle.grid_layout.specs.Words.{processors};
ghost use Rattle.grid_layout.specs.declared.axes.Axis.{Axis as Shared};
ghost use Rattle.grid_layout.specs.declared.blocks.Blocks.{Blocks as Cut};
ghost use Rattle.grid_layout.specs.Block.{block_first, block_last, block_of};
ghost use Rattle.grid_layout.specs.Grid.{processors_of};
ghost use Rattle.grid_layout.specs.declared.boxes.ArrayBox.{ArrayBox as Array};
ghost use Rattle.grid_layout.specs.Layout.{AreBlocks, Arrangement, HasThree, IsArrayBox};
ghost use Rattle.grid_layout.specs.Layout.{LiesBetween, blocks_of, box_at, held_of, own_first};
ghost use Rattle.grid_layout.specs.Layout.{own_last, owner_of};

/// Each coordinate is one block's: it lies in the block that owns it, and in no other.
pub fn each_coordinate_has_one_block()
    ensures below { (axis : Shared) (n : ℕ) (x : ℤ) → 1 ≤ n → block_of axis n x < n }
    ensures one { (axis : Shared) (n c : ℕ) (x : ℤ) → c < n → IsUpTo 40 x
        → ((block_first axis n c ≤ℤ x) × (x ≤ℤ block_last axis n c)) ↔ (c ≡ block_of axis n x) }
{}

/// Each tuple is one processor's: it lies in the own block of its owner, and in no other's.
pub fn each_tuple_has_one_owner()
    ensures processor { (blocks : Cut) (rank : ℕ) (t : List ℤ) → 1 ≤ rank → rank ≤ 3
        → owner_of blocks rank t < processors_of blocks.grid }
    ensures one { (blocks : Cut) (rank p : ℕ) (t : List ℤ) → AreBlocks blocks → 1 ≤ rank → rank ≤ 3
        → length t ≡ 3 → All (IsUpTo 40) t → p < processors_of blocks.grid
        → LiesBetween (own_first blocks rank p) (own_last blocks rank p) t
        ↔ (p ≡ owner_of blocks rank t) }
{}

/// The parts of a region that the processors own are disjoint and together are the region: as lists
/// they have each of its tuples once. In a flood dimension the one position is the receiver's.
pub fn owners_partition_regions()
    ensures { (blocks : Cut) (to : ℕ) (r : Tuples) → AreBlocks blocks → 1 ≤ r.rank → r.rank ≤ 3
        → length r.dims ≡ 3 → All HasBounds r.dims → to < processors_of blocks.grid
        → IsPermutation (members r)
        (flat_map (λ from. members (owned_part blocks from to r)) (processors blocks.grid)) }
{}

/// The blocks for arrays that can be laid out are ones that the calls take.
pub fn laid_out_blocks_are_blocks()
    ensures { (grid : List ℕ) (boxes : List Array) → All IsArrayBox boxes
        → AreBlocks (blocks_of grid boxes) }
{}

/// What a processor holds of an array are places of its storage, in a region that the calls take.
pub fn held_boxes_lie_in_storages()
    ensures region { (blocks : Cut) (array : Array) (p : ℕ) → AreBlocks blocks → IsArrayBox array
        → HasThree array
        → p < processors_of blocks.grid → IsRegion (held_of blocks array p) }
    ensures within { (blocks : Cut) (array : Array) (p : ℕ) (t : List ℤ) → AreBlocks blocks
        → IsArrayBox array
        → HasThree array → p < processors_of blocks.grid → IsMember (held_of blocks array p) t
        → IsMember array.shape t }
    ensures owned { (blocks : Cut) (array : Array) (p : ℕ) (t : List ℤ) → AreBlocks blocks
        → IsArrayBox array
        → HasThree array → p < processors_of blocks.grid → IsMember array.shape t
        → owner_for blocks p array.shape t ≡ p → IsMember (held_of blocks array p) t }
{}

/// The part of a region that a processor owns for a receiver are the tuples whose owner it is, in
/// the same order. In a flood dimension it is the receiver's block that counts; without flood
/// dimensions a tuple's owner is the same for each receiver.
pub fn owned_parts_go_by_owners()
    ensures below { (blocks : Cut) (to : ℕ) (r : Tuples) (t : List ℤ) → 1 ≤ r.rank → r.rank ≤ 3
        → to < processors_of blocks.grid → owner_for blocks to r t < processors_of blocks.grid }
    ensures part { (blocks : Cut) (from to : ℕ) (r : Tuples) → AreBlocks blocks → 1 ≤ r.rank
        → r.rank ≤ 3
        → length r.dims ≡ 3 → All HasBounds r.dims → to < processors_of blocks.grid
        → from < processors_of blocks.grid
        → members (owned_part blocks from to r)
        ≡ filter (λ t. owner_for blocks to r t == from) (members r) }
    ensures plain { (blocks : Cut) (to : ℕ) (r : Tuples) (t : List ℤ) → AreBlocks blocks
        → 1 ≤ r.rank
        → r.rank ≤ 3 → length r.dims ≡ 3 → All IsRange r.dims
        → owner_for blocks to r t ≡ owner_of blocks r.rank t }
{}

/// The pieces of all owners are disjoint and together are what a receiver needs: as lists they have
/// each of these places once.
pub fn pieces_partition_needs()
    ensures { (layout : Arrangement) (array to : ℕ) (r : Tuples) (shift : List ℤ)
        → All IsArrayBox layout.boxes → array < length layout.boxes → HasThree (box_at layout array)
        → to < processors_of layout.grid → 1 ≤ r.rank → r.rank ≤ 3 → length r.dims ≡ 3
        → length shift ≡ 3
        → IsPermutation (members (needed_of layout array to r shift))
        (flat_map (λ from. members (piece_of layout array from to r shift))
        (processors layout.grid)) }
{}
