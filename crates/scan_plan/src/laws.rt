//! The laws of scans that plans and rows stand on.
//!
//! Each law is the contract of a function that does nothing: a call brings the law into a proof.
ghost use Rattle.std.specs.Prelude.{◌≡◌, ◌≤◌, ◌<◌, ℕ, ℤ, Bool, List, Option, length, map};
ghost use Rattle.zpl_nums.specs.declared.folds.Fold.{Fold as Operator};
ghost use Rattle.zpl_region.specs.declared.regions.Region.{Region as Tuples};
ghost use Rattle.zpl_region.specs.Region.{IsRegion, members};
ghost use Rattle.grid_layout.specs.declared.blocks.Blocks.{Blocks as Cut};
ghost use Rattle.grid_layout.specs.Grid.{processors_of};
ghost use Rattle.grid_layout.specs.Layout.{AreBlocks};
ghost use Rattle.grid_layout.specs.Piece.{owned_part};
ghost use Rattle.grid_layout.specs.Words.{processors};
ghost use Rattle.scan_plan.specs.Line.{line_dim, masked, totals_of, value_at};
ghost use Rattle.scan_plan.specs.Scan.{block_scan, whole_scan};

/// The part of a region that a processor owns is a region that calls take.
pub fn owned_parts_are_regions()
    ensures { (cut : Cut) (from to : ℕ) (r : Tuples) → AreBlocks cut → IsRegion r
        → IsRegion (owned_part cut from to r) }
{}

/// The totals of a block whose values are those of a function at its tuples are the totals of the
/// function.
pub fn totals_are_those_of_the_values()
    ensures { (op : Operator) (k : ℕ) (block : Tuples) (value : List ℤ → Option ℤ) → IsRegion block
        → totals_of op k block (value_at block (map value (members block)))
        ≡ totals_of op k block value }
{}

/// Where each processor tells the totals of its own part of a region, and the own values are those
/// of a function with a mask, the scan on the own block is the definition's scan over the whole
/// region at each of its tuples.
pub fn line_totals_and_own_values_give_the_scan()
    ensures { (op : Operator) (along p : ℕ) (cut : Cut) (r : Tuples) (is_kept : List ℤ → Bool)
        (e : List ℤ → ℤ)
        → AreBlocks cut → IsRegion r → length r.dims ≡ 3 → along ≤ r.rank
        → p < processors_of cut.grid
        → block_scan op along cut p r
        (map (λ q. totals_of op (line_dim r.rank along) (owned_part cut q q r) (masked is_kept e))
        (processors cut.grid))
        (value_at (owned_part cut p p r)
        (map (masked is_kept e) (members (owned_part cut p p r))))
        ≡ map (whole_scan along op r is_kept e) (members (owned_part cut p p r)) }
{}
