//! From plans to node code.
#![tactic(auto)]

mod rows;

ghost use Rattle.std.specs.Prelude.{◌≡◌, ℕ, true, Bool, List, Option};
ghost use Rattle.flat_passes.specs.of_node_form.declared.tables.Tables.{Tables as Code};
ghost use Rattle.flat_passes.specs.of_code_parts.Counts.{GoesByTrees, code_size, count_of, is_counted, is_loop};
ghost use Rattle.flat_passes.specs.of_code_parts.Counts.{is_vote};
ghost use Rattle.flat_passes.specs.of_code_parts.Early.{IsEarly};
ghost use Rattle.flat_passes.specs.of_code_parts.Exchanged.{HasNoRepeats, IsMerged};
ghost use Rattle.flat_passes.specs.of_code_parts.Fused.{IsFused};
ghost use Rattle.node_emit.specs.Emit.{emitted};

pub use rows::emit;

/// Where that is asked for no vote and no fold goes by the first processor. The code is as large as
/// the plan, with as many rows that count, votes and loops; and what the plan was free of, the code
/// is free of: loops that could be one, repeated exchanges, exchanges that could be one, and starts
/// that could be earlier.
pub fn rows_go_along_the_tree()
    ensures by_trees { (grid : List ℕ) (plan : Code) → GoesByTrees (emitted true grid plan) }
    ensures size { (tree : Bool) (grid : List ℕ) (plan : Code) →
        code_size (emitted tree grid plan) ≡ code_size plan }
    ensures counted { (tree : Bool) (grid : List ℕ) (plan : Code) →
        count_of is_counted (emitted tree grid plan) ≡ count_of is_counted plan }
    ensures votes { (tree : Bool) (grid : List ℕ) (plan : Code) →
        count_of is_vote (emitted tree grid plan) ≡ count_of is_vote plan }
    ensures loops { (tree : Bool) (grid : List ℕ) (plan : Code) →
        count_of is_loop (emitted tree grid plan) ≡ count_of is_loop plan }
    ensures fused { (tree : Bool) (grid : List ℕ) (plan : Code) →
        IsFused plan → IsFused (emitted tree grid plan) }
    ensures not_redundant { (tree : Bool) (grid : List ℕ) (plan : Code) →
        HasNoRepeats plan → HasNoRepeats (emitted tree grid plan) }
    ensures merged { (tree : Bool) (grid : List ℕ) (plan : Code) →
        IsMerged plan → IsMerged (emitted tree grid plan) }
    ensures early { (links : Option ℕ) (tree : Bool) (grid : List ℕ) (plan : Code) →
        IsEarly links plan → IsEarly links (emitted tree grid plan) }
{}
