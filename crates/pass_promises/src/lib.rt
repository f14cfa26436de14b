//! What passes over flat programs promise each other.
//!
//! The functions here do nothing: each has a law of the passes' tables as its contract, and a call
//! brings the law into a proof.
#![tactic(auto)]

ghost use Rattle.std.specs.Prelude.{ℕ, ◌+◌, ◌≤◌};
ghost use Rattle.node_form.specs.declared.tables.Tables.{Tables as Code};
ghost use Rattle.code_parts.specs.Counts.{count_of, is_loop};
ghost use Rattle.fuse_contract.specs.of_temp_norm.Normalised.{IsNormal, loops_on_themselves, normalised};
ghost use Rattle.fuse_contract.specs.of_bound_check.Checked.{checked};
ghost use Rattle.fuse_contract.specs.Contracting.{contracted};
ghost use Rattle.fuse_contract.specs.Fusing.{fused};
ghost use Rattle.pass_promises.specs.Promises.{HasLoopsUpTo, is_other, is_room};

/// Where no group reads with a shift what it puts, none does behind the later passes.
pub fn normal_code_stays_normal()
    ensures checked { (code : Code) → IsNormal code → IsNormal (checked code) }
    ensures fused { (code : Code) → IsNormal code → IsNormal (fused code) }
    ensures contracted { (code : Code) → IsNormal code → IsNormal (contracted code) }
{}

/// Where no group has more than so many `while` and `repeat`, none has more behind a pass.
pub fn groups_gain_no_loops()
    ensures normalised { (code : Code) (most : ℕ) → HasLoopsUpTo most code →
        HasLoopsUpTo most (normalised code) }
    ensures checked { (code : Code) (most : ℕ) → HasLoopsUpTo most code →
        HasLoopsUpTo most (checked code) }
    ensures fused { (code : Code) (most : ℕ) → HasLoopsUpTo most code →
        HasLoopsUpTo most (fused code) }
    ensures contracted { (code : Code) (most : ℕ) → HasLoopsUpTo most code →
        HasLoopsUpTo most (contracted code) }
{}

/// For each loop whose group reads with a shift what it puts, at most one `room` and one loop are
/// added when values go through temporaries, and no other row.
pub fn a_room_and_a_loop_are_added()
    ensures rooms { (code : Code) →
        count_of is_room (normalised code) ≤ count_of is_room code + loops_on_themselves code }
    ensures loops { (code : Code) →
        count_of is_loop (normalised code) ≤ count_of is_loop code + loops_on_themselves code }
    ensures others { (code : Code) →
        count_of is_other (normalised code) ≤ count_of is_other code }
{}
