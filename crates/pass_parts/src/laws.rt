//! The laws of what passes leave code free of.
ghost use Rattle.std.specs.Prelude.{ℕ, Bool, List, Option};
ghost use Rattle.node_form.specs.Fits.{Fits};
ghost use Rattle.node_form.specs.declared.tables.Tables.{Tables as Code};
ghost use Rattle.pass_sizes.specs.of_bound_check.Checked.{checked};
ghost use Rattle.code_parts.specs.Contracted.{IsContracted};
ghost use Rattle.code_parts.specs.Fused.{IsFused};
ghost use Rattle.pass_sizes.specs.of_comm_combine.Merge.{neighbours_merged};
ghost use Rattle.pass_sizes.specs.of_comm_combine.Repeats.{repeats_dropped};
ghost use Rattle.pass_sizes.specs.of_comm_early.Send.{sent_early};
ghost use Rattle.pass_sizes.specs.of_comm_needs.Needs.{planned};
ghost use Rattle.pass_sizes.specs.of_fuse_contract.Contracting.{contracted};
ghost use Rattle.pass_sizes.specs.of_fuse_contract.Fusing.{fused};
ghost use Rattle.node_emit.specs.Emit.{emitted};
ghost use Rattle.pass_parts.specs.Checks.{ChecksWhatFollows, ChecksWhatItJoins};
ghost use Rattle.pass_parts.specs.Checks.{StandsBehindChecks, StandsWithWhatFollows};
ghost use Rattle.pass_parts.specs.Parts.{CanBeFused, HasNoCellLeft, KnowsWhatItJoins};
ghost use Rattle.pass_parts.specs.Parts.{StandsWithWhatItJoins};
ghost use Rattle.pass_sizes.specs.of_temp_norm.Normalised.{normalised};

/// Where loops are joined, no two are left that could be one, if wherever a loop could join the one
/// directly in front of it its references are known there, and it may stand wherever that one does.
pub fn loops_are_joined_wherever_they_can_be()
    ensures { (code : Code) → CanBeFused code → IsFused (fused code) }
{}

/// Where checks alone stand between two loops over one slot, let the references of the second one
/// be among theirs, and let it be one that may stand wherever the first one does. Then so it is
/// behind values that go through temporaries, of loops that could be joined; and where checks that
/// always pass are left out, the references are known.
pub fn checks_say_what_is_joined()
    ensures normalised { (code : Code) → Fits code → ChecksWhatFollows code →
        StandsWithWhatFollows code → ChecksWhatItJoins (normalised code) }
    ensures stands_behind { (code : Code) → Fits code → ChecksWhatFollows code →
        StandsWithWhatFollows code → StandsBehindChecks (normalised code) }
    ensures checked { (code : Code) → Fits code → ChecksWhatItJoins code →
        StandsBehindChecks code → KnowsWhatItJoins (checked code) }
    ensures stands { (code : Code) → Fits code → ChecksWhatItJoins code →
        StandsBehindChecks code → StandsWithWhatItJoins (checked code) }
{}

/// Where no two loops could be one, none can behind a later pass.
pub fn no_loops_come_back()
    ensures contracted { (code : Code) → IsFused code → IsFused (contracted code) }
    ensures planned { (grid : List ℕ) (code : Code) →
        IsFused code → IsFused (planned grid code) }
    ensures dropped { (plan : Code) → IsFused plan → IsFused (repeats_dropped plan) }
    ensures merged { (plan : Code) → IsFused plan → IsFused (neighbours_merged plan) }
    ensures early { (links : Option ℕ) (plan : Code) →
        IsFused plan → IsFused (sent_early links plan) }
{}

/// Where arrays become cells, none is left that could, exchanges aside; and what is said with
/// exchanges aside holds with them too.
pub fn no_cells_are_left()
    ensures contracted { (code : Code) → Fits code → HasNoCellLeft (contracted code) }
    ensures tidy { (code : Code) → HasNoCellLeft code → IsContracted code }
{}

/// Where no array could be a cell, none can behind a later pass.
pub fn no_cells_come_back()
    ensures planned { (grid : List ℕ) (code : Code) →
        HasNoCellLeft code → HasNoCellLeft (planned grid code) }
    ensures dropped { (plan : Code) →
        HasNoCellLeft plan → HasNoCellLeft (repeats_dropped plan) }
    ensures merged { (plan : Code) →
        HasNoCellLeft plan → HasNoCellLeft (neighbours_merged plan) }
    ensures early { (links : Option ℕ) (plan : Code) →
        HasNoCellLeft plan → HasNoCellLeft (sent_early links plan) }
    ensures emitted { (tree : Bool) (grid : List ℕ) (plan : Code) →
        HasNoCellLeft plan → HasNoCellLeft (emitted tree grid plan) }
{}
