//! The laws of what passes keep.
ghost use Rattle.std.specs.Prelude.{ℕ, Bool, List, Option};
ghost use Rattle.node_form.specs.Fits.{Fits};
ghost use Rattle.node_form.specs.Grid.{IsGrid};
ghost use Rattle.node_form.specs.declared.tables.Tables.{Tables as Code};
ghost use Rattle.pass_parts.specs.of_flat_form.Flat.{IsFlat};
ghost use Rattle.pass_parts.specs.of_temp_norm.Normalised.{normalised};
ghost use Rattle.pass_parts.specs.of_bound_check.Checked.{checked};
ghost use Rattle.pass_parts.specs.of_fuse_contract.Contracting.{contracted};
ghost use Rattle.pass_parts.specs.of_fuse_contract.Fusing.{fused};
ghost use Rattle.pass_parts.specs.of_comm_needs.Needs.{planned};
ghost use Rattle.pass_parts.specs.of_comm_combine.Merge.{neighbours_merged};
ghost use Rattle.pass_parts.specs.of_comm_combine.Repeats.{repeats_dropped};
ghost use Rattle.pass_parts.specs.of_comm_early.Send.{sent_early};
ghost use Rattle.pass_parts.specs.of_node_emit.Emit.{emitted};
ghost use Rattle.stored_shifts.specs.Stored.{ShiftsAreStored};

/// What a pass over flat programs makes of one is one: it fits, and no row of it sends or votes.
pub fn flat_programs_stay_flat()
    ensures normalised { (code : Code) → IsFlat code → IsFlat (normalised code) }
    ensures checked { (code : Code) → IsFlat code → IsFlat (checked code) }
    ensures fused { (code : Code) → IsFlat code → IsFlat (fused code) }
    ensures contracted { (code : Code) → IsFlat code → IsFlat (contracted code) }
{}

/// What expressions read with a shift is stored behind such a pass, if it was before.
pub fn shifts_stay_stored()
    ensures normalised { (code : Code) →
        ShiftsAreStored code → ShiftsAreStored (normalised code) }
    ensures checked { (code : Code) → ShiftsAreStored code → ShiftsAreStored (checked code) }
    ensures fused { (code : Code) → ShiftsAreStored code → ShiftsAreStored (fused code) }
    ensures contracted { (code : Code) →
        ShiftsAreStored code → ShiftsAreStored (contracted code) }
{}

/// The plan of tables that fit does so, for a grid that is one, where what their expressions read
/// with a shift is stored. A plan that fits does so behind the later passes, and as node code.
pub fn plans_fit()
    ensures planned { (grid : List ℕ) (code : Code) → IsGrid grid → Fits code →
        ShiftsAreStored code → Fits (planned grid code) }
    ensures dropped { (plan : Code) → Fits plan → Fits (repeats_dropped plan) }
    ensures merged { (plan : Code) → Fits plan → Fits (neighbours_merged plan) }
    ensures early { (links : Option ℕ) (plan : Code) →
        Fits plan → Fits (sent_early links plan) }
    ensures emitted { (tree : Bool) (grid : List ℕ) (plan : Code) → IsGrid grid →
        Fits plan → Fits (emitted tree grid plan) }
{}
