//! The laws of what is left.
ghost use Rattle.last_writes.specs.of_node_form.declared.tables.Tables.{Tables as Code};
ghost use Rattle.last_writes.specs.of_code_parts.Exchanged.{HasNoRepeats, IsMerged};
ghost use Rattle.comm_combine.specs.Merge.{neighbours_merged};
ghost use Rattle.comm_combine.specs.Repeats.{repeats_dropped};

/// No exchange of what is fresh is left.
pub fn repeats_are_dropped()
    ensures { (plan : Code) → HasNoRepeats (repeats_dropped plan) }
{}

/// No neighbours are left, and no repeat comes back.
pub fn neighbours_are_merged()
    ensures merged { (plan : Code) → IsMerged (neighbours_merged plan) }
    ensures not_redundant { (plan : Code) →
        HasNoRepeats plan → HasNoRepeats (neighbours_merged plan) }
{}
