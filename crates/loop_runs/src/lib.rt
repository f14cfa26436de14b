//! Loops of plans do what the flat loops do, and read what their owners have.
//!
//! The functions here do nothing: each has a law as its contract, and a call brings the law into
//! a proof.
#![tactic(auto)]

ghost use Rattle.std.specs.Prelude.{◌≡◌, true, Option, ℕ};
ghost use Rattle.node_form.specs.declared.instructions.Instr.TheVariants as instr;
ghost use Rattle.node_form.specs.declared.tables.Tables.{Tables as Code};
ghost use Rattle.node_form.specs.Fits.{FitsInstr};
ghost use Rattle.code_parts.specs.Early.{is_roomy};
ghost use Rattle.needs_runs.specs.Agree.{HasLayout};
ghost use Rattle.needs_runs.specs.Planned.{LoopAgrees};
ghost use Rattle.needs_runs.specs.Sharable.{IsSharable};
ghost use Rattle.loop_runs.specs.Brought.{BringsNeeds};

/// A loop of a plan agrees, with its exchanges before it and its vote behind it, for tables with a
/// layout, over links that hold a message.
pub fn loops_agree()
    ensures { (code : Code) → HasLayout code → IsSharable code → (links : Option ℕ) →
        is_roomy links 0 ≡ true → (n slot group : ℕ) → FitsInstr code (instr.Loop slot group) →
        LoopAgrees code links n slot group }
{}

/// Behind the exchanges that the plan has in front of a loop each place that a processor's own part
/// reads with a shift has there what its owner has, which is what the whole array has: from every
/// two states of which one holds the other, unless the flat loop may not stand there.
pub fn needs_are_brought()
    ensures { (code : Code) → HasLayout code → IsSharable code → (links : Option ℕ) →
        is_roomy links 0 ≡ true → (n slot group : ℕ) → FitsInstr code (instr.Loop slot group) →
        BringsNeeds code links n slot group }
{}
