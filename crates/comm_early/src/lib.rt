//! Exchanges that start early.
//!
//! A start comes to stand behind the last row of its stretch that it doesn't cross, which is told
//! by what is noted of the rows so far. Rows are written once no start can come in front of them.
#![tactic(auto)]

mod early;
mod load;
mod sent;
mod stretch;

ghost use Rattle.std.specs.Prelude.{◌≡◌, ℕ, Bool, Option};
ghost use Rattle.last_writes.specs.of_node_form.declared.instructions.Instr.{Instr as Row};
ghost use Rattle.last_writes.specs.of_node_form.declared.tables.Tables.{Tables as Code};
ghost use Rattle.last_writes.specs.of_code_parts.Counts.{code_size, count_of};
ghost use Rattle.last_writes.specs.of_code_parts.Early.{IsEarly};
ghost use Rattle.last_writes.specs.of_code_parts.Exchanged.{HasNoRepeats, IsMerged};
ghost use Rattle.comm_early.specs.Send.{sent_early};

pub use early::send_early;

/// The plan is as large as it was, and has as many rows that pass a test, whichever it is: rows
/// change places alone. Nothing but its rows changes.
pub fn rows_stay()
    ensures size { (links : Option ℕ) (plan : Code) →
        code_size (sent_early links plan) ≡ code_size plan }
    ensures rows { (links : Option ℕ) (plan : Code) (test : Row → Bool) →
        count_of test (sent_early links plan) ≡ count_of test plan }
    ensures rest { (links : Option ℕ) (plan : Code) →
        record (sent_early links plan) { code = plan.code } ≡ plan }
{}

/// No start could be earlier, and no repeat and no neighbours come back.
pub fn starts_are_early()
    ensures early { (links : Option ℕ) (plan : Code) → IsEarly links (sent_early links plan) }
    ensures not_redundant { (links : Option ℕ) (plan : Code) →
        HasNoRepeats plan → HasNoRepeats (sent_early links plan) }
    ensures merged { (links : Option ℕ) (plan : Code) →
        IsMerged plan → IsMerged (sent_early links plan) }
{}
