//! Rows of sound node code in which processors work together.
//!
//! The function here does nothing: it has laws of the definitions of `checked_rows` as its
//! contract, and a call brings them into a proof.
#![tactic(auto)]

ghost use Rattle.std.specs.Prelude.{◌≡◌, Option, true, ℕ};
ghost use Rattle.node_form.specs.declared.instructions.Instr.{Instr as Row};
ghost use Rattle.node_form.specs.declared.tables.Tables.{Tables as Code};
ghost use Rattle.checked_rows.specs.Faced.{AreTables};
ghost use Rattle.checked_rows.specs.Right.{IsRight, KeepsFlights};
ghost use Rattle.checked_messages.specs.Together.{KeepsStanding, is_together};

/// Where its demand is met by facts that describe all processors, a row in which they work together
/// isn't wrong; behind it what is on its way is that of the open exchanges, and all processors have
/// what is the program's.
pub fn messages_go_on()
    ensures right { (code : Code) → AreTables code → (links : Option ℕ) (n : ℕ) (row : Row) →
        is_together row ≡ true → IsRight code links n row }
    ensures flights { (code : Code) → AreTables code → (links : Option ℕ) (n : ℕ) (row : Row) →
        is_together row ≡ true → KeepsFlights code links n row }
    ensures stands { (code : Code) → AreTables code → (links : Option ℕ) (n : ℕ) (row : Row) →
        is_together row ≡ true → KeepsStanding code links n row }
{}
