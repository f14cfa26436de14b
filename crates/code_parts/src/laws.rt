//! The laws of what rows write, and of walks.
ghost use Rattle.std.specs.Prelude.{◌≡◌, ◌↔◌, ℕ, true, Option, Contains};
ghost use Rattle.node_form.specs.declared.instructions.Instr.{Instr as Row};
ghost use Rattle.node_form.specs.declared.tables.Tables.{Tables as Code};
ghost use Rattle.node_form.specs.declared.touches.Thing.TheVariants.{Array, Slot};
ghost use Rattle.node_form.specs.Touch.{IsWritten};
ghost use Rattle.code_parts.specs.Early.{IsEarly, is_early};
ghost use Rattle.code_parts.specs.Exchanged.{HasNoRepeats, IsMerged, has_no_repeats, is_merged};
ghost use Rattle.code_parts.specs.Fused.{IsFused, is_fused};
ghost use Rattle.code_parts.specs.Uses.{written_arrays, written_slots};

/// A walk over the code that forgets all where a stretch ends finds nothing wrong just where no
/// stretch has it: loops that could be one, repeated exchanges, exchanges that could be one, and
/// starts that could be earlier.
pub fn walks_say_what_holds_of_stretches()
    ensures fused { (code : Code) → (is_fused code ≡ true) ↔ IsFused code }
    ensures not_redundant { (code : Code) → (has_no_repeats code ≡ true) ↔ HasNoRepeats code }
    ensures merged { (code : Code) → (is_merged code ≡ true) ↔ IsMerged code }
    ensures early { (links : Option ℕ) (code : Code) →
        (is_early links code ≡ true) ↔ IsEarly links code }
{}

/// The arrays and slots that are listed for a row are those that it writes.
pub fn rows_write_what_is_listed()
    ensures arrays { (code : Code) (row : Row) (array : ℕ) →
        IsWritten code row (Array array) ↔ Contains (written_arrays code row) array }
    ensures slots { (code : Code) (row : Row) (slot : ℕ) →
        IsWritten code row (Slot slot) ↔ Contains (written_slots row) slot }
{}
