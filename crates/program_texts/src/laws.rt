//! The law of texts.
ghost use Rattle.std.specs.Prelude.{◌≤◌, ℕ, length};
ghost use Rattle.program_texts.specs.Text.{drawn_program};

/// No program that is drawn is longer than eight kibibytes.
pub fn drawn_programs_are_short()
    ensures { (seed : ℕ) → length (drawn_program seed) ≤ 8192 }
{}
