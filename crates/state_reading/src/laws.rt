//! The laws of the states of processors.
//!
//! A law is the contract of a function that does nothing: a call brings the law into a proof.
ghost use Rattle.std.specs.Prelude.{◌≡◌, ℕ, List, All};
ghost use Rattle.node_form.specs.declared.tables.Tables.{Tables as Code};
ghost use Rattle.save_lines.specs.declared.lines.SavedLine.{SavedLine as Line};
ghost use Rattle.save_reading.specs.of_grid_save.Reads.{BreaksGrid, BreaksState, ReadsGrid};
ghost use Rattle.save_reading.specs.of_grid_save.Reads.{ReadsState, State};
ghost use Rattle.save_reading.specs.Three.{HasThree};

/// The state of a processor has one reading: lines begin with those of one state at most, and then
/// none of these breaks a rule; where one breaks a rule, it is one alone.
pub fn states_have_one_reading()
    ensures states { (code : Code) (p : ℕ) (lines rest behind : List Line) (one other : State) →
        All HasThree code.arrays → ReadsState code p lines one rest →
        ReadsState code p lines other behind → (one ≡ other) × (rest ≡ behind) }
    ensures apart { (code : Code) (p : ℕ) (lines rest left : List Line) (state : State) →
        All HasThree code.arrays → ReadsState code p lines state rest →
        BreaksState code p lines left → ⊥ }
    ensures left { (code : Code) (p : ℕ) (lines left other : List Line) →
        All HasThree code.arrays → BreaksState code p lines left →
        BreaksState code p lines other → left ≡ other }
{}

/// So have the states of all processors.
pub fn grids_have_one_reading()
    ensures grids { (code : Code) (lines : List Line) (one other : List State) →
        All HasThree code.arrays → ReadsGrid code lines one → ReadsGrid code lines other →
        one ≡ other }
    ensures apart { (code : Code) (lines left : List Line) (states : List State) →
        All HasThree code.arrays → ReadsGrid code lines states → BreaksGrid code lines left → ⊥ }
    ensures left { (code : Code) (lines left other : List Line) →
        All HasThree code.arrays → BreaksGrid code lines left → BreaksGrid code lines other →
        left ≡ other }
{}
