//! The laws of lines of states.
//!
//! A law is the contract of a function that does nothing: a call brings the law into a proof.
ghost use Rattle.std.specs.Prelude.{◌≡◌, [], ℕ, List, All};
ghost use Rattle.grid_links.specs.declared.messages.Message.{Message as OneMessage};
ghost use Rattle.node_form.specs.declared.tables.Tables.{Tables as Code};
ghost use Rattle.grid_meaning.specs.Local.{Local as State};
ghost use Rattle.save_lines.specs.declared.lines.SavedLine.{SavedLine as Line};
ghost use Rattle.grid_save.specs.Reads.{BreaksValues, IsMessageLine, ReadsValues, Run, RunBreaks};
ghost use Rattle.grid_save.specs.Reads.{is_message};
ghost use Rattle.save_reading.specs.Three.{HasThree};

/// The values of a processor have one reading: lines begin with those of one state at most, and
/// then none of these breaks a rule; where one breaks a rule, it is one alone.
pub fn values_have_one_reading()
    ensures values { (code : Code) (p : ℕ) (lines rest behind : List Line) (one other : State) →
        All HasThree code.arrays → ReadsValues code p lines one rest →
        ReadsValues code p lines other behind → (one ≡ other) × (rest ≡ behind) }
    ensures apart { (code : Code) (p : ℕ) (lines rest left : List Line) (local : State) →
        All HasThree code.arrays → ReadsValues code p lines local rest →
        BreaksValues code p lines left → ⊥ }
    ensures left { (code : Code) (p : ℕ) (lines left other : List Line) →
        All HasThree code.arrays → BreaksValues code p lines left →
        BreaksValues code p lines other → left ≡ other }
{}

/// So have the messages that it sent.
pub fn messages_have_one_reading()
    ensures messages { (code : Code) (p : ℕ) (lines rest behind : List Line)
        (one other : List (ℕ × OneMessage)) →
        Run is_message (IsMessageLine code p) [] lines one rest →
        Run is_message (IsMessageLine code p) [] lines other behind →
        (one ≡ other) × (rest ≡ behind) }
    ensures apart { (code : Code) (p : ℕ) (lines rest left : List Line)
        (sent : List (ℕ × OneMessage)) →
        Run is_message (IsMessageLine code p) [] lines sent rest →
        RunBreaks is_message (IsMessageLine code p) [] lines left → ⊥ }
    ensures left { (code : Code) (p : ℕ) (lines left other : List Line) →
        RunBreaks is_message (IsMessageLine code p) [] lines left →
        RunBreaks is_message (IsMessageLine code p) [] lines other → left ≡ other }
{}
