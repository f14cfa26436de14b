//! The laws of lines.
//!
//! A law is the contract of a function that does nothing: a call brings the law into a proof.
ghost use Rattle.std.specs.Prelude.{◌≡◌, ℕ, List};
ghost use Rattle.save_lines.specs.declared.lines.SavedLine.{SavedLine};
ghost use Rattle.save_lines.specs.Line.{IsSavedLine, line_text};
ghost use Rattle.save_lines.specs.Lines.{AreLines, IsBadLine};

/// No two lines are written alike.
pub fn lines_are_told_apart()
    ensures { (one other : SavedLine) → IsSavedLine one → IsSavedLine other →
        line_text one ≡ line_text other → one ≡ other }
{}

/// Bytes are lines in one way at most; if they aren't lines, there is one first line that is none.
pub fn bytes_have_one_reading()
    ensures lines { (bytes : List ℕ) (one other : List SavedLine) →
        AreLines bytes one → AreLines bytes other → one ≡ other }
    ensures apart { (bytes : List ℕ) (lines : List SavedLine) (number : ℕ) →
        AreLines bytes lines → IsBadLine bytes number → ⊥ }
    ensures fault { (bytes : List ℕ) (one other : ℕ) →
        IsBadLine bytes one → IsBadLine bytes other → one ≡ other }
{}
