//! The laws of lines.
//!
//! A law is the contract of a function that does nothing: a call brings the law into a proof.
ghost use Rattle.std.specs.Prelude.{◌≡◌, ℕ, List};
ghost use Rattle.listing_lines.specs.declared.lines.Line.{Line};
ghost use Rattle.listing_lines.specs.Line.{IsLine, line_text};
ghost use Rattle.listing_lines.specs.Listing.{AreLines, IsBadLine};

/// No two lines are written alike.
pub fn lines_are_told_apart()
    ensures { (one other : Line) → IsLine one → IsLine other → line_text one ≡ line_text other →
        one ≡ other }
{}

/// Bytes are the lines of at most one listing; if they are those of none, there is one first line
/// that can't stand where it does.
pub fn bytes_have_one_reading()
    ensures lines { (bytes : List ℕ) (one other : List Line) →
        AreLines bytes one → AreLines bytes other → one ≡ other }
    ensures apart { (bytes : List ℕ) (lines : List Line) (number : ℕ) →
        AreLines bytes lines → IsBadLine bytes number → ⊥ }
    ensures fault { (bytes : List ℕ) (one other : ℕ) →
        IsBadLine bytes one → IsBadLine bytes other → one ≡ other }
{}
