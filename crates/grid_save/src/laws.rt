//! The laws of saved texts.
//!
//! A law is the contract of a function that does nothing: a call brings the law into a proof.
ghost use Rattle.std.specs.Prelude.{◌≡◌, ℕ, List};
ghost use Rattle.grid_meaning.specs.Grid.{Grid};
ghost use Rattle.grid_save.specs.Saved.{IsSaved};
ghost use Rattle.node_form.specs.declared.tables.Tables.{Tables};

use node_text::{bytes_have_one_program, what_is_written_is_read};

/// A grid has at most one saved text.
pub fn a_grid_has_one_text()
    ensures { (one other : List ℕ) (code : Tables) (grid : Grid) →
        IsSaved one code grid → IsSaved other code grid → one ≡ other }
{}

/// A text is the saved text of at most one grid.
pub fn texts_tell_one_grid()
    ensures { (bytes : List ℕ) (one other : Tables) (grid next : Grid) →
        IsSaved bytes one grid → IsSaved bytes other next → (one ≡ other) × (grid ≡ next) }
{
    bytes_have_one_program();
    what_is_written_is_read();
}
