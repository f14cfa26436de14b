//! The laws of reading saved texts.
//!
//! A law is the contract of a function that does nothing: a call brings the law into a proof.
ghost use Rattle.std.specs.Prelude.{◌≡◌, ◌≢◌, ℕ, List};
ghost use Rattle.grid_meaning.specs.Grid.{Grid};
ghost use Rattle.grid_save.specs.Fault.{Explains};
ghost use Rattle.grid_save.specs.Saved.{IsSaved};
ghost use Rattle.grid_save.specs.declared.faults.SaveFault.{SaveFault as Fault};
ghost use Rattle.node_form.specs.declared.tables.Tables.{Tables as Code};

use listing_lines::bytes_have_one_reading as listings_have_one_reading;
use node_text::{bytes_have_one_program, what_is_written_is_read};
use save_lines::bytes_have_one_reading as lines_have_one_reading;
use state_reading::grids_have_one_reading;

/// A saved text has no fault, and other bytes have one at most; want of memory aside.
pub fn texts_are_saved_or_faulty()
    ensures saved { (bytes : List ℕ) (code : Code) (grid : Grid) (why : Fault) →
        IsSaved bytes code grid → Explains bytes why → why ≡ Fault.NoMemory }
    ensures once { (bytes : List ℕ) (one other : Fault) →
        one ≢ Fault.NoMemory → other ≢ Fault.NoMemory →
        Explains bytes one → Explains bytes other → one ≡ other }
{
    listings_have_one_reading();
    lines_have_one_reading();
    bytes_have_one_program();
    what_is_written_is_read();
    grids_have_one_reading();
}
