//! Arrays by their numbers among the stored ones.
ghost use Rattle.std.specs.Prelude.{◌≡◌};
ghost use Rattle.grid_meaning.specs.Stored.{box_number};

use grid_meaning::node_form::NodeProgram;

/// The number of a stored array among the stored arrays of a program, which a layout has alone.
#[inline(always)]
pub fn box_number(code: &NodeProgram, array: u32) -> u32
    ensures { result ≡ box_number code.now array }
{
    let arrays = &code.tables().arrays;
    let mut number = 0;
    for i in 0..array {
        if let Some(row) = arrays.get(u64::from(i)) {
            if row.stored {
                number += 1;
            }
        }
    }
    number
}
