//! The rows of arrays, as memory holds them.
ghost use Rattle.std.specs.Prelude.{All};
ghost use Rattle.node_form.specs.Fits.{Fits, FitsArray};
ghost use Rattle.save_reading.specs.Three.{HasThree};

use node_form::{ArrayRow, Tables, rows_fit};

/// A row has three dimensions, of which at most so many count.
fn look_at(row: &ArrayRow)
    requires { FitsArray row.now }
    ensures { HasThree row.now }
{
    let [_planes, _rows, _columns] = row.dims;
}

/// So has each row of a program.
pub(crate) fn look_at_arrays(code: &Tables)
    requires { Fits code.now }
    ensures { All HasThree code.now.arrays }
{
    rows_fit();
    for i in 0..code.arrays.len() {
        look_at(code.arrays.get(i).unwrap());
    }
}
