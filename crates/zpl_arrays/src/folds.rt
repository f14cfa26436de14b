//! Folds and scans over values in a row, of which some are masked out.
ghost use Rattle.std.specs.Prelude.{◌≡◌, length};
ghost use Rattle.zpl_nums.specs.Fold.{folded};
ghost use Rattle.zpl_arrays.specs.Row.{kept_values, running};

use zpl_nums::{Fold, join, unit};

/// The fold over the values, those aside that are masked out and so `None`. Over none it is the
/// unit.
pub fn fold_of(fold: Fold, values: &[Option<i64>]) -> i64
    ensures { result ≡ folded fold (kept_values values.now) }
{
    let mut so_far = unit(fold);
    for value in values {
        if let Some(value) = *value {
            so_far = join(fold, so_far, value);
        }
    }
    so_far
}

/// Writes the scan of a line, which goes on from `before`: at each place `before` joined with the
/// values up to and with that place, those aside that are masked out.
pub fn scan_line(fold: Fold, before: i64, values: &[Option<i64>], into: &mut [i64])
    requires { length into.old ≡ length values.now }
    ensures { into.new ≡ running fold before values.now }
{
    let mut so_far = before;
    for (i, place) in into.iter_mut().enumerate() {
        if let Some(value) = values[i] {
            so_far = join(fold, so_far, value);
        }
        *place = so_far;
    }
}
