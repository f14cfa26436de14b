//! Prefixes, each under those before it.
ghost use Rattle.std.specs.Prelude.{◌≡◌, ◌+◌, ◌<◌, IfOk, drop, length, map};
ghost use Rattle.zpl_tree.specs.View.{prefix_of};
ghost use Rattle.zpl_lowering.specs.Statement as plain;
ghost use Rattle.lower_points.specs.of_lower_places.Sound.{IsPlace};
ghost use Rattle.lower_points.specs.of_lower_places.View.{where_of};
ghost use Rattle.lower_points.specs.Fit.{AreFitPrefixes};
ghost use Rattle.lower_statements.specs.Prefixes.{IsBehind};

use lower_draft::Draft;
use lower_points::lower_places::Place;
use lower_points::lower_regions::open_prefix;
use std::alloc::AllocError;
use zpl_tree::Prefix;

/// Whether a prefix is the last one, of a border statement.
fn is_last(borders: bool, prefixes: &[Prefix<'_>], number: usize) -> bool
    requires { number < length prefixes.now }
    ensures { result
        ≡ plain.is_last borders (map prefix_of (drop (number + 1) prefixes.now)) }
{
    if number + 1 < prefixes.len() {
        return false;
    }
    borders
}

/// Appends the rows of prefixes, each once, and gives where their statement is lowered. The last
/// one of a border statement has rows, though it is known before the run.
pub fn behind_prefixes<'a, 'n>(
    draft: &mut Draft,
    place: &Place<'a, 'n>,
    borders: bool,
    prefixes: &[Prefix<'_>],
) -> Result<Place<'a, 'n>, AllocError>
    requires place { IsPlace place.now }
    requires fit { AreFitPrefixes (map prefix_of prefixes.now) }
    ensures behind { IfOk result (λ inner. IsBehind borders (where_of place.now) draft.old
        (map prefix_of prefixes.now) (where_of inner) draft.new) }
    ensures place { IfOk result IsPlace }
{
    let mut inner = Place { ..*place };
    for number in 0..prefixes.len() {
        let is_border = is_last(borders, prefixes, number);
        match open_prefix(draft, &inner, is_border, &prefixes[number]) {
            Ok(next) => inner = next,
            Err(error) => return Err(error),
        }
    }
    Ok(inner)
}
