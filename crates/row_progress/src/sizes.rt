//! How many tuples regions have.
ghost use Rattle.std.specs.Prelude.{◌≡◌, length};
ghost use Rattle.zpl_region.specs.Region.{IsRegion, members};

use region_places::size;
use zpl_region::Region;

/// How many tuples a region has.
pub(crate) fn tuples(region: &Region) -> u128
    requires { IsRegion region.now }
    ensures { result ≡ length (members region.now) }
{
    let [planes, rows, columns] = region.dims;
    u128::from(size(planes)) * u128::from(size(rows)) * u128::from(size(columns))
}
