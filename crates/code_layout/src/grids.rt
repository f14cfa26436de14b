//! A program's grid of processors.
ghost use Rattle.std.specs.Prelude.{◌≡◌};
ghost use Rattle.grid_meaning.specs.of_node_form.Grid.{IsGrid, factors_of};

use grid_layout::Grid;
use grid_meaning::node_form::Grid3;

/// The factors that aren't absent.
fn factors_of(grid: &Grid3) -> &[u32]
    ensures { result.now ≡ factors_of grid.now }
{
    let [first, second, third] = *grid;
    if first == 0 {
        return &grid[..0];
    }
    if second == 0 {
        return &grid[..1];
    }
    if third == 0 {
        return &grid[..2];
    }
    &grid[..3]
}

/// The grid with these factors.
pub(crate) fn grid_of(grid: &Grid3) -> Grid
    requires { IsGrid grid.now }
    ensures { result ≡ grid.now }
{
    Grid::new(factors_of(grid)).unwrap()
}
