//! Grids of processors.
ghost use Rattle.std.specs.Prelude.{◌≡◌, ◌≤◌, ◌<◌, ◌++◌, ◌-◌, ◌∷◌, [], All, OkIff, length};
ghost use Rattle.std.specs.Prelude.{replicate, slice_index_or};
ghost use Rattle.std.specs.List.{AllZip};
ghost use Rattle.grid_layout.specs.Grid.{IsGrid, blocks_at, cuts, processor_at, processors_of};
ghost use Rattle.grid_layout.specs.Grid.{product};

use std::marker::Model;

/// The most processors that a grid may have.
pub const MOST_PROCESSORS: u32 = 64;

/// A grid of processors, numbered in row-major order. Contracts see it as its factors, 0 for each
/// absent one.
#[derive(Clone, Copy, Debug, PartialEq, Eq)]
pub struct Grid {
    factors: [u32; 3],
}

impl Model for Grid {
    ghost use Rattle.std.specs.Prelude.{ℕ, List};
    ghost use Rattle.grid_layout.specs.Grid.{IsGrid};

    ghost Value = { List ℕ };

    ghost view = { λ grid. grid.factors };

    ghost inverse = { λ factors. record { factors = factors } };

    ghost invariant = { λ grid. IsGrid grid.factors };
}

/// The factors are no grid's.
#[derive(Clone, Copy, Debug, PartialEq, Eq)]
pub enum GridFault {
    /// A factor is 0, or there are more than 64 processors.
    BadShape,
}

/// The factor at a place, or what stands for an absent one.
fn factor_or(factors: &[u32], place: usize, absent: u32) -> u32
    ensures { result ≡ slice_index_or factors.now place absent }
{
    factors.get(place).copied().unwrap_or(absent)
}

impl Grid {
    /// The grid with these factors.
    pub fn new(factors: &[u32]) -> Result<Grid, GridFault>
        requires some { 1 ≤ length factors.now }
        requires few { length factors.now ≤ 3 }
        ensures { OkIff result (All (λ factor. 1 ≤ factor) factors.now × (product factors.now ≤ 64))
            (factors.now ++ replicate (3 - length factors.now) 0) }
    {
        let count = u128::from(factor_or(factors, 0, 0))
            * u128::from(factor_or(factors, 1, 1))
            * u128::from(factor_or(factors, 2, 1));
        if count == 0 || count > u128::from(MOST_PROCESSORS) {
            return Err(GridFault::BadShape);
        }
        let factors = [
            factor_or(factors, 0, 0),
            factor_or(factors, 1, 0),
            factor_or(factors, 2, 0),
        ];
        Ok(Grid { factors })
    }

    /// How many processors the grid has.
    pub fn count(&self) -> u32
        ensures count { result ≡ processors_of self.now }
        ensures some { 1 ≤ result }
        ensures few { result ≤ 64 }
    {
        let [first, second, third] = self.factors;
        first * second.max(1) * third.max(1)
    }

    /// The factors, one to three of them, in front; 0 for each absent one.
    pub fn factors(&self) -> [u32; 3]
        ensures same { result ≡ self.now }
        ensures grid { IsGrid self.now }
    {
        self.factors
    }

    /// Into how many blocks each dimension of a rank is cut: past the rank, one.
    pub(crate) fn cuts(&self, rank: u8) -> [u32; 3]
        requires above { 1 ≤ rank }
        requires below { rank ≤ 3 }
        ensures cuts { result ≡ cuts self.now rank }
        ensures some { All (λ n. 1 ≤ n) result }
        ensures few { All (λ n. n ≤ 64) result }
        ensures count { product result ≡ processors_of self.now }
        ensures grid { IsGrid self.now }
    {
        let [first, second, third] = self.factors;
        let (second, third) = (second.max(1), third.max(1));
        match rank {
            1 => [first * second * third, 1, 1],
            2 => [first, second * third, 1],
            _ => [first, second, third],
        }
    }
}

/// Which block of each dimension a processor has, where the dimensions are cut into so many.
pub(crate) fn blocks_at(cuts: &[u32; 3], p: u32) -> [u32; 3]
    requires some { All (λ n. 1 ≤ n) cuts.now }
    requires few { product cuts.now ≤ 64 }
    requires processor { p < product cuts.now }
    ensures numbers { result ≡ blocks_at cuts.now p }
    ensures below { AllZip ◌<◌ result cuts.now }
{
    let [_, rows, columns] = *cuts;
    let rest = p % (rows * columns);
    [p / (rows * columns), rest / columns, rest % columns]
}
