//! Numbers of arrays and copies.
ghost use Rattle.std.specs.Prelude.{◌≡◌};
ghost use Rattle.lower_numbers.specs.Bodies.{no_counts, plus};

/// How many arrays there are, and how many copies that are read with a shift that wraps round. Each
/// number stays at the greatest one of 64 bits.
#[derive(Clone, Copy)]
pub struct Counts {
    /// The arrays.
    pub arrays: usize,
    /// The copies.
    pub copies: usize,
}

impl Counts {
    /// Nothing.
    pub fn none() -> Counts
        ensures { result ≡ no_counts }
    {
        Counts {
            arrays: 0,
            copies: 0,
        }
    }

    /// With so many more.
    pub fn plus(self, other: Counts) -> Counts
        ensures { result ≡ plus self other }
    {
        Counts {
            arrays: self.arrays.saturating_add(other.arrays),
            copies: self.copies.saturating_add(other.copies),
        }
    }
}
