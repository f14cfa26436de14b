//! Numbers of statements and nodes.
ghost use Rattle.std.specs.Prelude.{◌≡◌};
ghost use Rattle.expanded_counts.specs.Bodies.{no_size, plus};

/// How many statements there are, and how many nodes their expressions have. Each number stays at
/// the greatest one of 64 bits.
#[derive(Clone, Copy)]
pub struct Sizes {
    /// The statements.
    pub statements: u64,
    /// The nodes of their expressions.
    pub nodes: u64,
}

impl Sizes {
    /// Nothing.
    pub fn none() -> Sizes
        ensures { result ≡ no_size }
    {
        Sizes {
            statements: 0,
            nodes: 0,
        }
    }

    /// With so many more.
    pub fn plus(self, other: Sizes) -> Sizes
        ensures { result ≡ plus self other }
    {
        Sizes {
            statements: self.statements.saturating_add(other.statements),
            nodes: self.nodes.saturating_add(other.nodes),
        }
    }
}
