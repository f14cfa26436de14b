//! The operators of reductions and scans, and their units.
ghost use Rattle.std.specs.Prelude.{◌≡◌};
ghost use Rattle.zpl_nums.specs.Fold.{joined, unit_of};

/// The operator of a reduction or a scan.
#[derive(Clone, Copy, Debug, PartialEq, Eq)]
pub enum Fold {
    /// The sum, wrapped into 64 bits; over nothing it is 0.
    Sum,
    /// The product, wrapped into 64 bits; over nothing it is 1.
    Prod,
    /// The greatest value; over nothing it is `i64::MIN`.
    Max,
    /// The least value; over nothing it is `i64::MAX`.
    Min,
    /// Whether all values are true, which is any number but 0; over nothing it is 1.
    All,
    /// Whether some value is true, which is any number but 0; over nothing it is 0.
    Any,
}

/// Two values, folded into one.
pub fn join(fold: Fold, a: i64, b: i64) -> i64
    ensures { result ≡ joined fold a b }
{
    match fold {
        Fold::Sum => a.wrapping_add(b),
        Fold::Prod => a.wrapping_mul(b),
        Fold::Max => a.max(b),
        Fold::Min => a.min(b),
        Fold::All => i64::from(a != 0 && b != 0),
        Fold::Any => i64::from(a != 0 || b != 0),
    }
}

/// The fold over no values.
pub fn unit(fold: Fold) -> i64
    ensures { result ≡ unit_of fold }
{
    match fold {
        Fold::Sum | Fold::Any => 0,
        Fold::Prod | Fold::All => 1,
        Fold::Max => i64::MIN,
        Fold::Min => i64::MAX,
    }
}

#[cfg(test)]
mod tests {
    use super::{Fold, join, unit};

    #[test]
    fn folds_at_their_edges(rt: HostRuntime) {
        for (fold, a, b, want, over_nothing) in [
            (Fold::Sum, i64::MAX, 2, i64::MIN + 1, 0),
            (Fold::Prod, i64::MIN, 3, i64::MIN, 1),
            (Fold::Max, -4, -5, -4, i64::MIN),
            (Fold::Min, -4, -5, -5, i64::MAX),
            (Fold::All, 2, 4, 1, 1),
            (Fold::All, 0, 1, 0, 1),
            (Fold::Any, 0, -2, 1, 0),
            (Fold::Any, 0, 0, 0, 0),
        ] {
            assert_eq!(rt; join(fold, a, b), want, "{fold:?} of {a} and {b}");
            assert_eq!(rt; unit(fold), over_nothing, "{fold:?} over nothing");
        }
    }
}
