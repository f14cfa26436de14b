//! One dimension of a region.
ghost use Rattle.std.specs.Prelude.{◌≡◌, ◌<◌, ◌↔◌, IsTrue, OkIff, All};
ghost use Rattle.zpl_region.specs.Dim.{
  HasBounds,
  HasStep,
  IsDim,
  IsNear,
  IsDimWithinLimit,
  IsSameSet,
  coordinates,
  dim_inside_of,
  dim_met,
  dim_moved,
  dim_outside_of,
  dim_strided,
  lies_within,
};
ghost use Rattle.zpl_region.specs.Ends.{coordinate_count, first_of, last_of, single_of};
ghost use Rattle.zpl_region.specs.Hull.{all_from, dim_emptied, dim_hull, dim_hull_with};
ghost use Rattle.zpl_region.specs.Progression.{IsNormal, terms};

use crate::progressions::Progression;
use crate::regions::RegionLimit;

/// The greatest bound and step that a region may have, and the least bound with the sign turned.
const BOUND_LIMIT: i64 = 2_147_483_648;

/// The greatest alignment that a region may have, and the least one with the sign turned.
const ALIGN_LIMIT: i64 = 1_099_511_627_776;

/// A dimension of a region.
#[derive(Clone, Copy, Debug, PartialEq, Eq)]
pub enum Dim {
    /// The integers from `lo` to `hi` that differ from `align` by a multiple of `step`.
    Range {
        lo: i64,
        hi: i64,
        step: i64,
        align: i64,
    },
    /// The one position of a dimension in which nothing varies. Its coordinate is written 0.
    Flood,
}

impl Dim {
    /// The coordinates of the dimension, in ascending order.
    pub(crate) fn progression(self) -> Progression
        requires { IsDim self }
        ensures normal { IsNormal result }
        ensures terms { terms result ≡ coordinates self }
    {
        let Dim::Range {
            lo,
            hi,
            step,
            align,
        } = self
        else {
            return Progression {
                first: 0,
                step: 1,
                count: 1,
            };
        };
        let skipped = (align - lo).rem_euclid(step).unsigned_abs();
        let width = hi.abs_diff(lo);
        if hi < lo || width < skipped {
            return Progression {
                first: 0,
                step: 1,
                count: 0,
            };
        }
        let first = lo + skipped as i64;
        let step = step.unsigned_abs();
        let more = (width - skipped) / step;
        if more == 0 {
            return Progression {
                first,
                step: 1,
                count: 1,
            };
        }
        Progression {
            first,
            step,
            count: more + 1,
        }
    }

    /// The first and the last coordinate. That of a flood dimension is 0.
    pub(crate) fn ends(self) -> (i64, i64)
        requires dim { IsDim self }
        requires some { 0 < coordinate_count self }
        ensures first { result.0 ≡ first_of self }
        ensures last { result.1 ≡ last_of self }
    {
        let coordinates = self.progression();
        (coordinates.first, coordinates.at(coordinates.count - 1))
    }

    /// The coordinate of a range that has just one.
    pub(crate) fn single(self) -> Option<i64>
        requires { IsDim self }
        ensures { result ≡ single_of self }
    {
        if let Dim::Flood = self {
            return None;
        }
        let coordinates = self.progression();
        if coordinates.count == 1 {
            Some(coordinates.first)
        } else {
            None
        }
    }

    /// The integers from `lo` to `hi`.
    fn all_from(lo: i64, hi: i64) -> Dim
        ensures { result ≡ all_from lo hi }
    {
        Dim::Range {
            lo,
            hi,
            step: 1,
            align: lo,
        }
    }

    /// The integers from the first coordinate to the last one.
    pub(crate) fn hull(self) -> Dim
        requires dim { IsDim self }
        requires some { 0 < coordinate_count self }
        ensures { result ≡ dim_hull self }
    {
        if let Dim::Flood = self {
            return Dim::Flood;
        }
        let (first, last) = self.ends();
        Dim::all_from(first, last)
    }

    /// The integers from the least of both first coordinates to the greatest of both last ones.
    pub(crate) fn hull_with(self, other: Dim) -> Dim
        requires dim { IsDim self }
        requires some { 0 < coordinate_count self }
        requires other_dim { IsDim other }
        requires others { 0 < coordinate_count other }
        ensures { result ≡ dim_hull_with self other }
    {
        match (self, other) {
            (Dim::Range { .. }, Dim::Range { .. }) => {
                let (first, last) = self.ends();
                let (from, to) = other.ends();
                Dim::all_from(first.min(from), last.max(to))
            }
            _ => Dim::Flood,
        }
    }

    /// A range without coordinates in the place of a range.
    pub(crate) fn emptied(self) -> Dim
        ensures { result ≡ dim_emptied self }
    {
        match self {
            Dim::Range { .. } => Dim::all_from(1, 0),
            Dim::Flood => Dim::Flood,
        }
    }

    /// Whether two dimensions are the same set. A flood dimension is only the same as another one.
    pub(crate) fn is_same(self, other: Dim) -> bool
        requires mine { IsDim self }
        requires theirs { IsDim other }
        ensures { IsTrue result ↔ IsSameSet self other }
    {
        match (self, other) {
            (Dim::Flood, Dim::Flood) => true,
            (Dim::Range { .. }, Dim::Range { .. }) => self.progression() == other.progression(),
            _ => false,
        }
    }

    /// Whether the coordinates of a range lie from `lo` to `hi`. A flood dimension has none.
    pub(crate) fn is_within(self, lo: i64, hi: i64) -> bool
        requires { IsDim self }
        ensures { IsTrue result ↔ All (λ x. IsTrue (lies_within lo hi self x)) (coordinates self) }
    {
        match self {
            Dim::Range { .. } => self.progression().is_within(lo, hi),
            Dim::Flood => true,
        }
    }

    /// The coordinates of a range that lie from `lo` to `hi`.
    pub(crate) fn met(self, lo: i64, hi: i64) -> Dim
        ensures { result ≡ dim_met lo hi self }
    {
        match self {
            Dim::Range {
                lo: from,
                hi: to,
                step,
                align,
            } => {
                Dim::Range {
                    lo: from.max(lo),
                    hi: to.min(hi),
                    step,
                    align,
                }
            }
            Dim::Flood => Dim::Flood,
        }
    }

    /// The dimension, moved by `d`.
    pub(crate) fn shifted(self, d: i64) -> Dim
        requires dim { IsDim self }
        requires bounds { HasBounds (dim_moved d self) }
        ensures { result ≡ dim_moved d self }
    {
        match self {
            Dim::Range {
                lo,
                hi,
                step,
                align,
            } => {
                Dim::Range {
                    lo: lo + d,
                    hi: hi + d,
                    step,
                    align: align + d,
                }
            }
            Dim::Flood => Dim::Flood,
        }
    }

    /// The dimension, unless its bounds, step or alignment pass the limit.
    pub(crate) fn limited(self) -> Result<Dim, RegionLimit>
        ensures { OkIff result (IsDimWithinLimit self) self }
    {
        if let Dim::Range {
            lo,
            hi,
            step,
            align,
        } = self
        {
            let bounds = -BOUND_LIMIT <= lo
                && lo <= BOUND_LIMIT
                && -BOUND_LIMIT <= hi
                && hi <= BOUND_LIMIT;
            let aligned = -ALIGN_LIMIT <= align && align <= ALIGN_LIMIT;
            if !bounds || BOUND_LIMIT < step || !aligned {
                return Err(RegionLimit);
            }
        }
        Ok(self)
    }

    // The forms below stop at the ends of `i64`, so that a dimension past them passes the limit
    // still.

    /// The `d` positions beside the bounds, above for a positive `d` and below for a negative one.
    pub(crate) fn outside_of(self, d: i64) -> Dim
        requires { IsDim self }
        ensures near { IsNear result (dim_outside_of d self) }
        ensures step { HasStep result }
    {
        let Dim::Range {
            lo,
            hi,
            step,
            align,
        } = self
        else {
            return self;
        };
        if d > 0 {
            return Dim::Range {
                lo: hi + 1,
                hi: hi.saturating_add(d),
                step,
                align,
            };
        }
        if d < 0 {
            return Dim::Range {
                lo: lo.saturating_add(d),
                hi: lo - 1,
                step,
                align,
            };
        }
        self
    }

    /// The last `d` positions for a positive `d`, and the first ones for a negative one.
    pub(crate) fn inside_of(self, d: i64) -> Dim
        requires { IsDim self }
        ensures near { IsNear result (dim_inside_of d self) }
        ensures step { HasStep result }
    {
        let Dim::Range {
            lo,
            hi,
            step,
            align,
        } = self
        else {
            return self;
        };
        if d > 0 {
            return Dim::Range {
                lo: hi.saturating_sub(d - 1),
                hi,
                step,
                align,
            };
        }
        if d < 0 {
            return Dim::Range {
                lo,
                hi: lo.saturating_sub(d + 1),
                step,
                align,
            };
        }
        self
    }

    /// The dimension, moved by `d`.
    pub(crate) fn moved(self, d: i64) -> Dim
        requires { IsDim self }
        ensures near { IsNear result (dim_moved d self) }
        ensures step { HasStep result }
    {
        let Dim::Range {
            lo,
            hi,
            step,
            align,
        } = self
        else {
            return self;
        };
        let (lo, hi, align) = (
            lo.saturating_add(d),
            hi.saturating_add(d),
            align.saturating_add(d),
        );
        Dim::Range {
            lo,
            hi,
            step,
            align,
        }
    }

    /// Each `d`-th coordinate, from the least on for a positive `d`, from the greatest on for a
    /// negative one.
    pub(crate) fn strided(self, d: i64) -> Dim
        requires { IsDim self }
        ensures near { IsNear result (dim_strided d self) }
        ensures step { HasStep result }
    {
        let coordinates = self.progression();
        let Dim::Range { lo, hi, step, .. } = self else {
            return self;
        };
        let step = step.saturating_mul(d.saturating_abs());
        if d > 0 {
            let align = coordinates.least().unwrap_or(lo);
            return Dim::Range {
                lo,
                hi,
                step,
                align,
            };
        }
        if d < 0 {
            let align = coordinates.greatest().unwrap_or(hi);
            return Dim::Range {
                lo,
                hi,
                step,
                align,
            };
        }
        self
    }
}
