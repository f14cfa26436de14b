//! Shapes of regions and arrays, and the current regions.
ghost use Rattle.std.specs.Prelude.{◌≡◌, ◌&&◌, ◌||◌, ℕ, not, length, slice_get, is_some};
ghost use Rattle.std.specs.List.{list_any};
ghost use Rattle.zpl_names.specs.Faults as faults;
ghost use Rattle.zpl_names.specs.Shapes as spec;
ghost use Rattle.name_kinds.specs.Seen.{current_of, floods_of, padded_floods, shape_of, shapes_of};

use crate::ranks::Rank;

/// The dimensions of a region or an array: one truth value for each, true where it is flood.
#[derive(Clone, Copy, PartialEq, Eq, Hash)]
pub enum Shape {
    /// No dimension.
    Empty,
    /// One dimension.
    One(bool),
    /// Two dimensions.
    Two(bool, bool),
    /// Three dimensions.
    Three(bool, bool, bool),
}

impl Shape {
    /// The number of dimensions.
    pub fn rank(self) -> u8
        ensures { result ≡ length (floods_of self) }
    {
        match self {
            Shape::Empty => 0,
            Shape::One(_) => 1,
            Shape::Two(_, _) => 2,
            Shape::Three(_, _, _) => 3,
        }
    }

    /// Whether a dimension is flood, counted from 0, or nothing where there is none.
    pub fn dim(self, place: usize) -> Option<bool>
        ensures { result ≡ slice_get (floods_of self) place }
    {
        match self {
            Shape::Empty => None,
            Shape::One(one) => [one].get(place).copied(),
            Shape::Two(one, two) => [one, two].get(place).copied(),
            Shape::Three(one, two, three) => [one, two, three].get(place).copied(),
        }
    }

    /// Whether a dimension is flood.
    pub fn has_flood(self) -> bool
        ensures { result ≡ list_any (λ flood. flood) (floods_of self) }
    {
        match self {
            Shape::Empty => false,
            Shape::One(one) => one,
            Shape::Two(one, two) => one || two,
            Shape::Three(one, two, three) => one || two || three,
        }
    }

    /// Whether a region of this shape has a flood dimension that an array of the other lacks.
    pub fn reaches_beyond(self, array: Shape) -> bool
        ensures { result ≡ faults.reaches_beyond (floods_of self) (floods_of array) }
    {
        let (one, two, three) = self.padded(false);
        let (own, second, third) = array.padded(true);
        one && !own || (two && !second || three && !third)
    }

    /// Whether it differs from another in its rank or a flood dimension.
    pub fn differs(self, other: Shape) -> bool
        ensures { result ≡ faults.is_other_shape (floods_of self) (floods_of other) }
    {
        let (one, two, three) = self.padded(false);
        let (own, second, third) = other.padded(false);
        self.rank() != other.rank() || one != own || two != second || three != third
    }

    // Three truth values, with others behind those of the dimensions.
    fn padded(self, behind: bool) -> (bool, bool, bool)
        ensures { result ≡ padded_floods self behind }
    {
        match self {
            Shape::Empty => (behind, behind, behind),
            Shape::One(one) => (one, behind, behind),
            Shape::Two(one, two) => (one, two, behind),
            Shape::Three(one, two, three) => (one, two, three),
        }
    }
}

/// The current region of one rank.
#[derive(Clone, Copy, PartialEq, Eq, Hash)]
pub enum Current {
    /// There is none.
    Absent,
    /// It isn't known which it is, or whether there is one.
    Unknown,
    /// One of a shape, and whether it has a mask.
    Over(Shape, bool),
}

impl Current {
    /// Whether there is none.
    pub fn is_absent(self) -> bool
        ensures { result ≡ faults.is_absent (current_of self) }
    {
        match self {
            Current::Absent => true,
            _ => false,
        }
    }

    /// Whether it has a mask.
    pub fn is_masked(self) -> bool
        ensures { result ≡ faults.is_masked (current_of self) }
    {
        match self {
            Current::Over(_, masked) => masked,
            _ => false,
        }
    }

    /// Whether a dimension is flood, counted from 0, where it is known.
    pub fn dim(self, place: usize) -> Option<bool>
        ensures { result ≡ spec.dim_of_current (current_of self) place }
    {
        match self {
            Current::Over(shape, _) => shape.dim(place),
            _ => None,
        }
    }

    /// Its shape, where it is known.
    pub fn shape(self) -> Option<Shape>
        ensures { shape_of result ≡ spec.shape_of_current (current_of self) }
    {
        match self {
            Current::Over(shape, _) => Some(shape),
            _ => None,
        }
    }

    /// The current region where one of a shape is entered, which may not be known.
    pub fn over(shape: Option<Shape>, masked: bool) -> Current
        ensures { current_of result ≡ spec.current_over (shape_of shape) masked }
    {
        match shape {
            None => Current::Unknown,
            Some(shape) => Current::Over(shape, masked),
        }
    }
}

/// The current regions, one for each rank from 1 to 3.
#[derive(Clone, Copy, PartialEq, Eq, Hash)]
pub struct Shapes {
    /// That of rank 1.
    pub one: Current,
    /// That of rank 2.
    pub two: Current,
    /// That of rank 3.
    pub three: Current,
}

impl Shapes {
    /// The same for all ranks.
    pub fn all(current: Current) -> Shapes
        ensures { shapes_of result ≡ spec.same_for_all (current_of current) }
    {
        Shapes {
            one: current,
            two: current,
            three: current,
        }
    }

    /// That of a rank. Where the rank is left open, it isn't known.
    pub fn at(self, rank: Rank) -> Current
        ensures { current_of result ≡ spec.current_of (shapes_of self) rank }
    {
        match rank {
            Some(1) => self.one,
            Some(2) => self.two,
            Some(3) => self.three,
            _ => Current::Unknown,
        }
    }

    /// With another one of a rank. Where the rank is left open, none is known any more.
    pub fn with(self, rank: Rank, current: Current) -> Shapes
        ensures { shapes_of result ≡ spec.with_current (shapes_of self) rank
            (current_of current) }
    {
        match rank {
            Some(1) => Shapes {
                one: current,
                ..self
            },
            Some(2) => Shapes {
                two: current,
                ..self
            },
            Some(3) => Shapes {
                three: current,
                ..self
            },
            _ => Shapes::all(Current::Unknown),
        }
    }
}
