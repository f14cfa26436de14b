//! The coordinates of a dimension, as numbers with one step between them.
ghost use Rattle.std.specs.Prelude.{◌≡◌, ◌-◌, ◌*◌, ◌<◌, ◌↔◌, pos, ◌+ℤ◌, IsTrue, All, Contains};
ghost use Rattle.std.specs.Prelude.{find, int_lt, Some, slice_get, length};
ghost use Rattle.zpl_region.specs.Progression.{IsNormal, is_between, terms};

/// The numbers `first`, `first + step` and so on, `count` of them.
#[derive(Clone, Copy, PartialEq, Eq)]
pub struct Progression {
    pub first: i64,
    pub step: u64,
    pub count: u64,
}

impl Progression {
    /// The number at place `i`, counted from 0.
    pub fn at(self, i: u64) -> i64
        requires normal { IsNormal self }
        requires in_count { i < self.count }
        ensures { result ≡ self.first +ℤ pos (i * self.step) }
    {
        self.first + (i * self.step) as i64
    }

    /// The least number, if there is one.
    pub fn least(self) -> Option<i64>
        requires { IsNormal self }
        ensures { result ≡ slice_get (terms self) 0 }
    {
        if self.count == 0 {
            None
        } else {
            Some(self.first)
        }
    }

    /// The greatest number, if there is one.
    pub fn greatest(self) -> Option<i64>
        requires { IsNormal self }
        ensures { result ≡ slice_get (terms self) (length (terms self) - 1) }
    {
        if self.count == 0 {
            None
        } else {
            Some(self.at(self.count - 1))
        }
    }

    /// The first number above `x`.
    pub fn above(self, x: i64) -> Option<i64>
        requires { IsNormal self }
        ensures { result ≡ find (int_lt x) (terms self) }
    {
        if self.count == 0 || self.at(self.count - 1) <= x {
            return None;
        }
        if x < self.first {
            return Some(self.first);
        }
        let passed = (x - self.first) as u64 / self.step;
        Some(self.at(passed + 1))
    }

    /// Whether `x` is one of the numbers.
    pub fn contains(self, x: i64) -> bool
        requires { IsNormal self }
        ensures { IsTrue result ↔ Contains (terms self) x }
    {
        if self.count == 0 || x < self.first || self.at(self.count - 1) < x {
            return false;
        }
        (x - self.first) as u64 % self.step == 0
    }

    /// Whether all numbers lie from `lo` to `hi`.
    pub fn is_within(self, lo: i64, hi: i64) -> bool
        requires { IsNormal self }
        ensures { IsTrue result ↔ All (λ x. IsTrue (is_between lo hi x)) (terms self) }
    {
        self.count == 0 || lo <= self.first && self.at(self.count - 1) <= hi
    }
}
