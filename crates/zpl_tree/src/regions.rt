//! Regions and directions.
use crate::expressions::Expr;
use crate::names::Name;

/// What stands between the brackets of a region.
#[derive(Clone, Copy)]
#[cycle(expression)]
pub enum Inner<'a> {
    /// A named region or the ditto, with what is made of it. A single name is always this.
    Rexpr(Rexpr<'a>),
    /// The dimensions, one by one.
    Dims(&'a [DimText<'a>]),
}

/// A region made from a named one: `d of R at e by f`.
#[derive(Clone, Copy)]
#[cycle(expression)]
pub struct Rexpr<'a> {
    /// What stands before the region, in the order of the text; the last acts first.
    pub pre: &'a [Pre<'a>],
    /// The region itself.
    pub base: RegionBase<'a>,
    /// What stands behind it, in the order of the text; the first acts first, and before `pre`.
    pub post: &'a [Post<'a>],
}

/// A `d of` or a `d in` before a region.
#[derive(Clone, Copy)]
pub struct Pre<'a> {
    /// The direction's name.
    pub dir: Name<'a>,
    /// Whether it is `of`, and not `in`.
    pub outside: bool,
}

/// The region that a region expression begins with.
#[derive(Clone, Copy)]
pub enum RegionBase<'a> {
    /// A declared region; alone between brackets it may also be an index.
    Named(Name<'a>),
    /// The `"` that stands for the current region, and its offset.
    Ditto(u32),
}

/// An `at d` or a `by d` behind a region.
#[derive(Clone, Copy)]
#[cycle(expression)]
pub struct Post<'a> {
    /// Whether it is `by`, and not `at`.
    pub stride: bool,
    /// The direction.
    pub dir: Dir<'a>,
}

/// A direction.
#[derive(Clone, Copy)]
#[cycle(expression)]
pub enum Dir<'a> {
    /// A declared direction.
    Named(Name<'a>),
    /// The components of a vector; there is at least one.
    Vector(&'a [Expr<'a>]),
}

/// One dimension of a region.
#[derive(Clone, Copy)]
#[cycle(expression)]
pub enum DimText<'a> {
    /// Nothing, for the dimension of the current region; with the offset of the token behind it.
    Blank(u32),
    /// `*`, a flood dimension, and its offset.
    Star(u32),
    /// A single index.
    One(&'a Expr<'a>),
    /// All indices between two bounds.
    Span(&'a Expr<'a>, &'a Expr<'a>),
}
