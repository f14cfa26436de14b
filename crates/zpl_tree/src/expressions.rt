//! Expressions.
use crate::names::Name;
use crate::regions::{Dir, Inner};
use zpl_nums::{Fold, Op};

/// An expression and where it stands.
#[derive(Clone, Copy)]
#[cycle(expression)]
pub struct Expr<'a> {
    /// The offset of the expression's first token.
    pub at: u32,
    /// What it is.
    pub form: ExprForm<'a>,
}

/// The forms of expression.
#[derive(Clone, Copy)]
#[cycle(expression)]
pub enum ExprForm<'a> {
    /// A number, which is at least 0.
    Number(i64),
    /// `true` or `false`.
    Truth(bool),
    /// `Index1`, `Index2` or `Index3`, by its number.
    Coord(u8),
    /// A variable, a constant or a configuration variable.
    Named(Name<'a>),
    /// An array, shifted: `A@d`.
    Shifted(Name<'a>, Dir<'a>),
    /// An array, read as if its first index followed its last one: `A@^d`.
    Around(Name<'a>, Dir<'a>),
    /// An array, read at a tuple of computed indices, of which there is at least one: `A#[I, J]`.
    Remap(Name<'a>, &'a [Expr<'a>]),
    /// A call with its actuals.
    Call(Name<'a>, &'a [Expr<'a>]),
    /// An expression in round brackets.
    Paren(&'a Expr<'a>),
    /// `-e`.
    Neg(&'a Expr<'a>),
    /// `!e`.
    Not(&'a Expr<'a>),
    /// `abs(e)`.
    Abs(&'a Expr<'a>),
    /// A binary operator between its operands, or `max(a, b)` and `min(a, b)`.
    Pair(Op, &'a Expr<'a>, &'a Expr<'a>),
    /// A reduction, `op<<e` or `op<<[S] e`.
    Reduce(Fold, Option<Inner<'a>>, &'a Expr<'a>),
    /// A scan, `op||e`, or `op||[k] e` along dimension k.
    Scan(Fold, Option<i64>, &'a Expr<'a>),
    /// A flood, `>>[S] e`.
    Flood(Inner<'a>, &'a Expr<'a>),
}
