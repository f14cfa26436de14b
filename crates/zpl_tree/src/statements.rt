//! Statements.
use crate::expressions::Expr;
use crate::names::Name;
use crate::regions::Inner;
use zpl_nums::{Border, Op};

/// A statement with its prefixes.
#[derive(Clone, Copy)]
#[cycle(statement)]
pub struct Stmt<'a> {
    /// The offset of the first token behind the prefixes.
    pub at: u32,
    /// The prefixes, in the order of the text.
    pub prefixes: &'a [Prefix<'a>],
    /// What it is.
    pub form: Form<'a>,
}

/// The forms of statement.
#[derive(Clone, Copy)]
#[cycle(statement)]
pub enum Form<'a> {
    /// An assignment, with the operator of `op=`.
    Assign(Name<'a>, Option<Op>, &'a Expr<'a>),
    /// A call of a procedure with its actuals.
    Call(Name<'a>, &'a [Expr<'a>]),
    /// `begin` .. `end`.
    Block(&'a [Stmt<'a>]),
    /// An `if` with its `elsif` arms, of which there is at least the first, and its `else`.
    If(&'a [Arm<'a>], Option<&'a [Stmt<'a>]>),
    /// A `while` loop.
    While(&'a Expr<'a>, &'a [Stmt<'a>]),
    /// A `repeat` loop, with the offset of its `until`.
    Repeat(&'a [Stmt<'a>], u32, &'a Expr<'a>),
    /// A `for` loop.
    For(&'a ForHead<'a>, &'a [Stmt<'a>]),
    /// `wrap` or `reflect`, with its arrays, of which there is at least one.
    Border(Border, &'a [Name<'a>]),
    /// `write`, or `writeln` where the flag is true, with its items.
    Write(bool, &'a [Item<'a>]),
    /// `return`.
    Return(&'a Expr<'a>),
}

/// A prefix `[R]`, `[R with M]` or `[R without M]`.
#[derive(Clone, Copy)]
pub struct Prefix<'a> {
    /// The offset of its `[`.
    pub at: u32,
    /// The region.
    pub region: Inner<'a>,
    /// The mask, if it has one.
    pub mask: Option<Mask<'a>>,
}

/// A mask of a prefix.
#[derive(Clone, Copy)]
pub struct Mask<'a> {
    /// The boolean array.
    pub name: Name<'a>,
    /// Whether it is `without`, and not `with`.
    pub without: bool,
}

/// An `if` or `elsif` with its statements.
#[derive(Clone, Copy)]
#[cycle(statement)]
pub struct Arm<'a> {
    /// The offset of the `if` or `elsif`.
    pub at: u32,
    /// The condition.
    pub test: &'a Expr<'a>,
    /// The statements behind `then`.
    pub body: &'a [Stmt<'a>],
}

/// The head of a `for` loop.
#[derive(Clone, Copy)]
pub struct ForHead<'a> {
    /// The loop's variable.
    pub name: Name<'a>,
    /// Where it starts.
    pub first: &'a Expr<'a>,
    /// Whether it counts down, by `downto`.
    pub down: bool,
    /// The bound.
    pub last: &'a Expr<'a>,
    /// The step, which is 1 where none is written.
    pub step: Option<&'a Expr<'a>>,
}

/// An item of a `write` or `writeln`.
#[derive(Clone, Copy)]
pub enum Item<'a> {
    /// A string as it is written, without its quotes.
    Str(&'a [u8]),
    /// An expression.
    Value(&'a Expr<'a>),
}
