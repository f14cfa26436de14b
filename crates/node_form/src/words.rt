//! Texts and expressions.
use crate::rows::Row;
use zpl_arrays::zpl_nums::Op;
use zpl_arrays::zpl_region::Vec3;

/// The bytes of a text that a program prints.
pub type TextRow = Row<u8>;

/// The words of an expression in postfix: an operator stands behind its operands.
pub type ExprRow = Row<ExprOp>;

/// A word of an expression. `Here`, `Shifted`, `Cell` and `Coord` stand only in expressions that
/// the members of groups use: they have a value at an index.
#[derive(Clone, Copy, Debug, PartialEq, Eq)]
pub enum ExprOp {
    /// A constant.
    Const(i64),
    /// The value of the scalar with this number.
    Scalar(u32),
    /// The value of the array with this number at the index.
    Here(u32),
    /// The value of the array at the index moved by the vector.
    Shifted(u32, Vec3),
    /// The value of the cell with this number.
    Cell(u32),
    /// A coordinate of the index, counted from 1.
    Coord(u8),
    /// An operator on the two values before it.
    Pair(Op),
    /// The negation of the value before it, wrapped into 64 bits.
    Neg,
    /// The truth value that the value before it isn't: 1 of 0, and 0 of any other.
    Not,
    /// The greater of the value before it and its negation, wrapped into 64 bits.
    Abs,
}
