//! Groups: what a loop does at each of its indices.
use crate::rows::Row;
use zpl_arrays::zpl_nums::Fold;

/// The members of a group, in the order in which they are run. Members that enclose others open and
/// close as brackets do.
pub type GroupRow = Row<Member>;

/// A member of a group. `expr` and `mask` are numbers of expressions: a member whose mask is 0 at
/// the index is skipped, with all that it encloses. A `line` is that of the source statement, for
/// the text of a trap.
#[derive(Clone, Copy, Debug)]
pub enum Member {
    /// The array becomes the expression's value at the index.
    Put {
        array: u32,
        expr: u32,
        mask: Option<u32>,
        line: u32,
    },
    /// The cell becomes the expression's value.
    Cell {
        cell: u32,
        expr: u32,
        mask: Option<u32>,
        line: u32,
    },
    /// The processor's own scalar becomes its join with the expression's value.
    Acc {
        scalar: u32,
        fold: Fold,
        expr: u32,
        mask: Option<u32>,
        line: u32,
    },
    /// Opens members that are run where the expression isn't 0.
    OpenIf {
        expr: u32,
        mask: Option<u32>,
        line: u32,
    },
    /// Ends them, and opens those that are run where it is 0.
    Otherwise,
    /// Closes the last `OpenIf`.
    CloseIf,
    /// Opens members that are run again and again, as long as the expression isn't 0 before them.
    OpenWhile {
        expr: u32,
        mask: Option<u32>,
        line: u32,
    },
    /// Closes the last `OpenWhile`.
    CloseWhile,
    /// Opens members that are run until the expression of its `Until` isn't 0 behind them.
    OpenRepeat {
        mask: Option<u32>,
        line: u32,
    },
    /// Closes the last `OpenRepeat`.
    Until {
        expr: u32,
    },
}
