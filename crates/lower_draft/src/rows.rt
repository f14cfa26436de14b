//! Rows with their expressions, groups and texts in the place of numbers.
use zpl_lowering::node_form::{ExprRow, Instr, TextRow};
use zpl_nums::Fold;

/// A row of code but for jumps and tests. A `line` is that of the source statement.
#[derive(Debug, Drop)]
pub enum FlatRow {
    /// The scalar becomes the expression's value.
    Set {
        scalar: u32,
        expr: ExprRow,
        line: u32,
    },
    /// The slot becomes the region of these dimensions.
    Dims {
        slot: u32,
        parts: [FlatPart; 3],
        line: u32,
    },
    /// The group is run at each index of the slot's region.
    Loop {
        slot: u32,
        group: Vec<FlatMember>,
    },
    /// The print of a text.
    Print {
        text: TextRow,
    },
    /// The print of a number.
    Number {
        expr: ExprRow,
    },
    /// The print of a truth value.
    Truth {
        expr: ExprRow,
    },
    /// A row that has neither expressions nor a group or text: it stands so in the tables.
    Plain(Instr),
}

/// A dimension of a region that a row makes.
#[derive(Debug, Drop)]
pub enum FlatPart {
    /// From the value of the first expression to that of the second one.
    Span(ExprRow, ExprRow),
    /// A flood dimension.
    Star,
    /// The same dimension of the slot's region.
    Copied(u32),
}

/// A member of a group. A `line` is that of the source statement.
#[derive(Debug, Drop)]
pub enum FlatMember {
    /// The array becomes the expression's value at the index.
    Put {
        array: u32,
        expr: ExprRow,
        mask: Option<ExprRow>,
        line: u32,
    },
    /// The scalar becomes its join with the expression's value.
    Acc {
        scalar: u32,
        fold: Fold,
        expr: ExprRow,
        mask: Option<ExprRow>,
        line: u32,
    },
    /// Opens members that are run where the expression isn't 0.
    OpenIf {
        expr: ExprRow,
        mask: Option<ExprRow>,
        line: u32,
    },
    /// Ends them, and opens those that are run where it is 0.
    Otherwise,
    /// Closes the last `OpenIf`.
    CloseIf,
    /// Opens members that are run again and again, as long as the expression isn't 0 before them.
    OpenWhile {
        expr: ExprRow,
        mask: Option<ExprRow>,
        line: u32,
    },
    /// Closes the last `OpenWhile`.
    CloseWhile,
    /// Opens members that are run until the expression of its `Until` isn't 0 behind them.
    OpenRepeat {
        mask: Option<ExprRow>,
        line: u32,
    },
    /// Closes the last `OpenRepeat`.
    Until {
        expr: ExprRow,
    },
}
