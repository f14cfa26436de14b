//! Node programs: the one program that every processor of a grid runs, as tables of plain rows.
//!
//! Tables are built by pushing rows, which may name rows that aren't there yet. Once every number
//! is in its table and every expression is one, they fit, and [`NodeProgram::of`] makes a program
//! of them.
#![tactic(auto)]

mod arrays;
mod fits;
mod instructions;
mod laws;
mod members;
mod nests;
mod program;
mod rows;
mod shapes;
mod tables;
mod touches;
mod words;

pub use arrays::{ArrayDim, ArrayRow, ExchangeRow, Item};
pub use fits::{are_scalar, is_expression, is_grid, is_star};
pub use instructions::{DimRow, Instr, RegionForm, SameKind};
pub use laws::{
    expressions_have_three_outcomes, expressions_leave_one_value, growth_keeps_fit,
    growth_keeps_numbers, members_nest, rows_fit, scalar_expressions_lack_nothing,
    values_stay_in_range, words_evaluate_in_turn, words_push_their_value,
};
pub use members::{GroupRow, Member};
pub use program::NodeProgram;
pub use rows::{Row, Rows};
pub use shapes::{fits_array, is_rank, storage_dim};
pub use tables::{Arrays, Code, Exchanges, Exprs, Grid3, Groups, Slots, Tables, Texts};
pub use touches::{Thing, Touch};
pub use words::{ExprOp, ExprRow, TextRow};
pub use zpl_arrays;
pub use zpl_arrays::{zpl_nums, zpl_region};
