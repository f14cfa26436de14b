//! The numbers of the language: operators, folds and their laws, and the words for how a run ends.
//!
//! An integer has 64 bits in two's complement. Sums, differences and products wrap, a quotient is
//! truncated toward zero, a remainder has the dividend's sign, and truth values are 0 and 1.
#![tactic(auto)]

mod ends;
mod folds;
mod laws;
mod operators;

pub use ends::{Border, End, TrapKind};
pub use folds::{Fold, join, unit};
pub use laws::{
    fold_of_concatenation, fold_of_first_and_rest, fold_of_parts, fold_of_permutation,
    folds_stay_values, join_is_associative, join_is_commutative, operators_stay_in_range,
    unit_is_neutral, wrapping_is_modular,
};
pub use operators::{Op, UnaryOp, apply, apply_unary};
