//! How many reads that wrap round stand in the text of a procedure.
#![tactic(auto)]

mod expressions;
mod procedures;
mod statements;

pub use procedures::{all_reads, reads_of};
pub use zpl_lowering::text_sharing;
