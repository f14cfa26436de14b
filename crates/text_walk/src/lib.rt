//! The walk over a whole text, which finds its faults and its calls.
#![tactic(auto)]

mod declarations;
mod laws;
mod procedures;
mod statements;

pub use declarations::{walk_base, walk_define, walk_direction, walk_region_def, walk_shape};
pub use laws::walks_find_faults_of_their_sites;
pub use procedures::{tell_procedure, walk_routine};
pub use site_faults;
pub use site_faults::{name_kinds, zpl_names, zpl_tree};
pub use statements::{walk_prefixes, walk_stmt, walk_stmts};
