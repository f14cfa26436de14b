//! Settings, and what a program's declarations come to under them: values, regions, vectors and
//! storages.
#![tactic(auto)]

mod bind;
mod faults;
mod few;
mod known;
mod lists;
mod numbers;
mod regions;
mod settings;
mod storages;
mod tables;
mod texts;
mod values;
mod vectors;

pub use bind::bind_declarations;
pub use faults::BindFault;
pub use known::Known;
pub use lists::{Bound, Regions, Values, Vectors};
pub use regions::{inner_of, limited, no_region};
pub use settings::Settings;
pub use tables::Table;
pub use vectors::dir_of;
pub use zpl_parts;
