//! Values that stand by themselves where a statement stands: tests, answers, the heads of loops,
//! and what calls hand on.
#![tactic(auto)]

mod actuals;
mod buffers;
mod heads;
mod scalars;

pub use actuals::actuals_in;
pub use array_frames;
pub use array_frames::{array_places, array_regions};
pub use array_settling;
pub use buffers::Buffers;
pub use heads::{Start, head_value};
pub use scalar_lists::array_scalars;
pub use scalars::{answer_value, scalars_in, test_value, whole_scalar};
