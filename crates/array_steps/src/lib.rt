//! What one simple statement does: an assignment, a border of an array, the text of a print.
#![tactic(auto)]

mod assigns;
mod borders;
mod checks;
mod edges;
mod prints;

pub use assigns::assign_to;
pub use borders::border_thing;
pub use prints::print_text;
pub use scalar_steps::{
    Buffers, Start, actuals_in, answer_value, array_frames, array_regions, head_value, test_value,
};
