//! The stages of rows in which words go for places of one array: a turn alone, a message to each of
//! some processors, one from each of others, and the last turn.
//!
//! Nothing here takes memory, and no list of stages is made.
#![tactic(auto)]

mod stages;

pub use stages::delivery_stage;
