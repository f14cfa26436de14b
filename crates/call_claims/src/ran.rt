//! What comes of a call.
use zpl_claims::node_form::NodeProgram;

/// What came of a call.
#[derive(Drop)]
pub struct Ran {
    /// The status that the program ends with: one of `status`.
    pub status: u8,
    /// The code that was made, where some was.
    pub code: Option<NodeProgram>,
    /// The turns that the code was given.
    pub turns: u64,
    /// The messages that it sent.
    pub sends: u64,
    /// The words in these messages.
    pub words_sent: u128,
}
