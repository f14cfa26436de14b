//! Programs from their listings.
use node_form::{NodeProgram, Tables};
use node_text::read_listing;
use std::alloc::Global;
use std::process::Abort;
use std::test::Fail;

/// The program of a listing.
pub fn program_of(rt: &impl Abort, alloc: Global, listing: &str) -> Result<NodeProgram, Fail> {
    let text = listing.as_bytes();
    assert!(rt; text.len() < 10_000);
    let program = read_listing(alloc, text)?;
    Ok(program)
}

/// Its tables.
pub fn tables_of(rt: &impl Abort, alloc: Global, listing: &str) -> Result<Tables, Fail> {
    Ok(program_of(rt, alloc, listing)?.into_tables())
}
