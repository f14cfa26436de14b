//! What tests that read listings have in common.
use node_text::{ListFault, read_listing, write_listing};
use std::alloc::{AllocError, Global};
use std::process::Abort;
use std::test::Fail;

/// The rows, each with a newline behind it.
pub fn text_of(alloc: Global, rows: &[&str]) -> Result<Vec<u8>, AllocError> {
    let mut text = Vec::new(alloc);
    for row in rows {
        text.extend_from_slice(row.as_bytes())?;
        text.push(b'\n')?;
    }
    Ok(text)
}

/// Whether a text is refused for this fault.
pub fn is_refused(alloc: Global, text: &[u8], want: ListFault) -> bool {
    text.len() < 100_000
        && match read_listing(alloc, text) {
            Ok(_) => false,
            Err(fault) => fault == want,
        }
}

/// Whether a text is read, and its program written as the text again, behind bytes that are there.
pub fn is_kept(alloc: Global, text: &[u8]) -> Result<bool, Fail> {
    if text.len() >= 100_000 {
        return Ok(false);
    }
    let program = read_listing(alloc, text)?;
    let mut again = Vec::from_slice(alloc, b"!")?;
    write_listing(alloc, &program, &mut again)?;
    Ok(again.as_slice().strip_prefix(b"!") == Some(text))
}

/// Stops, with what is told of the case, where it isn't right.
pub fn holds(rt: &impl Abort, is_right: bool, told: &str) {
    assert!(rt; is_right, "{told}");
}
