//! What tests have in common.
use listing_lines::{LinesFault, read_lines, write_lines};
use std::alloc::{AllocError, Global};
use std::process::Abort;
use std::test::Fail;

/// The rows, each with a newline behind it.
pub fn text_of(alloc: Global, rows: &[&[u8]]) -> Result<Vec<u8>, AllocError> {
    let mut text = Vec::new(alloc);
    for row in rows {
        text.extend_from_slice(row)?;
        text.push(b'\n')?;
    }
    Ok(text)
}

/// Reads a text: the line of its fault is the wanted one, or it has none where that is 0, and then
/// its lines are written as the text again.
pub fn expect(rt: &impl Abort, alloc: Global, text: &[u8], want: u32) -> Result<(), Fail> {
    assert!(rt; text.len() < 1 << 32);
    match read_lines(alloc, text) {
        Ok(lines) => {
            let mut again = Vec::new(alloc);
            write_lines(alloc, &lines, &mut again)?;
            assert!(rt; again.as_slice() == text);
            assert!(rt; want == 0);
        }
        Err(LinesFault::BadLine { line }) => assert!(rt; line == want),
        Err(LinesFault::NoMemory) => assert!(rt; false),
    }
    Ok(())
}
