//! The lines of a text.
ghost use Rattle.std.specs.Prelude.{◌≡◌, ◌≤◌, IfOk, length};
ghost use Rattle.zpl_text.specs.declared.TheConstants.{MOST_SOURCE};
ghost use Rattle.zpl_text.specs.Lines.{line_at};
ghost use Rattle.lower_places.specs.Lines.{HasLines};

use std::alloc::{AllocError, Global};
use std::marker::Model;

/// A text with the line of each offset. It takes four bytes for each byte of the text.
#[derive(Drop)]
pub struct Lines<'n> {
    source: &'n [u8],
    lines: Vec<u32>,
}

impl<'n> Model for Lines<'n> {
    ghost use Rattle.std.specs.Prelude.{ℕ, List};
    ghost use Rattle.lower_places.specs.Lines.{HasLines};

    ghost Value = { List ℕ };

    ghost view = { λ lines. lines.source.now };

    ghost invariant = { λ lines. HasLines lines.source.now lines.lines.items };
}

impl<'n> Lines<'n> {
    /// The lines of a text.
    pub fn of(alloc: Global, source: &'n [u8]) -> Result<Lines<'n>, AllocError>
        requires { length source.now ≤ MOST_SOURCE }
        ensures { IfOk result (λ lines. lines ≡ source.entry.now) }
    {
        let lines = lines_of(alloc, source)?;
        Ok(Lines { source, lines })
    }

    /// The line of an offset: 1, and one more for each newline before it.
    pub fn line_at(&self, at: u32) -> u32
        ensures { result ≡ line_at self.now at }
    {
        let offset = self.source.len().min(at as usize);
        self.lines[offset]
    }
}

/// The line of each offset, the end of the text among them.
fn lines_of(alloc: Global, source: &[u8]) -> Result<Vec<u32>, AllocError>
    requires { length source.now ≤ MOST_SOURCE }
    ensures { IfOk result (λ lines. HasLines source.now lines.items) }
{
    let mut line = 1;
    let mut lines = Vec::new(alloc);
    lines.push(line)?;
    for byte in source {
        if *byte == b'\n' {
            line += 1;
        }
        lines.push(line)?;
    }
    Ok(lines)
}
