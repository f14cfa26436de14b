//! What strings stand for.
ghost use Rattle.std.specs.Prelude.{◌≡◌, IfOk};
ghost use Rattle.zpl_text.specs.Escapes.{escape_of, unescaped};

use std::alloc::{AllocError, Global};

/// The bytes that a string stands for, from those between its quotes. A backslash and its letter
/// are one byte: `\n` a newline, `\t` a tab, and any other letter itself.
pub fn unescape(alloc: Global, string: &[u8]) -> Result<Vec<u8>, AllocError>
    ensures { IfOk result (λ text. text.items ≡ unescaped string.now) }
{
    let mut text = Vec::new(alloc);
    let mut is_escaped = false;
    for byte in string {
        if is_escaped {
            text.push(escape_of(*byte))?;
            is_escaped = false;
        } else if *byte == b'\\' {
            is_escaped = true;
        } else {
            text.push(*byte)?;
        }
    }
    Ok(text)
}

/// What a letter behind a backslash stands for.
fn escape_of(letter: u8) -> u8
    ensures { result ≡ escape_of letter }
{
    match letter {
        b'n' => b'\n',
        b't' => b'\t',
        other => other,
    }
}
