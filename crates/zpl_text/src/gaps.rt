//! White space and comments.
ghost use Rattle.std.specs.Prelude.{◌≤◌, ◌<◌, ◌++◌, length, codes, MatchResult, MatchOption};
ghost use Rattle.std.specs.Prelude.{IfSome, IsTrue, ◌↔◌};
ghost use Rattle.zpl_text.specs.Bytes.{is_white, FirstPasses};
ghost use Rattle.zpl_text.specs.Gaps.{Skips, IsPastGap, IsLineComment, IsBlockComment};
ghost use Rattle.zpl_text.specs.Gaps.{IsOpenComment};

/// What is left behind the white space and the comments at the front. Where a comment among them
/// isn't closed, what is left from it on is the error.
pub fn past_gap(bytes: &[u8]) -> Result<&[u8], &[u8]>
    ensures skipped { MatchResult result
        (λ rest. Skips bytes.now rest.now × IsPastGap rest.now)
        (λ unclosed. Skips bytes.now unclosed.now × IsOpenComment unclosed.now) }
    ensures shorter { MatchResult result
        (λ rest. length rest.now ≤ length bytes.now)
        (λ unclosed. length unclosed.now ≤ length bytes.now) }
{
    let mut rest = bytes;
    loop {
        if begins_white(rest) {
            rest = &rest[1..];
        } else if rest.starts_with(b"--") {
            rest = past_line(&rest[2..]);
        } else if rest.starts_with(b"/*") {
            match past_comment(&rest[2..]) {
                Some(after) => rest = after,
                None => return Err(rest),
            }
        } else {
            return Ok(rest);
        }
    }
}

/// Whether the first byte is white space.
fn begins_white(bytes: &[u8]) -> bool
    ensures { IsTrue result ↔ FirstPasses is_white bytes.now }
{
    !bytes.is_empty() && matches!(bytes[0], b' ' | b'\t' | b'\n' | b'\r')
}

/// What is left behind a `--` and these bytes from the end of the line on.
fn past_line(bytes: &[u8]) -> &[u8]
    ensures comment { IsLineComment (codes "--" ++ bytes.now) result.now }
    ensures shorter { length result.now ≤ length bytes.now }
{
    for (i, byte) in bytes.iter().enumerate() {
        if *byte == b'\n' {
            return &bytes[i..];
        }
    }
    &bytes[bytes.len()..]
}

/// What is left of these bytes, which stand behind a `/*`, behind the next `*/`, if there is one.
fn past_comment(bytes: &[u8]) -> Option<&[u8]>
    ensures comment { MatchOption result
        (IsOpenComment (codes "/*" ++ bytes.now))
        (λ after. IsBlockComment (codes "/*" ++ bytes.now) after.now) }
    ensures shorter { IfSome result (λ after. length after.now ≤ length bytes.now) }
{
    for i in 1..bytes.len() {
        if bytes[i - 1] == b'*' && bytes[i] == b'/' {
            return Some(&bytes[i + 1..]);
        }
    }
    None
}
