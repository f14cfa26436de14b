//! The lines of a text.
ghost use Rattle.std.specs.Prelude.{◌≡◌, ◌==◌, ◌^◌, ◌≤◌, length, MatchOption, count_by};
ghost use Rattle.zpl_text.specs.declared.TheConstants.{MOST_SOURCE};
ghost use Rattle.zpl_text.specs.Lines.{line_at};

use std::marker::Model;

/// A text, and how far its lines were counted. For offsets that rise it goes over the text once.
#[derive(Drop)]
pub struct Lines<'a> {
    source: &'a [u8],
    offset: usize,
    newlines: usize,
}

impl<'a> Model for Lines<'a> {
    ghost use Rattle.std.specs.Prelude.{◌≡◌, ◌≤◌, ◌==◌, ℕ, List, count_by, length, take};

    ghost Value = { List ℕ };

    ghost view = { λ lines. lines.source.now };

    ghost invariant = { λ lines. (lines.offset ≤ length lines.source.now)
        × (lines.newlines ≡ count_by (λ b. b == 10) (take lines.offset lines.source.now)) };
}

impl<'a> Lines<'a> {
    /// The lines of a text.
    pub fn of(source: &'a [u8]) -> Lines<'a>
        ensures { result ≡ source.now }
    {
        Lines {
            source,
            offset: 0,
            newlines: 0,
        }
    }

    /// The line of an offset: 1, and one more for each newline before it. There is no answer where
    /// it is 2^32 or more.
    pub fn line_at(&mut self, at: u32) -> Option<u32>
        ensures line { MatchOption result
            (2 ^ 32 ≤ line_at self.old at)
            (λ line. line ≡ line_at self.old at) }
        ensures same { self.new ≡ self.old }
    {
        let offset = self.source.len().min(at as usize);
        if offset < self.offset {
            self.offset = 0;
            self.newlines = 0;
        }
        self.newlines += newlines_in(&self.source[self.offset..offset]);
        self.offset = offset;
        u32::try_from(1 + self.newlines).ok()
    }
}

/// The line of an offset in a text that is no longer than a source: 1, and one more for each
/// newline before it.
pub fn line_at(source: &[u8], at: u32) -> u32
    requires { length source.now ≤ MOST_SOURCE }
    ensures { result ≡ line_at source.now at }
{
    let before = source.len().min(at as usize);
    1 + newlines_in(&source[..before]) as u32
}

/// How many newlines there are.
fn newlines_in(text: &[u8]) -> usize
    ensures count { result ≡ count_by (λ b. b == 10) text.now }
    ensures few { result ≤ length text.now }
{
    text.iter().filter(|b| **b == b'\n').count()
}
