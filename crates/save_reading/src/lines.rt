//! Lines one after another.
ghost use Rattle.std.specs.Prelude.{◌≡◌, ◌+◌, ◌<◌, [], ◌∷◌, ◌++◌, MatchOption, OnOk};
ghost use Rattle.std.specs.Prelude.{drop, length, false, true};
ghost use Rattle.grid_save.specs.Reads.{begins, is_message};

use save_lines::SavedLine;
use std::alloc::AllocError;

/// The line at this place, if there is one.
pub(crate) fn line_at(lines: &[SavedLine], at: usize) -> Option<&SavedLine>
    ensures { MatchOption result
        (drop at lines.now ≡ [])
        (λ line. (drop at lines.now ≡ line.now ∷ drop (at + 1) lines.now)
        × (at < length lines.now)) }
{
    lines.get(at)
}

fn is_message(line: &SavedLine) -> bool
    ensures { result ≡ is_message line.now }
{
    matches!(line, SavedLine::Msg(..))
}

/// The line at this place, if it is that of a message.
pub(crate) fn message_at(lines: &[SavedLine], at: usize) -> Option<&SavedLine>
    ensures { MatchOption result
        (begins is_message (drop at lines.now) ≡ false)
        (λ line. (is_message line.now ≡ true)
        × (drop at lines.now ≡ line.now ∷ drop (at + 1) lines.now)
        × (at < length lines.now)) }
{
    match lines.get(at) {
        Some(line) if is_message(line) => Some(line),
        _ => None,
    }
}

/// Appends an item.
pub fn keep<T: Drop>(list: &mut Vec<T>, item: T) -> Result<(), AllocError>
    ensures { OnOk result (list.new.items ≡ list.old.items ++ item ∷ []) }
{
    list.push(item)?;
    Ok(())
}
