//! Marks of goals.
ghost use Rattle.std.specs.Prelude.{◌≡◌, false, slice_get, unwrap_or};

/// Whether the row with a number is marked.
pub fn is_marked(goals: &Vec<bool>, row: u64) -> bool
    ensures { result ≡ unwrap_or (slice_get goals.now.items row) false }
{
    goals.get(row as usize).copied().unwrap_or(false)
}
