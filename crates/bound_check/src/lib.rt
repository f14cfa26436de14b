//! Checks of places that always pass are left out.
#![tactic(auto)]

mod checks;
mod writes;

ghost use Rattle.std.specs.Prelude.{◌≡◌, ℕ, ◌≤◌};
ghost use Rattle.flat_passes.specs.of_node_form.declared.tables.Tables.{Tables as Code};
ghost use Rattle.flat_passes.specs.of_code_parts.Counts.{code_size, count_of};
ghost use Rattle.flat_passes.specs.of_code_parts.Needs.{IsUndecided};
ghost use Rattle.flat_passes.specs.of_node_form.Fits.{Fits};
ghost use Rattle.flat_passes.specs.of_row_runs.Segments.{Keeps};
ghost use Rattle.flat_passes.specs.of_flat_form.Act.{flat_run};
ghost use Rattle.flat_passes.specs.Rewritten.{has_goal};
ghost use Rattle.bound_check.specs.Checked.{checked};

pub use checks::{is_decided, place_checks};
pub use writes::Writes;

/// No check is left whose slot `fix` rows alone write, and which passes for each of their regions.
/// The code gets no larger, has as many jumps and tests, and nothing but its rows changes.
pub fn checks_are_left_out()
    ensures undecided { (code : Code) → IsUndecided (checked code) }
    ensures size { (code : Code) → code_size (checked code) ≤ code_size code }
    ensures jumps { (code : Code) → count_of has_goal (checked code) ≡ count_of has_goal code }
    ensures rest { (code : Code) → record (checked code) { code = code.code } ≡ code }
{}

/// A flat program shows without these checks what it shows with them, for every bound on its jumps
/// and on the turns of loops in its groups, unless it comes to a row that may not stand there.
pub fn checks_left_out_keep_runs()
    ensures { (code : Code) → Fits code → (a n : ℕ) →
        Keeps (flat_run code a n) (flat_run (checked code) a n) }
{}

/// Tables that fit do so without these checks.
pub fn checked_tables_fit()
    ensures { (code : Code) → Fits code → Fits (checked code) }
{}
