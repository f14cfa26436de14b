//! What scalar code never does on a grid.
ghost use Rattle.std.specs.Prelude.{◌≡◌, ◌≤◌, ℕ, List, length, None, Option};
ghost use Rattle.node_form.specs.Fits.{Fits};
ghost use Rattle.node_form.specs.declared.tables.Tables.{Tables as Code};
ghost use Rattle.grid_meaning.specs.Grid.{after, HasEmptyLinks, IsIdle, IsStuck};
ghost use Rattle.grid_meaning.specs.Local.{Local};
ghost use Rattle.grid_meaning.specs.Scalar.{IsQuietMove, IsScalarCode, IsSilent};
ghost use Rattle.grid_meaning.specs.Turn.{act};

use node_form::{rows_fit, scalar_expressions_lack_nothing};

/// Scalar code sends and awaits nothing, so it does the same over links of every capacity.
pub fn scalar_code_needs_no_links()
    ensures silent { (code : Code) (p : ℕ) (local : Local) → IsScalarCode code →
        IsSilent (act code p local) }
    ensures same { (code : Code) (links : Option ℕ) (order : List ℕ) → IsScalarCode code →
        after code links order ≡ after code None order }
    ensures sends { (code : Code) (links : Option ℕ) (order : List ℕ) → IsScalarCode code →
        (after code links order).sends ≡ 0 }
    ensures words { (code : Code) (links : Option ℕ) (order : List ℕ) → IsScalarCode code →
        (after code links order).words ≡ 0 }
    ensures empty { (code : Code) (links : Option ℕ) (order : List ℕ) → IsScalarCode code →
        HasEmptyLinks (after code links order) }
{}

/// Scalar code whose tables fit is never stuck and never waits: until it ends a processor makes one
/// move after another.
pub fn scalar_code_goes_on()
    ensures moves { (code : Code) (p : ℕ) (local : Local) → Fits code → IsScalarCode code →
        code.scalars ≤ length local.scalars → local.ended ≡ None
        → IsQuietMove local (act code p local) }
    ensures not_stuck { (code : Code) (links : Option ℕ) (order : List ℕ) → Fits code →
        IsScalarCode code → ¬ IsStuck code links (after code links order) }
    ensures not_idle { (code : Code) (links : Option ℕ) (order : List ℕ) → Fits code →
        IsScalarCode code → ¬ IsIdle code links (after code links order) }
{
    rows_fit();
    scalar_expressions_lack_nothing();
}
