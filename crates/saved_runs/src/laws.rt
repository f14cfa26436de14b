//! The law of grids that can be saved.
ghost use Rattle.std.specs.Prelude.{◌≡◌, ℕ, List, [], Option};
ghost use Rattle.grid_meaning.specs.of_node_form.declared.tables.Tables.{Tables as Code};
ghost use Rattle.grid_meaning.specs.Grid.{Grid, after_from, start_grid};
ghost use Rattle.grid_runs.specs.Run.{Run, grid_at};
ghost use Rattle.grid_save.specs.Onward.{IsOnward};
ghost use Rattle.grid_save.specs.Saved.{IsSaveable};

/// What `write_save` asks of a grid, beside its counts, holds of each program's grid before its
/// first turn, and of a grid that was saved; and each turn keeps it, over links of any capacity.
pub fn runs_stay_onward()
    ensures start { (code : Code) → IsOnward code (start_grid code) }
    ensures saved { (code : Code) (grid : Grid) → IsSaveable code grid → IsOnward code grid }
    ensures orders { (code : Code) (links : Option ℕ) (grid : Grid) (order : List ℕ) →
        IsOnward code grid → IsOnward code (after_from code links grid order) }
    ensures runs { (run : Run) (k : ℕ) → IsOnward run.code run.start →
        IsOnward run.code (record (grid_at run k) { printed = [] }) }
{}
