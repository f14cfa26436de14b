//! The laws of runs.
ghost use Rattle.std.specs.Prelude.{◌≡◌, ◌≢◌, ◌+◌, ℕ, All, List, Option, Some};
ghost use Rattle.zpl_nums.specs.declared.ends.End.{End as Ending};
ghost use Rattle.zpl_nums.specs.declared.ends.End.TheVariants.{More};
ghost use Rattle.grid_meaning.specs.of_node_form.declared.tables.Tables.{Tables as Code};
ghost use Rattle.grid_meaning.specs.Grid.{EndsAs, after, start_grid};
ghost use Rattle.grid_runs.specs.Run.{Run, grid_at};

/// Each turn of a run counts.
pub fn turns_count()
    ensures { (run : Run) (k : ℕ) → (grid_at run k).turns ≡ run.start.turns + k }
{}

/// A grid of code that is over ended normally or with a trap: it never wants more. So it is of runs
/// from any grid in which no processor has ended in wanting more.
pub fn endings_are_final()
    ensures orders { (code : Code) (links : Option ℕ) (order : List ℕ) (ending : Ending) →
        EndsAs (after code links order) ending → ending ≢ More }
    ensures runs { (run : Run) (k : ℕ) (ending : Ending) → run.start ≡ start_grid run.code →
        EndsAs (grid_at run k) ending → ending ≢ More }
    ensures onward { (run : Run) (k : ℕ) (ending : Ending) →
        All (λ local. local.ended ≢ Some More) run.start.world.locals →
        EndsAs (grid_at run k) ending → ending ≢ More }
{}
