//! Whom processors send to and await.
ghost use Rattle.std.specs.Prelude.{◌≡◌, ◌*◌, ◌<◌, ℕ, List, length, All, Option};
ghost use Rattle.node_form.specs.declared.tables.Tables.{Tables as Code};
ghost use Rattle.grid_meaning.specs.Action.{NamesBelow};
ghost use Rattle.grid_meaning.specs.Grid.{after, processors};
ghost use Rattle.grid_meaning.specs.Local.{Local};
ghost use Rattle.grid_meaning.specs.State.{IsLocal};
ghost use Rattle.grid_meaning.specs.Turn.{act};

/// There is a link from each processor to each. The words that a processor keeps are of processors,
/// and it sends to processors and awaits messages of processors alone.
pub fn partners_are_processors()
    ensures links { (code : Code) (links : Option ℕ) (order : List ℕ) →
        length (after code links order).world.links ≡ processors code * processors code }
    ensures kept { (code : Code) (p : ℕ) (local : Local) → IsLocal code p local →
        All (λ entry. entry.0 < processors code) local.kept }
    ensures named { (code : Code) (p : ℕ) (local : Local) → IsLocal code p local →
        NamesBelow (processors code) (act code p local) }
{}
