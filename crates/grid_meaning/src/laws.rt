//! The laws of the grid.
ghost use Rattle.std.specs.Prelude.{◌≡◌, ◌+◌, ◌<◌, ◌↔◌, ℕ, List, [], ◌∷◌, ◌++◌, length, Option};
ghost use Rattle.grid_links.specs.of_zpl_lists.Front.{IsFrontOf};
ghost use Rattle.node_form.specs.declared.tables.Tables.{Tables as Code};
ghost use Rattle.grid_layout.specs.Grid.{processors_of as count_of_processors};
ghost use Rattle.grid_links.specs.Run.{after as world_after};
ghost use Rattle.grid_links.specs.Run.{IsIdle as IsWorldIdle, IsOver as IsWorldOver};
ghost use Rattle.grid_links.specs.Run.{IsStuck as IsWorldStuck};
ghost use Rattle.node_form.specs.Grid.{processors_of};
ghost use Rattle.grid_meaning.specs.Grid.{after, after_from, given_turn, processors, system_over};
ghost use Rattle.grid_meaning.specs.Grid.{IsIdle, IsOver, IsStuck};
ghost use Rattle.grid_meaning.specs.Order.{IsOrder, given};

/// The grid after an order and more turns is what the further turns make of the grid after the
/// order; and its world is that of the code's processors.
pub fn orders_go_on()
    ensures turn { (code : Code) (links : Option ℕ) (order : List ℕ) (p : ℕ) →
        after code links (order ++ p ∷ []) ≡ given_turn code links (after code links order) p }
    ensures turns { (code : Code) (links : Option ℕ) (order more : List ℕ) →
        after code links (order ++ more) ≡ after_from code links (after code links order) more }
    ensures world { (code : Code) (links : Option ℕ) (order : List ℕ) →
        (after code links order).world ≡ world_after (system_over code links) order }
{}

/// What is printed after an order begins what is printed after more turns.
pub fn printing_grows()
    ensures { (code : Code) (links : Option ℕ) (order more : List ℕ) →
        IsFrontOf (after code links order).printed (after code links (order ++ more)).printed }
{}

/// A grid that is over stays as it is, but for the count of turns.
pub fn over_stays()
    ensures { (code : Code) (links : Option ℕ) (order more : List ℕ)
        → IsOver (after code links order) →
        after code links (order ++ more)
        ≡ record (after code links order) { turns = (after code links order).turns + length more } }
{}

/// Each turn of an order counts, and the number of processors stays.
pub fn turns_count()
    ensures turns { (code : Code) (links : Option ℕ) (order : List ℕ) →
        (after code links order).turns ≡ length order }
    ensures locals { (code : Code) (links : Option ℕ) (order : List ℕ) →
        length (after code links order).world.locals ≡ processors code }
{}

/// The first turns of an order that goes on round the processors are so many, and those of
/// processors.
pub fn given_turns_are_orders()
    ensures many { (order : List ℕ) (count k : ℕ) → length (given order count k) ≡ k }
    ensures below { (order : List ℕ) (count k : ℕ) → 0 < count → IsOrder count order
        → IsOrder count (given order count k) }
{}

/// A grid is over, stuck or idle exactly where its world is, and both counts of a grid's processors
/// are one.
pub fn grids_show_their_worlds()
    ensures over { (code : Code) (links : Option ℕ) (order : List ℕ) →
        IsOver (after code links order)
        ↔ IsWorldOver (system_over code links) (after code links order).world }
    ensures stuck { (code : Code) (links : Option ℕ) (order : List ℕ) →
        IsStuck code links (after code links order)
        ↔ IsWorldStuck (system_over code links) (after code links order).world }
    ensures idle { (code : Code) (links : Option ℕ) (order : List ℕ) →
        IsIdle code links (after code links order)
        ↔ IsWorldIdle (system_over code links) (after code links order).world }
    ensures processors { (grid : List ℕ) → processors_of grid ≡ count_of_processors grid }
{}
