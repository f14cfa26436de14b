//! The laws of requests.
//!
//! Each law is the contract of a function that does nothing: a call brings the law into a proof.
ghost use Rattle.std.specs.Prelude.{◌≡◌, ◌<◌, ℕ, ℤ, List, Some, All, IsPermutation, filter};
ghost use Rattle.std.specs.Prelude.{flat_map, length};
ghost use Rattle.grid_layout.specs.Layout.{Arrangement, IsArrayBox};
ghost use Rattle.grid_layout.specs.Words.{processors};
ghost use Rattle.remap_plan.specs.Request.{asked_of, asks_of, has_home, home_of, rank_of};
ghost use Rattle.remap_plan.specs.Tuples.{tuples_in};

/// Each wanted tuple that has a home is asked of exactly one processor: what is asked of all of
/// them has each of these tuples once.
pub fn each_wanted_tuple_is_asked_once()
    ensures { (layout : Arrangement) (array : ℕ) (wanted : List ℤ) → All IsArrayBox layout.boxes
        → array < length layout.boxes
        → IsPermutation (filter (has_home layout array) (tuples_in (rank_of layout array) wanted))
        (flat_map (λ p. asked_of layout array p wanted) (processors layout.grid)) }
{}

/// What is asked of a processor are whole tuples, and all of them are at home there: so it can
/// answer.
pub fn what_is_asked_is_at_home()
    ensures whole { (layout : Arrangement) (array to : ℕ) (wanted : List ℤ)
        → All IsArrayBox layout.boxes
        → array < length layout.boxes
        → tuples_in (rank_of layout array) (asks_of layout array to wanted)
        ≡ asked_of layout array to wanted }
    ensures home { (layout : Arrangement) (array to : ℕ) (wanted : List ℤ)
        → All IsArrayBox layout.boxes
        → array < length layout.boxes
        → All (λ t. home_of layout array t ≡ Some to)
        (tuples_in (rank_of layout array) (asks_of layout array to wanted)) }
{}
