//! The laws of orders.
ghost use Rattle.std.specs.Prelude.{◌≡◌, ◌*◌, ◌<◌, ◌≤◌, ℕ, List, length, All, Ok};
ghost use Rattle.grid_order.specs.Reading.{reading};

/// The turns that a text stands for are those of processors, and a million for each byte at most.
pub fn orders_have_their_bounds()
    ensures below { (count : ℕ) (text order : List ℕ) → reading count text ≡ Ok order →
        All (λ p. p < count) order }
    ensures few { (count : ℕ) (text order : List ℕ) → reading count text ≡ Ok order →
        length order ≤ 1000000 * length text }
{}
