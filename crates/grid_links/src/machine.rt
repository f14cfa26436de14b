//! Deterministic processes.
ghost use Rattle.std.specs.Prelude.{ℕ};
ghost use Rattle.grid_links.specs.Machine.{Act, Fed};

/// Deterministic processes, told apart by their numbers. Two definitions say what they do; no
/// program calls them.
pub trait Machine {
    ghost Local: { Type 0 };

    ghost Message: { Type 0 };

    ghost Kind: { Type 0 };

    ghost act: { Self → ℕ → Local → Act Local Message Kind };

    ghost fed: { Self → ℕ → Local → Message → Fed Local Kind };
}
