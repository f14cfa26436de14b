//! States of two kinds of code that are alike.

/// States of an old and of a new kind, and which of them are alike. No program calls this: the laws
/// are said of it.
pub trait Likeness {
    ghost Old: { Type 0 };

    ghost New: { Type 0 };

    ghost IsLike: { Old → New → Type 0 };
}

/// The same, with facts that may be known of two states.
pub trait Knowledge {
    ghost Old: { Type 0 };

    ghost New: { Type 0 };

    ghost IsLike: { Old → New → Type 0 };

    ghost Facts: { Type 0 };

    ghost Knows: { Facts → Old → New → Type 0 };
}
