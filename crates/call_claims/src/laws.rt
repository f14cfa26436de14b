//! The law of words.
ghost use Rattle.std.specs.Prelude.{◌≡◌, ℕ, List};
ghost use Rattle.call_claims.specs.Command.{Asked, IsWorded};

/// Words are worded as one command of one file at most, and ask for one thing.
pub fn commands_are_one()
    ensures { (words : List (List ℕ)) (name next file other : List ℕ) (asked more : Asked) →
        IsWorded words name file asked → IsWorded words next other more →
        (name ≡ next) × (file ≡ other) × (asked ≡ more) }
{}
