//! Messages.
ghost use Rattle.std.specs.Prelude.{◌≡◌};

use std::marker::Model;

/// What one process sends to another. The tag tells the receiver what the words are for.
#[derive(Debug, Drop)]
pub struct Message {
    pub tag: u64,
    pub words: Words,
}

/// A list of words, made from a `Vec` without taking memory.
#[derive(Debug, Drop)]
pub struct Words {
    words: Vec<i64>,
}

impl Model for Words {
    ghost use Rattle.std.specs.Prelude.{ℤ, List};

    ghost Value = { List ℤ };

    ghost view = { λ a. a.words.items };
}

impl Words {
    /// The list of the vector's words.
    pub fn of(words: Vec<i64>) -> Words
        ensures { result ≡ words.items }
    {
        Words { words }
    }

    /// All the words, from the first on.
    pub fn as_slice(&self) -> &[i64]
        ensures { result.now ≡ self.now }
    {
        self.words.as_slice()
    }
}
