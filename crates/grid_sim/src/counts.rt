//! What a grid counts.
ghost use Rattle.std.specs.Prelude.{◌≡◌, ◌+◌, ◌<◌, ◌^◌};
ghost use Rattle.grid_sim.specs.Counting.{AddTurns, AreCounts, with_message, with_turn};

/// How many turns were given, messages sent, and words in them.
#[derive(Clone, Copy, Debug, PartialEq, Eq)]
pub struct Counts {
    pub turns: u64,
    pub sends: u64,
    pub words: u128,
}

impl Counts {
    /// Before the first turn.
    pub(crate) fn none() -> Counts
        ensures { result ≡ record { turns = 0; sends = 0; words = 0 } }
    {
        Counts {
            turns: 0,
            sends: 0,
            words: 0,
        }
    }

    /// A turn more.
    pub(crate) fn count_turn(&mut self)
        requires counts { AreCounts self.old }
        requires room { self.old.turns < 2 ^ 63 }
        ensures counted { self.new ≡ with_turn self.old }
        ensures counts { AreCounts self.new }
        ensures adds { AddTurns self.old self.new }
    {
        self.turns += 1;
    }

    /// A turn more, in which a message with so many words was sent.
    pub(crate) fn count_message(&mut self, words: u64)
        requires counts { AreCounts self.old }
        requires room { self.old.turns < 2 ^ 63 }
        ensures counted { self.new ≡ with_message self.old words }
        ensures counts { AreCounts self.new }
        ensures adds { AddTurns self.old self.new }
    {
        self.turns += 1;
        self.sends += 1;
        self.words += u128::from(words);
    }
}
