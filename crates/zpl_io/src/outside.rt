//! The traits of the outside: files that are fetched whole, and sinks that take pieces of bytes.
ghost use Rattle.std.specs.Prelude.{◌≡◌, ◌↔◌, ℕ, ◌+◌, ◌^◌, ◌<◌, ◌≤◌, List, length};
ghost use Rattle.zpl_io.specs.Faults.{last_count, CountsFaults};
ghost use Rattle.zpl_io.specs.Files.{GainsWhole, GainsTooMuch, GainsFront, SameTexts};
ghost use Rattle.zpl_io.specs.Sink.{Takes, TakesFront};

use std::alloc::Global;

/// What came of a fetch.
#[derive(Clone, Copy, Debug, PartialEq)]
pub enum Fetched {
    /// The whole text was appended.
    Whole,
    /// The text is longer than the limit; one byte more than the limit was appended.
    TooLong,
    /// The text can't be had; a front of it, within the limit, may have been appended.
    Failed,
    /// Memory was wanting; nothing was appended, and the call didn't count.
    NoMemory,
}

/// Texts that are fetched by name.
pub trait Files {
    /// The texts that the object tells by name. One that knows nothing of its texts, as a real
    /// disk, tells every text under every name.
    ghost tells: { Self → List ℕ → List ℕ → Type 0 };

    /// Under which names the next fetch may fail. One that never fails has none, and one that knows
    /// nothing of its texts has every name.
    ghost may_fail: { Self → List ℕ → Type 0 };

    /// Under which names the next fetch or a later one may fail.
    ghost may_fail_later: { Self → List ℕ → Type 0 };

    /// How many fetches failed; the count stands still at `u64::MAX`.
    ghost faults: { Self → ℕ };

    /// Appends the text under the name, and at most `limit + 1` bytes of it. A list that grows uses
    /// the allocator that it was made with; `alloc` serves what the call makes besides.
    fn fetch(&mut self, alloc: Global, name: &str, limit: u64, into: &mut Vec<u8>) -> Fetched
        requires { limit < 2 ^ 32 }

        // What is appended, by the answer.
        ensures whole { result ≡ Fetched.Whole →
            GainsWhole (tells self.old name.now) limit into.old.items into.new.items }
        ensures too_long { result ≡ Fetched.TooLong →
            GainsTooMuch (tells self.old name.now) limit into.old.items into.new.items }
        ensures failed { result ≡ Fetched.Failed →
            GainsFront (tells self.old name.now) limit into.old.items into.new.items }
        ensures no_memory { result ≡ Fetched.NoMemory → into.new.items ≡ into.old.items }
        ensures too_long_exactly { (result ≡ Fetched.TooLong) ↔
            (length into.new.items ≡ length into.old.items + limit + 1) }

        // It fails only where it may.
        ensures cause { result ≡ Fetched.Failed → may_fail self.old name.now }
        ensures cause_later { result ≡ Fetched.Failed → may_fail_later self.old name.now }
        ensures later { (other : List ℕ) →
            may_fail_later self.new other → may_fail_later self.old other }

        // What becomes of the object.
        ensures same_texts { SameTexts (tells self.old) (tells self.new) }
        ensures counts { CountsFaults (result ≡ Fetched.Failed)
            (faults self.old) (faults self.new) }
        ensures bounded { faults self.new ≤ last_count }
        ensures unchanged { result ≡ Fetched.NoMemory → self.new ≡ self.old };
}

/// What came of a put.
#[derive(Clone, Copy, Debug, PartialEq)]
pub enum Put {
    /// The whole piece was taken.
    Done,
    /// A front of the piece was taken, maybe none of it or all.
    Failed,
}

/// A taker of bytes.
pub trait Sink {
    /// The lists of bytes that the sink tells that it took. One that keeps its bytes tells these
    /// alone, one that counts tells each list of that number and hash, and one that knows nothing
    /// of what it took, as a real stream, tells every list.
    ghost tells: { Self → List ℕ → Type 0 };

    /// How many puts failed; the count stands still at `u64::MAX`.
    ghost faults: { Self → ℕ };

    /// Whether the last put failed. Before the first put none has.
    ghost has_failed: { Self → Type 0 };

    /// Takes a piece behind what was taken so far.
    fn put(&mut self, bytes: &[u8]) -> Put
        // What is taken, by the answer.
        ensures done { result ≡ Put.Done → Takes (tells self.old) bytes.now (tells self.new) }
        ensures failed { result ≡ Put.Failed →
            TakesFront (tells self.old) bytes.now (tells self.new) }

        // The count of faults, and whether the last put was one.
        ensures counts { CountsFaults (result ≡ Put.Failed) (faults self.old) (faults self.new) }
        ensures bounded { faults self.new ≤ last_count }
        ensures last { has_failed self.new ↔ (result ≡ Put.Failed) };
}
