//! Files that never fail.
ghost use Rattle.std.specs.Prelude.{◌≡◌, ◌≢◌, ◌↔◌, ◌+◌, ◌^◌, ◌<◌, length};
ghost use Rattle.zpl_io.specs.Files.{GainsWhole, GainsTooMuch};

use crate::memory_files::append_text;
use crate::outside::{Fetched, Files};
use std::alloc::Global;
use std::marker::Model;

/// Holds one text, which it tells under every name, and never fails.
#[derive(Drop)]
pub struct SureFiles {
    text: Vec<u8>,
}

impl Model for SureFiles {
    ghost use Rattle.std.specs.Prelude.{ℕ, List};

    ghost Value = { List ℕ };

    ghost view = { λ a. a.text.items };
}

impl SureFiles {
    /// Files with that text under every name.
    pub fn new(text: Vec<u8>) -> SureFiles
        ensures { result ≡ text.items }
    {
        SureFiles { text }
    }
}

impl Files for SureFiles {
    ghost tells = { λ kept _ text. text ≡ kept };

    ghost may_fail = { λ _ _. ⊥ };

    ghost may_fail_later = { λ _ _. ⊥ };

    ghost faults = { λ _. 0 };

    fn fetch(&mut self, _alloc: Global, _name: &str, limit: u64, into: &mut Vec<u8>) -> Fetched
        requires { limit < 2 ^ 32 }
        ensures whole { result ≡ Fetched.Whole →
            GainsWhole (λ text. text ≡ self.old) limit into.old.items into.new.items }
        ensures too_long { result ≡ Fetched.TooLong →
            GainsTooMuch (λ text. text ≡ self.old) limit into.old.items into.new.items }
        ensures no_memory { result ≡ Fetched.NoMemory → into.new.items ≡ into.old.items }
        ensures too_long_exactly { (result ≡ Fetched.TooLong) ↔
            (length into.new.items ≡ length into.old.items + limit + 1) }
        ensures never_fails { result ≢ Fetched.Failed }
        ensures kept { self.new ≡ self.old }
    {
        append_text(self.text.as_slice(), limit, into)
    }
}
