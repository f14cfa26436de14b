//! Files in memory.
ghost use Rattle.std.specs.Prelude.{◌≡◌, ◌≢◌, ◌↔◌, ℕ, ◌+◌, ◌^◌, ◌<◌, ◌≤◌, [], ◌∷◌, ◌++◌};
ghost use Rattle.std.specs.Prelude.{List, length, IfOk, OnOk, OnErr};
ghost use Rattle.std.specs.Option.{option_copied};
ghost use Rattle.std.specs.Str.{bytes_eq};
ghost use Rattle.zpl_io.specs.Faults.{last_count, CountsFaults};
ghost use Rattle.zpl_io.specs.Files.{GainsWhole, GainsTooMuch};
ghost use Rattle.zpl_io.specs.MemFiles.{text_under, HasText, FailsLater, FailsNext, files_after};

use crate::outside::{Fetched, Files};
use std::alloc::{AllocError, Global};
use std::marker::Model;

/// Appends a text, but no more than one byte past the limit.
pub(crate) fn append_text(text: &[u8], limit: u64, into: &mut Vec<u8>) -> Fetched
    requires { limit < 2 ^ 32 }
    ensures whole { result ≡ Fetched.Whole →
        GainsWhole (λ told. told ≡ text.now) limit into.old.items into.new.items }
    ensures too_long { result ≡ Fetched.TooLong →
        GainsTooMuch (λ told. told ≡ text.now) limit into.old.items into.new.items }
    ensures no_memory { result ≡ Fetched.NoMemory → into.new.items ≡ into.old.items }
    ensures too_long_exactly { (result ≡ Fetched.TooLong) ↔
        (length into.new.items ≡ length into.old.items + limit + 1) }
    ensures never_fails { result ≢ Fetched.Failed }
{
    let most = limit as usize;
    let (piece, fetched) = if text.len() <= most {
        (text, Fetched::Whole)
    } else {
        (&text[..most + 1], Fetched::TooLong)
    };
    match into.extend_from_slice(piece) {
        Ok(()) => fetched,
        Err(AllocError) => Fetched::NoMemory,
    }
}

/// A text and its name.
#[derive(Drop)]
struct Named {
    name: Vec<u8>,
    text: Vec<u8>,
}

impl Model for Named {
    ghost use Rattle.std.specs.Prelude.{ℕ, List};

    ghost Value = { List ℕ × List ℕ };

    ghost view = { λ a. (a.name.items, a.text.items) };
}

impl Named {
    fn new(alloc: Global, name: &str, text: &[u8]) -> Result<Named, AllocError>
        ensures { IfOk result (λ named. named ≡ (name.now, text.now)) }
    {
        Ok(Named {
            name: Vec::from_slice(alloc, name.as_bytes())?,
            text: Vec::from_slice(alloc, text)?,
        })
    }

    fn is_called(&self, name: &str) -> bool
        ensures { result ≡ bytes_eq self.now.0 name.now }
    {
        self.name.as_slice() == name.as_bytes()
    }

    fn text(&self) -> &[u8]
        ensures { result.now ≡ self.now.1 }
    {
        self.text.as_slice()
    }
}

/// Texts by name, and the numbers of the fetches that fail.
///
/// A fetch fails exactly where its number is in the list or its name isn't there; a failed fetch
/// appends nothing. Of two texts under one name the first is fetched. Fetches are numbered from 0,
/// those left out that memory was wanting for; the last number is `u64::MAX`, which every later
/// fetch has too.
#[derive(Drop)]
pub struct MemFiles {
    named: Vec<Named>,
    failing: Vec<u64>,
    calls: u64,
    faults: u64,
}

impl Model for MemFiles {
    ghost use Rattle.zpl_io.specs.MemFiles.{KeptFiles};

    ghost Value = { KeptFiles };

    ghost view = { λ a. record {
      named = a.named.items;
      failing = a.failing.items;
      calls = a.calls;
      faults = a.faults;
    } };
}

impl MemFiles {
    /// Files without a text, of which no call fails but by its name.
    pub fn new(alloc: Global) -> MemFiles
        ensures { result ≡ record { named = []; failing = []; calls = 0; faults = 0 } }
    {
        MemFiles {
            named: Vec::new(alloc),
            failing: Vec::new(alloc),
            calls: 0,
            faults: 0,
        }
    }

    /// Adds a text under a name, behind those that are there.
    pub fn add(&mut self, alloc: Global, name: &str, text: &[u8]) -> Result<(), AllocError>
        ensures ok { OnOk result
            (self.new ≡ record self.old { named = self.old.named ++ (name.now, text.now) ∷ [] }) }
        ensures err { OnErr result (self.new ≡ self.old) }
    {
        self.named.push(Named::new(alloc, name, text)?)?;
        Ok(())
    }

    /// Lets the fetch of this number fail.
    pub fn fail_at(&mut self, _alloc: Global, call: u64) -> Result<(), AllocError>
        ensures ok { OnOk result
            (self.new ≡ record self.old { failing = self.old.failing ++ call ∷ [] }) }
        ensures err { OnErr result (self.new ≡ self.old) }
    {
        self.failing.push(call)?;
        Ok(())
    }

    /// The text under a name.
    fn find(&self, name: &str) -> Option<&[u8]>
        ensures { option_copied result ≡ text_under name.now self.now.named }
    {
        self.named
            .iter()
            .find(|named| named.is_called(name))
            .map(|named| named.text())
    }

    /// Answers the next fetch, without counting it.
    fn answer(&self, name: &str, limit: u64, into: &mut Vec<u8>) -> Fetched
        requires { limit < 2 ^ 32 }
        ensures whole { result ≡ Fetched.Whole →
            GainsWhole (HasText self.now name.now) limit into.old.items into.new.items }
        ensures too_long { result ≡ Fetched.TooLong →
            GainsTooMuch (HasText self.now name.now) limit into.old.items into.new.items }
        ensures failed { result ≡ Fetched.Failed → into.new.items ≡ into.old.items }
        ensures no_memory { result ≡ Fetched.NoMemory → into.new.items ≡ into.old.items }
        ensures too_long_exactly { (result ≡ Fetched.TooLong) ↔
            (length into.new.items ≡ length into.old.items + limit + 1) }
        ensures fails_exactly { (result ≡ Fetched.Failed) ↔ FailsNext self.now name.now }
    {
        match self.find(name) {
            Some(text) if !self.failing.contains(&self.calls) => append_text(text, limit, into),
            _ => Fetched::Failed,
        }
    }

    /// Counts a fetch with this answer.
    fn count(&mut self, fetched: Fetched)
        ensures after { self.new ≡ files_after self.old fetched }
        ensures calls { self.old.calls ≤ self.new.calls }
        ensures counts { CountsFaults (fetched ≡ Fetched.Failed) self.old.faults self.new.faults }
        ensures bounded { self.new.faults ≤ last_count }
    {
        let faults = self.faults;
        match fetched {
            Fetched::Whole | Fetched::TooLong => self.calls = self.calls.saturating_add(1),
            Fetched::Failed => {
                self.calls = self.calls.saturating_add(1);
                self.faults = faults.saturating_add(1);
            }
            Fetched::NoMemory => {}
        }
    }
}

impl Files for MemFiles {
    ghost tells = { HasText };

    ghost may_fail = { FailsNext };

    ghost may_fail_later = { FailsLater };

    ghost faults = { λ files. files.faults };

    fn fetch(&mut self, _alloc: Global, name: &str, limit: u64, into: &mut Vec<u8>) -> Fetched
        requires { limit < 2 ^ 32 }
        ensures whole { result ≡ Fetched.Whole →
            GainsWhole (HasText self.old name.now) limit into.old.items into.new.items }
        ensures too_long { result ≡ Fetched.TooLong →
            GainsTooMuch (HasText self.old name.now) limit into.old.items into.new.items }
        ensures failed { result ≡ Fetched.Failed → into.new.items ≡ into.old.items }
        ensures no_memory { result ≡ Fetched.NoMemory → into.new.items ≡ into.old.items }
        ensures too_long_exactly { (result ≡ Fetched.TooLong) ↔
            (length into.new.items ≡ length into.old.items + limit + 1) }
        ensures fails_exactly { (result ≡ Fetched.Failed) ↔ FailsNext self.old name.now }
        ensures cause_later { result ≡ Fetched.Failed → FailsLater self.old name.now }
        ensures later { (other : List ℕ) → FailsLater self.new other → FailsLater self.old other }
        ensures after { self.new ≡ files_after self.old result }
        ensures counts { CountsFaults (result ≡ Fetched.Failed) self.old.faults self.new.faults }
        ensures bounded { self.new.faults ≤ last_count }
    {
        let fetched = self.answer(name, limit, into);
        self.count(fetched);
        fetched
    }
}
