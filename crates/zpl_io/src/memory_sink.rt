//! A sink in memory.
ghost use Rattle.std.specs.Prelude.{◌≡◌, ◌↔◌, ◌+◌, ◌≤◌, [], ◌∷◌, ◌++◌, IfOk, OnOk, OnErr};
ghost use Rattle.std.specs.Prelude.{false, IsTrue};
ghost use Rattle.zpl_io.specs.Faults.{last_count, CountsFaults};
ghost use Rattle.zpl_io.specs.MemSink.{FailsToPut, sink_after};

use crate::outside::{Put, Sink};
use std::alloc::{AllocError, Global};
use std::marker::Model;

/// Bytes in a room that is taken at once, and the numbers of the puts that fail.
///
/// A put fails exactly where its number is in the list or its piece passes the room left; a failed
/// put takes nothing. Puts are numbered from 0; the last number is `u64::MAX`, which every later
/// put has too.
#[derive(Drop)]
pub struct MemSink {
    taken: Vec<u8>,
    room: u64,
    failing: Vec<u64>,
    calls: u64,
    faults: u64,
    has_failed: bool,
}

impl Model for MemSink {
    ghost use Rattle.std.specs.Prelude.{◌≤◌, vec_len};
    ghost use Rattle.std.specs.Vec.{vec_capacity};
    ghost use Rattle.zpl_io.specs.MemSink.{KeptBytes};

    ghost Value = { KeptBytes };

    ghost view = { λ a. record {
      taken = a.taken.items;
      room = a.room;
      failing = a.failing.items;
      calls = a.calls;
      faults = a.faults;
      has_failed = a.has_failed;
    } };

    ghost invariant = { λ a. (vec_len a.taken ≤ a.room) × (a.room ≤ vec_capacity a.taken) };
}

impl MemSink {
    /// An empty sink with room for this many bytes, of which no put fails but for want of room.
    pub fn new(alloc: Global, room: u64) -> Result<MemSink, AllocError>
        ensures { IfOk result (λ sink.
            sink ≡ record {
              taken = [];
              room = room;
              failing = [];
              calls = 0;
              faults = 0;
              has_failed = false;
            }) }
    {
        Ok(MemSink {
            taken: Vec::with_capacity(alloc, room as usize)?,
            room,
            failing: Vec::new(alloc),
            calls: 0,
            faults: 0,
            has_failed: false,
        })
    }

    /// Lets the put of this number fail.
    pub fn fail_at(&mut self, _alloc: Global, call: u64) -> Result<(), AllocError>
        ensures ok { OnOk result
            (self.new ≡ record self.old { failing = self.old.failing ++ call ∷ [] }) }
        ensures err { OnErr result (self.new ≡ self.old) }
    {
        self.failing.push(call)?;
        Ok(())
    }

    /// The bytes taken so far.
    pub fn taken(&self) -> &[u8]
        ensures { result.now ≡ self.now.taken }
    {
        self.taken.as_slice()
    }
}

impl Sink for MemSink {
    ghost tells = { λ sink bytes. bytes ≡ sink.taken };

    ghost faults = { λ sink. sink.faults };

    ghost has_failed = { λ sink. IsTrue sink.has_failed };

    fn put(&mut self, bytes: &[u8]) -> Put
        ensures fails_exactly { (result ≡ Put.Failed) ↔ FailsToPut self.old bytes.now }
        ensures counts { CountsFaults (result ≡ Put.Failed) self.old.faults self.new.faults }
        ensures bounded { self.new.faults ≤ last_count }
        ensures after { self.new ≡ sink_after self.old bytes.now result }
    {
        let named = self.failing.contains(&self.calls);
        let left = self.room - self.taken.len() as u64;
        self.calls = self.calls.saturating_add(1);
        self.has_failed = named
            || bytes.len() as u64 > left
            || self.taken.extend_from_slice(bytes).is_err();
        if self.has_failed {
            self.faults = self.faults.saturating_add(1);
            return Put::Failed;
        }
        Put::Done
    }
}
