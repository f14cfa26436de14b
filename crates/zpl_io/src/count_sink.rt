//! A sink that keeps the number and the hash of its bytes.
ghost use Rattle.std.specs.Prelude.{◌≡◌, []};
ghost use Rattle.zpl_io.specs.Sink.{Takes};
ghost use Rattle.zpl_io.specs.CountSink.{tally_of, tally_after};

use crate::outside::{Put, Sink};
use std::marker::Model;

/// Keeps the number and the hash of the bytes taken, both modulo 2^64, and never fails.
///
/// The hash begins as 0, and each byte makes `31 * hash + byte` of it.
#[derive(Drop)]
pub struct CountSink {
    total: u64,
    hash: u64,
}

impl Model for CountSink {
    ghost use Rattle.zpl_io.specs.CountSink.{Tally};

    ghost Value = { Tally };

    ghost view = { λ a. record { total = a.total; hash = a.hash } };
}

impl CountSink {
    /// A sink that took nothing.
    pub fn new() -> CountSink
        ensures { result ≡ tally_of [] }
    {
        CountSink { total: 0, hash: 0 }
    }

    /// How many bytes were taken, modulo 2^64.
    pub fn total(&self) -> u64
        ensures { result ≡ self.now.total }
    {
        self.total
    }

    /// The hash of the bytes taken.
    pub fn hash(&self) -> u64
        ensures { result ≡ self.now.hash }
    {
        self.hash
    }
}

impl Sink for CountSink {
    ghost tells = { λ tally bytes. tally ≡ tally_of bytes };

    ghost faults = { λ _. 0 };

    ghost has_failed = { λ _. ⊥ };

    fn put(&mut self, bytes: &[u8]) -> Put
        ensures done { Takes
            (λ taken. self.old ≡ tally_of taken) bytes.now (λ taken. self.new ≡ tally_of taken) }
        ensures counts { self.new ≡ tally_after self.old bytes.now }
        ensures never_fails { result ≡ Put.Done }
    {
        self.total = self.total.wrapping_add(bytes.len() as u64);
        self.hash = bytes.iter().fold(
            self.hash,
            |hash, byte| hash.wrapping_mul(31).wrapping_add(u64::from(*byte)),
        );
        Put::Done
    }
}
