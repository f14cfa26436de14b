//! The files of the disk.
ghost use Rattle.std.specs.Prelude.{◌≡◌, ◌≢◌, ◌↔◌, ◌+◌, ◌^◌, ◌<◌, ◌≤◌, length, ⊤};
ghost use Rattle.std.specs.Io.KnownBytes.{IsAtEnd};
ghost use Rattle.zpl_lists.specs.Front.{IsFrontOf};
ghost use Rattle.zpl_io.specs.DiskFiles.{GainsRead};

use crate::outside::{Fetched, Files};
use std::alloc::Global;
use std::fs;
use std::io::Read;
use std::marker::Model;
use std::rt::Files as FileSystem;

/// How many bytes are read at once.
const CHUNK: usize = 8192;

/// Appends what the reader gives to its end, but stops one byte past the limit. An error stops it
/// too, and so does want of memory, where bytes that were read may be lost.
fn read_text<R: Read>(reader: &mut R, limit: u64, into: &mut Vec<u8>) -> Fetched
    requires { limit < 2 ^ 32 }
    ensures bytes { result ≢ Fetched.NoMemory →
        GainsRead (R.remaining reader.old) (R.remaining reader.new) into.old.items into.new.items }
    ensures whole { result ≡ Fetched.Whole → IsAtEnd (R.remaining reader.new) }
    ensures too_long_exactly { (result ≡ Fetched.TooLong) ↔
        (length into.new.items ≡ length into.old.items + limit + 1) }
    ensures most { length into.new.items ≤ length into.old.items + limit + 1 }
    ensures kept { IsFrontOf into.old.items into.new.items }
{
    let mut chunk = [0u8; CHUNK];
    let mut left = limit as usize + 1;
    while left > 0 {
        let room = left.min(CHUNK);
        match reader.read(&mut chunk[..room]) {
            Ok(0) => return Fetched::Whole,
            Ok(count) => {
                if into.extend_from_slice(&chunk[..count]).is_err() {
                    return Fetched::NoMemory;
                }
                left -= count;
            }
            Err(_) => return Fetched::Failed,
        }
    }
    Fetched::TooLong
}

/// The files of a file system, by their paths. Of what they hold nothing is told.
///
/// A missing file, a directory, a path that can't be opened and a read that goes wrong are answered
/// by `Failed`. No more than one byte past the limit is read of a file, however long it is.
#[derive(Drop)]
pub struct DiskFiles<R> {
    runtime: R,
    faults: u64,
}

impl<R> Model for DiskFiles<R> {
    ghost use Rattle.std.specs.Prelude.{ℕ};

    ghost Value = { ℕ };

    ghost view = { λ a. a.faults };
}

impl<R: FileSystem> DiskFiles<R> {
    /// The files that the runtime reaches.
    pub fn new(runtime: R) -> DiskFiles<R>
        ensures { result ≡ 0 }
    {
        DiskFiles { runtime, faults: 0 }
    }

    /// Reads a file, without counting a fault.
    fn read(&self, name: &str, limit: u64, into: &mut Vec<u8>) -> Fetched
        requires { limit < 2 ^ 32 }
        ensures too_long_exactly { (result ≡ Fetched.TooLong) ↔
            (length into.new.items ≡ length into.old.items + limit + 1) }
        ensures most { length into.new.items ≤ length into.old.items + limit + 1 }
        ensures kept { IsFrontOf into.old.items into.new.items }
    {
        match fs::open(&self.runtime, name) {
            Ok(mut file) => read_text(&mut file, limit, into),
            Err(_) => Fetched::Failed,
        }
    }
}

impl<R: FileSystem> Files for DiskFiles<R> {
    ghost tells = { λ _ _ _. ⊤ };

    ghost may_fail = { λ _ _. ⊤ };

    ghost may_fail_later = { λ _ _. ⊤ };

    ghost faults = { λ count. count };

    fn fetch(&mut self, _alloc: Global, name: &str, limit: u64, into: &mut Vec<u8>) -> Fetched {
        let start = into.len();
        let faults = self.faults;
        match self.read(name, limit, into) {
            Fetched::Failed => {
                self.faults = faults.saturating_add(1);
                Fetched::Failed
            }
            Fetched::NoMemory => {
                into.truncate(start);
                Fetched::NoMemory
            }
            fetched => fetched,
        }
    }
}
