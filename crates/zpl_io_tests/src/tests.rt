use std::alloc::{AllocError, Global};
use std::io::{ErrorKind, Write};
use std::process::Abort;
use std::test::Fail;
use std::{fs, io};
use zpl_io::{
    Bytes, CountSink, DiskFiles, Fetched, Files, MemFiles, MemSink, Put, Sink, StdSink, SureFiles,
    put_piece, write_number,
};

const FIRST: &[u8] = b"first";

const LONG: &[u8] = b"0123456789";

/// A name and a limit, the answer, and what is gained.
type Fetch = (&'static str, u32, Fetched, &'static [u8]);

/// Fetches each in turn, behind bytes that are there already, and compares.
fn expect_fetches(
    rt: &impl Abort,
    alloc: Global,
    files: &mut impl Files,
    rows: &[Fetch],
) -> Result<(), AllocError> {
    for (name, limit, want, gained) in rows {
        let mut into = Vec::from_slice(alloc, b"old:")?;
        let got = files.fetch(alloc, name, u64::from(*limit), &mut into);
        let is_gained = into.as_slice().strip_prefix(b"old:") == Some(*gained);
        assert!(rt; got == *want && is_gained, "{name} within {limit}");
    }
    Ok(())
}

const IN_MEMORY: [Fetch; 8] = [
    ("a", 100, Fetched::Whole, FIRST),
    ("b", 10, Fetched::Whole, LONG),
    ("b", 9, Fetched::TooLong, LONG),
    ("a", 100, Fetched::Failed, b""),
    ("b", 3, Fetched::TooLong, b"0123"),
    ("c", 100, Fetched::Failed, b""),
    ("b", 3, Fetched::Failed, b""),
    ("a", 0, Fetched::TooLong, b"f"),
];

#[test]
fn fetches_from_memory(rt: HostRuntime) -> Result<(), Fail> {
    let alloc = rt.alloc();
    let mut files = MemFiles::new(alloc);
    files.add(alloc, "a", FIRST)?;
    files.add(alloc, "b", LONG)?;
    files.add(alloc, "a", b"second")?;
    files.fail_at(alloc, 3)?;
    files.fail_at(alloc, 6)?;
    expect_fetches(&rt, alloc, &mut files, &IN_MEMORY)?;
    Ok(())
}

const SURE: [Fetch; 3] = [
    ("a", 10, Fetched::Whole, LONG),
    ("", 9, Fetched::TooLong, LONG),
    ("b", 1, Fetched::TooLong, b"01"),
];

#[test]
fn fetches_surely(rt: HostRuntime) -> Result<(), Fail> {
    let mut files = SureFiles::new(Vec::from_slice(rt.alloc(), LONG)?);
    expect_fetches(&rt, rt.alloc(), &mut files, &SURE)?;
    Ok(())
}

/// A piece, whether it is put, and what the sink took until then.
type Piece = (&'static [u8], bool, &'static [u8]);

/// Pieces for a sink of six bytes whose first call and fourth call fail.
const PUTS: [Piece; 8] = [
    (b"x", false, b""),
    (b"abc", true, b"abc"),
    (b"defg", false, b"abc"),
    (b"d", false, b"abc"),
    (b"def", true, b"abcdef"),
    (b"g", false, b"abcdef"),
    (b"", true, b"abcdef"),
    (b"g", false, b"abcdef"),
];

/// Pieces for one whose second call fails; an empty piece is no call.
const PIECES: [Piece; 5] = [
    (b"", true, b""),
    (b"abc", true, b"abc"),
    (b"", true, b"abc"),
    (b"def", false, b"abc"),
    (b"def", true, b"abcdef"),
];

#[test]
fn puts_into_memory(rt: HostRuntime) -> Result<(), Fail> {
    let mut sink = MemSink::new(rt.alloc(), 6)?;
    sink.fail_at(rt.alloc(), 0)?;
    sink.fail_at(rt.alloc(), 3)?;
    for (piece, is_put, taken) in PUTS {
        let want = if is_put { Put::Done } else { Put::Failed };
        assert!(rt; sink.put(piece) == want && sink.taken() == taken);
    }
    Ok(())
}

#[test]
fn puts_no_empty_piece(rt: HostRuntime) -> Result<(), Fail> {
    let mut sink = MemSink::new(rt.alloc(), 6)?;
    sink.fail_at(rt.alloc(), 1)?;
    for (piece, is_put, taken) in PIECES {
        assert!(rt; put_piece(&mut sink, piece).is_ok() == is_put && sink.taken() == taken);
    }
    Ok(())
}

/// Pieces, and the number and the hash of the bytes until then.
const COUNTED: [(&[u8], u64, u64); 4] = [
    (b"a", 1, 97),
    (b"", 1, 97),
    (b"bc", 3, 96354),
    (&[0, 255], 5, 92596449),
];

#[test]
fn counts_bytes(rt: HostRuntime) {
    let mut sink = CountSink::new();
    assert!(rt; sink.total() == 0 && sink.hash() == 0);
    for (piece, total, hash) in COUNTED {
        let is_put = sink.put(piece) == Put::Done;
        assert!(rt; is_put && sink.total() == total && sink.hash() == hash);
    }
}

#[test]
fn keeps_bytes(rt: HostRuntime) -> Result<(), Fail> {
    let bytes = Bytes::of(Vec::from_slice(rt.alloc(), FIRST)?);
    assert!(rt; bytes.as_slice() == FIRST);
    Ok(())
}

const NUMBERS: [(i64, &[u8]); 7] = [
    (0, b"n 0"),
    (7, b"n 7"),
    (-1, b"n -1"),
    (10, b"n 10"),
    (-120, b"n -120"),
    (i64::MAX, b"n 9223372036854775807"),
    (i64::MIN, b"n -9223372036854775808"),
];

#[test]
fn writes_numbers(rt: HostRuntime) -> Result<(), Fail> {
    for (n, text) in NUMBERS {
        let mut into = Vec::from_slice(rt.alloc(), b"n ")?;
        write_number(rt.alloc(), n, &mut into)?;
        assert!(rt; into.as_slice() == text);
    }
    Ok(())
}

/// The file of a test on the disk.
const NAME: &str = "zpl_io_fetches_from_the_disk.txt";

const ON_DISK: [Fetch; 7] = [
    (NAME, 100, Fetched::Whole, LONG),
    (NAME, 10, Fetched::Whole, LONG),
    (NAME, 9, Fetched::TooLong, LONG),
    (NAME, 2, Fetched::TooLong, b"012"),
    (".", 100, Fetched::Failed, b""),
    ("no/such/file", 100, Fetched::Failed, b""),
    ("a\0b", 100, Fetched::Failed, b""),
];

#[test]
fn fetches_from_the_disk(rt: HostRuntime) -> Result<(), Fail> {
    fs::write(&rt, NAME, LONG)?;
    let mut files = DiskFiles::new(rt);
    expect_fetches(&rt, rt.alloc(), &mut files, &ON_DISK)?;
    fs::remove_file(&rt, NAME)?;
    Ok(())
}

/// A file without end, in more than one read.
#[test]
fn fetches_of_a_file_without_end(rt: HostRuntime) {
    let mut files = DiskFiles::new(rt);
    let mut into = Vec::new(rt.alloc());
    let got = files.fetch(rt.alloc(), "/dev/zero", 20_000, &mut into);
    assert!(rt; got == Fetched::TooLong && into.len() == 20_001);
}

#[test]
fn puts_onto_streams(rt: HostRuntime) {
    let mut output = StdSink::new(rt.stdout());
    let mut errors = StdSink::new(rt.stderr());
    for piece in [b"to a stream\n".as_slice(), b"".as_slice()] {
        assert!(rt; output.put(piece) == Put::Done && errors.put(piece) == Put::Done);
    }
}

// A writer that takes at most two bytes at once and has room for so many, past which it takes none
// or fails. Its flushes work or fail.
#[derive(Drop)]
struct Narrow {
    taken: Vec<u8>,
    room: usize,
    fails: bool,
    flushes: bool,
}

impl Write for Narrow {
    fn write(&mut self, buf: &[u8]) -> io::Result<usize> {
        let count = buf.len().min(2).min(self.room);
        if count == 0 && self.fails {
            return Err(io::Error::from(ErrorKind::StorageFull));
        }
        self.taken.extend_from_slice(&buf[..count])?;
        self.room -= count;
        Ok(count)
    }

    fn flush(&mut self) -> io::Result<()> {
        if self.flushes {
            Ok(())
        } else {
            Err(io::Error::from(ErrorKind::StorageFull))
        }
    }
}

/// The room, whether a write past it fails, whether flushes work, and what is taken of `abcde`.
const SHORT: [(usize, bool, bool, Put, &[u8]); 5] = [
    (10, true, true, Put::Done, b"abcde"),
    (5, false, true, Put::Done, b"abcde"),
    (3, true, true, Put::Failed, b"abc"),
    (3, false, true, Put::Failed, b"abc"),
    (10, false, false, Put::Failed, b"abcde"),
];

#[test]
fn puts_by_short_writes(rt: HostRuntime) -> Result<(), Fail> {
    for (room, fails, flushes, want, taken) in SHORT {
        let mut stream = Narrow {
            taken: Vec::new(rt.alloc()),
            room,
            fails,
            flushes,
        };
        let got = StdSink::new(&mut stream).put(b"abcde");
        assert!(rt; got == want && stream.taken.as_slice() == taken);
    }
    Ok(())
}
