//! A standard stream as a sink.
ghost use Rattle.std.specs.Prelude.{◌≡◌, ◌≤◌, ◌↔◌, ⊤, false, IsTrue};
ghost use Rattle.std.specs.Io.KnownBytes.{Appends};
ghost use Rattle.zpl_io.specs.Faults.{last_count, CountsFaults};
ghost use Rattle.zpl_io.specs.StdSink.{WritesFront};

use crate::outside::{Put, Sink};
use std::io::Write;
use std::marker::Model;

/// Writes a piece, by as many writes as it takes, and flushes. An error ends it, and so does a
/// write that takes nothing.
fn write_piece<W: Write>(stream: &mut W, piece: &[u8]) -> Put
    ensures done { result ≡ Put.Done →
        Appends (W.contents stream.old) (W.contents stream.new) piece.now }
    ensures failed { result ≡ Put.Failed →
        WritesFront (W.contents stream.old) (W.contents stream.new) piece.now }
{
    let mut rest = piece;
    while !rest.is_empty() {
        match stream.write(rest) {
            Ok(count) if count > 0 => rest = &rest[count..],
            _ => return Put::Failed,
        }
    }
    match stream.flush() {
        Ok(()) => Put::Done,
        Err(_) => Put::Failed,
    }
}

/// A stream, as standard output or standard error. Of what it took nothing is told, but a writer
/// whose bytes are known gains each piece, or a front of it where a put fails.
#[derive(Drop)]
pub struct StdSink<W> {
    stream: W,
    faults: u64,
    has_failed: bool,
}

impl<W> Model for StdSink<W> {
    ghost use Rattle.zpl_io.specs.StdSink.{Stream};

    ghost Value = { Stream W };

    ghost view = { λ a. record {
      writer = a.stream;
      faults = a.faults;
      has_failed = a.has_failed;
    } };
}

impl<W: Write> StdSink<W> {
    /// A sink that writes to the stream.
    pub fn new(stream: W) -> StdSink<W>
        ensures { result ≡ record { writer = stream; faults = 0; has_failed = false } }
    {
        StdSink {
            stream,
            faults: 0,
            has_failed: false,
        }
    }
}

impl<W: Write> Sink for StdSink<W> {
    ghost tells = { λ _ _. ⊤ };

    ghost faults = { λ sink. sink.faults };

    ghost has_failed = { λ sink. IsTrue sink.has_failed };

    fn put(&mut self, bytes: &[u8]) -> Put
        ensures done { result ≡ Put.Done →
            Appends (W.contents self.old.writer) (W.contents self.new.writer) bytes.now }
        ensures failed { result ≡ Put.Failed →
            WritesFront (W.contents self.old.writer) (W.contents self.new.writer) bytes.now }
        ensures counts { CountsFaults (result ≡ Put.Failed) self.old.faults self.new.faults }
        ensures bounded { self.new.faults ≤ last_count }
        ensures last { IsTrue self.new.has_failed ↔ (result ≡ Put.Failed) }
    {
        let faults = self.faults;
        let put = write_piece(&mut self.stream, bytes);
        self.has_failed = put == Put::Failed;
        if self.has_failed {
            self.faults = faults.saturating_add(1);
        }
        put
    }
}
