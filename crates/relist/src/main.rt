//! `relist FILE` reads the listing of a node program and writes it again, or says why it is none.
#![tactic(auto)]

ghost use Rattle.std.specs.Prelude.{◌^◌, ◌<◌, length};

use node_text::{ListFault, read_listing, write_listing};
use std::alloc::Global;
use std::process::ExitCode;
use std::{env, io};
use zpl_io::{DiskFiles, Fetched, Files, StdSink, put_piece, write_number};

/// The most bytes of a listing.
const MOST_LISTING: u64 = 16_777_216;

/// The listing read, and written again.
fn written_again(alloc: Global, text: &[u8]) -> Result<Vec<u8>, ListFault>
    requires { length text.now < 2 ^ 32 }
{
    let program = read_listing(alloc, text)?;
    let mut again = Vec::new(alloc);
    write_listing(alloc, &program, &mut again)?;
    Ok(again)
}

/// What is told of a fault.
fn told(alloc: Global, fault: ListFault) -> Result<Vec<u8>, ListFault> {
    let (name, line) = match fault {
        ListFault::BadLine { line } => ("BadLine", line),
        ListFault::BadTable { line } => ("BadTable", line),
        ListFault::NoMemory => return Err(fault),
    };
    let mut piece = Vec::from_slice(alloc, b"listing refused: ")?;
    piece.extend_from_slice(name.as_bytes())?;
    piece.extend_from_slice(b", line ")?;
    write_number(alloc, i64::from(line), &mut piece)?;
    piece.extend_from_slice(b"\n")?;
    Ok(piece)
}

fn main(rt: HostRuntime) -> io::Result<ExitCode> {
    let alloc = rt.alloc();
    let mut out = StdSink::new(rt.stdout());
    let mut errs = StdSink::new(rt.stderr());
    let Some(name) = env::args(&rt)?.nth(1) else {
        let _ = put_piece(&mut errs, b"usage: relist FILE\n");
        return Ok(ExitCode::from(1));
    };
    let mut files = DiskFiles::new(rt);
    let mut text = Vec::new(alloc);
    let fetched = files.fetch(alloc, &name, MOST_LISTING, &mut text);
    if fetched != Fetched::Whole || text.len() as u64 > MOST_LISTING {
        let _ = put_piece(&mut errs, b"cannot read the file\n");
        return Ok(ExitCode::from(2));
    }
    let status = match written_again(alloc, &text) {
        Ok(again) => {
            let _ = put_piece(&mut out, &again);
            0
        }
        Err(fault) => {
            if let Ok(piece) = told(alloc, fault) {
                let _ = put_piece(&mut errs, &piece);
            }
            11
        }
    };
    Ok(ExitCode::from(status))
}
