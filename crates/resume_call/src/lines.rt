//! The line that is told where bytes are no saved grid.
ghost use Rattle.std.specs.Prelude.{◌≡◌, ◌≢◌, ◌++◌, IfOk, OnOk};
ghost use Rattle.std.specs.Fmt.{decimal};
ghost use Rattle.exec_call.specs.of_resume_claims.Texts.{fault_text, save_refused_text};

use exec_call::resume_claims::grid_save::SaveFault;
use itoa::Buffer;
use std::alloc::{AllocError, Global};

/// The line of a fault; none where that is want of memory.
pub(crate) fn fault_line(alloc: Global, fault: SaveFault) -> Result<Vec<u8>, AllocError>
    ensures { IfOk result (λ text. (text.items ≡ fault_text fault)
        × (fault ≢ SaveFault.NoMemory)) }
{
    match fault {
        SaveFault::BadLine { line } => refused_line(alloc, b"BadLine", line),
        SaveFault::BadTable { line } => refused_line(alloc, b"BadTable", line),
        SaveFault::BadState { line } => refused_line(alloc, b"BadState", line),
        SaveFault::NoMemory => Err(AllocError),
    }
}

/// The line of a fault of this name, at a line.
fn refused_line(alloc: Global, name: &[u8], line: u32) -> Result<Vec<u8>, AllocError>
    ensures { IfOk result (λ text. text.items ≡ save_refused_text name.now line) }
{
    let mut text = Vec::from_slice(alloc, b"save refused: ")?;
    text.extend_from_slice(name)?;
    text.extend_from_slice(b", line ")?;
    write_decimal(u128::from(line), &mut text)?;
    text.extend_from_slice(b"\n")?;
    Ok(text)
}

/// Appends the number in decimal digits, with no leading zero.
fn write_decimal(number: u128, into: &mut Vec<u8>) -> Result<(), AllocError>
    ensures { OnOk result (into.new.items ≡ into.old.items ++ decimal number) }
{
    let mut buffer = Buffer::new();
    into.extend_from_slice(buffer.format(number).as_bytes())
}
