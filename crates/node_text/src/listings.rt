//! Reading listings.
ghost use Rattle.std.specs.Prelude.{◌≡◌, ◌+◌, ◌^◌, ◌<◌, IfErr, IfOk, length};
ghost use Rattle.listing_rules.specs.of_listing_lines.Listing.{AreLines};
ghost use Rattle.node_text.specs.Listing.{Explains, IsListing};

use listing_rules::listing_lines::{Line, LinesFault, read_lines};
use listing_rules::{ListFault, read_tables};
use node_form::NodeProgram;
use std::alloc::Global;

/// The program whose listing these bytes are. It takes a time linear in the bytes, aside from the
/// words of held boxes, which are counted for each array on each processor.
pub fn read_listing(alloc: Global, bytes: &[u8]) -> Result<NodeProgram, ListFault>
    requires { length bytes.now < 2 ^ 32 }
    ensures ok { IfOk result (IsListing bytes.now) }
    ensures err { IfErr result (Explains bytes.now) }
{
    let lines = lines_in(alloc, bytes)?;
    let tables = read_tables(alloc, &lines)?;
    Ok(NodeProgram::of(tables))
}

/// The lines of the listing, if all have a form in their place.
fn lines_in(alloc: Global, bytes: &[u8]) -> Result<Vec<Line>, ListFault>
    requires { length bytes.now < 2 ^ 32 }
    ensures ok { IfOk result (λ lines. AreLines bytes.now lines.items) }
    ensures few { IfOk result (λ lines. length lines.items + 1 < 2 ^ 32) }
    ensures err { IfErr result (Explains bytes.now) }
{
    match read_lines(alloc, bytes) {
        Ok(lines) => Ok(lines),
        Err(LinesFault::BadLine { line }) => Err(ListFault::BadLine { line }),
        Err(LinesFault::NoMemory) => Err(ListFault::NoMemory),
    }
}
