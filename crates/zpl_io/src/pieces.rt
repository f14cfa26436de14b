//! Pieces that are put one after another.
ghost use Rattle.std.specs.Prelude.{◌≡◌, [], OnOk, OnErr, IsOk, IsErr};
ghost use Rattle.zpl_io.specs.Faults.{CountsFaults};
ghost use Rattle.zpl_io.specs.Sink.{StopsAtFault, Takes, TakesFront};

use crate::outside::{Put, Sink};

/// A put failed; a front of its piece was taken, maybe none of it or all.
#[derive(Clone, Copy, Debug, PartialEq)]
pub struct PutFailed;

/// Puts a piece, unless it is empty.
pub fn put_piece<S: Sink>(sink: &mut S, piece: &[u8]) -> Result<(), PutFailed>
    ensures ok { OnOk result (Takes (S.tells sink.old) piece.now (S.tells sink.new)) }
    ensures err { OnErr result (TakesFront (S.tells sink.old) piece.now (S.tells sink.new)) }
    ensures nothing { piece.now ≡ [] → IsOk result × (sink.new ≡ sink.old) }
    ensures counts { CountsFaults (IsErr result) (S.faults sink.old) (S.faults sink.new) }
    ensures stops { StopsAtFault (IsErr result) (S.has_failed sink.old) (S.has_failed sink.new) }
{
    if piece.is_empty() {
        return Ok(());
    }
    match sink.put(piece) {
        Put::Done => Ok(()),
        Put::Failed => Err(PutFailed),
    }
}
