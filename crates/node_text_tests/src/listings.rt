//! Listings that were written by hand, read and written back.
use crate::reading::{holds, is_kept, is_refused, text_of};
use node_text::ListFault;
use std::test::Fail;

/// A text and a sum.
pub const HI: &str =
    "zplnode 1\ngrid 2\nscalars 1\nslots\ncells 0\ntext 6869\nexpr n20\nexpr s0 n1 +\ncode\n\
    set 0 0 1\nprint 0\nnumber 1\nend\n";

/// A loop and a fold.
const WAITS: [&str; 15] = [
    "zplnode 1",
    "grid 2",
    "scalars 1",
    "slots 1",
    "cells 0",
    "expr n1",
    "expr s0",
    "group",
    "acc 0 sum 0 - 1",
    "code",
    "fix 0 1..1:1:1",
    "loop 0 0",
    "unless 1 4 1",
    "fold 0 sum",
    "end",
];

/// Sweeps over a plate.
const JACOBI: &str =
    "zplnode 1\ngrid 2 2\nscalars 2\nslots 2 2 2 2 2\ncells 0\narray 0..9:1,1 0..9:1,1\n\
    array 0..9:0,0 0..9:0,0\ntext 7475726e7320\ntext 2c206368616e676520\ntext 0a\nexpr n0\n\
    expr n1000\nexpr a0@-1,0 a0@1,0 + a0@0,-1 + a0@0,1 + n4 /\nexpr n-9223372036854775808\n\
    expr a0 a1 - a1 a0 - max\nexpr a1\nexpr s1 n1 +\nexpr s0 n100 <\nexpr s1\nexpr s0\ngroup\n\
    put 0 0 - 11\ngroup\nput 0 1 - 14\ngroup\nput 1 2 - 16\nacc 0 max 4 - 17\ngroup\n\
    put 0 5 - 18\nexchange\nitem 0 0 -1,0\nitem 0 0 1,0\nitem 0 0 0,-1\nitem 0 0 0,1\ncode\n\
    fix 0 1..8:1:1 1..8:1:1\nfix 1 0..0:1:0 1..8:1:1\nloop 1 0\nfix 2 1..8:1:1 0..0:1:0\n\
    loop 2 0\nfix 3 1..8:1:1 9..9:1:9\nloop 3 0\nfix 4 9..9:1:9 1..8:1:1\nloop 4 1\nstart 0\n\
    finish 0\nset 0 3 17\nloop 0 2\nfold 0 max\nloop 0 3\nset 1 6 19\nunless 7 9 20\nprint 0\n\
    number 8\nprint 1\nnumber 9\nprint 2\ngather number 0 0\nend\n";

/// A product of two matrices by floods.
const FLOOD: &str =
    "zplnode 1\ngrid 2 3\nscalars 1\nslots 2 2 2 2 2 2 2\ncells 0\narray 1..2:0,0 1..3:0,0\n\
    array 1..3:0,0 1..2:0,0\narray 1..2:0,0 1..2:0,0\narray 1..2:0,0 *\narray * 1..2:0,0\n\
    expr n10 i1 * i2 +\nexpr i1 i2 -\nexpr a2 a3 a4 * +\nexpr n1\nexpr s0 n3 <=\nexpr s0 n1 +\n\
    expr s0\ngroup\nput 0 0 - 5\ngroup\nput 1 1 - 6\ngroup\nput 2 2 - 7\ncode\n\
    fix 0 1..2:1:1 1..3:1:1\nloop 0 0\nfix 1 1..3:1:1 1..2:1:1\nloop 1 1\n\
    fix 2 1..2:1:1 1..2:1:1\nfix 3 1..2:1:1 *\nfix 4 * 1..2:1:1\nset 0 3 7\nunless 4 20 7\n\
    dims 5 ^3 6..6 7\nsame 3 5 flood 7\nneed 5 0 0,0 7\nflood 3 3 0 5\ndims 6 6..6 ^4 7\n\
    same 4 6 flood 7\nneed 6 1 0,0 7\nflood 4 4 1 6\nloop 2 2\nset 0 5 7\njump 8\n\
    gather number 2 2\nend\n";

/// Borders that wrap and reflect, and a trap.
const BORDER: &str =
    "zplnode 1\ngrid 3\nscalars 0\nslots 1 1 1 1 1 1\ncells 0\narray -2..7:0,0\ntext 0a\n\
    expr i1\ngroup\nput 0 0 - 5\ncode\nfix 0 1..3:1:1\nloop 0 0\nof 1 0 3 6\nfits 0 3 6\n\
    in 4 0 -3 6\nwrap 0 0 3\nof 2 0 -3 7\nfits 0 -3 7\nin 5 0 -3 7\nreflect 0 0 -3\n\
    fix 3 -2..6:1:-2\ngather number 0 3\nprint 0\nfits 0 4 9\ntrap 1 99\nend\n";

/// A vote, and a member with a mask.
const MASK: &str =
    "zplnode 1\ngrid 2\nscalars 0\nslots 1\ncells 0\narray 1..4:0,0\narray 1..4:0,0\n\
    array 1..4:0,0\ntext 0a\nexpr i1 n2 -\nexpr a0 n0 !=\nexpr n6 a0 /\nexpr a2\ngroup\n\
    put 0 0 - 5\nput 2 1 - 6\nput 1 2 3 7\ncode\nfix 0 1..4:1:1\nloop 0 0\ntreevote 0\n\
    gather number 1 0\nprint 0\nend\n";

#[test]
fn whole_listings(rt: HostRuntime) -> Result<(), Fail> {
    for text in [HI, BORDER, MASK, JACOBI, FLOOD] {
        holds(&rt, is_kept(rt.alloc(), text.as_bytes())?, text);
    }
    Ok(())
}

/// Behind each line: the line behind the last, before the line `code` is there; then the goal of
/// the `unless`, until there are four instructions; else a listing.
#[test]
fn cuts_behind_each_line(rt: HostRuntime) -> Result<(), Fail> {
    let alloc = rt.alloc();
    for count in 0..WAITS.len() {
        let text = text_of(alloc, &WAITS[..count])?;
        let is_right = match count {
            0..=9 => {
                let line = count as u32 + 1;
                is_refused(alloc, &text, ListFault::BadLine { line })
            }
            13 => is_refused(alloc, &text, ListFault::BadTable { line: 13 }),
            _ => is_kept(alloc, &text)?,
        };
        assert!(rt; is_right);
    }
    Ok(())
}

/// Behind each byte: the line that has no end, or isn't there.
#[test]
fn cuts_behind_each_byte(rt: HostRuntime) -> Result<(), Fail> {
    let text = HI.as_bytes();
    let mut line: u32 = 1;
    for len in 0..text.len() {
        let front = &text[..len];
        let ends = front.ends_with(b"\n");
        if ends {
            line = line.wrapping_add(1);
        }
        let is_right = if ends && line >= 10 {
            is_kept(rt.alloc(), front)?
        } else {
            is_refused(rt.alloc(), front, ListFault::BadLine { line })
        };
        assert!(rt; is_right);
    }
    Ok(())
}
