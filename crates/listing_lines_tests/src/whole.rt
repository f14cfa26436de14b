//! Whole listings, and what is left of one where it is cut.
use crate::reading::{expect, text_of};
use std::test::Fail;

const WAITS: [&[u8]; 15] = [
    b"zplnode 1",
    b"grid 2",
    b"scalars 1",
    b"slots 1",
    b"cells 0",
    b"expr n1",
    b"expr s0",
    b"group",
    b"acc 0 sum 0 - 1",
    b"code",
    b"fix 0 1..1:1:1",
    b"loop 0 0",
    b"unless 1 4 1",
    b"fold 0 sum",
    b"end",
];

const EVERY: [&[u8]; 53] = [
    b"zplnode 1",
    b"grid 2 1 1",
    b"scalars 3",
    b"slots 1 2 3",
    b"cells 1",
    b"array -3..4:0,1 *",
    b"array -* - -*",
    b"text -",
    b"text 00ff7a",
    b"expr n-9223372036854775808 n9223372036854775807 -",
    b"expr s0 a0 + a0@-1,0 * c0 / i1 % i2 = i3 != n1 < n1 <= n1 > n1 >= n1 & n1 | n1 max n1 min",
    b"expr n1 neg not abs",
    b"group",
    b"group",
    b"if 0 - 1",
    b"else",
    b"put 0 0 2 4294967295",
    b"fi",
    b"while 0 1 2",
    b"repeat - 3",
    b"cell 0 0 - 4",
    b"acc 0 prod 0 1 5",
    b"acc 0 all 0 1 5",
    b"acc 0 any 0 1 5",
    b"until 0",
    b"od",
    b"exchange",
    b"exchange",
    b"item 0 0 1,0",
    b"item 0 0 -1",
    b"code",
    b"of 0 1 1,-1 7",
    b"in 0 1 1 7",
    b"at 0 1 1 7",
    b"by 0 1 2 7",
    b"dims 0 0..1 * ^2 8",
    b"room 1 0",
    b"clear 0",
    b"same 0 1 part 9",
    b"start 0",
    b"finish 0",
    b"part 0 1 max 2 3",
    b"scan 0 1 min 2 3 -",
    b"scan 0 1 any 0 3 4",
    b"vote 0",
    b"treevote 0",
    b"treefold 0 sum",
    b"truth 0",
    b"gather truth 0 1",
    b"gather number 0 1",
    b"trap 4 0",
    b"remap 1 0 0 1",
    b"remap 1 0 0 1 2 3 4",
];

const HI: [&[u8]; 13] = [
    b"zplnode 1",
    b"grid 2",
    b"scalars 1",
    b"slots",
    b"cells 0",
    b"text 6869",
    b"expr n20",
    b"expr s0 n1 +",
    b"code",
    b"set 0 0 1",
    b"print 0",
    b"number 1",
    b"end",
];

#[test]
fn listings_are_read_and_written_back(rt: HostRuntime) -> Result<(), Fail> {
    let alloc = rt.alloc();
    let listings: [&[&[u8]]; 3] = [&HI, &WAITS, &EVERY];
    for rows in listings {
        expect(&rt, alloc, &text_of(alloc, rows)?, 0)?;
    }
    Ok(())
}

/// Behind each byte: the bytes are a listing from the line `code` on, at the end of a line; else
/// the line that isn't there, or has no end, is named.
#[test]
fn cuts_behind_each_byte(rt: HostRuntime) -> Result<(), Fail> {
    let alloc = rt.alloc();
    let text = text_of(alloc, &HI)?;
    let mut line: u32 = 1;
    for len in 0..text.len() {
        let front = &text[..len];
        if front.ends_with(b"\n") {
            line = line.wrapping_add(1);
        }
        let whole = line >= 10 && front.ends_with(b"\n");
        expect(&rt, alloc, front, if whole { 0 } else { line })?;
    }
    Ok(())
}

#[test]
fn members_nest_deep(rt: HostRuntime) -> Result<(), Fail> {
    let alloc = rt.alloc();
    let mut text = text_of(alloc, &HI[..8])?;
    text.extend_from_slice(b"group\n")?;
    for _ in 0..100_000_u32 {
        text.extend_from_slice(b"if 0 - 1\n")?;
    }
    expect(&rt, alloc, &text, 100_010)?;
    for _ in 0..100_000_u32 {
        text.extend_from_slice(b"fi\n")?;
    }
    expect(&rt, alloc, &text, 200_010)?;
    text.extend_from_slice(b"code\n")?;
    expect(&rt, alloc, &text, 0)?;
    Ok(())
}
