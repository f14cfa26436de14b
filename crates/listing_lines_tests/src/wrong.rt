//! Listings with one wrong line.
use crate::reading::{expect, text_of};
use std::alloc::Global;
use std::process::Abort;
use std::test::Fail;

const SUM: [&[u8]; 13] = [
    b"zplnode 1",
    b"grid 2",
    b"scalars 1",
    b"slots",
    b"cells 0",
    b"text 6869",
    b"expr n20",
    b"expr s0 n1 +",
    b"code",
    b"set 0 0 1",
    b"print 0",
    b"number 1",
    b"end",
];

/// A line by its number, and what stands in its place: the fault is in this line.
const HEADS: [(usize, &[u8]); 37] = [
    (1, b"zplnode 2"),
    (1, b"zplnode"),
    (1, b"zplnode 1 1"),
    (1, b"Zplnode 1"),
    (1, b""),
    (2, b"grid"),
    (2, b"grid 1 1 1 1"),
    (2, b"grid  2"),
    (2, b"grid 2 "),
    (2, b" grid 2"),
    (2, b"grid\t2"),
    (2, b"grid 02"),
    (2, b"grid +2"),
    (2, b"grid -0"),
    (2, b"grid 2\r"),
    (2, b"grid 2,1"),
    (2, b"grid 9223372036854775808"),
    (2, b"grid -9223372036854775809"),
    (2, b"grid 0x1"),
    (2, b"grid 1e1"),
    (2, b"grid n1"),
    (3, b"scalars"),
    (3, b"scalars 1 1"),
    (3, b"scalars -"),
    (3, b"slots"),
    (4, b"slots *"),
    (4, b"slots "),
    (4, b"slots 1,1"),
    (5, b"cells"),
    (5, b"cells one"),
    (6, b"text"),
    (6, b"text 6"),
    (6, b"text 6A"),
    (6, b"text 6g"),
    (6, b"text --"),
    (6, b"text 61 62"),
    (6, b"text \xff\xfe"),
];

const BODIES: [(usize, &[u8]); 44] = [
    (7, b"expr"),
    (7, b"expr n"),
    (7, b"expr n01"),
    (7, b"expr n-0"),
    (7, b"expr n1 "),
    (7, b"expr 1"),
    (7, b"expr i0"),
    (7, b"expr i4"),
    (7, b"expr i-1"),
    (7, b"expr a1@"),
    (7, b"expr a1@1,"),
    (7, b"expr a@1"),
    (7, b"expr ++"),
    (7, b"expr sum"),
    (7, b"expr -*"),
    (7, b"expr s1,2"),
    (7, b"expr neg1"),
    (7, b"expr \x80"),
    (9, b"group x"),
    (9, b"exchange 1"),
    (9, b"end"),
    (9, b"code "),
    (9, b"array *"),
    (9, b"text -"),
    (9, b"Code"),
    (9, b"item 0 0 1"),
    (9, b"put 0 0 - 1"),
    (10, b"set 0 0"),
    (10, b"set 0 0 1 1"),
    (10, b"set 0 0 -"),
    (10, b"fix 0"),
    (10, b"fix 0 1..2"),
    (10, b"fix 0 1..2:1,1"),
    (10, b"fix 0 1...2:1:1"),
    (10, b"fix 0 1.2:1:1"),
    (10, b"fix 0 1..2:1:1:1"),
    (10, b"fix 0 -"),
    (10, b"dims 0 1"),
    (10, b"dims 0 1..2"),
    (10, b"dims 0 ^ 1"),
    (10, b"dims 0 * 1 1"),
    (10, b"of 0 1 7"),
    (10, b"of 0 1 1..2 7"),
    (10, b"need 0 1 - 7"),
];

const STEPS: [(usize, &[u8]); 22] = [
    (10, b"same 0 1 scan 7"),
    (10, b"same 0 1 2 7"),
    (10, b"part 0 1 neg 2 3"),
    (10, b"scan 0 1 max 2 3"),
    (10, b"scan 0 1 max 2 3 *"),
    (10, b"fold 0"),
    (10, b"fold 0 +"),
    (10, b"gather 0 0"),
    (10, b"gather truth 0 0 0"),
    (10, b"trap 0 1"),
    (10, b"trap 5 1"),
    (10, b"trap -1 1"),
    (10, b"jump"),
    (10, b"unless 0 1"),
    (10, b"end 1"),
    (10, b"remap 1 0 0"),
    (10, b"remap 1 0 0 -"),
    (10, b"cells 0"),
    (10, b"code"),
    (10, b"wrap 0 0"),
    (10, b"frob 1"),
    (10, b""),
];

/// Lines behind a line `group`, which is the ninth, and the one that is named.
const MEMBERS: [(&[u8], u32); 14] = [
    (b"else", 10),
    (b"fi", 10),
    (b"od", 10),
    (b"until 0", 10),
    (b"if 0 1", 10),
    (b"put 0 0 - ", 10),
    (b"put 0 0 * 1", 10),
    (b"put 0 0 -1", 10),
    (b"acc 0 + 0 - 1", 10),
    (b"while 0 0 - 1", 10),
    (b"repeat 0 - 1", 10),
    (b"cell 0 0 -", 10),
    (b"item 0 0 1", 10),
    (b"set 0 0 1", 10),
];

const NESTS: [(&[u8], u32); 14] = [
    (b"if 0 - 1\nelse\nelse", 12),
    (b"if 0 - 1\nod", 11),
    (b"while 0 - 1\nfi", 11),
    (b"while 0 - 1\nelse", 11),
    (b"repeat - 1\nod", 11),
    (b"repeat - 1\nwhile 0 - 1\nuntil 0", 12),
    (b"if 0 - 1\ngroup", 11),
    (b"if 0 - 1\ncode", 11),
    (b"if 0 - 1\nexchange", 11),
    (b"if 0 - 1\nelse\nfi\nfi", 13),
    (b"exchange\ngroup", 11),
    (b"exchange\nput 0 0 - 1", 11),
    (b"exchange\nitem 0 0", 11),
    (b"exchange\nitem 0 0 1 1", 11),
];

fn expect_wrong(rt: &impl Abort, alloc: Global, rows: &[(usize, &[u8])]) -> Result<(), Fail> {
    for (number, row) in rows {
        let mut lines = SUM;
        assert!(rt; 1 <= *number && *number <= lines.len());
        lines[*number - 1] = row;
        expect(rt, alloc, &text_of(alloc, &lines)?, *number as u32)?;
    }
    Ok(())
}

fn expect_nests(rt: &impl Abort, alloc: Global, rows: &[(&[u8], u32)]) -> Result<(), Fail> {
    for (row, line) in rows {
        let mut text = text_of(alloc, &SUM[..8])?;
        text.extend_from_slice(b"group\n")?;
        text.extend_from_slice(row)?;
        text.extend_from_slice(b"\ncode\n")?;
        expect(rt, alloc, &text, *line)?;
    }
    Ok(())
}

#[test]
fn wrong_heads(rt: HostRuntime) -> Result<(), Fail> {
    expect_wrong(&rt, rt.alloc(), &HEADS)
}

#[test]
fn wrong_bodies(rt: HostRuntime) -> Result<(), Fail> {
    expect_wrong(&rt, rt.alloc(), &BODIES)
}

#[test]
fn wrong_steps(rt: HostRuntime) -> Result<(), Fail> {
    expect_wrong(&rt, rt.alloc(), &STEPS)
}

#[test]
fn wrong_members(rt: HostRuntime) -> Result<(), Fail> {
    expect_nests(&rt, rt.alloc(), &MEMBERS)?;
    expect_nests(&rt, rt.alloc(), &NESTS)
}
