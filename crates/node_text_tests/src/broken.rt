//! Listings with one line that breaks a rule of tables, or has no form.
use crate::reading::{holds, is_kept, is_refused, text_of};
use node_text::ListFault;
use std::alloc::{AllocError, Global};
use std::process::Abort;
use std::test::Fail;

const WHOLE: [&str; 28] = [
    "zplnode 1",
    "grid 2",
    "scalars 1",
    "slots 1 2",
    "cells 1",
    "array 0..9:1,1",
    "array -",
    "array 0..9:0,0 0..9:0,0",
    "text 68",
    "expr n1",
    "expr a0",
    "expr i2",
    "group",
    "put 0 1 - 3",
    "group",
    "acc 0 sum 0 - 3",
    "exchange",
    "item 0 0 1",
    "code",
    "fix 0 1..4:1:1",
    "loop 0 0",
    "start 0",
    "finish 0",
    "set 0 0 4",
    "room 1 0",
    "unless 0 9 5",
    "number 0",
    "end",
];

/// A line by its number, and what stands in its place: it breaks a rule of tables.
const HEADS: [(u32, &str); 18] = [
    (2, "grid 0"),
    (2, "grid -1"),
    (2, "grid 65"),
    (2, "grid 9 9"),
    (2, "grid 1 0 1"),
    (3, "scalars -4294967296"),
    (3, "scalars -1"),
    (3, "scalars 4294967296"),
    (4, "slots 0 2"),
    (4, "slots 1 4"),
    (4, "slots -1 2"),
    (5, "cells 4294967296"),
    (6, "array 0..9:-1,1"),
    (6, "array 0..9:1,2147483649"),
    (6, "array 0..4194304:0,0"),
    (6, "array -2147483649..-2147483648:0,0"),
    (7, "array - - - -"),
    (8, "array 0..9:0,0 0..9:0,0 * *"),
];

const EXPRS: [(u32, &str); 16] = [
    (10, "expr +"),
    (10, "expr n1 n2"),
    (10, "expr n1 +"),
    (10, "expr neg n1"),
    (10, "expr s1"),
    (10, "expr c1"),
    (10, "expr s4294967296"),
    (10, "expr s-1"),
    (11, "expr a3"),
    (11, "expr a0 a2 +"),
    (11, "expr a0 i2 +"),
    (11, "expr a0@1,1"),
    (11, "expr a2@1"),
    (11, "expr a0@2147483649"),
    (12, "expr a0@-2147483649"),
    (12, "expr i2 a1 +"),
];

const ROWS: [(u32, &str); 18] = [
    (14, "put 3 1 - 3"),
    (14, "put 0 3 - 3"),
    (14, "put 0 2 - 3"),
    (14, "put 2 1 - 3"),
    (14, "put 0 1 3 3"),
    (14, "put 0 1 2 3"),
    (14, "put 0 1 - -1"),
    (14, "put 0 1 - 4294967296"),
    (14, "cell 1 1 - 3"),
    (16, "acc 1 sum 0 - 3"),
    (18, "item 3 0 1"),
    (18, "item 1 0 1"),
    (18, "item 2 0 1"),
    (18, "item 0 2 1"),
    (18, "item 0 1 1"),
    (18, "item 0 0 1,1"),
    (18, "item 0 0 2147483649"),
    (18, "item -1 0 1"),
];

const STEPS: [(u32, &str); 36] = [
    (20, "fix 2 1..4:1:1"),
    (20, "fix 1 1..4:1:1"),
    (20, "fix 0 1..4:0:1"),
    (20, "fix 0 0..4194304:1:0"),
    (20, "fix 0 1..4:2147483649:1"),
    (21, "loop 0 2"),
    (21, "loop 1 0"),
    (22, "start 1"),
    (23, "finish 1"),
    (24, "set 1 0 4"),
    (24, "set 0 1 4"),
    (24, "set 0 3 4"),
    (25, "room 0 0"),
    (25, "room 1 1"),
    (25, "clear 1"),
    (25, "clear 3"),
    (26, "unless 0 10 5"),
    (26, "unless 2 9 5"),
    (20, "dims 0 0..1 3"),
    (20, "dims 0 ^1 3"),
    (20, "dims 0 0..0 0..0 3"),
    (25, "need 0 1 1 5"),
    (25, "need 0 0 1,1 5"),
    (26, "of 0 1 1 5"),
    (26, "same 0 2 part 5"),
    (26, "fits 0 1,1 5"),
    (26, "jump 10"),
    (27, "number 1"),
    (27, "truth 2"),
    (27, "print 1"),
    (27, "vote 2"),
    (27, "fold 1 sum"),
    (27, "scan 1 0 sum 2 0 -"),
    (27, "gather number 3 0"),
    (27, "remap 1 0 0 1"),
    (27, "trap 1 4294967296"),
];

/// What stands in the place of a line: it has none of the forms in its place.
const FORMS: [(u32, &str); 16] = [
    (1, "zplnode 2"),
    (2, "grid 02"),
    (2, "grid +2"),
    (2, "grid -0"),
    (2, "grid  2"),
    (2, "grid 2 "),
    (2, "grid\t2"),
    (2, "grid 2\r"),
    (2, "grid 9223372036854775808"),
    (7, "array -*,-"),
    (7, "array * -"),
    (9, "text 6A"),
    (9, "text \u{e9}"),
    (14, "put 0 1 3"),
    (19, "code 1"),
    (28, "stop"),
];

/// The whole listing with this line in the place of the one of that number.
fn with_line(alloc: Global, number: u32, line: &str) -> Result<Vec<u8>, AllocError> {
    let mut text = Vec::new(alloc);
    let mut at: u32 = 0;
    for own in WHOLE {
        at = at.wrapping_add(1);
        let row = if at == number { line } else { own };
        text.extend_from_slice(row.as_bytes())?;
        text.push(b'\n')?;
    }
    Ok(text)
}

/// Each of these lines breaks a rule.
fn expect_broken(rt: &impl Abort, alloc: Global, rows: &[(u32, &str)]) -> Result<(), AllocError> {
    for (number, row) in rows {
        let text = with_line(alloc, *number, row)?;
        let fault = ListFault::BadTable { line: *number };
        holds(rt, is_refused(alloc, &text, fault), row);
    }
    Ok(())
}

#[test]
fn broken_lines(rt: HostRuntime) -> Result<(), Fail> {
    expect_broken(&rt, rt.alloc(), &HEADS)?;
    expect_broken(&rt, rt.alloc(), &EXPRS)?;
    expect_broken(&rt, rt.alloc(), &ROWS)?;
    expect_broken(&rt, rt.alloc(), &STEPS)?;
    Ok(())
}

#[test]
fn lines_without_a_form(rt: HostRuntime) -> Result<(), Fail> {
    for (line, row) in FORMS {
        let text = with_line(rt.alloc(), line, row)?;
        let is_right = is_refused(rt.alloc(), &text, ListFault::BadLine { line });
        holds(&rt, is_right, row);
    }
    Ok(())
}

/// Behind the first lines: the first of two that break a rule is named, and a line without a form
/// behind it comes first.
const SEVERAL: [(&str, ListFault); 2] = [
    (
        "set 1 0 4\nroom 1 0\nunless 0 9 5\nnumber 1\nend\n",
        ListFault::BadTable { line: 24 },
    ),
    (
        "set 1 0 4\nroom 1 0\nunless 0 9 5\nnumber 1\nstop\n",
        ListFault::BadLine { line: 28 },
    ),
];

#[test]
fn the_first_of_several(rt: HostRuntime) -> Result<(), Fail> {
    let alloc = rt.alloc();
    for (rest, fault) in SEVERAL {
        let mut text = text_of(alloc, &WHOLE[..23])?;
        text.extend_from_slice(rest.as_bytes())?;
        holds(&rt, is_refused(alloc, &text, fault), rest);
    }
    Ok(())
}

/// The whole listing, without its last newline, and no bytes at all.
#[test]
fn ends_of_texts(rt: HostRuntime) -> Result<(), Fail> {
    let alloc = rt.alloc();
    let mut text = text_of(alloc, &WHOLE)?;
    assert!(rt; is_kept(alloc, &text)?);
    let _ = text.pop();
    assert!(rt; is_refused(alloc, &text, ListFault::BadLine { line: 28 }));
    assert!(rt; is_refused(alloc, b"", ListFault::BadLine { line: 1 }));
    Ok(())
}

/// Four arrays fill the room of held boxes to the last word.
const FULL: &str = "zplnode 1\ngrid 1\nscalars 0\nslots\ncells 0\narray 0..4194303:0,0\n\
    array 0..4194303:0,0\narray 0..4194303:0,0\narray 0..4194303:0,0\narray -\ncode\n";

/// One word more is too many.
const TOO_FULL: &str = "zplnode 1\ngrid 1\nscalars 0\nslots\ncells 0\narray 0..4194303:0,0\n\
    array 0..4194303:0,0\narray 0..4194303:0,0\narray 0..4194303:0,0\narray 0..0:0,0\ncode\n";

#[test]
fn the_room_of_held_boxes(rt: HostRuntime) -> Result<(), Fail> {
    assert!(rt; is_kept(rt.alloc(), FULL.as_bytes())?);
    let fault = ListFault::BadTable { line: 10 };
    assert!(rt; is_refused(rt.alloc(), TOO_FULL.as_bytes(), fault));
    Ok(())
}
