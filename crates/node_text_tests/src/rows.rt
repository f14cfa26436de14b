//! Each kind of row: listings, and the tables that are read of them.
use crate::listings::HI;
use crate::reading::{holds, is_kept};
use listing_lines::read_lines;
use node_text::read_listing;
use std::alloc::Global;
use std::fmt::Write;
use std::process::Abort;
use std::test::Fail;

/// The tables of `HI`.
const HI_SHOWN: &str =
    "NodeProgram { tables: Tables { grid: [2, 0, 0], scalars: 1, cells: 0, slots: Rows { rows: \
    [] }, arrays: Rows { rows: [] }, texts: Rows { rows: [Row { items: [104, 105] }] }, exprs: \
    Rows { rows: [Row { items: [Const(20)] }, Row { items: [Scalar(0), Const(1), Pair(Add)] }] \
    }, groups: Rows { rows: [] }, exchanges: Rows { rows: [] }, code: Rows { rows: [Set { \
    scalar: 0, expr: 0, line: 1 }, Print { text: 0 }, Number { expr: 1 }, End] } } }";

/// The same with an array.
const GREETS: &str = "zplnode 1\ngrid 2\nscalars 1\nslots\ncells 0\narray 1..4:1,1\ntext 6869\n\
    expr n20\nexpr s0 n1 +\ncode\nset 0 0 1\nprint 0\nnumber 1\nend\n";

const GREETS_SHOWN: &str =
    "NodeProgram { tables: Tables { grid: [2, 0, 0], scalars: 1, cells: 0, slots: Rows { rows: \
    [] }, arrays: Rows { rows: [ArrayRow { rank: 1, stored: true, dims: [Range { lo: 1, hi: 4, \
    low: 1, high: 1 }, Range { lo: 0, hi: 0, low: 0, high: 0 }, Range { lo: 0, hi: 0, low: 0, \
    high: 0 }] }] }, texts: Rows { rows: [Row { items: [104, 105] }] }, exprs: Rows { rows: [Row \
    { items: [Const(20)] }, Row { items: [Scalar(0), Const(1), Pair(Add)] }] }, groups: Rows { \
    rows: [] }, exchanges: Rows { rows: [] }, code: Rows { rows: [Set { scalar: 0, expr: 0, \
    line: 1 }, Print { text: 0 }, Number { expr: 1 }, End] } } }";

const WAITS: &str =
    "zplnode 1\ngrid 2\nscalars 1\nslots 1\ncells 0\nexpr n1\nexpr s0\ngroup\nacc 0 sum 0 - 1\n\
    code\nfix 0 1..1:1:1\nloop 0 0\nunless 1 4 1\nfold 0 sum\nend\n";

const WAITS_SHOWN: &str =
    "NodeProgram { tables: Tables { grid: [2, 0, 0], scalars: 1, cells: 0, slots: Rows { rows: \
    [1] }, arrays: Rows { rows: [] }, texts: Rows { rows: [] }, exprs: Rows { rows: [Row { \
    items: [Const(1)] }, Row { items: [Scalar(0)] }] }, groups: Rows { rows: [Row { items: [Acc \
    { scalar: 0, fold: Sum, expr: 0, mask: None, line: 1 }] }] }, exchanges: Rows { rows: [] }, \
    code: Rows { rows: [Fix { slot: 0, region: Region { rank: 1, dims: [Range { lo: 1, hi: 1, \
    step: 1, align: 1 }, Range { lo: 0, hi: 0, step: 1, align: 0 }, Range { lo: 0, hi: 0, step: \
    1, align: 0 }] } }, Loop { slot: 0, group: 0 }, Unless { expr: 1, goal: 4, line: 1 }, Fold \
    { scalar: 0, fold: Sum }, End] } } }";

/// A listing with each kind of row.
const ROWS: &str =
    "zplnode 1\ngrid 2 1\nscalars 1\nslots 2\ncells 1\narray 0..9:1,2 *\narray - -*\ntext -\n\
    text 00ff\nexpr n-9223372036854775808 neg not abs\n\
    expr s0 n1 - n2 * n3 / n4 % n5 = n6 != n7 < n8 <= n9 > n10 >= n11 & n12 | n13 max n14 min\n\
    expr a0 a0@-1,0 + c0 + i2 +\ngroup\ngroup\nif 0 - 1\nelse\nput 0 2 0 2\nfi\nwhile 0 - 3\n\
    od\nrepeat - 4\ncell 0 0 - 5\nuntil 0\nexchange\nexchange\nitem 0 0 2147483648,0\ncode\n\
    dims 0 0..0 ^0 6\ndims 0 * * 6\nfix 0 0..9:2:-1 *\nof 0 0 1,0 7\nin 0 0 1,0 7\n\
    at 0 0 1,0 7\nby 0 0 2,1 7\nneed 0 0 0,0 8\nsame 0 0 part 8\nsame 0 0 flood 8\n\
    fits 0 0,1 8\nroom 1 0\nclear 0\nstart 0\nfinish 1\nwrap 0 0 1,0\nreflect 0 0 1,0\n\
    flood 1 0 0 0\npart 1 0 prod 0 0\nscan 1 0 min 2 0 -\nscan 1 0 all 0 0 1\nvote 1\n\
    treevote 0\ntreefold 0 any\ntruth 0\ngather number 1 0\ngather truth 1 0\njump 31\n\
    trap 1 9\ntrap 4 4294967295\nend\n";

/// Its tables.
const ROWS_SHOWN: &str =
    "NodeProgram { tables: Tables { grid: [2, 1, 0], scalars: 1, cells: 1, slots: Rows { rows: \
    [2] }, arrays: Rows { rows: [ArrayRow { rank: 2, stored: true, dims: [Range { lo: 0, hi: 9, \
    low: 1, high: 2 }, Star, Range { lo: 0, hi: 0, low: 0, high: 0 }] }, ArrayRow { rank: 2, \
    stored: false, dims: [Range { lo: 0, hi: 0, low: 0, high: 0 }, Star, Range { lo: 0, hi: 0, \
    low: 0, high: 0 }] }] }, texts: Rows { rows: [Row { items: [] }, Row { items: [0, 255] }] \
    }, exprs: Rows { rows: [Row { items: [Const(-9223372036854775808), Neg, Not, Abs] }, Row { \
    items: [Scalar(0), Const(1), Pair(Sub), Const(2), Pair(Mul), Const(3), Pair(Div), Const(4), \
    Pair(Rem), Const(5), Pair(Eq), Const(6), Pair(Ne), Const(7), Pair(Lt), Const(8), Pair(Le), \
    Const(9), Pair(Gt), Const(10), Pair(Ge), Const(11), Pair(And), Const(12), Pair(Or), \
    Const(13), Pair(Max), Const(14), Pair(Min)] }, Row { items: [Here(0), Shifted(0, [-1, 0, \
    0]), Pair(Add), Cell(0), Pair(Add), Coord(2), Pair(Add)] }] }, groups: Rows { rows: [Row { \
    items: [] }, Row { items: [OpenIf { expr: 0, mask: None, line: 1 }, Otherwise, Put { array: \
    0, expr: 2, mask: Some(0), line: 2 }, CloseIf, OpenWhile { expr: 0, mask: None, line: 3 }, \
    CloseWhile, OpenRepeat { mask: None, line: 4 }, Cell { cell: 0, expr: 0, mask: None, line: \
    5 }, Until { expr: 0 }] }] }, exchanges: Rows { rows: [Row { items: [] }, Row { items: \
    [Item { array: 0, slot: 0, shift: [2147483648, 0, 0] }] }] }, code: Rows { rows: [Dims { \
    slot: 0, parts: [Span(0, 0), Copied(0), Star], line: 6 }, Dims { slot: 0, parts: [Star, \
    Star, Star], line: 6 }, Fix { slot: 0, region: Region { rank: 2, dims: [Range { lo: 0, hi: \
    9, step: 2, align: -1 }, Flood, Range { lo: 0, hi: 0, step: 1, align: 0 }] } }, Formed { \
    form: Of, slot: 0, from: 0, shift: [1, 0, 0], line: 7 }, Formed { form: Inside, slot: 0, \
    from: 0, shift: [1, 0, 0], line: 7 }, Formed { form: At, slot: 0, from: 0, shift: [1, 0, \
    0], line: 7 }, Formed { form: By, slot: 0, from: 0, shift: [2, 1, 0], line: 7 }, Need { \
    slot: 0, array: 0, shift: [0, 0, 0], line: 8 }, Same { target: 0, source: 0, kind: Part, \
    line: 8 }, Same { target: 0, source: 0, kind: Flood, line: 8 }, Fits { slot: 0, shift: [0, \
    1, 0], line: 8 }, Room { array: 1, slot: 0 }, Clear { array: 0 }, Start { exchange: 0 }, \
    Finish { exchange: 1 }, Edge { kind: Wrap, array: 0, slot: 0, shift: [1, 0, 0] }, Edge { \
    kind: Reflect, array: 0, slot: 0, shift: [1, 0, 0] }, Flood { array: 1, target: 0, from: 0, \
    source: 0 }, Part { array: 1, target: 0, fold: Prod, from: 0, source: 0 }, Scan { array: 1, \
    slot: 0, fold: Min, along: 2, from: 0, mask: None }, Scan { array: 1, slot: 0, fold: All, \
    along: 0, from: 0, mask: Some(1) }, Vote { group: 1 }, TreeVote { group: 0 }, TreeFold { \
    scalar: 0, fold: Any }, Truth { expr: 0 }, Gather { truth: false, array: 1, slot: 0 }, \
    Gather { truth: true, array: 1, slot: 0 }, Jump { goal: 31 }, Trap { kind: DivideByZero, \
    line: 9 }, Trap { kind: RegionMismatch, line: 4294967295 }, End] } } }";

/// Compares the tables that are read of a listing, and counts its lines.
fn expect(rt: &impl Abort, alloc: Global, listing: &str, shown: &str) -> Result<(), Fail> {
    let text = listing.as_bytes();
    assert!(rt; text.len() < 10_000);
    let program = read_listing(alloc, text)?;
    let mut found = String::new(alloc);
    write!(found, "{program:?}")?;
    assert!(rt; found.as_str() == shown);
    let lines = read_lines(alloc, text)?;
    assert!(rt; lines.len() == text.iter().filter(|byte| **byte == b'\n').count());
    Ok(())
}

#[test]
fn each_kind_of_row(rt: HostRuntime) -> Result<(), Fail> {
    for (listing, shown) in [
        (HI, HI_SHOWN),
        (GREETS, GREETS_SHOWN),
        (WAITS, WAITS_SHOWN),
        (ROWS, ROWS_SHOWN),
    ] {
        expect(&rt, rt.alloc(), listing, shown)?;
        holds(&rt, is_kept(rt.alloc(), listing.as_bytes())?, listing);
    }
    Ok(())
}
