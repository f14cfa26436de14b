//! For each rule of tables, rows at its edge that fit a program, and rows that break it.
use crate::reading::tables_of;
use node_form::{
    ArrayDim, ArrayRow, DimRow, ExchangeRow, ExprOp, ExprRow, Grid3, GroupRow, Instr, Item, Member,
    RegionForm, SameKind, Tables,
};
use std::alloc::{AllocError, Global};
use std::process::Abort;
use std::test::Fail;
use zpl_nums::{Border, Fold, Op, TrapKind};
use zpl_region::{Dim, Region};

/// Slots of rank 1, 2 and 1; arrays: a stored one, two temporaries, one of rank 2; expressions: a
/// number, a scalar, an array, a coordinate of rank 2, an array of rank 2; groups of rank 1 and 2,
/// and one for rank 2 or 3; an exchange.
const BASE: &str = "zplnode 1\ngrid 2\nscalars 1\nslots 1 2 1\ncells 1\narray 1..4:1,1\n\
    array -\narray -\narray 1..4:0,0 *\ntext 6869\nexpr n1\nexpr s0\nexpr a0\nexpr i2\nexpr a3\n\
    group\nput 0 2 - 1\ngroup\nput 3 4 - 1\ngroup\ncell 0 3 - 1\nexchange\nitem 0 0 1\ncode\nend\n";

/// A row that is added to the program.
#[derive(Clone, Copy)]
enum Added<'a> {
    Code(Instr),
    Words(&'a [ExprOp]),
    Members(&'a [Member]),
    Array(ArrayRow),
    Items(&'a [Item]),
}

fn add(alloc: Global, tables: &mut Tables, row: Added<'_>) -> Result<(), AllocError> {
    match row {
        Added::Code(instr) => tables.code.push(alloc, instr),
        Added::Words(words) => {
            let row = ExprRow::of(Vec::from_slice(alloc, words)?);
            tables.exprs.push(alloc, row)
        }
        Added::Members(members) => {
            let row = GroupRow::of(Vec::from_slice(alloc, members)?);
            tables.groups.push(alloc, row)
        }
        Added::Array(row) => tables.arrays.push(alloc, row),
        Added::Items(items) => {
            let row = ExchangeRow::of(Vec::from_slice(alloc, items)?);
            tables.exchanges.push(alloc, row)
        }
    }
}

/// Whether the program fits with this row behind its others.
fn fits_with(rt: &impl Abort, alloc: Global, row: Added<'_>) -> Result<bool, Fail> {
    let mut tables = tables_of(rt, alloc, BASE)?;
    add(alloc, &mut tables, row)?;
    Ok(tables.fits_tables())
}

/// Each of these rows fits behind the others of the program, or none does.
fn expect(rt: &impl Abort, alloc: Global, rows: &[Added<'_>], fit: bool) -> Result<(), Fail> {
    for (number, row) in rows.iter().enumerate() {
        assert!(rt; fits_with(rt, alloc, *row)? == fit, "row {number}");
    }
    Ok(())
}

/// Grids, and whether they fit.
const GRIDS: [(Grid3, bool); 7] = [
    ([1, 0, 0], true),
    ([64, 0, 0], true),
    ([1, 1, 64], true),
    ([0, 0, 0], false),
    ([2, 0, 2], false),
    ([13, 5, 0], false),
    ([65_536, 65_536, 0], false),
];

fn expect_grids(rt: &impl Abort, tables: &mut Tables) {
    for (grid, fit) in GRIDS {
        tables.grid = grid;
        assert!(rt; tables.fits_tables() == fit);
    }
}

/// Slots of these ranks fit behind the others, or one of them is too many.
fn fits_slots(rt: &impl Abort, alloc: Global, ranks: &[u8]) -> Result<bool, Fail> {
    let mut tables = tables_of(rt, alloc, BASE)?;
    for rank in ranks {
        tables.slots.push(alloc, *rank)?;
    }
    Ok(tables.fits_tables())
}

#[test]
fn grids_and_slots(rt: HostRuntime) -> Result<(), Fail> {
    let mut tables = tables_of(&rt, rt.alloc(), BASE)?;
    expect_grids(&rt, &mut tables);
    assert!(rt; fits_slots(&rt, rt.alloc(), &[3])?);
    assert!(rt; !fits_slots(&rt, rt.alloc(), &[3, 4])?);
    Ok(())
}

const ONE: ExprOp = ExprOp::Const(1);

const ADD: ExprOp = ExprOp::Pair(Op::Add);

const EXPRS: [Added<'static>; 5] = [
    Added::Words(&[
        ONE,
        ONE,
        ONE,
        ADD,
        ADD,
        ExprOp::Neg,
        ExprOp::Not,
        ExprOp::Abs,
    ]),
    Added::Words(&[ExprOp::Cell(0)]),
    Added::Words(&[ExprOp::Coord(3)]),
    Added::Words(&[ExprOp::Shifted(0, [-2_147_483_648, 0, 0])]),
    Added::Words(&[ExprOp::Here(0), ExprOp::Coord(1), ADD]),
];

const NO_EXPRS: [Added<'static>; 12] = [
    Added::Words(&[]),
    Added::Words(&[ONE, ONE]),
    Added::Words(&[ONE, ADD]),
    Added::Words(&[ExprOp::Scalar(1)]),
    Added::Words(&[ExprOp::Cell(1)]),
    Added::Words(&[ExprOp::Coord(0)]),
    Added::Words(&[ExprOp::Coord(4)]),
    Added::Words(&[ExprOp::Here(4)]),
    Added::Words(&[ExprOp::Shifted(0, [2_147_483_649, 0, 0])]),
    Added::Words(&[ExprOp::Shifted(0, [1, 1, 0])]),
    Added::Words(&[ExprOp::Here(0), ExprOp::Coord(2), ADD]),
    Added::Words(&[ExprOp::Here(0), ExprOp::Here(3), ADD]),
];

macro_rules! put {
    ($array:expr, $expr:expr) => {
        Member::Put { array: $array, expr: $expr, mask: None, line: 1 }
    };
}

macro_rules! cell {
    ($expr:expr) => {
        Member::Cell { cell: 0, expr: $expr, mask: None, line: 1 }
    };
}

macro_rules! acc {
    ($scalar:expr, $expr:expr) => {
        Member::Acc { scalar: $scalar, fold: Fold::Sum, expr: $expr, mask: None, line: 1 }
    };
}

const IF: Member = Member::OpenIf {
    expr: 2,
    mask: Some(2),
    line: 1,
};

const REPEAT: Member = Member::OpenRepeat {
    mask: None,
    line: 1,
};

/// Its mask is no expression.
const MASKED: Member = Member::OpenRepeat {
    mask: Some(5),
    line: 1,
};

const UNTIL: Member = Member::Until { expr: 2 };

const WHILE: Member = Member::OpenWhile {
    expr: 2,
    mask: Some(2),
    line: 1,
};

const MEMBERS: [Added<'static>; 5] = [
    Added::Members(&[]),
    Added::Members(&[IF, Member::Otherwise, REPEAT, UNTIL, Member::CloseIf]),
    Added::Members(&[put!(1, 2), cell!(1)]),
    Added::Members(&[WHILE, put!(0, 2), Member::CloseWhile]),
    Added::Members(&[acc!(0, 2)]),
];

const NO_MEMBERS: [Added<'static>; 16] = [
    Added::Members(&[Member::Otherwise]),
    Added::Members(&[IF]),
    Added::Members(&[REPEAT, Member::Otherwise, UNTIL]),
    Added::Members(&[IF, Member::Otherwise, Member::Otherwise, Member::CloseIf]),
    Added::Members(&[IF, REPEAT, Member::CloseIf, UNTIL]),
    Added::Members(&[put!(4, 2)]),
    Added::Members(&[put!(0, 5)]),
    Added::Members(&[put!(0, 3)]),
    Added::Members(&[put!(0, 2), put!(3, 4)]),
    Added::Members(&[MASKED, UNTIL]),
    Added::Members(&[WHILE]),
    Added::Members(&[Member::CloseWhile]),
    Added::Members(&[WHILE, Member::Otherwise, Member::CloseWhile]),
    Added::Members(&[WHILE, UNTIL]),
    Added::Members(&[acc!(1, 2)]),
    Added::Members(&[acc!(0, 5)]),
];

/// The range of four zeros.
const UNUSED: ArrayDim = ArrayDim::Range {
    lo: 0,
    hi: 0,
    low: 0,
    high: 0,
};

const WIDE: ArrayDim = ArrayDim::Range {
    lo: -2_147_483_648,
    hi: -2_143_289_345,
    low: 0,
    high: 2_147_483_648,
};

const LONG: ArrayDim = ArrayDim::Range {
    lo: 1,
    hi: 4_194_305,
    low: 0,
    high: 0,
};

const HIGH: ArrayDim = ArrayDim::Range {
    lo: 2_147_483_649,
    hi: 0,
    low: 0,
    high: 0,
};

const NARROW: ArrayDim = ArrayDim::Range {
    lo: 1,
    hi: 4,
    low: -1,
    high: 0,
};

macro_rules! array {
    ($rank:expr, $stored:expr, $first:expr, $second:expr) => {
        Added::Array(ArrayRow { rank: $rank, stored: $stored, dims: [$first, $second, UNUSED] })
    };
}

const ARRAYS: [Added<'static>; 3] = [
    array!(1, true, WIDE, UNUSED),
    array!(1, true, ArrayDim::Star, UNUSED),
    array!(1, false, ArrayDim::Star, UNUSED),
];

const NO_ARRAYS: [Added<'static>; 6] = [
    array!(1, true, LONG, UNUSED),
    array!(1, true, HIGH, UNUSED),
    array!(1, true, NARROW, UNUSED),
    array!(1, false, NARROW, UNUSED),
    array!(1, true, WIDE, ArrayDim::Star),
    array!(4, true, WIDE, UNUSED),
];

macro_rules! item {
    ($array:expr, $slot:expr) => {
        Added::Items(&[Item { array: $array, slot: $slot, shift: [1, 0, 0] }])
    };
}

const ITEMS: [Added<'static>; 1] = [item!(0, 2)];

const NO_ITEMS: [Added<'static>; 4] = [item!(1, 0), item!(0, 1), item!(4, 0), item!(0, 3)];

#[test]
fn expressions_and_members(rt: HostRuntime) -> Result<(), Fail> {
    let alloc = rt.alloc();
    expect(&rt, alloc, &EXPRS, true)?;
    expect(&rt, alloc, &NO_EXPRS, false)?;
    expect(&rt, alloc, &MEMBERS, true)?;
    expect(&rt, alloc, &NO_MEMBERS, false)
}

#[test]
fn arrays_and_items(rt: HostRuntime) -> Result<(), Fail> {
    let alloc = rt.alloc();
    expect(&rt, alloc, &ARRAYS, true)?;
    expect(&rt, alloc, &NO_ARRAYS, false)?;
    expect(&rt, alloc, &ITEMS, true)?;
    expect(&rt, alloc, &NO_ITEMS, false)
}

const LINE: u32 = u32::MAX;

macro_rules! set {
    ($scalar:expr, $expr:expr) => {
        Added::Code(Instr::Set {
            scalar: $scalar,
            expr: $expr,
            line: LINE,
        })
    };
}

macro_rules! unless {
    ($expr:expr, $goal:expr) => {
        Added::Code(Instr::Unless {
            expr: $expr,
            goal: $goal,
            line: LINE,
        })
    };
}

macro_rules! fold {
    ($scalar:expr) => {
        Added::Code(Instr::Fold {
            scalar: $scalar,
            fold: Fold::Any,
        })
    };
}

macro_rules! tree {
    ($scalar:expr) => {
        Added::Code(Instr::TreeFold {
            scalar: $scalar,
            fold: Fold::Any,
        })
    };
}

macro_rules! code {
    ($instr:expr) => {
        Added::Code($instr)
    };
}

/// Rows of scalars, jumps and texts.
const SCALARS: [Added<'static>; 11] = [
    set!(0, 1),
    unless!(1, 2),
    code!(Instr::Jump { goal: 2 }),
    code!(Instr::Print { text: 0 }),
    fold!(0),
    code!(Instr::Vote { group: 2 }),
    code!(Instr::Truth { expr: 0 }),
    tree!(0),
    code!(Instr::Trap {
        kind: TrapKind::RegionMismatch,
        line: LINE
    }),
    code!(Instr::Number { expr: 1 }),
    code!(Instr::Finish { exchange: 0 }),
];

const NO_SCALARS: [Added<'static>; 16] = [
    set!(1, 1),
    set!(0, 5),
    set!(0, 2),
    set!(0, 3),
    unless!(2, 2),
    unless!(1, 3),
    code!(Instr::Jump { goal: 3 }),
    code!(Instr::Print { text: 1 }),
    fold!(1),
    code!(Instr::TreeVote { group: 3 }),
    code!(Instr::Truth { expr: 4 }),
    code!(Instr::Start { exchange: 1 }),
    tree!(1),
    code!(Instr::Number { expr: 2 }),
    code!(Instr::Number { expr: 5 }),
    code!(Instr::Finish { exchange: 1 }),
];

/// What stands for a dimension past a region's rank.
const PADDING: Dim = Dim::Range {
    lo: 0,
    hi: 0,
    step: 1,
    align: 0,
};

const FOUR: Dim = Dim::Range {
    lo: 1,
    hi: 4,
    step: 1,
    align: 1,
};

macro_rules! ranked {
    ($slot:expr, $rank:expr, $first:expr, $second:expr) => {
        Added::Code(Instr::Fix {
            slot: $slot,
            region: Region {
                rank: $rank,
                dims: [$first, $second, PADDING],
            },
        })
    };
}

macro_rules! fixed {
    ($lo:expr, $hi:expr, $step:expr, $align:expr) => {
        ranked!(
            0,
            1,
            Dim::Range {
                lo: $lo,
                hi: $hi,
                step: $step,
                align: $align,
            },
            PADDING
        )
    };
}

macro_rules! dims {
    ($slot:expr, $first:expr, $second:expr) => {
        Added::Code(Instr::Dims {
            slot: $slot,
            parts: [$first, $second, DimRow::Star],
            line: 1,
        })
    };
}

macro_rules! formed {
    ($slot:expr, $from:expr, $shift:expr) => {
        Added::Code(Instr::Formed {
            form: RegionForm::By,
            slot: $slot,
            from: $from,
            shift: $shift,
            line: 1,
        })
    };
}

macro_rules! need {
    ($slot:expr, $array:expr) => {
        Added::Code(Instr::Need {
            slot: $slot,
            array: $array,
            shift: [0, 0, 0],
            line: 1,
        })
    };
}

macro_rules! same {
    ($target:expr, $source:expr) => {
        Added::Code(Instr::Same {
            target: $target,
            source: $source,
            kind: SameKind::Part,
            line: 1,
        })
    };
}

macro_rules! fits {
    ($slot:expr, $shift:expr) => {
        Added::Code(Instr::Fits {
            slot: $slot,
            shift: $shift,
            line: 1,
        })
    };
}

const SPAN: DimRow = DimRow::Span(0, 1);

const STAR: DimRow = DimRow::Star;

/// Rows that make or test regions.
const REGIONS: [Added<'static>; 12] = [
    fixed!(1, 4_194_304, 1, 1),
    fixed!(1, 4, 2_147_483_648, 1_099_511_627_776),
    ranked!(0, 1, Dim::Flood, PADDING),
    ranked!(1, 2, FOUR, Dim::Flood),
    dims!(0, SPAN, STAR),
    dims!(1, DimRow::Copied(1), SPAN),
    formed!(0, 2, [2_147_483_648, 0, 0]),
    need!(0, 0),
    need!(1, 3),
    same!(0, 2),
    same!(1, 1),
    fits!(1, [1, -2_147_483_648, 0]),
];

const NO_REGIONS: [Added<'static>; 22] = [
    fixed!(1, 4_194_305, 1, 1),
    fixed!(1, 4, 0, 1),
    fixed!(1, 4, 2_147_483_649, 1),
    fixed!(0, 2_147_483_649, 1, 0),
    ranked!(1, 1, FOUR, PADDING),
    ranked!(1, 1, FOUR, Dim::Flood),
    ranked!(1, 4, FOUR, PADDING),
    dims!(0, SPAN, SPAN),
    dims!(1, DimRow::Copied(0), SPAN),
    dims!(0, DimRow::Span(0, 2), STAR),
    formed!(0, 1, [1, 0, 0]),
    formed!(0, 3, [1, 0, 0]),
    formed!(0, 0, [0, 0, 1]),
    need!(0, 1),
    need!(1, 0),
    need!(0, 4),
    same!(0, 1),
    same!(3, 0),
    same!(0, 3),
    fits!(0, [0, 1, 0]),
    fits!(0, [2_147_483_649, 0, 0]),
    fits!(3, [0, 0, 0]),
];

macro_rules! room {
    ($array:expr) => {
        Added::Code(Instr::Room {
            array: $array,
            slot: 0,
        })
    };
}

macro_rules! run {
    ($slot:expr, $group:expr) => {
        Added::Code(Instr::Loop {
            slot: $slot,
            group: $group,
        })
    };
}

macro_rules! edge {
    ($array:expr) => {
        Added::Code(Instr::Edge {
            kind: Border::Wrap,
            array: $array,
            slot: 0,
            shift: [1, 0, 0],
        })
    };
}

macro_rules! flood {
    ($array:expr, $source:expr) => {
        Added::Code(Instr::Flood {
            array: $array,
            target: 0,
            from: 0,
            source: $source,
        })
    };
}

macro_rules! part {
    ($array:expr, $source:expr) => {
        Added::Code(Instr::Part {
            array: $array,
            target: 0,
            fold: Fold::Max,
            from: 0,
            source: $source,
        })
    };
}

macro_rules! scan {
    ($along:expr, $mask:expr) => {
        Added::Code(Instr::Scan {
            array: 0,
            slot: 0,
            fold: Fold::Sum,
            along: $along,
            from: 1,
            mask: $mask,
        })
    };
}

macro_rules! remap {
    ($array:expr, $from:expr, $first:expr, $second:expr) => {
        Added::Code(Instr::Remap {
            array: $array,
            slot: 0,
            from: $from,
            parts: [$first, $second, None],
        })
    };
}

macro_rules! gather {
    ($array:expr, $slot:expr) => {
        Added::Code(Instr::Gather {
            truth: true,
            array: $array,
            slot: $slot,
        })
    };
}

/// Rows of arrays, loops, and what all processors do together.
const ARRAY_ROWS: [Added<'static>; 13] = [
    room!(1),
    code!(Instr::Clear { array: 0 }),
    run!(0, 0),
    run!(1, 1),
    run!(1, 2),
    edge!(0),
    flood!(1, 2),
    scan!(0, None),
    scan!(1, Some(1)),
    remap!(1, 0, Some(2), None),
    part!(1, 2),
    gather!(0, 0),
    gather!(3, 1),
];

const NO_ARRAY_ROWS: [Added<'static>; 23] = [
    room!(0),
    code!(Instr::Clear { array: 1 }),
    run!(1, 0),
    run!(0, 1),
    run!(0, 2),
    run!(0, 3),
    edge!(3),
    flood!(3, 2),
    flood!(1, 1),
    scan!(2, None),
    scan!(1, Some(3)),
    remap!(2, 0, Some(2), None),
    remap!(1, 3, Some(2), Some(2)),
    remap!(1, 2, Some(2), None),
    remap!(0, 0, Some(2), None),
    remap!(1, 0, None, None),
    remap!(1, 0, Some(2), Some(2)),
    part!(3, 2),
    part!(1, 1),
    part!(4, 2),
    gather!(0, 1),
    gather!(4, 0),
    gather!(0, 3),
];

#[test]
fn instructions(rt: HostRuntime) -> Result<(), Fail> {
    let alloc = rt.alloc();
    expect(&rt, alloc, &SCALARS, true)?;
    expect(&rt, alloc, &NO_SCALARS, false)?;
    expect(&rt, alloc, &REGIONS, true)?;
    expect(&rt, alloc, &NO_REGIONS, false)?;
    expect(&rt, alloc, &ARRAY_ROWS, true)?;
    expect(&rt, alloc, &NO_ARRAY_ROWS, false)
}
