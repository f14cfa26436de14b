//! How runs end, what they count and print.
use crate::grids::{Answer, expect, grid_of};
use crate::listings::{
    DIVIDES, EXCHANGES, OTHER_REGION, OTHER_ROW, PRINTS, READS_OUTSIDE, SUMS, VISITS, WAITS,
};
use grid_sim::{SimFault, StuckKind};
use std::alloc::Global;
use std::process::Abort;
use std::test::Fail;
use zpl_nums::{End, TrapKind};

/// No put fails.
const NEVER: u64 = 1000;

const DONE: Answer = Ok(End::Done);

const DIVIDED: Answer = Ok(End::Trap(TrapKind::DivideByZero, 7));

const IDLE_AT_0: Answer = Err(SimFault::Stuck(0, StuckKind::Idle));

const IDLE_AT_1: Answer = Err(SimFault::Stuck(1, StuckKind::Idle));

const UNHELD: Answer = Err(SimFault::Stuck(0, StuckKind::Unheld));

const TAG: Answer = Err(SimFault::Stuck(0, StuckKind::Tag));

const LENGTH: Answer = Err(SimFault::Stuck(0, StuckKind::Length));

const LIMIT: Answer = Err(SimFault::TurnLimit);

const SINK: Answer = Err(SimFault::SinkFailed);

/// The capacity of the links, or none; an order, the most turns behind it, and the put that fails;
/// how the run ends, its turns, messages and their words, and what is printed.
type Case = (
    Option<u32>,
    &'static [u8],
    u64,
    u64,
    Answer,
    [u64; 3],
    &'static [u8],
);

/// The turn of a failed put is not counted, and nothing is put after it.
const OF_PRINTS: [Case; 3] = [
    (None, b"", 1000, NEVER, DONE, [8, 0, 0], b"hi21"),
    (None, b"", 1000, 0, SINK, [2, 0, 0], b""),
    (None, b"", 1000, 1, SINK, [4, 0, 0], b"hi"),
];

const OF_DIVIDES: [Case; 1] = [(None, b"", 1000, NEVER, DIVIDED, [2, 0, 0], b"")];

const OF_WAITS: [Case; 1] = [(None, b"", 1000, NEVER, IDLE_AT_1, [10, 1, 1], b"")];

const OF_READS_OUTSIDE: [Case; 1] = [(None, b"", 1000, NEVER, UNHELD, [2, 0, 0], b"")];

const OF_OTHER_ROW: [Case; 1] = [(None, b"", 1000, NEVER, TAG, [10, 1, 1], b"")];

const OF_OTHER_REGION: [Case; 1] = [(None, b"", 1000, NEVER, LENGTH, [10, 1, 2], b"")];

/// Over links for one message both processors wait for room; those for two have enough.
const OF_EXCHANGES: [Case; 3] = [
    (None, b"", 1000, NEVER, DONE, [20, 4, 4], b""),
    (Some(1), b"", 1000, NEVER, IDLE_AT_0, [6, 2, 2], b""),
    (Some(2), b"", 1000, NEVER, DONE, [20, 4, 4], b""),
];

/// Whom an exchange is with goes by the region that is in its slot at the time.
const OF_VISITS: [Case; 1] = [(None, b"", 1000, NEVER, DONE, [60, 3, 3], b"")];

/// Whatever the order and the links are, the same is printed. The order's turns come first, and
/// then as many more as the limit has.
const OF_SUMS: [Case; 16] = [
    (None, b"", 1000, NEVER, DONE, [33, 4, 4], b"6"),
    (Some(1), b"", 1000, NEVER, DONE, [33, 4, 4], b"6"),
    (Some(2), b"", 1000, NEVER, DONE, [33, 4, 4], b"6"),
    (Some(3), b"", 1000, NEVER, DONE, [33, 4, 4], b"6"),
    (None, b"2x100 1x100", 1000, NEVER, DONE, [230, 4, 4], b"6"),
    (
        Some(1),
        b"2x100 1x100",
        1000,
        NEVER,
        DONE,
        [230, 4, 4],
        b"6",
    ),
    (
        Some(2),
        b"2x100 1x100",
        1000,
        NEVER,
        DONE,
        [230, 4, 4],
        b"6",
    ),
    (
        Some(3),
        b"2x100 1x100",
        1000,
        NEVER,
        DONE,
        [230, 4, 4],
        b"6",
    ),
    (
        None,
        b"0x50 1 2 1 2 1 2 1 2",
        1000,
        NEVER,
        DONE,
        [79, 4, 4],
        b"6",
    ),
    (
        Some(1),
        b"0x50 1 2 1 2 1 2 1 2",
        1000,
        NEVER,
        DONE,
        [79, 4, 4],
        b"6",
    ),
    (
        Some(2),
        b"0x50 1 2 1 2 1 2 1 2",
        1000,
        NEVER,
        DONE,
        [79, 4, 4],
        b"6",
    ),
    (
        Some(3),
        b"0x50 1 2 1 2 1 2 1 2",
        1000,
        NEVER,
        DONE,
        [79, 4, 4],
        b"6",
    ),
    (None, b"", 0, NEVER, LIMIT, [0, 0, 0], b""),
    (None, b"", 5, NEVER, LIMIT, [5, 0, 0], b""),
    (None, b"1 1", 20, NEVER, LIMIT, [22, 4, 4], b""),
    (None, b"", 33, NEVER, DONE, [33, 4, 4], b"6"),
];

/// Runs a listing as each of these cases has it.
fn expect_cases(rt: &impl Abort, alloc: Global, listing: &str, cases: &[Case]) -> Result<(), Fail> {
    for (links, order, limit, failing, answer, counts, printed) in cases {
        let sim = grid_of(rt, alloc, listing.as_bytes(), *links)?;
        let want = (*answer, *counts, *printed);
        expect(rt, alloc, sim, order, *limit, *failing, want)?;
    }
    Ok(())
}

#[test]
fn runs_end(rt: HostRuntime) -> Result<(), Fail> {
    let alloc = rt.alloc();
    expect_cases(&rt, alloc, PRINTS, &OF_PRINTS)?;
    expect_cases(&rt, alloc, DIVIDES, &OF_DIVIDES)?;
    expect_cases(&rt, alloc, WAITS, &OF_WAITS)?;
    expect_cases(&rt, alloc, READS_OUTSIDE, &OF_READS_OUTSIDE)?;
    expect_cases(&rt, alloc, OTHER_ROW, &OF_OTHER_ROW)?;
    expect_cases(&rt, alloc, OTHER_REGION, &OF_OTHER_REGION)?;
    expect_cases(&rt, alloc, EXCHANGES, &OF_EXCHANGES)?;
    expect_cases(&rt, alloc, VISITS, &OF_VISITS)?;
    expect_cases(&rt, alloc, SUMS, &OF_SUMS)?;
    Ok(())
}
