//! Runs worked out by hand.
ghost use Rattle.std.specs.Prelude.{◌≡◌, ◌≤◌, map, true};
ghost use Rattle.grid_timetable.specs.History.{no_moves};
ghost use Rattle.grid_timetable_tests.specs.Playing.{move_of, plays};

use crate::adding::{Told, add_all, fill};
use grid_timetable::{MOST_MOVES, Segment, Table, TableFault};
use std::alloc::Global;
use std::process::Abort;
use std::test::Fail;

/// Processor 1 sends its value to 0, which sends the total back.
const TOTAL: [Told; 8] = [
    Told {
        processor: 1,
        sent: Some(0),
        took: None,
    },
    Told {
        processor: 0,
        sent: None,
        took: Some(1),
    },
    Told {
        processor: 0,
        sent: Some(1),
        took: None,
    },
    Told {
        processor: 1,
        sent: None,
        took: Some(0),
    },
    Told {
        processor: 1,
        sent: None,
        took: None,
    },
    Told {
        processor: 0,
        sent: None,
        took: None,
    },
    Told {
        processor: 1,
        sent: None,
        took: None,
    },
    Told {
        processor: 0,
        sent: None,
        took: None,
    },
];

/// Each of three sends to the next one and takes from the one before.
const RING: [Told; 6] = [
    Told {
        processor: 0,
        sent: Some(1),
        took: None,
    },
    Told {
        processor: 1,
        sent: Some(2),
        took: None,
    },
    Told {
        processor: 1,
        sent: None,
        took: Some(0),
    },
    Told {
        processor: 2,
        sent: Some(0),
        took: None,
    },
    Told {
        processor: 2,
        sent: None,
        took: Some(1),
    },
    Told {
        processor: 0,
        sent: None,
        took: Some(2),
    },
];

/// Two processors send to a third one, which takes from both, and then sends to both.
const STAR: [Told; 8] = [
    Told {
        processor: 1,
        sent: Some(0),
        took: None,
    },
    Told {
        processor: 2,
        sent: Some(0),
        took: None,
    },
    Told {
        processor: 0,
        sent: None,
        took: Some(1),
    },
    Told {
        processor: 0,
        sent: None,
        took: Some(2),
    },
    Told {
        processor: 0,
        sent: Some(1),
        took: None,
    },
    Told {
        processor: 0,
        sent: Some(2),
        took: None,
    },
    Told {
        processor: 1,
        sent: None,
        took: Some(0),
    },
    Told {
        processor: 2,
        sent: None,
        took: Some(0),
    },
];

/// Two messages go through three processors.
const PIPELINE: [Told; 8] = [
    Told {
        processor: 0,
        sent: Some(1),
        took: None,
    },
    Told {
        processor: 1,
        sent: None,
        took: Some(0),
    },
    Told {
        processor: 1,
        sent: Some(2),
        took: None,
    },
    Told {
        processor: 2,
        sent: None,
        took: Some(1),
    },
    Told {
        processor: 0,
        sent: Some(1),
        took: None,
    },
    Told {
        processor: 1,
        sent: None,
        took: Some(0),
    },
    Told {
        processor: 1,
        sent: Some(2),
        took: None,
    },
    Told {
        processor: 2,
        sent: None,
        took: Some(1),
    },
];

/// Which processor's turns decide how long each of the three runs takes.
const TOTAL_CHAIN: [Segment; 3] = [
    Segment {
        processor: 1,
        first: 1,
        last: 1,
        tick: 0,
    },
    Segment {
        processor: 0,
        first: 1,
        last: 2,
        tick: 6,
    },
    Segment {
        processor: 1,
        first: 2,
        last: 4,
        tick: 13,
    },
];

const RING_CHAIN: [Segment; 2] = [
    Segment {
        processor: 2,
        first: 1,
        last: 1,
        tick: 0,
    },
    Segment {
        processor: 0,
        first: 2,
        last: 2,
        tick: 3,
    },
];

const STAR_CHAIN: [Segment; 3] = [
    Segment {
        processor: 1,
        first: 1,
        last: 1,
        tick: 0,
    },
    Segment {
        processor: 0,
        first: 1,
        last: 4,
        tick: 3,
    },
    Segment {
        processor: 2,
        first: 2,
        last: 2,
        tick: 9,
    },
];

const PIPELINE_CHAIN: [Segment; 3] = [
    Segment {
        processor: 0,
        first: 1,
        last: 1,
        tick: 0,
    },
    Segment {
        processor: 1,
        first: 1,
        last: 4,
        tick: 2,
    },
    Segment {
        processor: 2,
        first: 2,
        last: 2,
        tick: 7,
    },
];

/// Adds the moves, and compares the ticks and the chain.
fn expect(
    rt: &impl Abort,
    alloc: Global,
    count: u32,
    latency: u64,
    moves: &[Told],
    ticks: u64,
    chain: &[Segment],
) -> Result<(), Fail>
    requires latency { latency ≤ 1000000 }
    requires moves { plays (no_moves count latency) (map move_of moves.now) ≡ true }
{
    let mut table = Table::new(alloc, count, latency)?;
    add_all(alloc, &mut table, moves)?;
    let mut found = Vec::new(alloc);
    table.chain(alloc, &mut found)?;
    assert!(rt; table.ticks() == ticks);
    assert!(rt; found.as_slice() == chain);
    Ok(())
}

#[test]
fn tells_ticks_and_chains(rt: HostRuntime) -> Result<(), Fail> {
    expect(&rt, rt.alloc(), 2, 5, &TOTAL, 16, &TOTAL_CHAIN)?;
    expect(&rt, rt.alloc(), 3, 2, &RING, 4, &RING_CHAIN)?;
    expect(&rt, rt.alloc(), 3, 2, &STAR, 10, &STAR_CHAIN)?;
    expect(&rt, rt.alloc(), 3, 1, &PIPELINE, 8, &PIPELINE_CHAIN)
}

/// As many moves as a table takes, and one more.
#[test]
fn takes_no_more_moves(rt: HostRuntime) -> Result<(), Fail> {
    let mut table = Table::new(rt.alloc(), 1, 1)?;
    fill(rt.alloc(), &mut table, 4_194_304)?;
    assert!(&rt; table.ticks() == MOST_MOVES);
    let more = fill(rt.alloc(), &mut table, 1);
    assert!(&rt; more == Err(TableFault::TooManyMoves));
    Ok(())
}
