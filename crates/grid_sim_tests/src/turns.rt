//! Turns given one by one.
use crate::grids::grid_of;
use crate::listings::EXCHANGES;
use grid_sim::{Sim, Told, Turned};
use std::alloc::Global;
use std::process::Abort;
use std::test::Fail;
use zpl_io::MemSink;

/// A processor, and what its turn comes to and sends; it takes nothing.
const CASES: [(u32, Turned, Option<u32>); 6] = [
    (1, Turned::Moved, None),
    (1, Turned::Moved, Some(0)),
    (1, Turned::Moved, None),
    (1, Turned::Waiting, None),
    (0, Turned::Moved, None),
    (0, Turned::Moved, Some(1)),
];

/// Gives each of these processors a turn, and compares what it tells.
fn expect_turns(rt: &impl Abort, alloc: Global, sim: &mut Sim, out: &mut MemSink) {
    for (p, turned, sent) in CASES {
        assert!(rt; p < sim.processors());
        assert!(rt; sim.counts().turns < 100);
        let want = Told {
            turned,
            sent,
            took: None,
        };
        assert!(rt; sim.turn_told(alloc, p, out) == Ok(want));
    }
}

/// Over links for one message processor 1 sends, waits for room, and so does 0.
#[test]
fn turns_tell(rt: HostRuntime) -> Result<(), Fail> {
    let mut out = MemSink::new(rt.alloc(), 0)?;
    let mut sim = grid_of(&rt, rt.alloc(), EXCHANGES.as_bytes(), Some(1))?;
    expect_turns(&rt, rt.alloc(), &mut sim, &mut out);
    Ok(())
}
