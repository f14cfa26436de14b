//! What rows do with things.
use crate::reading::program_of;
use node_form::{NodeProgram, Thing, Touch};
use std::process::Abort;
use std::test::Fail;

/// A loop that puts array 1 and folds into scalar 1 where array 2 isn't 0; an exchange of array 0;
/// and other rows.
const PROGRAM: &str = "zplnode 1\ngrid 1\nscalars 2\nslots 1\ncells 0\narray 1..4:1,1\narray -\n\
    array -\nexpr s0\nexpr a0@1\nexpr a2\ngroup\nput 1 1 - 1\nacc 1 sum 0 2 1\nexchange\n\
    item 0 0 1\ncode\nloop 0 0\nstart 0\nfinish 0\nset 0 0 1\nscan 1 0 sum 0 0 2\nvote 0\n\
    remap 1 0 0 2\n";

/// A row by its number, a thing, and what the row does with it.
const TOUCHES: [(u32, Thing, Touch); 19] = [
    (0, Thing::Array(0), Touch::Reads),
    (0, Thing::Array(1), Touch::Writes),
    (0, Thing::Array(2), Touch::Reads),
    (0, Thing::Scalar(0), Touch::Reads),
    (0, Thing::Scalar(1), Touch::Writes),
    (0, Thing::Slot(0), Touch::Reads),
    (1, Thing::Array(0), Touch::Reads),
    (2, Thing::Array(0), Touch::Writes),
    (2, Thing::Slot(0), Touch::Reads),
    (2, Thing::Array(1), Touch::No),
    (3, Thing::Scalar(0), Touch::Writes),
    (3, Thing::Scalar(1), Touch::No),
    (4, Thing::Array(1), Touch::Writes),
    (4, Thing::Array(2), Touch::Reads),
    (5, Thing::Array(1), Touch::No),
    (6, Thing::Array(1), Touch::Writes),
    (6, Thing::Array(2), Touch::Reads),
    (6, Thing::Array(0), Touch::Reads),
    (7, Thing::Slot(0), Touch::No),
];

fn expect_touches(rt: &impl Abort, program: &NodeProgram) {
    for (at, thing, touch) in TOUCHES {
        assert!(rt; program.touches(at, thing) == touch);
        assert!(rt; program.tables().touches(at, thing) == touch);
    }
}

#[test]
fn rows_touch_things(rt: HostRuntime) -> Result<(), Fail> {
    let program = program_of(&rt, rt.alloc(), PROGRAM)?;
    expect_touches(&rt, &program);
    Ok(())
}
