//! Where ranks come from.
use super::judging::{PLANES, each_body};
use std::test::Fail;

const RANKS: [(&str, &str, u32); 9] = [
    // the assigned array gives the rank
    ("[Q2] [R] A := Index1;", "Ok", 0),
    // the nearest prefix does, in an operand
    ("[R] x := +<<Index1;", "Ok", 0),
    ("[Q2] x := +<<Index2;", "Ok", 0),
    ("[R] x := +<<Index2;", "RankClash", 273),
    // the arrays of an operand do
    ("[R] [Q2] x := +<<A;", "Ok", 0),
    ("[Q2] x := +<<A;", "NoRegion", 271),
    // the bracket does
    ("[R] A := +<<[2..3] A;", "Ok", 0),
    ("[Q2] M := A;", "RankClash", 271),
    // each rank has its region
    ("[R] begin [Q2] M := N; A := 1; end;", "Ok", 0),
];

const BRACKETS: [(&str, &str, u32); 6] = [
    // a blank is of the current region
    ("[Q2] [1, ] M := 1;", "Ok", 0),
    ("[R] [1, ] M := 1;", "NoRegion", 269),
    // a ditto has the rank of the nearest prefix, of its direction or of its mask
    ("[R] [\"] A := 1;", "Ok", 0),
    ("[Q2] [se of \"] M := 1;", "Ok", 0),
    ("[R] [se of \"] M := 1;", "NoRegion", 272),
    ("[R] [\" with L] M := 1;", "NoRegion", 266),
];

#[test]
fn ranks_come_from_what_stands_there(rt: HostRuntime) -> Result<(), Fail> {
    each_body(&rt, rt.alloc(), PLANES, &RANKS)?;
    each_body(&rt, rt.alloc(), PLANES, &BRACKETS)
}
