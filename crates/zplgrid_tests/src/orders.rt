//! Runs of programs under orders of turns.
use super::rows::{USAGE, Wanted, expect};
use std::test::Fail;

/// A program that takes 47 turns.
const SUM: &[u8] = b"program sum; var i, s : integer; procedure sum(); begin i := 1; \
    while i <= 10 do s := s + i; i := i + 1; end; writeln(\"sum \", s); end;";

/// An order, the words, and what comes of them.
const CASES: [(&str, &[&str], Wanted<'static>); 12] = [
    (
        "",
        &["run", "a", "report"],
        (0, "sum 55\n", "turns 47 sends 0 words 0\n", 47),
    ),
    (
        "0x50",
        &["run", "a", "links=1", "report", "order=o"],
        (0, "sum 55\n", "turns 47 sends 0 words 0\n", 47),
    ),
    (
        "0x3 0",
        &["run", "a", "order=o", "turns=41", "report"],
        (8, "sum 55", "turn limit\nturns 45 sends 0 words 0\n", 45),
    ),
    (
        "0x3 0",
        &["run", "a", "order=o", "turns=43"],
        (0, "sum 55\n", "", 47),
    ),
    (
        "0x3 1",
        &["run", "a", "order=o"],
        (6, "", "order refused, byte 4\n", 0),
    ),
    (
        "",
        &["run", "a", "report", "order=p"],
        (2, "", "cannot read p\n", 0),
    ),
    (
        "1",
        &["run", "a", "order=o", "s:=1"],
        (5, "", "settings refused: UnknownConfig\n", 0),
    ),
    ("", &["run", "a", "turns=0"], (8, "", "turn limit\n", 0)),
    ("", &["run", "a", "links=0"], (1, "", USAGE, 0)),
    ("", &["run", "a", "report", "report"], (1, "", USAGE, 0)),
    ("", &["run", "a", "order=o", "order=o"], (1, "", USAGE, 0)),
    ("", &["run", "a", "reports"], (1, "", USAGE, 0)),
];

#[test]
fn runs_under_orders(rt: HostRuntime) -> Result<(), Fail> {
    for (order, words, wanted) in CASES {
        expect(&rt, rt.alloc(), words, SUM, order, wanted)?;
    }
    Ok(())
}
