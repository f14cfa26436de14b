//! Runs of listings.
use super::rows::{Failing, NEVER, USAGE, Wanted, expect, expect_failing};
use std::test::Fail;

/// Two processors, of which each has four turns.
const FIRST: &str = "zplnode 1\ngrid 2\nscalars 1\nslots\ncells 0\ntext 6869\nexpr n20\n\
    expr s0 n1 +\ncode\nset 0 0 1\nprint 0\nnumber 1\nend\n";

/// An order, the words, and what comes of them.
type Case = (&'static str, &'static [&'static str], Wanted<'static>);

const CASES: [Case; 7] = [
    (
        "",
        &["exec", "a", "report"],
        (0, "hi21", "turns 8 sends 0 words 0\n", 8),
    ),
    (
        "1x4 0x4",
        &["exec", "a", "order=o", "links=1"],
        (0, "hi21", "", 8),
    ),
    (
        "1x2 0x2",
        &["exec", "a", "report", "turns=1", "order=o"],
        (8, "hi21", "turn limit\nturns 5 sends 0 words 0\n", 5),
    ),
    (
        "0 1x3 9",
        &["exec", "a", "order=o"],
        (6, "", "order refused, byte 6\n", 0),
    ),
    ("", &["exec", "a", "order=p"], (2, "", "cannot read p\n", 0)),
    ("", &["exec", "a", "links=0"], (1, "", USAGE, 0)),
    ("", &["exec", "a", "turns=0"], (8, "", "turn limit\n", 0)),
];

/// Two processors send two messages each way before they take one.
const CROSSED: &str = "zplnode 1\ngrid 2\nscalars 0\nslots 1\ncells 0\narray 1..4:1,1\n\
    exchange\nitem 0 0 1\nitem 0 0 -1\nexchange\nitem 0 0 1\nitem 0 0 -1\ncode\nfix 0 2..3:1:1\n\
    start 0\nstart 1\nfinish 0\nfinish 1\nend\n";

const LINKS: [Case; 2] = [
    (
        "",
        &["exec", "a", "report"],
        (0, "", "turns 20 sends 4 words 4\n", 20),
    ),
    (
        "",
        &["exec", "a", "report", "links=1"],
        (
            12,
            "",
            "stuck: processor 0, Idle\nturns 6 sends 2 words 2\n",
            6,
        ),
    ),
];

#[test]
fn runs_of_listings(rt: HostRuntime) -> Result<(), Fail> {
    for (order, words, wanted) in CASES {
        expect(&rt, rt.alloc(), words, FIRST.as_bytes(), order, wanted)?;
    }
    for (order, words, wanted) in LINKS {
        expect(&rt, rt.alloc(), words, CROSSED.as_bytes(), order, wanted)?;
    }
    Ok(())
}

/// Each fetch and each put of a run of the first listing fails once: nothing is put behind a put
/// that failed.
const FAILING: [Failing; 5] = [
    (
        [0, NEVER, NEVER],
        (
            &["exec", "a", "report", "order=o"],
            FIRST,
            (2, "", "cannot read a\n", 0),
        ),
    ),
    (
        [1, NEVER, NEVER],
        (
            &["exec", "a", "report", "order=o"],
            FIRST,
            (2, "", "cannot read o\n", 0),
        ),
    ),
    (
        [NEVER, 0, NEVER],
        (&["exec", "a", "report", "order=o"], FIRST, (9, "", "", 2)),
    ),
    (
        [NEVER, 1, NEVER],
        (&["exec", "a", "report", "order=o"], FIRST, (9, "hi", "", 4)),
    ),
    (
        [NEVER, NEVER, 0],
        (
            &["exec", "a", "report", "order=o"],
            FIRST,
            (9, "hi21", "", 8),
        ),
    ),
];

#[test]
fn fetches_and_puts_that_fail(rt: HostRuntime) -> Result<(), Fail> {
    expect_failing(&rt, rt.alloc(), &FAILING)?;
    Ok(())
}

/// The first listing for three processors.
const THREE: &str = "zplnode 1\ngrid 3\nscalars 1\nslots\ncells 0\ntext 6869\nexpr n20\n\
    expr s0 n1 +\ncode\nset 0 0 1\nprint 0\nnumber 1\nend\n";

/// The order `0 1x3 2`, cut at each byte: what comes of the front.
const CUT_ORDERS: [(&str, Wanted<'static>); 8] = [
    ("", (0, "hi21", "", 12)),
    ("0", (0, "hi21", "", 13)),
    ("0 ", (0, "hi21", "", 13)),
    ("0 1", (0, "hi21", "", 14)),
    ("0 1x", (6, "", "order refused, byte 2\n", 0)),
    ("0 1x3", (0, "hi21", "", 16)),
    ("0 1x3 ", (0, "hi21", "", 16)),
    ("0 1x3 2", (0, "hi21", "", 14)),
];

#[test]
fn orders_cut_at_each_byte(rt: HostRuntime) -> Result<(), Fail> {
    for (order, wanted) in CUT_ORDERS {
        let words = ["exec", "a", "order=o"];
        expect(&rt, rt.alloc(), &words, THREE.as_bytes(), order, wanted)?;
    }
    Ok(())
}

/// What comes of the first listing cut in front of each of its lines, with the line, and of the
/// whole one. Running past the last instruction is an end.
const CUT_LISTINGS: [(&str, Wanted<'static>); 14] = [
    (
        "zplnode 1\n",
        (11, "", "listing refused: BadLine, line 1\n", 0),
    ),
    (
        "grid 2\n",
        (11, "", "listing refused: BadLine, line 2\n", 0),
    ),
    (
        "scalars 1\n",
        (11, "", "listing refused: BadLine, line 3\n", 0),
    ),
    ("slots\n", (11, "", "listing refused: BadLine, line 4\n", 0)),
    (
        "cells 0\n",
        (11, "", "listing refused: BadLine, line 5\n", 0),
    ),
    (
        "text 6869\n",
        (11, "", "listing refused: BadLine, line 6\n", 0),
    ),
    (
        "expr n20\n",
        (11, "", "listing refused: BadLine, line 7\n", 0),
    ),
    (
        "expr s0 n1 +\n",
        (11, "", "listing refused: BadLine, line 8\n", 0),
    ),
    ("code\n", (11, "", "listing refused: BadLine, line 9\n", 0)),
    ("set 0 0 1\n", (0, "", "", 2)),
    ("print 0\n", (0, "", "", 4)),
    ("number 1\n", (0, "hi", "", 6)),
    ("end\n", (0, "hi21", "", 8)),
    ("", (0, "hi21", "", 8)),
];

#[test]
fn listings_cut_behind_each_line(rt: HostRuntime) -> Result<(), Fail> {
    let mut text = Vec::new(rt.alloc());
    for (line, wanted) in CUT_LISTINGS {
        expect(&rt, rt.alloc(), &["exec", "a"], &text, "", wanted)?;
        text.extend_from_slice(line.as_bytes())?;
    }
    Ok(())
}
