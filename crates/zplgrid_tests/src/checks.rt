//! Checks of listings, and runs of listings that are checked.
use super::rows::{Call, Failing, NEVER, Row, USAGE, answer_to, expect_failing};
use std::alloc::{AllocError, Global};
use std::test::Fail;

/// Nothing is exchanged.
const FIRST: &str = "zplnode 1\ngrid 2\nscalars 1\nslots\ncells 0\ntext 6869\nexpr n20\n\
    expr s0 n1 +\ncode\nset 0 0 1\nprint 0\nnumber 1\nend\n";

/// Each processor goes its own way by a sum of its own.
const OWN_WAY: &str = "zplnode 1\ngrid 2\nscalars 1\nslots 1\ncells 0\nexpr n1\nexpr s0\ngroup\n\
    acc 0 sum 0 - 1\ncode\nfix 0 1..1:1:1\nloop 0 0\nunless 1 4 1\nfold 0 sum\nend\n";

/// Two exchanges are open at once.
const CROSSED: &str = "zplnode 1\ngrid 2\nscalars 0\nslots 1\ncells 0\narray 1..4:1,1\n\
    exchange\nitem 0 0 1\nitem 0 0 -1\nexchange\nitem 0 0 1\nitem 0 0 -1\ncode\nfix 0 2..3:1:1\n\
    start 0\nstart 1\nfinish 0\nfinish 1\nend\n";

/// A place is read that isn't held.
const UNHELD: &str = "zplnode 1\ngrid 1\nscalars 0\nslots 1\ncells 0\narray 1..2:0,0\nexpr a0@1\n\
    group\nput 0 0 - 1\ncode\nfix 0 1..2:1:1\nloop 0 0\nend\n";

/// A region is made by a sum of each processor's own.
const OWN_REGION: &str = "zplnode 1\ngrid 2\nscalars 1\nslots 1 1\ncells 0\narray 1..4:0,0\n\
    expr n1\nexpr n3\nexpr n3 s0 +\ngroup\nacc 0 sum 0 - 1\ncode\nfix 0 4..4:1:1\nloop 0 0\n\
    dims 1 1..2 1\ngather number 0 1\nend\n";

const LINE: &str = "listing refused: BadLine, line 1\n";

/// Checks, and what comes of them.
const CHECKS: [Row; 8] = [
    (&["check", "a"], FIRST, (0, "sound, links 1\n", "", 0)),
    (&["check", "a"], CROSSED, (0, "sound, links 2\n", "", 0)),
    (
        &["check", "a"],
        OWN_WAY,
        (13, "", "unsound, instruction 2\n", 0),
    ),
    (
        &["check", "a"],
        UNHELD,
        (13, "", "unsound, instruction 1\n", 0),
    ),
    (
        &["check", "a"],
        OWN_REGION,
        (13, "", "unsound, instruction 2\n", 0),
    ),
    (&["check", "a"], "zplnode 2\n", (11, "", LINE, 0)),
    (&["check", "b"], FIRST, (2, "", "cannot read b\n", 0)),
    (&["check", "a", "report"], FIRST, (1, "", USAGE, 0)),
];

/// Runs of code that is checked before its order is fetched.
const RUNS: [Row; 5] = [
    (
        &["exec", "a", "checked", "report"],
        FIRST,
        (0, "hi21", "turns 8 sends 0 words 0\n", 8),
    ),
    (
        &["exec", "a", "checked", "order=b"],
        FIRST,
        (2, "", "cannot read b\n", 0),
    ),
    (
        &["exec", "a", "checked", "order=b"],
        OWN_WAY,
        (13, "", "unsound, instruction 2\n", 0),
    ),
    (
        &["exec", "a", "checked", "links=1"],
        FIRST,
        (1, "", USAGE, 0),
    ),
    (
        &["exec", "a", "checked", "checked"],
        FIRST,
        (1, "", USAGE, 0),
    ),
];

/// The code is in the answer, once it was read.
#[test]
fn checks_of_listings(rt: HostRuntime) -> Result<(), Fail> {
    for (words, text, wanted) in CHECKS.iter().chain(RUNS.iter()) {
        let call = Call {
            words,
            text: text.as_bytes(),
            order: "",
            fails: [NEVER, NEVER, NEVER],
        };
        let found = answer_to(rt.alloc(), call)?;
        let reads = found.status == 0 || found.status == 13;
        let is_ordered = words.last() == Some(&"order=b");
        assert!(rt;
            found.is(*wanted) && (is_ordered || found.has_code == reads),
            "{words:?}"
        );
    }
    Ok(())
}

/// The rows of code, of which there are as many as may be checked, or one more.
fn rows_of(alloc: Global, count: usize) -> Result<Vec<u8>, AllocError> {
    let head = b"zplnode 1\ngrid 1\nscalars 0\nslots\ncells 0\ncode\n";
    let mut text = Vec::from_slice(alloc, head)?;
    for _ in 0..count {
        text.extend_from_slice(b"end\n")?;
    }
    Ok(text)
}

#[test]
fn as_much_code_as_is_checked(rt: HostRuntime) -> Result<(), Fail> {
    for (count, status) in [(16_384, 0), (16_385, 14)] {
        let text = rows_of(rt.alloc(), count)?;
        let call = Call {
            words: &["check", "a"],
            text: text.as_slice(),
            order: "",
            fails: [NEVER, NEVER, NEVER],
        };
        let found = answer_to(rt.alloc(), call)?;
        let told = found.errs.as_slice() == b"check limit\n".as_slice();
        assert!(rt; found.status == status && told == (status == 14), "{count}");
    }
    Ok(())
}

/// A fetch and puts that fail.
const FAILING: [Failing; 3] = [
    (
        [0, NEVER, NEVER],
        (&["check", "a"], FIRST, (2, "", "cannot read a\n", 0)),
    ),
    ([NEVER, 0, NEVER], (&["check", "a"], FIRST, (9, "", "", 0))),
    (
        [NEVER, NEVER, 0],
        (&["check", "a"], OWN_WAY, (9, "", "", 0)),
    ),
];

#[test]
fn fetches_and_puts_that_fail(rt: HostRuntime) -> Result<(), Fail> {
    expect_failing(&rt, rt.alloc(), &FAILING)?;
    Ok(())
}
