//! Runs that are cut in two: a grid is saved where all turns were given, and the run goes on.
use super::rows::{Answer, Call, Failing, NEVER, Row, USAGE, answer_to, expect, expect_failing};
use std::alloc::{AllocError, Global};
use std::process::Abort;
use std::test::Fail;

/// Each processor adds 1 to 20, and the first one prints that.
const FIRST: &str = "zplnode 1\ngrid 2\nscalars 1\nslots\ncells 0\ntext 6869\nexpr n20\n\
    expr s0 n1 +\ncode\nset 0 0 1\nprint 0\nnumber 1\nend\n";

/// It after five turns.
const FIRST_SAVED: &str = "zplsave 1\ncounts 5 0 0\nzplnode 1\ngrid 2\nscalars 1\nslots\ncells 0\n\
    text 6869\nexpr n20\nexpr s0 n1 +\ncode\nset 0 0 1\nprint 0\nnumber 1\nend\n\
    proc 0 at 3 made 0 index 0 member 0 flag -1 end -\nscalars 20\ncells\n\
    proc 1 at 2 made 0 index 0 member 0 flag -1 end -\nscalars 20\ncells\n";

/// A sum over both processors.
const FOLD: &str = "zplnode 1\ngrid 2\nscalars 1\nslots\ncells 0\ncode\nfold 0 sum\nend\n";

/// It after two turns, with a message on its way.
const FOLD_SAVED: &str = "zplsave 1\ncounts 2 1 1\nzplnode 1\ngrid 2\nscalars 1\nslots\ncells 0\n\
    code\nfold 0 sum\nend\n\
    proc 0 at 0 made 0 index 0 member 0 flag -1 end -\nscalars 0\ncells\n\
    proc 1 at 0 made 1 index 0 member 0 flag -1 end -\nscalars 0\ncells\nmsg 0 1 0\n";

/// A processor stands behind the code.
const PAST_CODE: &str = "zplsave 1\ncounts 2 1 1\nzplnode 1\ngrid 2\nscalars 1\nslots\ncells 0\n\
    code\nfold 0 sum\nend\n\
    proc 0 at 9 made 0 index 0 member 0 flag -1 end -\nscalars 0\ncells\n\
    proc 1 at 0 made 1 index 0 member 0 flag -1 end -\nscalars 0\ncells\nmsg 0 1 0\n";

/// The message is gone: no run left that.
const UNSENT: &str = "zplsave 1\ncounts 2 1 1\nzplnode 1\ngrid 2\nscalars 1\nslots\ncells 0\n\
    code\nfold 0 sum\nend\n\
    proc 0 at 0 made 0 index 0 member 0 flag -1 end -\nscalars 0\ncells\n\
    proc 1 at 0 made 1 index 0 member 0 flag -1 end -\nscalars 0\ncells\n";

/// What comes of each, and the turns that are counted.
const ROWS: [Row; 12] = [
    (
        &["exec", "a", "turns=5", "save"],
        FIRST,
        (8, "hi21", FIRST_SAVED, 5),
    ),
    (
        &["resume", "a", "report"],
        FIRST_SAVED,
        (0, "", "turns 9 sends 0 words 0\n", 9),
    ),
    (
        &["exec", "a", "turns=2", "save"],
        FOLD,
        (8, "", FOLD_SAVED, 2),
    ),
    (
        &["resume", "a", "report"],
        FOLD_SAVED,
        (0, "", "turns 10 sends 2 words 2\n", 10),
    ),
    (
        &["resume", "a"],
        PAST_CODE,
        (16, "", "save refused: BadState, line 11\n", 0),
    ),
    (
        &["resume", "a"],
        FIRST,
        (16, "", "save refused: BadLine, line 1\n", 0),
    ),
    (
        &["resume", "a"],
        UNSENT,
        (12, "", "stuck: processor 0, Idle\n", 2),
    ),
    (&["resume", "b"], FIRST_SAVED, (2, "", "cannot read b\n", 0)),
    (&["exec", "a", "save", "report"], FIRST, (1, "", USAGE, 0)),
    (&["exec", "a", "save", "links=1"], FIRST, (1, "", USAGE, 0)),
    (&["exec", "a", "save", "checked"], FIRST, (1, "", USAGE, 0)),
    (&["exec", "a", "save"], FIRST, (0, "hi21", "", 8)),
];

/// The code is in the answer, once it was read.
#[test]
fn runs_that_are_cut(rt: HostRuntime) -> Result<(), Fail> {
    for (words, text, wanted) in ROWS.iter() {
        let found = answer_with(rt.alloc(), words, text.as_bytes())?;
        let reads = found.status == 0 || found.status == 8 || found.status == 12;
        assert!(rt; found.is(*wanted) && found.has_code == reads, "{words:?}");
    }
    Ok(())
}

/// An order that is refused: no turn is given, and the counts are the saved ones.
#[test]
fn no_turn_from_a_saved_grid(rt: HostRuntime) -> Result<(), Fail> {
    let words = ["resume", "a", "order=o"];
    let wanted = (6, "", "order refused, byte 2\n", 5);
    expect(
        &rt,
        rt.alloc(),
        &words,
        FIRST_SAVED.as_bytes(),
        "1 2",
        wanted,
    )?;
    Ok(())
}

/// The first lines of `FOLD_SAVED`, and the states in it.
const HEAD: &str = "zplsave 1\ncounts 2 1 1\nzplnode 1\ngrid 2\nscalars 1\nslots\ncells 0\n\
    code\nfold 0 sum\nend\n";

const ONE: &str = "proc 0 at 0 made 0 index 0 member 0 flag -1 end -\nscalars 0\ncells\n";

const OTHER: &str = "proc 1 at 0 made 1 index 0 member 0 flag -1 end -\nscalars 0\ncells\n";

const SENT: &str = "msg 0 1 0\n";

/// Texts in four parts with one wrong word, or a line that is missing, and the line that is named.
const WRONG: [([&str; 4], &str); 18] = [
    (
        ["zplsave 2\n", "", "", ""],
        "save refused: BadLine, line 1\n",
    ),
    (
        [
            "zplsave 1\ncounts 4611686018427387904 1 1\n",
            ONE,
            OTHER,
            SENT,
        ],
        "save refused: BadLine, line 2\n",
    ),
    (
        [
            "zplsave 1\ncounts 2 1 1\nzplnode 1\ngrid 2\nscalars 1\nslots\ncells 0\ncode\nfold 1 sum\nend\n",
            ONE,
            OTHER,
            SENT,
        ],
        "save refused: BadTable, line 9\n",
    ),
    (
        [
            HEAD,
            "proc 0 at 0 made 0 index 0 member 0 flag -1 end\nscalars 0\ncells\n",
            OTHER,
            SENT,
        ],
        "save refused: BadLine, line 11\n",
    ),
    (
        [HEAD, OTHER, ONE, SENT],
        "save refused: BadState, line 11\n",
    ),
    (
        [
            HEAD,
            "proc 0 at 0 made 9 index 0 member 0 flag -1 end -\nscalars 0\ncells\n",
            OTHER,
            SENT,
        ],
        "save refused: BadState, line 11\n",
    ),
    (
        [
            HEAD,
            "proc 0 at 0 made 0 index 1 member 0 flag -1 end -\nscalars 0\ncells\n",
            OTHER,
            SENT,
        ],
        "save refused: BadState, line 11\n",
    ),
    (
        [
            HEAD,
            "proc 0 at 0 made 0 index 0 member 1 flag -1 end -\nscalars 0\ncells\n",
            OTHER,
            SENT,
        ],
        "save refused: BadState, line 11\n",
    ),
    (
        [
            HEAD,
            "proc 0 at 0 made 0 index 0 member 0 flag 0 end -\nscalars 0\ncells\n",
            OTHER,
            SENT,
        ],
        "save refused: BadState, line 11\n",
    ),
    (
        [
            HEAD,
            "proc 0 at 0 made 0 index 0 member 0 flag -1 end trap:5:1\nscalars 0\ncells\n",
            OTHER,
            SENT,
        ],
        "save refused: BadState, line 11\n",
    ),
    (
        [
            HEAD,
            "proc 0 at 0 made 0 index 0 member 0 flag -1 end -\nscalars 0 0\ncells\n",
            OTHER,
            SENT,
        ],
        "save refused: BadState, line 12\n",
    ),
    (
        [
            HEAD,
            "proc 0 at 0 made 0 index 0 member 0 flag -1 end -\nscalars 0\ncells 0\n",
            OTHER,
            SENT,
        ],
        "save refused: BadState, line 13\n",
    ),
    (
        [HEAD, ONE, OTHER, "msg 0 1 0\nkept 0 0\n"],
        "save refused: BadState, line 18\n",
    ),
    ([HEAD, ONE, "", ""], "save refused: BadState, line 13\n"),
    (
        [HEAD, ONE, OTHER, "msg 1 1 0\n"],
        "save refused: BadState, line 17\n",
    ),
    (
        [HEAD, ONE, OTHER, "msg 2 1 0\n"],
        "save refused: BadState, line 17\n",
    ),
    (
        [HEAD, ONE, OTHER, "msg 0 -1 0\n"],
        "save refused: BadState, line 17\n",
    ),
    (
        [HEAD, ONE, OTHER, "msg 0 1 0\nscalars 0\n"],
        "save refused: BadState, line 18\n",
    ),
];

/// Calls with these words and this text, where nothing fails.
fn answer_with(alloc: Global, words: &[&str], text: &[u8]) -> Result<Answer, AllocError> {
    let call = Call {
        words,
        text,
        order: "",
        fails: [NEVER, NEVER, NEVER],
    };
    answer_to(alloc, call)
}

#[test]
fn texts_of_no_grid(rt: HostRuntime) -> Result<(), Fail> {
    let alloc = rt.alloc();
    for (parts, told) in WRONG.iter() {
        let mut text = Vec::new(alloc);
        for part in parts {
            text.extend_from_slice(part.as_bytes())?;
        }
        let found = answer_with(alloc, &["resume", "a"], text.as_slice())?;
        assert!(rt; found.is((16, "", told, 0)), "{told}");
    }
    Ok(())
}

/// The lines of a grid in a loop: a processor goes on in a `while` at its second index, and the other
/// has done all its indices.
const STATES: [&str; 39] = [
    "zplsave 1",
    "counts 9 2 3",
    "zplnode 1",
    "grid 2",
    "scalars 1",
    "slots 1",
    "cells 1",
    "array 0..3:1,1",
    "array -",
    "expr n0",
    "expr c0 n3 <",
    "expr c0 n1 +",
    "group",
    "cell 0 0 - 1",
    "while 1 - 2",
    "cell 0 2 - 3",
    "od",
    "put 0 0 - 4",
    "exchange",
    "item 0 0 -1",
    "code",
    "fix 0 0..3:1:0",
    "loop 0 0",
    "start 0",
    "finish 0",
    "fold 0 sum",
    "end",
    "proc 0 at 1 made 0 index 1 member 1 flag -1 end -",
    "scalars 0",
    "slot 0..3:1:0",
    "cells 2",
    "store 0..2 : 0 0 0",
    "store 1..0 :",
    "proc 1 at 1 made 0 index 2 member 0 flag -1 end -",
    "scalars 0",
    "slot 0..3:1:0",
    "cells 3",
    "store 1..3 : 0 0 0",
    "store 1..0 :",
];

/// How many lines stand in front of one, what stands in its place, and the line that is named.
const WRONG_STATES: [(usize, &str, &str); 50] = [
    (27, "proc 0 at 1 made 0 index 1 member 1 flag 5 end -", "28"),
    (
        27,
        "proc 0 at 1 made 0 index 1 member 1 flag -2 end -",
        "28",
    ),
    (
        27,
        "proc 0 at 1 made 0 index 1 member 2 flag -1 end -",
        "28",
    ),
    (
        27,
        "proc 0 at 1 made 0 index 2 member 1 flag -1 end -",
        "28",
    ),
    (
        27,
        "proc 0 at 1 made 0 index 3 member 0 flag -1 end -",
        "28",
    ),
    (
        27,
        "proc 0 at 1 made 1 index 1 member 1 flag -1 end -",
        "28",
    ),
    (
        27,
        "proc 0 at 1 made -1 index 1 member 1 flag -1 end -",
        "28",
    ),
    (
        27,
        "proc 0 at 1 made 0 index -1 member 0 flag -1 end -",
        "28",
    ),
    (
        27,
        "proc 0 at 7 made 0 index 0 member 0 flag -1 end -",
        "28",
    ),
    (
        27,
        "proc 0 at -1 made 0 index 0 member 0 flag -1 end -",
        "28",
    ),
    (
        27,
        "proc 0 at 6 made 1 index 0 member 0 flag -1 end -",
        "28",
    ),
    (
        27,
        "proc 0 at 2 made 2 index 0 member 0 flag -1 end -",
        "28",
    ),
    (
        27,
        "proc 0 at 0 made 1 index 0 member 0 flag -1 end -",
        "28",
    ),
    (
        27,
        "proc 0 at 2 made 0 index 1 member 0 flag -1 end -",
        "28",
    ),
    (
        27,
        "proc 0 at 2 made 0 index 0 member 1 flag -1 end -",
        "28",
    ),
    (
        27,
        "proc 0 at 1 made 0 index 1 member 0 flag -1 end done",
        "28",
    ),
    (
        27,
        "proc 0 at 1 made 1 index 0 member 0 flag -1 end done",
        "28",
    ),
    (
        27,
        "proc 0 at 5 made 0 index 0 member 0 flag -1 end trap:0:1",
        "28",
    ),
    (
        27,
        "proc 0 at 5 made 0 index 0 member 0 flag -1 end trap:5:1",
        "28",
    ),
    (
        27,
        "proc 0 at 5 made 0 index 0 member 0 flag -1 end trap:1:4294967296",
        "28",
    ),
    (
        27,
        "proc 0 at 5 made 0 index 0 member 0 flag -1 end trap:1:-1",
        "28",
    ),
    (
        27,
        "proc 1 at 1 made 0 index 1 member 1 flag -1 end -",
        "28",
    ),
    (28, "scalars", "29"),
    (28, "scalars 0 0", "29"),
    (28, "cells 2", "29"),
    (29, "slot 0..3:1:0 0..3:1:0", "30"),
    (29, "slot 0..3:0:0", "30"),
    (29, "slot 0..4294967296:1:0", "30"),
    (30, "cells", "31"),
    (31, "store 0..3 : 0 0 0 0", "32"),
    (31, "store 0..1 : 0 0", "32"),
    (31, "store 0..2 : 0 0", "32"),
    (31, "store * : 0", "32"),
    (32, "store 2..3 : 0 0", "33"),
    (32, "store 1..2 : 0 0", "33"),
    (32, "store * : 0", "33"),
    (32, "store 0..1 : 0", "33"),
    (32, "kept 1 0", "33"),
    (33, "kept 1 0", "34"),
    (32, "store 1..0 :\nkept 1 0", "34"),
    (32, "store 1..0 :\nmsg 0 3 0", "34"),
    (32, "store 1..0 :\nmsg 1 3 0\nmsg 0 3 0", "35"),
    (38, "msg 0 0 0", "39"),
    (38, "store 1..0 :\nkept 0 7", "40"),
    (38, "store 1..0 :\nmsg 1 0 0", "40"),
    (38, "store 1..0 :\nmsg 2 0 0", "40"),
    (38, "store 1..0 :\nmsg -1 0 0", "40"),
    (38, "store 1..0 :\nmsg 0 -1 0", "40"),
    (38, "store 1..0 :\nmsg 0 0 0\nscalars 0", "41"),
    (
        38,
        "store 1..0 :\nproc 2 at 0 made 0 index 0 member 0 flag -1 end -",
        "40",
    ),
];

/// The text of these lines with one in the place of that behind so many.
fn states_with(alloc: Global, behind: usize, line: &str) -> Result<Vec<u8>, AllocError> {
    let mut text = Vec::new(alloc);
    for i in 0..STATES.len() {
        let shown = if i == behind { line } else { STATES[i] };
        text.extend_from_slice(shown.as_bytes())?;
        text.extend_from_slice(b"\n")?;
    }
    Ok(text)
}

/// Each rule of states is looked at, and the line that breaks it named.
#[test]
fn states_of_no_processor(rt: HostRuntime) -> Result<(), Fail> {
    let alloc = rt.alloc();
    let whole = states_with(alloc, STATES.len(), "")?;
    let found = answer_with(alloc, &["resume", "a"], whole.as_slice())?;
    assert!(rt; found.status == 0);
    for (behind, line, named) in WRONG_STATES.iter() {
        let text = states_with(alloc, *behind, line)?;
        let mut told = Vec::from_slice(alloc, b"save refused: BadState, line ")?;
        told.extend_from_slice(named.as_bytes())?;
        told.extend_from_slice(b"\n")?;
        let found = answer_with(alloc, &["resume", "a"], text.as_slice())?;
        assert!(rt;
            found.status == 16 && found.errs.as_slice() == told.as_slice(),
            "{line}"
        );
    }
    Ok(())
}

const JACOBI: &str =
    "program jacobi;\nconfig var n : integer = 8;\n           delta : integer = 100;\n\
    region R = [1..n, 1..n];\ndirection north = [-1, 0]; south = [1, 0];\n\
    \x20         west = [0, -1]; east = [0, 1];\nvar A, T : [R] integer;\n    err, turns : integer;\n\
    procedure jacobi();\n[R] begin\n  [north of R] A := 0;\n  [west of R] A := 0;\n\
    \x20 [east of R] A := 0;\n  [south of R] A := 1000;\n  repeat\n\
    \x20   T := (A@north + A@south + A@west + A@east) / 4;\n\
    \x20   err := max<<max(A - T, T - A);\n    A := T;\n    turns += 1;\n  until err < delta;\n\
    \x20 writeln(\"turns \", turns, \", change \", err);\n  write(A);\nend;\n";

const JACOBI_PRINTS: &str = "turns 3, change 78\n0 0 0 0 0 0 0 0\n0 0 0 0 0 0 0 0\n\
    0 0 0 0 0 0 0 0\n0 0 0 0 0 0 0 0\n0 0 0 0 0 0 0 0\n15 15 15 15 15 15 15 15\n\
    93 124 124 124 124 124 124 93\n359 437 453 453 453 453 437 359\n";

/// Runs a listing for so many turns, goes on from its saved grid, and gives what both print.
fn printed_in_parts(
    rt: &impl Abort,
    alloc: Global,
    listing: &[u8],
    turns: &str,
) -> Result<Vec<u8>, AllocError> {
    let first = answer_with(alloc, &["exec", "a", turns, "save"], listing)?;
    assert!(rt; first.status == 8);
    let next = answer_with(alloc, &["resume", "a"], first.errs.as_slice())?;
    assert!(rt; next.status == 0);
    let mut printed = first.out;
    printed.extend_from_slice(next.out.as_slice())?;
    Ok(printed)
}

/// A program is run in two parts, cut after few and many turns.
#[test]
fn a_run_in_two_parts(rt: HostRuntime) -> Result<(), Fail> {
    let alloc = rt.alloc();
    let listed = answer_with(alloc, &["list", "a", "grid=2x2"], JACOBI.as_bytes())?;
    for turns in ["turns=1", "turns=100", "turns=500"] {
        let printed = printed_in_parts(&rt, alloc, listed.out.as_slice(), turns)?;
        assert!(rt; printed.as_slice() == JACOBI_PRINTS.as_bytes(), "{turns}");
    }
    Ok(())
}

/// Puts that fail: of the saved grid, of a refusal, and of what is printed.
const FAILING: [Failing; 3] = [
    (
        [NEVER, NEVER, 0],
        (&["exec", "a", "turns=5", "save"], FIRST, (9, "hi21", "", 5)),
    ),
    (
        [NEVER, NEVER, 0],
        (&["resume", "a"], PAST_CODE, (9, "", "", 0)),
    ),
    (
        [0, NEVER, NEVER],
        (&["resume", "a"], FIRST_SAVED, (2, "", "cannot read a\n", 0)),
    ),
];

#[test]
fn fetches_and_puts_that_fail(rt: HostRuntime) -> Result<(), Fail> {
    expect_failing(&rt, rt.alloc(), &FAILING)?;
    Ok(())
}
