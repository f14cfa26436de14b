//! Types and ranks that differ, and ranks that no rule gives.
use super::judging::{LINES, PLANES, each_body, each_whole};
use std::test::Fail;

const IN_LINES_ONE: [(&str, &str, u32); 8] = [
    ("p := x;", "TypeClash", 176),
    ("p := 1;", "TypeClash", 176),
    ("p := x + y;", "TypeClash", 176),
    ("[R] P := A;", "TypeClash", 180),
    ("if x then y := 1; end;", "TypeClash", 174),
    ("while x do y := 1; end;", "TypeClash", 177),
    ("repeat y := 1; until x;", "TypeClash", 192),
    (
        "if p then x := 1; elsif y then x := 2; end;",
        "TypeClash",
        195,
    ),
];

const IN_LINES_TWO: [(&str, &str, u32); 9] = [
    ("p := !x;", "TypeClash", 177),
    ("p := p & x;", "TypeClash", 180),
    ("p := x | p;", "TypeClash", 176),
    ("[R] p := &<<A;", "TypeClash", 183),
    ("[R] P := |||A;", "TypeClash", 183),
    ("p &= x;", "TypeClash", 176),
    ("x := Index1;", "RankUnknown", 176),
    ("writeln(Index1);", "RankUnknown", 179),
    ("[\"] x := 1;", "RankUnknown", 172),
];

const IN_PLANES_ONE: [(&str, &str, u32); 8] = [
    ("[Q2] M := A;", "RankClash", 271),
    ("[Q2] M := N + A;", "RankClash", 275),
    ("[R] x := A;", "RankClash", 270),
    ("[Q2] M := N@e;", "RankClash", 273),
    ("[e of Q2] M := 1;", "RankClash", 267),
    ("[e in Q2] M := 1;", "RankClash", 267),
    ("[Q2 at e] M := 1;", "RankClash", 268),
    ("[Q2 by e] M := 1;", "RankClash", 268),
];

const IN_PLANES_TWO: [(&str, &str, u32); 8] = [
    ("[R with L] A := 1;", "RankClash", 269),
    ("[R] for x := A to 3 do x := 1; end;", "RankClash", 274),
    ("[R] for x := 1 to 3 by A do x := 1; end;", "RankClash", 284),
    ("[R] A := Index2;", "RankClash", 270),
    ("[Q2] M := Index3;", "RankClash", 271),
    ("[R] A := A + (1 - Index2);", "RankClash", 279),
    ("[R] begin [A..3] A := 1; end;", "RankClash", 272),
    ("[e of R] wrap M;", "RankClash", 275),
];

const WHOLE: [(&str, &str, u32); 9] = [
    (
        "config var b : boolean = 1;\nprocedure t();\nbegin\nwriteln(b);\nend;\n",
        "TypeClash",
        36,
    ),
    (
        "procedure q() : boolean; begin return 1; end; var p : boolean;\nprocedure \
            t();\nbegin\np := q();\nend;\n",
        "TypeClash",
        49,
    ),
    (
        "region R = [1..2, 1..2, 1..2, 1..2];\nprocedure t();\nbegin\nwriteln(1);\nend;\n",
        "RankClash",
        41,
    ),
    (
        "region R = [1..2, 1..2, 1..2, *];\nprocedure t();\nbegin\nwriteln(1);\nend;\n",
        "RankClash",
        41,
    ),
    (
        "direction d = [1, 2, 3, 4];\nprocedure t();\nbegin\nwriteln(1);\nend;\n",
        "RankClash",
        35,
    ),
    (
        "region R = [1..2]; direction d = [1, 1]; region S = d of R;\nprocedure \
            t();\nbegin\nwriteln(1);\nend;\n",
        "RankClash",
        68,
    ),
    (
        "region R = [1..2]; direction d = [1, 1]; region S = R at d;\nprocedure \
            t();\nbegin\nwriteln(1);\nend;\n",
        "RankClash",
        68,
    ),
    (
        "procedure q() : integer; var A : [1..2] integer; begin [1..2] return A; end; var x : \
            integer;\nprocedure t();\nbegin\nx := q();\nend;\n",
        "RankClash",
        80,
    ),
    (
        "region R = [1..4]; S = [2..3]; direction e = [1]; w = [-1]; var A, B : [R] integer; P, \
            Q : [R] boolean; x, y, i : integer; p, q : boolean; procedure u(); begin \
            writeln(Index1); end;\nprocedure t();\nbegin\n[R] u();\nend;\n",
        "RankUnknown",
        179,
    ),
];

#[test]
fn types_and_ranks_agree(rt: HostRuntime) -> Result<(), Fail> {
    each_body(&rt, rt.alloc(), LINES, &IN_LINES_ONE)?;
    each_body(&rt, rt.alloc(), LINES, &IN_LINES_TWO)?;
    each_body(&rt, rt.alloc(), PLANES, &IN_PLANES_ONE)?;
    each_body(&rt, rt.alloc(), PLANES, &IN_PLANES_TWO)?;
    each_whole(&rt, rt.alloc(), &WHOLE)
}
