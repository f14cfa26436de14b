//! Regions that are not current, flood dimensions, masks and borders.
use super::judging::{LINES, PLANES, each_body, each_whole};
use std::test::Fail;

const IN_LINES_ONE: [(&str, &str, u32); 6] = [
    ("A := 1;", "NoRegion", 171),
    ("x := +<<A;", "NoRegion", 176),
    ("[] x := 1;", "NoRegion", 172),
    ("[e of \"] A := 1;", "NoRegion", 177),
    ("[e in \"] A := 1;", "NoRegion", 177),
    ("[R with A] B := 1;", "MaskPlace", 179),
];

const IN_LINES_TWO: [(&str, &str, u32); 7] = [
    ("[R with P] writeln(A);", "MaskPlace", 182),
    (
        "[R without P] begin x := 1; write(1, A); end;",
        "MaskPlace",
        199,
    ),
    ("[R] wrap A;", "BorderForm", 175),
    ("[e of R] begin wrap A; end;", "BorderForm", 186),
    ("[e of R at w] wrap A;", "BorderForm", 185),
    ("[e in R] wrap A;", "BorderForm", 180),
    ("[e of w of R] reflect A;", "BorderForm", 185),
];

const IN_PLANES_ONE: [(&str, &str, u32); 6] = [
    ("[R] M := 1;", "NoRegion", 265),
    ("[R] writeln(M);", "NoRegion", 265),
    ("[F] M := 1;", "FloodClash", 265),
    ("[Q2] G := 1;", "FloodClash", 266),
    ("[F] G := M;", "FloodClash", 270),
    ("[F] G := M@se;", "FloodClash", 270),
];

const IN_PLANES_TWO: [(&str, &str, u32); 7] = [
    ("[F] G := Index2;", "FloodClash", 270),
    ("[F] x := +<<G;", "FloodClash", 270),
    ("[F] G := +||G;", "FloodClash", 270),
    ("[F] writeln(G);", "FloodClash", 265),
    ("[Q2] M := +<<[F] G;", "FloodClash", 271),
    ("[Q2] M := >>[1, *] G;", "FloodClash", 271),
    ("[F with L] G := 1;", "FloodClash", 269),
];

const WHOLE: [(&str, &str, u32); 7] = [
    (
        "region R = [1..2, ];\nprocedure t();\nbegin\nwriteln(1);\nend;\n",
        "NoRegion",
        29,
    ),
    (
        "var A : [1..2, ] integer;\nprocedure t();\nbegin\nwriteln(1);\nend;\n",
        "NoRegion",
        26,
    ),
    (
        "region R = [, 1..2];\nprocedure t();\nbegin\nwriteln(1);\nend;\n",
        "NoRegion",
        23,
    ),
    (
        "region R = [1..4]; var A : [R] integer; procedure q(); begin A := 1; end;\nprocedure \
            t();\nbegin\nq();\nend;\n",
        "NoRegion",
        72,
    ),
    (
        "region R = [1..4]; var A : [R] integer; procedure q(); begin A := 1; end;\nprocedure \
            t();\nbegin\n[R] q();\nq();\nend;\n",
        "NoRegion",
        72,
    ),
    (
        "region R = [1..2, 1..2]; direction d = [1, 0]; var A : [R] integer; procedure q(); \
            begin A := 1; end;\nprocedure t();\nbegin\n[1..2, *] q();\nend;\n",
        "FloodClash",
        100,
    ),
    (
        "region R = [1..4]; S = [2..3]; direction e = [1]; w = [-1]; var A, B : [R] integer; P, \
            Q : [R] boolean; x, y, i : integer; p, q : boolean; procedure u(); begin \
            writeln(A); end;\nprocedure t();\nbegin\n[R] u();\n[R with P] u();\nend;\n",
        "MaskPlace",
        171,
    ),
];

#[test]
fn regions_are_current(rt: HostRuntime) -> Result<(), Fail> {
    each_body(&rt, rt.alloc(), LINES, &IN_LINES_ONE)?;
    each_body(&rt, rt.alloc(), LINES, &IN_LINES_TWO)?;
    each_body(&rt, rt.alloc(), PLANES, &IN_PLANES_ONE)?;
    each_body(&rt, rt.alloc(), PLANES, &IN_PLANES_TWO)?;
    each_whole(&rt, rt.alloc(), &WHOLE)
}
