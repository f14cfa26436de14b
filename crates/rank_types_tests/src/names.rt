//! Names that are not there, names that are there twice, and types that are none.
use super::judging::{LINES, each_body, each_whole};
use std::test::Fail;

const IN_LINES_ONE: [(&str, &str, u32); 9] = [
    ("z := 1;", "UnknownName", 171),
    ("x := y + z;", "UnknownName", 180),
    ("[T] A := 1;", "UnknownName", 172),
    ("[f of R] A := 1;", "UnknownName", 172),
    ("[e of T] A := 1;", "UnknownName", 177),
    ("[R at f] A := 1;", "UnknownName", 177),
    ("[R] B := A@f;", "UnknownName", 182),
    ("[R] B := A@R;", "UnknownName", 182),
    ("f();", "UnknownName", 171),
];

const IN_LINES_TWO: [(&str, &str, u32); 10] = [
    ("x();", "UnknownName", 171),
    ("R := 1;", "UnknownName", 171),
    ("e := 1;", "UnknownName", 171),
    ("t := 1;", "UnknownName", 171),
    ("x := R;", "UnknownName", 176),
    ("x := e + 1;", "UnknownName", 176),
    ("[R with Z] A := 1;", "UnknownName", 179),
    ("for k := 1 to 2 do x := 1; end;", "UnknownName", 175),
    ("[e of R] wrap Z;", "UnknownName", 185),
    ("[e of R] reflect A, Z;", "UnknownName", 191),
];

const WHOLE_ONE: [(&str, &str, u32); 11] = [
    (
        "constant c : integer = d; d : integer = 1;\nprocedure t();\nbegin\nwriteln(c);\nend;\n",
        "UnknownName",
        34,
    ),
    (
        "constant c : integer = c;\nprocedure t();\nbegin\nwriteln(1);\nend;\n",
        "UnknownName",
        34,
    ),
    (
        "config var n : integer = x; var x : integer;\nprocedure \
            t();\nbegin\nwriteln(n);\nend;\n",
        "UnknownName",
        36,
    ),
    (
        "var x : integer; config var n : integer = x;\nprocedure \
            t();\nbegin\nwriteln(n);\nend;\n",
        "UnknownName",
        53,
    ),
    (
        "region S = R; R = [1..2];\nprocedure t();\nbegin\nwriteln(1);\nend;\n",
        "UnknownName",
        22,
    ),
    (
        "region R = [1..2]; S = d of R; direction d = [1];\nprocedure \
            t();\nbegin\nwriteln(1);\nend;\n",
        "UnknownName",
        34,
    ),
    (
        "var A : [R] integer; region R = [1..2];\nprocedure t();\nbegin\nwriteln(1);\nend;\n",
        "UnknownName",
        20,
    ),
    (
        "var n : integer; region R = [1..n];\nprocedure t();\nbegin\nwriteln(1);\nend;\n",
        "UnknownName",
        43,
    ),
    (
        "var n : integer; direction d = [n];\nprocedure t();\nbegin\nwriteln(1);\nend;\n",
        "UnknownName",
        43,
    ),
    (
        "var x, y : integer; procedure q(a : integer); begin y := a; end;\nprocedure \
            t();\nbegin\na := 1;\nend;\n",
        "UnknownName",
        97,
    ),
    (
        "region R = [1..4]; var A : [R] integer; x : integer;\nprocedure t();\nbegin\n[R] A := \
            A@[x];\nend;\n",
        "UnknownName",
        97,
    ),
];

const WHOLE_TWO: [(&str, &str, u32); 12] = [
    (
        "var x : integer; x : boolean;\nprocedure t();\nbegin\nwriteln(1);\nend;\n",
        "TwiceNamed",
        28,
    ),
    (
        "var x, x : integer;\nprocedure t();\nbegin\nwriteln(1);\nend;\n",
        "TwiceNamed",
        18,
    ),
    (
        "region R = [1..2]; direction R = [1];\nprocedure t();\nbegin\nwriteln(1);\nend;\n",
        "TwiceNamed",
        40,
    ),
    (
        "config var n : integer = 1; n : integer = 2;\nprocedure \
            t();\nbegin\nwriteln(1);\nend;\n",
        "TwiceNamed",
        39,
    ),
    (
        "procedure q(); begin end; procedure q(); begin end;\nprocedure \
            t();\nbegin\nwriteln(1);\nend;\n",
        "TwiceNamed",
        47,
    ),
    (
        "procedure q(a, a : integer); begin end;\nprocedure t();\nbegin\nwriteln(1);\nend;\n",
        "TwiceNamed",
        26,
    ),
    (
        "procedure q(a : integer); var a : integer; begin end;\nprocedure \
            t();\nbegin\nwriteln(1);\nend;\n",
        "TwiceNamed",
        41,
    ),
    (
        "procedure q(); var a : integer; a : boolean; begin end;\nprocedure \
            t();\nbegin\nwriteln(1);\nend;\n",
        "TwiceNamed",
        43,
    ),
    (
        "var x : float;\nprocedure t();\nbegin\nwriteln(1);\nend;\n",
        "UnknownType",
        19,
    ),
    (
        "procedure q(a : double); begin end;\nprocedure t();\nbegin\nwriteln(1);\nend;\n",
        "UnknownType",
        27,
    ),
    (
        "procedure q() : real; begin return 1; end;\nprocedure t();\nbegin\nwriteln(1);\nend;\n",
        "UnknownType",
        27,
    ),
    (
        "constant c : string = 1;\nprocedure t();\nbegin\nwriteln(1);\nend;\n",
        "UnknownType",
        24,
    ),
];

#[test]
fn names_are_known_and_once(rt: HostRuntime) -> Result<(), Fail> {
    each_body(&rt, rt.alloc(), LINES, &IN_LINES_ONE)?;
    each_body(&rt, rt.alloc(), LINES, &IN_LINES_TWO)?;
    each_whole(&rt, rt.alloc(), &WHOLE_ONE)?;
    each_whole(&rt, rt.alloc(), &WHOLE_TWO)
}
