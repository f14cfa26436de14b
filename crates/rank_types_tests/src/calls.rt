//! Shattered statements, assignments, calls and their ends.
use super::judging::{CALLS, LINES, PLANES, RESULTS, each_body, each_whole};
use std::test::Fail;

const IN_LINES: [(&str, &str, u32); 4] = [
    ("[R] if A > 1 then x := 1; end;", "ShatterBody", 189),
    ("[R] if A > 1 then writeln(1); end;", "ShatterBody", 189),
    (
        "[R] if A > 1 then for i := 1 to 2 do A := 1; end; end;",
        "ShatterBody",
        189,
    ),
    ("return 1;", "ReturnPlace", 171),
];

const IN_PLANES: [(&str, &str, u32); 4] = [
    ("n := 1;", "NotAssignable", 261),
    ("c := 1;", "NotAssignable", 261),
    ("n += 1;", "NotAssignable", 261),
    ("for n := 1 to 2 do x := 1; end;", "NotAssignable", 265),
];

const IN_CALLS: [(&str, &str, u32); 9] = [
    ("u();", "Arguments", 298),
    ("u(1, 2);", "Arguments", 298),
    ("v(1);", "Arguments", 298),
    ("v(x + 1);", "Arguments", 298),
    ("v(p);", "Arguments", 298),
    ("v((x));", "Arguments", 298),
    ("o(1);", "Arguments", 298),
    ("[R] o(A + B);", "Arguments", 302),
    ("o(P);", "Arguments", 298),
];

const IN_RESULTS: [(&str, &str, u32); 9] = [
    ("x := f() + 1;", "CallPlace", 179),
    ("x := (f());", "CallPlace", 180),
    ("x += f();", "CallPlace", 179),
    ("[R] A := f();", "CallPlace", 183),
    ("writeln(f());", "CallPlace", 182),
    ("f();", "CallPlace", 174),
    ("x := g();", "CallPlace", 179),
    ("for x := 1 to f() do p := true; end;", "CallPlace", 188),
    ("[1..f()] A := 1;", "CallPlace", 178),
];

const WHOLE_ONE: [(&str, &str, u32); 7] = [
    (
        "region R = [1..4]; S = [2..3]; direction e = [1]; w = [-1]; var A, B : [R] integer; P, \
            Q : [R] boolean; x, y, i : integer; p, q : boolean; procedure u(); begin \
            end;\nprocedure t();\nbegin\n[R] if A > 1 then u(); end;\nend;\n",
        "ShatterBody",
        215,
    ),
    (
        "region R = [1..4]; S = [2..3]; direction e = [1]; w = [-1]; var A, B : [R] integer; P, \
            Q : [R] boolean; x, y, i : integer; p, q : boolean; var M : [1..4, 1..4] \
            integer;\nprocedure t();\nbegin\n[1..4, 1..4] [R] if A > 1 then M := 1; end;\nend;\n",
        "ShatterBody",
        232,
    ),
    (
        "config var n : integer = 4; constant c : integer = 2; region R = [1..4]; Q2 = [1..3, \
            1..4]; F = [1..3, *]; direction e = [1]; se = [1, 1]; var A : [R] integer; M, N : \
            [Q2] integer; L : [Q2] boolean; G : [F] integer; x : integer; procedure u(var a : \
            integer); begin a := 1; end;\nprocedure t();\nbegin\nu(n);\nend;\n",
        "NotAssignable",
        312,
    ),
    (
        "config var n : integer = 4; constant c : integer = 2; region R = [1..4]; Q2 = [1..3, \
            1..4]; F = [1..3, *]; direction e = [1]; se = [1, 1]; var A : [R] integer; M, N : \
            [Q2] integer; L : [Q2] boolean; G : [F] integer; x : integer; procedure o(A : [F] \
            integer); begin end;\nprocedure t();\nbegin\no(M);\nend;\n",
        "Arguments",
        302,
    ),
    (
        "config var n : integer = 4; constant c : integer = 2; region R = [1..4]; Q2 = [1..3, \
            1..4]; F = [1..3, *]; direction e = [1]; se = [1, 1]; var A : [R] integer; M, N : \
            [Q2] integer; L : [Q2] boolean; G : [F] integer; x : integer; procedure o(A : [Q2] \
            integer); begin end;\nprocedure t();\nbegin\no(G);\nend;\n",
        "Arguments",
        303,
    ),
    ("procedure t();\nbegin\nt();\nend;\n", "Recursion", 32),
    (
        "procedure a(); begin a(); end;\nprocedure t();\nbegin\nend;\n",
        "Recursion",
        32,
    ),
];

const WHOLE_TWO: [(&str, &str, u32); 8] = [
    (
        "procedure q() : integer; begin end; var x : integer;\nprocedure t();\nbegin\nx := \
            q();\nend;\n",
        "ReturnPlace",
        21,
    ),
    (
        "var x : integer; procedure q() : integer; begin return 1; return 2; end;\nprocedure \
            t();\nbegin\nx := q();\nend;\n",
        "ReturnPlace",
        59,
    ),
    (
        "procedure q(); begin return 1; end;\nprocedure t();\nbegin\nq();\nend;\n",
        "ReturnPlace",
        32,
    ),
    ("procedure u();\nbegin\nend;\n", "NoEntry", 8),
    ("", "NoEntry", 8),
    ("var t : integer;\n", "NoEntry", 8),
    ("procedure t(a : integer);\nbegin\nend;\n", "NoEntry", 8),
    (
        "procedure t() : integer;\nbegin\nreturn 1;\nend;\n",
        "NoEntry",
        8,
    ),
];

#[test]
fn calls_fit(rt: HostRuntime) -> Result<(), Fail> {
    each_body(&rt, rt.alloc(), LINES, &IN_LINES)?;
    each_body(&rt, rt.alloc(), PLANES, &IN_PLANES)?;
    each_body(&rt, rt.alloc(), CALLS, &IN_CALLS)?;
    each_body(&rt, rt.alloc(), RESULTS, &IN_RESULTS)?;
    each_whole(&rt, rt.alloc(), &WHOLE_ONE)?;
    each_whole(&rt, rt.alloc(), &WHOLE_TWO)
}
