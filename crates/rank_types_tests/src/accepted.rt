//! Texts without a fault.
use super::judging::each_accepted;
use std::test::Fail;

const NAMES: [&str; 7] = [
    // a parameter hides a global variable of another type
    "var x : boolean; procedure q(x : integer);\nbegin\nx := 1;\nend;\nprocedure t();\nbegin\nx \
        := true;\nq(2);\nend;\n",
    // a local variable hides a region
    "region R = [1..4]; procedure q(); var R : [1..2] integer;\nbegin\n[1..2] R := \
        1;\nend;\nprocedure t();\nbegin\nq();\nend;\n",
    // a local variable hides a procedure
    "procedure f() : integer; begin return 1; end;\nprocedure t(); var f : integer;\nbegin\nf \
        := 2;\nend;\n",
    // the same local name in two procedures
    "procedure q(); var a : integer;\nbegin\na := 1;\nend;\nprocedure t(); var a : \
        boolean;\nbegin\na := true;\nq();\nend;\n",
    // a procedure is called before it stands in the text
    "procedure t();\nbegin\nq();\nend;\nprocedure q();\nbegin\nend;\n",
    // a procedure that nobody calls
    "procedure q();\nbegin\nend;\nprocedure t();\nbegin\nend;\n",
    // names that stand earlier
    "config var n : integer = 4; constant c : integer = n + 1; region R = [1..c];\nprocedure \
        t();\nbegin\nend;\n",
];

const PROGRAMS_ONE: [&str; 7] = [
    "region R = [1..16]; S = [1..9]; direction d = [7]; var A, B : [R] integer;\nprocedure \
        t();\nbegin\n[R] A := Index1;\n[S] B := A@d;\n[S] writeln(B);\nend;\n",
    "var Z : [1..4] integer; s : integer;\nprocedure t();\nbegin\n[1..0] s := max<<(10 / \
        Z);\nwriteln(s);\nend;\n",
    "var s : integer;\nprocedure t();\nbegin\ns := 9223372036854775807;\nwriteln(s + 1);\ns := \
        -s - 1;\nwriteln(s / -1, \" \", s % -1);\nend;\n",
    "config var m : integer = 2; p : integer = 3; q : integer = 2; region RA = [1..m, 1..p]; RB \
        = [1..p, 1..q]; RC = [1..m, 1..q]; CF = [1..m, *]; RF = [*, 1..q]; var A : [RA] \
        integer; B : [RB] integer; C : [RC] integer; Col : [CF] integer; Row : [RF] integer; k \
        : integer;\nprocedure t();\nbegin\n[RA] A := 10 * Index1 + Index2;\n[RB] B := Index1 - \
        Index2;\nfor k := 1 to p do [CF] Col := >>[ , k] A; [RF] Row := >>[k, ] B; [RC] C += \
        Col * Row; end;\n[RC] write(C);\nend;\n",
    "region R = [1..4, 1..6]; S = R by [2, 3]; var A : [R] integer;\nprocedure t();\nbegin\n[R] \
        A := 10 * Index1 + Index2;\n[S] write(+||A);\n[S] write(+||[1]A);\nend;\n",
    "region R = [1..3]; direction d = [3]; e = [-3]; w = [4]; var A : [R] integer;\nprocedure \
        t();\nbegin\n[R] A := Index1;\n[d of R] wrap A;\n[e of R] reflect A;\n[-2..6] \
        writeln(A);\n[w of R] wrap A;\nend;\n",
    "config var hold : integer = 0; region R = [1..5]; var A : [R] integer;\nprocedure \
        t();\nbegin\nwriteln(\"start\");\n[R] A := Index1;\n[R] while A < 4 do if A != hold \
        then A += 2; end; end;\n[R] writeln(A);\nend;\n",
];

const PROGRAMS_TWO: [&str; 8] = [
    "region R = [1..4]; var A, B : [R] integer; M : [R] boolean;\nprocedure t();\nbegin\n[R] A \
        := Index1 - 2;\n[R] M := A != 0;\n[R with M] B := 6 / A;\n[R] writeln(B);\nend;\n",
    "var x, y : integer; procedure twice(a : integer; var b : integer); begin a := a + a; b := \
        a; end; procedure five() : integer; begin return 5; end;\nprocedure t();\nbegin\nx := \
        five();\ntwice(x, y);\nwriteln(x, \" \", y, \" \", x < y);\nend;\n",
    "region R = [1..2, 1..3]; C = [1..2, 1]; var A, B : [R] integer;\nprocedure \
        t();\nbegin\n[R] A := 10 * Index1 + Index2;\n[C] B := +<<[R] A;\n[C] write(B);\n[1..2, \
        1..2] B := +<<[R] A;\nend;\n",
    "region R = [1..2, 1..2, 1..2];\nprocedure t();\nbegin\n[R] write(Index1 * 4 + Index2 * 2 + \
        Index3);\nend;\n",
    "var n : integer;\nprocedure t();\nbegin\nn := 3000000000;\n[1..n] n := +<<1;\nend;\n",
    "var A, B, C, E, F : [1..2048, 1..2048] integer;\nprocedure t();\nbegin\nwriteln(1);\nend;\n",
    "constant c : integer = 1 / 0;\nprocedure t();\nbegin\nwriteln(1);\nend;\n",
    "config var n : integer = 8; delta : integer = 100;\nregion R = [1..n, 1..n];\ndirection \
        north = [-1, 0]; south = [1, 0]; west = [0, -1]; east = [0, 1];\nvar A, T : [R] \
        integer; err, turns : integer;\nprocedure t();\n[R] begin\n[north of R] A := 0;\n[west \
        of R] A := 0;\n[east of R] A := 0;\n[south of R] A := 1000;\nrepeat\nT := (A@north + \
        A@south + A@west + A@east) / 4;\nerr := max<<max(A - T, T - A);\nA := T;\nturns += \
        1;\nuntil err < delta;\nwriteln(\"turns \", turns, \", change \", \
        err);\nwrite(A);\nend;\n",
];

#[test]
fn texts_without_a_fault_are_accepted(rt: HostRuntime) -> Result<(), Fail> {
    each_accepted(&rt, rt.alloc(), &NAMES)?;
    each_accepted(&rt, rt.alloc(), &PROGRAMS_ONE)?;
    each_accepted(&rt, rt.alloc(), &PROGRAMS_TWO)
}
