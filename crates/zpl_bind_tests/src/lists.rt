//! Regions, and the storages of arrays.
use super::binding::each_gives;
use std::test::Fail;

const REGIONS: [(&str, &str); 5] = [
    (
        "region R = [1..4, 2..6]; direction d = [1, -2]; region S = [d of R]; T = [d in R];",
        "| 1..4 2..6 ; 5..5by1at1 0..1by1at2 ; 4..4by1at1 2..3 ; | (1 -2 0) | ",
    ),
    (
        "region R = [1..9]; S = R by [2]; T = R by [-2]; U = R at [3];",
        "| 1..9 ; 1..9by2at1 ; 1..9by2at9 ; 4..12 ; | | ",
    ),
    (
        "direction d = [1]; region R = [1..4]; S = [d of R at [2]];",
        "| 1..4 ; 7..7by1at3 ; | (1 0 0) | ",
    ),
    ("region R = [1..4, *]; S = [7];", "| 1..4 *; 7..7 ; | | "),
    (
        "constant n : integer = 3; region R = [n]; S = [1..n, n..n + 1];",
        "3 | 3..3 ; 1..3 3..4 ; | | ",
    ),
];

#[test]
fn regions_are_those_of_the_forms(rt: HostRuntime) -> Result<(), Fail> {
    each_gives(&rt, rt.alloc(), &REGIONS)
}

/// Arrays over a region's name, and what stands in the text besides.
const BORDERS: [(&str, &str); 5] = [
    (
        "region R = [1..4]; direction d = [1]; var A : [R] integer;\
            procedure p(); begin [d of R] A := 1; end;",
        "| 1..4 ; | (1 0 0) | 1..5 ; ",
    ),
    (
        "region R = [1..4]; direction d = [1]; var A : [R] integer;\
            procedure p(); begin [d of R at d] A := 1; end;",
        "| 1..4 ; | (1 0 0) | 1..4 ; ",
    ),
    (
        "region R = [1..4]; direction d = [1]; region S = [d of R] at d; var A, B : [R] integer;",
        "| 1..4 ; 6..6by1at2 ; | (1 0 0) | 1..5 ; 1..5 ; ",
    ),
    (
        "region R = [1..4]; direction d = [1]; var A : [1..4] integer;\
            procedure p(); begin [d of R] A := 1; end;",
        "| 1..4 ; | (1 0 0) | 1..4 ; ",
    ),
    (
        "region R = [1..4]; direction d = [1]; e = [-2]; var A : [R] integer;\
            procedure q(); var B : [R at d] integer; begin [e of R] A := 1; end;\
            procedure p(); begin [d of R] A := A@[3]; end;",
        "| 1..4 ; | (1 0 0) (-2 0 0) (3 0 0) | -1..5 ; 2..5 ; ",
    ),
];

#[test]
fn storages_have_the_borders_of_a_name(rt: HostRuntime) -> Result<(), Fail> {
    each_gives(&rt, rt.alloc(), &BORDERS)
}

/// Flood dimensions, regions without tuples, and regions with steps.
const HULLS: [(&str, &str); 4] = [
    (
        "region R = [1..4, *]; direction d = [1, 1]; var A : [R] integer;\
            procedure p(); begin [d of R] A := 1; end;",
        "| 1..4 *; | (1 1 0) | 1..5 *; ",
    ),
    ("var A : [3..2, 1..2] integer;", "| | | 1..0 1..0 ; "),
    (
        "region E = [3..2]; direction d = [1]; var A : [E] integer;\
            procedure p(); begin [d of E] A := 1; end;",
        "| 3..2 ; | (1 0 0) | 3..3 ; ",
    ),
    (
        "region R = [1..10]; S = R by [4]; var A : [S] integer;",
        "| 1..10 ; 1..10by4at1 ; | | 1..9 ; ",
    ),
];

#[test]
fn storages_are_hulls(rt: HostRuntime) -> Result<(), Fail> {
    each_gives(&rt, rt.alloc(), &HULLS)
}
