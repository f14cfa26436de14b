//! Constants without a value, regions past their limit, and vectors past theirs.
use super::binding::each_gives;
use std::test::Fail;

const CONSTANTS: [(&str, &str); 6] = [
    ("constant c : integer = 1 / 0;", "BadConstant"),
    ("constant c : integer = 1 % 0;", "BadConstant"),
    (
        "constant c : integer = 0; region R = [1..5 / c];",
        "BadConstant",
    ),
    ("direction d = [1 / 0];", "BadConstant"),
    ("var A : [1..1 / 0] integer;", "BadConstant"),
    (
        "procedure p(); begin [1..4] x := A@[1 / 0]; end;",
        "BadConstant",
    ),
];

#[test]
fn a_zero_divisor_is_refused(rt: HostRuntime) -> Result<(), Fail> {
    each_gives(&rt, rt.alloc(), &CONSTANTS)
}

const REGIONS: [(&str, &str); 10] = [
    ("region R = [1..4194304];", "| 1..4194304 ; | | "),
    ("region R = [1..4194305];", "RegionLimit"),
    (
        "region R = [2147483648];",
        "| 2147483648..2147483648 ; | | ",
    ),
    ("region R = [2147483649];", "RegionLimit"),
    ("region R = [1..0, 1..3000000000];", "RegionLimit"),
    (
        "region R = [1..4]; S = R at [32767] at [1];",
        "| 1..4 ; 32769..32772 ; | | ",
    ),
    (
        "region R = [2147480000]; S = R at [30000] at [-30000];",
        "RegionLimit",
    ),
    (
        "region R = [1..4] by [32767] by [32767] by [32767];",
        "RegionLimit",
    ),
    (
        "procedure q(); var A : [1..5000000] integer; begin end;",
        "RegionLimit",
    ),
    (
        "region R = [1..8000000] by [4]; var A : [R] integer;",
        "RegionLimit",
    ),
];

#[test]
fn regions_are_refused_past_their_limit(rt: HostRuntime) -> Result<(), Fail> {
    each_gives(&rt, rt.alloc(), &REGIONS)
}

const VECTORS: [(&str, &str); 6] = [
    ("direction d = [32767, -32767];", "| | (32767 -32767 0) | "),
    ("direction d = [32768];", "DirectionLimit"),
    ("direction d = [1, -32768];", "DirectionLimit"),
    ("region R = [1..4]; S = R by [40000];", "DirectionLimit"),
    (
        "procedure p(); begin x := A@[40000]; end;",
        "DirectionLimit",
    ),
    ("direction d = [40000, 1 / 0];", "BadConstant"),
];

#[test]
fn vectors_are_refused_past_their_limit(rt: HostRuntime) -> Result<(), Fail> {
    each_gives(&rt, rt.alloc(), &VECTORS)
}
