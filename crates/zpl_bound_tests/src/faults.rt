//! Each fault of settings and declarations, of programs that were judged.
use super::binding::expect;
use std::test::Fail;

/// Declarations of which each fault may come, by a setting alone.
const DECLS: &str = "config var n : integer = 1; constant c : integer = 10 / n; \
    region R = [1..n]; S = R at [n]; direction d = [n]; var A : [R] integer; \
    procedure t(); begin end;";

const ROWS: [(&[&str], &str); 13] = [
    (&[], "Ok"),
    (&["n:=32767"], "Ok"),
    (&["m:=1"], "UnknownConfig"),
    (&["c:=1"], "UnknownConfig"),
    (&["t:=1"], "UnknownConfig"),
    (&["n:=x"], "ConfigType"),
    (&["n:="], "ConfigType"),
    (&["n:=5", "n:=5"], "TwiceSet"),
    (&["n:=0"], "BadConstant"),
    (&["n:=32768"], "DirectionLimit"),
    (&["n:=-32768"], "DirectionLimit"),
    (&["n:=-32767"], "Ok"),
    (&["n:=-9223372036854775808"], "RegionLimit"),
];

#[test]
fn each_fault(rt: HostRuntime) -> Result<(), Fail> {
    for (words, wanted) in ROWS {
        expect(&rt, rt.alloc(), DECLS, words, wanted)?;
    }
    Ok(())
}
