//! Copies of arrays from which reads that wrap round are made, at the limit of regions.
use super::binding::expect;
use std::alloc::Global;
use std::process::Abort;
use std::test::Fail;

/// `A` has one place less than a region may have, and `F` as many; `Z` has none. `Last` and `First`
/// are at the ends of what bounds may be.
const ARRAYS: &str = "region R = [1..4194303]; S = [1..2]; \
    var A : [R] integer; F : [1..4194304] integer; B : [S] integer; Z : [1..0] integer; \
    Last : [2147483647..2147483648] integer; First : [-2147483648..-2147483647] integer; \
    G : [1..4194304, *] integer; H : [1..1, *] integer;";

/// Reads, and what is answered to a program with them.
const READS: [(&str, &str); 18] = [
    ("A@^[1]", "Ok"),
    ("A@^[-1]", "Ok"),
    ("A@^[2]", "RegionLimit"),
    ("A@^[-2]", "RegionLimit"),
    ("A@[2]", "Ok"),
    ("F@^[0]", "Ok"),
    ("F@^[1]", "RegionLimit"),
    ("F@^[-1]", "RegionLimit"),
    ("B@^[32767]", "Ok"),
    ("Z@^[32767]", "Ok"),
    ("Last@^[1]", "RegionLimit"),
    ("Last@^[-1]", "Ok"),
    ("Last@^[2]", "Ok"),
    ("First@^[-1]", "RegionLimit"),
    ("First@^[1]", "Ok"),
    ("A@^[1] + A@^[2]", "RegionLimit"),
    ("A@^[32768]", "DirectionLimit"),
    ("A@^[1 / 0]", "BadConstant"),
];

/// Reads of arrays of two dimensions, of which the second is a flood dimension.
const PLANES: [(&str, &str); 3] = [
    ("G@^[0, 1]", "Ok"),
    ("G@^[1, 0]", "RegionLimit"),
    ("G@^[-1, 7]", "RegionLimit"),
];

/// One statement in the entry procedure.
fn expect_read(
    rt: &impl Abort,
    alloc: Global,
    statement: &str,
    read: &str,
    wanted: &str,
) -> Result<(), Fail> {
    let rest = format!(in alloc; "{ARRAYS} procedure t(); begin {statement} {read}; end;")?;
    expect(rt, alloc, rest.as_str(), &[], wanted)
}

#[test]
fn copies_at_the_limit(rt: HostRuntime) -> Result<(), Fail> {
    for (read, wanted) in READS {
        expect_read(&rt, rt.alloc(), "[S] B :=", read, wanted)?;
    }
    for (read, wanted) in PLANES {
        expect_read(&rt, rt.alloc(), "[1..1, *] H :=", read, wanted)?;
    }
    Ok(())
}

/// Procedures behind the arrays, and what is answered.
const CALLS: [(&str, &str); 9] = [
    // nobody calls the procedure that reads
    (
        "procedure q(); begin [S] B := F@^[1]; end; procedure t(); begin end;",
        "Ok",
    ),
    (
        "procedure q(); begin [S] B := F@^[1]; end; procedure t(); begin q(); end;",
        "RegionLimit",
    ),
    // a parameter stands for the array that is handed to it, whatever its own shape is
    (
        "procedure q(P : [S] integer); begin [S] B := P@^[1]; end; \
            procedure t(); begin q(B); end;",
        "Ok",
    ),
    (
        "procedure q(P : [S] integer); begin [S] B := P@^[1]; end; \
            procedure t(); begin q(F); end;",
        "RegionLimit",
    ),
    (
        "procedure q(var P : [S] integer); begin [S] B := P@^[2]; end; \
            procedure t(); begin q(B); q(A); end;",
        "RegionLimit",
    ),
    // through two calls
    (
        "procedure r(Q : [S] integer); begin [S] B := Q@^[1]; end; \
            procedure q(P : [S] integer); begin r(P); end; procedure t(); begin q(F); end;",
        "RegionLimit",
    ),
    (
        "procedure r(Q : [S] integer); begin [S] B := Q@^[1]; end; \
            procedure q(P : [S] integer); begin r(B); end; procedure t(); begin q(F); end;",
        "Ok",
    ),
    // a parameter hides a global array
    (
        "procedure q(F : [S] integer); begin [S] B := F@^[1]; end; \
            procedure t(); begin q(B); end;",
        "Ok",
    ),
    // a local array
    (
        "procedure q(); var L : [1..4194304] integer; begin [S] B := L@^[1]; end; \
            procedure t(); begin q(); end;",
        "RegionLimit",
    ),
];

#[test]
fn copies_through_calls(rt: HostRuntime) -> Result<(), Fail> {
    let alloc = rt.alloc();
    for (procedures, wanted) in CALLS {
        let rest = format!(in alloc; "{ARRAYS} {procedures}")?;
        expect(&rt, alloc, rest.as_str(), &[], wanted)?;
    }
    Ok(())
}
