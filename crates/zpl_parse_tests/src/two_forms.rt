//! Reads that wrap round and remaps.
use super::printed::prints;
use super::reading::{expect_body, expect_tree};
use std::test::Fail;

/// A program that shifts an array round its region, and reads it from its end to its beginning.
const TEXT: &str = "program t;direction e = [1];region R = [1..4];var A, B : [R] integer;\
    procedure t();begin [R] B := A@^e + A#[5 - Index1];end;";

/// Its tree.
const TREE: &str = "(Program t@8 \
    (Directions (Direction e@20 (Number@25 1))) \
    (Regions (Region R@35 (Dims (Span (Number@40 1) (Number@43 4))))) \
    (Vars (Var A@50 B@53 (Rexpr R@58) Integer)) \
    (Procedure t@79 None (Block@83 \
    (Prefix@89 (Rexpr R@90) None) (Assign@93 B@93 None \
    (Pair@98 Add (Around@98 A@98 e@101) \
    (Remap@105 A@105 (Pair@108 Sub (Number@108 5) (Coord@112 1))))))))";

/// What is printed of it.
const PRINTED: &str = "program t ;\n\
    direction e = [ 1 ] ;\n\
    region R = [ 1 .. 4 ] ;\n\
    var A , B : [ R ] integer ;\n\
    procedure t ( ) ;\n\
    begin [ R ] B := A @ ^ e + A # [ 5 - Index1 ] ;\n\
    end ;\n";

#[test]
fn both_are_read_and_printed(rt: HostRuntime) -> Result<(), Fail> {
    let alloc = rt.alloc();
    expect_tree(&rt, alloc, TEXT, TREE)?;
    prints(&rt, alloc, TEXT, PRINTED)
}

/// Bodies where a caret or a hash can't stand, or where what it wants is missing.
const MISTAKES: [(&str, &str); 8] = [
    ("x := ^A;", "Syntax { at: 37 }"),
    ("x := A@^;", "Syntax { at: 40 }"),
    ("x := A@d@^e;", "Syntax { at: 40 }"),
    ("x := f()@^e;", "Syntax { at: 40 }"),
    ("x := A# B;", "Syntax { at: 40 }"),
    ("x := A#[];", "Syntax { at: 40 }"),
    ("x := A#[1]#[2];", "Syntax { at: 42 }"),
    ("[^] x := 1;", "Syntax { at: 33 }"),
];

#[test]
fn nothing_else_takes_a_caret_or_a_hash(rt: HostRuntime) -> Result<(), Fail> {
    let alloc = rt.alloc();
    for (body, fault) in MISTAKES {
        expect_body(&rt, alloc, body, fault)?;
    }
    Ok(())
}
