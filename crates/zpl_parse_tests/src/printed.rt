//! What is printed of a text's tree.
use super::reading::{expect, with_body};
use std::alloc::Global;
use std::process::Abort;
use std::test::Fail;

/// A text and what is printed of its tree, which is printed of that text too.
pub fn prints(rt: &impl Abort, alloc: Global, text: &str, wanted: &str) -> Result<(), Fail> {
    expect(rt, alloc, text, wanted)?;
    expect(rt, alloc, wanted, wanted)
}

/// Tokens are printed apart.
const TOKENS: [&str; 2] = [
    "program t;var x:integer;procedure t();begin x:=1+-2;end;",
    "program t ;\nvar x : integer ;\nprocedure t ( ) ;\nbegin x := 1 + - 2 ;\nend ;\n",
];

/// Definitions, and what is printed of them.
const DEFINES: [&str; 2] = [
    "program p; config var n : integer = 8; m : boolean = true; constant c : t = -n;",
    "program p ;\n\
     config var n : integer = 8 ;\nm : boolean = true ;\n\
     constant c : t = - n ;\n",
];

/// Regions and directions, and what is printed of them.
const REGIONS: [&str; 2] = [
    "program p; region R = [1..n, *]; S = d of R at e; T = [R] by [2, 3]; \
     direction d = [1]; e = [0, -1];",
    "program p ;\n\
     region R = [ 1 .. n , * ] ;\nS = [ d of R at e ] ;\nT = [ R ] by [ 2 , 3 ] ;\n\
     direction d = [ 1 ] ;\ne = [ 0 , - 1 ] ;\n",
];

/// Variables and a procedure, and what is printed of them.
const VARIABLES: [&str; 2] = [
    "program p; var a, b : [R] integer; c : q; \
     procedure f(var x, y : [1..2] integer; z : boolean) : integer; \
     var i : integer; var j : [R] q; k : integer; [R] begin end;",
    "program p ;\n\
     var a , b : [ R ] integer ;\nc : q ;\n\
     procedure f ( var x , y : [ 1 .. 2 ] integer ;\nz : boolean ) : integer ;\n\
     var i : integer ;\nj : [ R ] q ;\nk : integer ;\n[ R ] begin end ;\n",
];

#[test]
fn declarations_are_printed(rt: HostRuntime) -> Result<(), Fail> {
    for [text, wanted] in [TOKENS, DEFINES, REGIONS, VARIABLES] {
        prints(&rt, rt.alloc(), text, wanted)?;
    }
    Ok(())
}

/// Statements, and what is printed of them.
const BODIES: [(&str, &str); 12] = [
    (
        "x:=1; x+=2; x-=3; x*=4; x/=5; x%=6; b&=c; b|=d;",
        "x := 1 ;\nx += 2 ;\nx -= 3 ;\nx *= 4 ;\nx /= 5 ;\nx %= 6 ;\nb &= c ;\nb |= d ;\n",
    ),
    (
        "f(); f(1, x); begin g(y); end; return x;",
        "f ( ) ;\nf ( 1 , x ) ;\nbegin g ( y ) ;\nend ;\nreturn x ;\n",
    ),
    (
        "if a then elsif b then x := 1; elsif c then else y := 2; end; if a then end;",
        "if a then elsif b then x := 1 ;\nelsif c then else y := 2 ;\nend ;\nif a then end \
         ;\n",
    ),
    (
        "while a do x := 1; end; repeat x := 1; until a;",
        "while a do x := 1 ;\nend ;\nrepeat x := 1 ;\nuntil a ;\n",
    ),
    (
        "for i := 1 to 2 do end; for i := n downto 1 by 3 do x := i; end;",
        "for i := 1 to 2 do end ;\nfor i := n downto 1 by 3 do x := i ;\nend ;\n",
    ),
    (
        "wrap A, B; reflect C; write(); writeln(\"a\\n\", 1, x);",
        "wrap A , B ;\nreflect C ;\nwrite ( ) ;\nwriteln ( \"a\\n\" , 1 , x ) ;\n",
    ),
    (
        "[R] x := 1; [1..2, *, , k] [\"] [k + 1] [ ] x := 2;",
        "[ R ] x := 1 ;\n[ 1 .. 2 , * , , k ] [ \" ] [ k + 1 ] [ ] x := 2 ;\n",
    ),
    (
        "[d of e in R at f by [1, 2] with m] [* without m] [d of \"] x := 2;",
        "[ d of e in R at f by [ 1 , 2 ] with m ] [ * without m ] [ d of \" ] x := 2 ;\n",
    ),
    (
        "x := -a * !b + abs(c) - max(1, 2) / min(3, 4) % (5);",
        "x := - a * ! b + abs ( c ) - max ( 1 , 2 ) / min ( 3 , 4 ) % ( 5 ) ;\n",
    ),
    (
        "x := Index1 <= Index2; x := Index3 >= f(true, false); x := a != b & c < d | e > f & \
         g = h;",
        "x := Index1 <= Index2 ;\nx := Index3 >= f ( true , false ) ;\nx := a != b & c < d | \
         e > f & g = h ;\n",
    ),
    (
        "x := +<<a | *<<[R] b & max||c = min||[2] d;",
        "x := + << a | * << [ R ] b & max || c = min || [ 2 ] d ;\n",
    ),
    (
        "x := &<<>>[1, ] e; x := |<<f@g < h@[1, -1];",
        "x := & << >> [ 1 , ] e ;\nx := | << f @ g < h @ [ 1 , - 1 ] ;\n",
    ),
];

#[test]
fn bodies_are_printed(rt: HostRuntime) -> Result<(), Fail> {
    for (body, statements) in BODIES {
        let text = with_body(rt.alloc(), body)?;
        let mut wanted = String::new(rt.alloc());
        wanted.push_str("program p ;\nprocedure p ( ) ;\nbegin ")?;
        wanted.push_str(statements)?;
        wanted.push_str("end ;\n")?;
        prints(&rt, rt.alloc(), text.as_str(), wanted.as_str())?;
    }
    Ok(())
}
