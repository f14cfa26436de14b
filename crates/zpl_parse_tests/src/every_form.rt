//! A program with each form of the grammar, and its tree, written by hand from the grammar and the
//! places of the tokens.
use super::reading::expect_tree;
use std::alloc::AllocError;
use std::test::Fail;

/// The text, line by line.
const LINES: [&str; 27] = [
    "program p;",
    "config var n : integer = 8; s : boolean = true;",
    "constant c : t = -n;",
    "region R = [1..n, *] at e by [2]; S = d of d in R by e; T = [\" at d];",
    "direction d = [1]; e = [0, -1];",
    "var a, b : [R] integer; q : boolean; r : t;",
    "procedure f(); begin end;",
    "procedure g(var x, y : [d of R] integer; z : t) : integer;",
    "var i : integer; var j : [1..2] t; k : boolean;",
    "[R] [S with q] [, without q] begin",
    "[ ] x := 1; [, k] x += n; [*, i..n] x -= Index1; [\"] x *= Index2; [d of \"] x /= Index3;",
    "x %= a@d; q &= a@[1, -1]; q |= !false;",
    "f(); g(a, (n)); begin end;",
    "if q then elsif k then f(); f(); else x := f(); end;",
    "if q then f(); end;",
    "while q do f(); end;",
    "repeat f(); until k;",
    "for i := 1 to n do end;",
    "for i := n downto 1 by 2 do f(); end;",
    "wrap a, b; reflect a;",
    "write(); writeln(\"so\", abs(-1));",
    "x := a + b - a * b / a % b;",
    "q := a = b & a != b | a < b & a <= b | a > b & a >= b;",
    "write(+<<a, +<<[R] a, *<<a, *<<[R] a, max<<a, max<<[R] a, min<<a, min<<[R] a, &<<a, &<<[R] a, |<<a, |<<[R] a);",
    "write(+||a, *||[1] a, max||a, min||[2] a, &||a, |||[3] a, >>[1, b] a);",
    "return max(i, min(g(k), 1));",
    "end;",
];

/// The tree of its declarations, up to the first assignments.
const DECLARATIONS: [&str; 17] = [
    "(Program p@8",
    "(Config (Define n@22 Integer (Number@36 8)) (Define s@39 Boolean (Truth@53 true)))",
    "(Constant (Define c@68 (Other t@72) (Neg@76 (Named@77 n@77))))",
    "(Regions (Region R@87 (Dims (Span (Number@92 1) (Named@95 n@95)) (Star@98)) (At e@104) (By (Vector (Number@110 2))))",
    "(Region S@114 (Rexpr (Of d@118) (In d@123) R@128 (By e@133)))",
    "(Region T@136 (Rexpr (Ditto@141) (At d@146))))",
    "(Directions (Direction d@160 (Number@165 1)) (Direction e@169 (Number@174 0) (Neg@177 (Number@178 1))))",
    "(Vars (Var a@186 b@189 (Rexpr R@194) Integer) (Var q@206 None Boolean) (Var r@219 None (Other t@223)))",
    "(Procedure f@236 None (Block@241))",
    "(Procedure g@262 (VarParam x@268 y@271 (Rexpr (Of d@276) R@281) Integer) (Param z@293 None (Other t@297)) Integer",
    "(Var i@315 None Integer) (Var j@332 (Dims (Span (Number@337 1) (Number@340 2))) (Other t@343)) (Var k@346 None Boolean)",
    "(Prefix@359 (Rexpr R@360) None) (Prefix@363 (Rexpr S@364) With q@371) (Prefix@374 (Dims (Blank@375) (Blank@377)) Without q@385) (Block@388",
    "(Prefix@394 (Dims (Blank@396)) None) (Assign@398 x@398 None (Number@403 1))",
    "(Prefix@406 (Dims (Blank@407) (One (Named@409 k@409))) None) (Assign@412 x@412 Some(Add) (Named@417 n@417))",
    "(Prefix@420 (Dims (Star@421) (Span (Named@424 i@424) (Named@427 n@427))) None) (Assign@430 x@430 Some(Sub) (Coord@435 1))",
    "(Prefix@443 (Rexpr (Ditto@444)) None) (Assign@447 x@447 Some(Mul) (Coord@452 2))",
    "(Prefix@460 (Rexpr (Of d@461) (Ditto@466)) None) (Assign@469 x@469 Some(Div) (Coord@474 3))",
];

/// The tree of the other statements.
const STATEMENTS: [&str; 30] = [
    "(Assign@482 x@482 Some(Rem) (Shifted@487 a@487 d@489))",
    "(Assign@492 q@492 Some(And) (Shifted@497 a@497 (Vector (Number@500 1) (Neg@503 (Number@504 1)))))",
    "(Assign@508 q@508 Some(Or) (Not@513 (Truth@514 false)))",
    "(Call@521 f@521) (Call@526 g@526 (Named@528 a@528) (Paren@531 (Named@532 n@532))) (Block@537)",
    "(If@548 (Arm@548 (Named@551 q@551)) (Arm@558 (Named@564 k@564) (Call@571 f@571) (Call@576 f@576))",
    "Else (Assign@586 x@586 None (Call@591 f@591)))",
    "(If@601 (Arm@601 (Named@604 q@604) (Call@611 f@611)))",
    "(While@621 (Named@627 q@627) (Call@632 f@632))",
    "(Repeat@642 (Call@649 f@649) Until@654 (Named@660 k@660))",
    "(For@663 i@667 (Number@672 1) To (Named@677 n@677) None)",
    "(For@687 i@691 (Named@696 n@696) Downto (Number@705 1) (Number@710 2) (Call@715 f@715))",
    "(Wrap@725 a@730 b@733) (Reflect@736 a@744)",
    "(Write@747) (Writeln@756 \"so\" (Abs@770 (Neg@774 (Number@775 1))))",
    "(Assign@780 x@780 None (Pair@785 Sub (Pair@785 Add (Named@785 a@785) (Named@789 b@789))",
    "(Pair@793 Rem (Pair@793 Div (Pair@793 Mul (Named@793 a@793) (Named@797 b@797)) (Named@801 a@801)) (Named@805 b@805))))",
    "(Assign@808 q@808 None (Pair@813 Or (Pair@813 Or",
    "(Pair@813 And (Pair@813 Eq (Named@813 a@813) (Named@817 b@817)) (Pair@821 Ne (Named@821 a@821) (Named@826 b@826)))",
    "(Pair@830 And (Pair@830 Lt (Named@830 a@830) (Named@834 b@834)) (Pair@838 Le (Named@838 a@838) (Named@843 b@843))))",
    "(Pair@847 And (Pair@847 Gt (Named@847 a@847) (Named@851 b@851)) (Pair@855 Ge (Named@855 a@855) (Named@860 b@860)))))",
    "(Write@863 (Reduce@869 Sum None (Named@872 a@872)) (Reduce@875 Sum (Rexpr R@879) (Named@882 a@882))",
    "(Reduce@885 Prod None (Named@888 a@888)) (Reduce@891 Prod (Rexpr R@895) (Named@898 a@898))",
    "(Reduce@901 Max None (Named@906 a@906)) (Reduce@909 Max (Rexpr R@915) (Named@918 a@918))",
    "(Reduce@921 Min None (Named@926 a@926)) (Reduce@929 Min (Rexpr R@935) (Named@938 a@938))",
    "(Reduce@941 All None (Named@944 a@944)) (Reduce@947 All (Rexpr R@951) (Named@954 a@954))",
    "(Reduce@957 Any None (Named@960 a@960)) (Reduce@963 Any (Rexpr R@967) (Named@970 a@970)))",
    "(Write@974 (Scan@980 Sum None (Named@983 a@983)) (Scan@986 Prod Some(1) (Named@993 a@993))",
    "(Scan@996 Max None (Named@1001 a@1001)) (Scan@1004 Min Some(2) (Named@1013 a@1013))",
    "(Scan@1016 All None (Named@1019 a@1019)) (Scan@1022 Any Some(3) (Named@1029 a@1029))",
    "(Flood@1032 (Dims (One (Number@1035 1)) (One (Named@1038 b@1038))) (Named@1041 a@1041)))",
    "(Return@1045 (Pair@1052 Max (Named@1056 i@1056) (Pair@1059 Min (Call@1063 g@1063 (Named@1065 k@1065)) (Number@1069 1)))))))",
];

/// Appends lines, each with something behind it.
fn put_lines(text: &mut String, lines: &[&str], behind: char) -> Result<(), AllocError> {
    for line in lines {
        text.push_str(line)?;
        text.push(behind)?;
    }
    Ok(())
}

#[test]
fn every_form_has_its_tree(rt: HostRuntime) -> Result<(), Fail> {
    let alloc = rt.alloc();
    let mut text = String::new(alloc);
    put_lines(&mut text, &LINES, '\n')?;
    let mut wanted = String::new(alloc);
    put_lines(&mut wanted, &DECLARATIONS, ' ')?;
    put_lines(&mut wanted, &STATEMENTS, ' ')?;
    expect_tree(&rt, alloc, text.as_str(), wanted.trim_end())
}
