//! How expressions and brackets are grouped.
use super::reading::{expect_tree, with_body};
use std::test::Fail;

/// Statements, and their trees: operators group by their levels, and a bracket has a region or
/// dimensions.
const STATEMENTS: [(&str, &str); 18] = [
    (
        "x := a - b - c;",
        "(Assign@32 x@32 None (Pair@37 Sub (Pair@37 Sub (Named@37 a@37) (Named@41 b@41)) \
         (Named@45 c@45)))",
    ),
    (
        "x := a / b % c;",
        "(Assign@32 x@32 None (Pair@37 Rem (Pair@37 Div (Named@37 a@37) (Named@41 b@41)) \
         (Named@45 c@45)))",
    ),
    (
        "x := a - b * c;",
        "(Assign@32 x@32 None (Pair@37 Sub (Named@37 a@37) (Pair@41 Mul (Named@41 b@41) (Named@45 \
         c@45))))",
    ),
    (
        "x := -a * b + c;",
        "(Assign@32 x@32 None (Pair@37 Add (Pair@37 Mul (Neg@37 (Named@38 a@38)) (Named@42 b@42)) \
         (Named@46 c@46)))",
    ),
    (
        "x := a < b & c | d;",
        "(Assign@32 x@32 None (Pair@37 Or (Pair@37 And (Pair@37 Lt (Named@37 a@37) (Named@41 \
         b@41)) (Named@45 c@45)) (Named@49 d@49)))",
    ),
    (
        "x := a | b & c < d;",
        "(Assign@32 x@32 None (Pair@37 Or (Named@37 a@37) (Pair@41 And (Named@41 b@41) (Pair@45 \
         Lt (Named@45 c@45) (Named@49 d@49)))))",
    ),
    (
        "x := +<<A * B;",
        "(Assign@32 x@32 None (Pair@37 Mul (Reduce@37 Sum None (Named@40 A@40)) (Named@44 B@44)))",
    ),
    (
        "[R] x := 1;",
        "(Prefix@32 (Rexpr R@33) None) (Assign@36 x@36 None (Number@41 1))",
    ),
    (
        "[\"] x := 1;",
        "(Prefix@32 (Rexpr (Ditto@33)) None) (Assign@36 x@36 None (Number@41 1))",
    ),
    (
        "[d of R with m] x := 1;",
        "(Prefix@32 (Rexpr (Of d@33) R@38) With m@45) (Assign@48 x@48 None (Number@53 1))",
    ),
    (
        "[k + 1] x := 1;",
        "(Prefix@32 (Dims (One (Pair@33 Add (Named@33 k@33) (Number@37 1)))) None) (Assign@40 \
         x@40 None (Number@45 1))",
    ),
    (
        "[ ] x := 1;",
        "(Prefix@32 (Dims (Blank@34)) None) (Assign@36 x@36 None (Number@41 1))",
    ),
    (
        "[*] x := 1;",
        "(Prefix@32 (Dims (Star@33)) None) (Assign@36 x@36 None (Number@41 1))",
    ),
    (
        "[* with m] x := 1;",
        "(Prefix@32 (Dims (Star@33)) With m@40) (Assign@43 x@43 None (Number@48 1))",
    ),
    (
        "[* without m] x := 1;",
        "(Prefix@32 (Dims (Star@33)) Without m@43) (Assign@46 x@46 None (Number@51 1))",
    ),
    (
        "[*<<[*] A] x := 1;",
        "(Prefix@32 (Dims (One (Reduce@33 Prod (Dims (Star@37)) (Named@40 A@40)))) None) \
         (Assign@43 x@43 None (Number@48 1))",
    ),
    (
        "[ , k] x := 1;",
        "(Prefix@32 (Dims (Blank@34) (One (Named@36 k@36))) None) (Assign@39 x@39 None (Number@44 \
         1))",
    ),
    (
        "[*, 1..2 with m] x := 1;",
        "(Prefix@32 (Dims (Star@33) (Span (Number@36 1) (Number@39 2))) With m@46) (Assign@49 \
         x@49 None (Number@54 1))",
    ),
];

#[test]
fn groups_have_their_trees(rt: HostRuntime) -> Result<(), Fail> {
    for (body, statement) in STATEMENTS {
        let text = with_body(rt.alloc(), body)?;
        let mut wanted = String::new(rt.alloc());
        wanted.push_str("(Program p@8 (Procedure p@21 None (Block@26 ")?;
        wanted.push_str(statement)?;
        wanted.push_str(")))")?;
        expect_tree(&rt, rt.alloc(), text.as_str(), wanted.as_str())?;
    }
    Ok(())
}
