//! Statements that have a tree.
use super::reading::accepted;
use std::test::Fail;

/// Bodies that are accepted.
const BODIES: [&str; 7] = [
    "[ ] x := 1; [ , k] x := 2; [R] x := 3; [d of R] x := 1; [\"] x := 2;",
    "[*] x := 1; [*, 1] x := 2; [* with m] x := 3; [1..2, * without m] x := 4;",
    "[*<<x] x := 1;  [R at d by [1, 2]] x := 2; [d of e in R] x := 3;",
    "x := +<<[R] y; x := max||[2] y; x := min(1, 2); x := abs(-1); x := >>[1, ] y;",
    "for i := 1 to 2 by 3 do end; for i := 2 downto 1 do x := 1; end; repeat x := 1; until true;",
    "if x then x := 1; elsif y then elsif z then else x += 1; end; return A@d + B@[1, -1];",
    "wrap A, B; reflect C; write(); writeln(\"a\", 1); f(); f(1, 2); x := f(1, g());",
];

#[test]
fn bodies(rt: HostRuntime) -> Result<(), Fail> {
    for body in BODIES {
        accepted(&rt, rt.alloc(), body)?;
    }
    Ok(())
}
