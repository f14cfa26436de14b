//! Placing nodes in an arena.
ghost use Rattle.std.specs.Prelude.{◌≡◌, MatchResult, IfOk};

use crate::declarations::{Procedure, Program};
use crate::expressions::Expr;
use bumpalo::Bump;
use std::alloc::{AllocError, Global};

/// Places an expression. Where memory runs out the node comes back.
pub fn place_expr<'a>(arena: &'a Bump<Global>, node: Expr<'a>) -> Result<&'a Expr<'a>, Expr<'a>>
    ensures { MatchResult result (λ r. r.now ≡ node.entry) (λ e. e ≡ node.entry) }
{
    place(arena, node)
}

/// Places a procedure. Where memory runs out the node comes back.
pub fn place_procedure<'a>(
    arena: &'a Bump<Global>,
    node: Procedure<'a>,
) -> Result<&'a Procedure<'a>, Procedure<'a>>
    ensures { MatchResult result (λ r. r.now ≡ node.entry) (λ e. e ≡ node.entry) }
{
    place(arena, node)
}

/// Places a program. Where memory runs out the node comes back.
pub fn place_program<'a>(
    arena: &'a Bump<Global>,
    node: Program<'a>,
) -> Result<&'a Program<'a>, Program<'a>>
    ensures { MatchResult result (λ r. r.now ≡ node.entry) (λ e. e ≡ node.entry) }
{
    place(arena, node)
}

// Places a value. Where memory runs out the value comes back.
fn place<T: Drop>(arena: &Bump<Global>, value: T) -> Result<&T, T>
    ensures { MatchResult result (λ placed. placed.now ≡ value) (λ back. back ≡ value) }
{
    match arena.try_alloc(value) {
        Ok(placed) => Ok(placed),
        Err(failed) => Err(failed.value),
    }
}

/// Places a copy of a list.
pub fn place_list<'a, T: Copy>(arena: &'a Bump<Global>, items: &[T]) -> Result<&'a [T], AllocError>
    ensures { IfOk result (λ placed. placed.now ≡ items.now) }
{
    let placed = arena.try_alloc_slice_copy(items)?;
    Ok(placed)
}
