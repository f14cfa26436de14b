//! Placing parts of the tree in the arena.
ghost use Rattle.std.specs.Prelude.{◌≡◌, MatchResult};
ghost use Rattle.zpl_parse.specs.declared.faults.ParseFault.TheVariants.{NoMemory};

use crate::faults::ParseFault;
use bumpalo::Bump;
use std::alloc::Global;
use zpl_tree::{
    Expr, ForHead, Procedure, Program, place_expr, place_list, place_procedure, place_program,
};

/// Places an expression.
pub fn placed<'a>(arena: &'a Bump<Global>, node: Expr<'a>) -> Result<&'a Expr<'a>, ParseFault>
    ensures { MatchResult result (λ placed. placed.now ≡ node.entry) (λ e. e ≡ NoMemory) }
{
    match place_expr(arena, node) {
        Ok(placed) => Ok(placed),
        Err(_) => Err(ParseFault::NoMemory),
    }
}

/// Places the head of a loop.
pub fn placed_head<'a>(
    arena: &'a Bump<Global>,
    head: ForHead<'a>,
) -> Result<&'a ForHead<'a>, ParseFault>
    ensures { MatchResult result (λ placed. placed.now ≡ head.entry) (λ e. e ≡ NoMemory) }
{
    match arena.try_alloc(head) {
        Ok(placed) => Ok(placed),
        Err(_) => Err(ParseFault::NoMemory),
    }
}

/// Places a procedure.
pub fn placed_procedure<'a>(
    arena: &'a Bump<Global>,
    node: Procedure<'a>,
) -> Result<&'a Procedure<'a>, ParseFault>
    ensures { MatchResult result (λ placed. placed.now ≡ node.entry) (λ e. e ≡ NoMemory) }
{
    match place_procedure(arena, node) {
        Ok(placed) => Ok(placed),
        Err(_) => Err(ParseFault::NoMemory),
    }
}

/// Places a program.
pub fn placed_program<'a>(
    arena: &'a Bump<Global>,
    node: Program<'a>,
) -> Result<&'a Program<'a>, ParseFault>
    ensures { MatchResult result (λ placed. placed.now ≡ node.entry) (λ e. e ≡ NoMemory) }
{
    match place_program(arena, node) {
        Ok(placed) => Ok(placed),
        Err(_) => Err(ParseFault::NoMemory),
    }
}

/// Places a copy of a list.
pub fn placed_list<'a, T: Copy>(arena: &'a Bump<Global>, items: &[T]) -> Result<&'a [T], ParseFault>
    ensures { MatchResult result (λ placed. placed.now ≡ items.now) (λ e. e ≡ NoMemory) }
{
    match place_list(arena, items) {
        Ok(placed) => Ok(placed),
        Err(_) => Err(ParseFault::NoMemory),
    }
}
