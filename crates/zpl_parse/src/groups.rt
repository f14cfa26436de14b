//! Groups of definitions.
ghost use Rattle.std.specs.Prelude.{◌<◌, ℕ, map, length, IfOk};
ghost use Rattle.zpl_tree.specs.Syntax as tree;
ghost use Rattle.zpl_tree.specs.View.{define_of, region_of, direction_of, var_of};
ghost use Rattle.zpl_parse.specs.Outcome.{Reader};
ghost use Rattle.zpl_parse.specs.Reading.{IsRead};
ghost use Rattle.zpl_parse.specs.Whole.{any_expr};
ghost use Rattle.zpl_parse.specs.Declarations as rule;

use crate::declarations::{define, direction, region, variable};
use crate::placing::placed_list;
use crate::tokens::{Read, begins_with};
use bumpalo::Bump;
use std::alloc::Global;
use zpl_text::Token;
use zpl_tokens::Kind;
use zpl_tree::{Define, DirDef, RegionDef, VarDef};

/// A definition of those that stand in groups. Each begins with a name.
pub trait Definition<'a>: Copy {
    /// The type of its trees.
    ghost Tree: { Type 0 };

    /// The tree that it is.
    ghost tree_of: { Self → Tree };

    /// The rule that it is read by.
    ghost rule_of: { ℕ → ℕ → Reader Tree };

    /// Reads one.
    fn read<'t>(
        alloc: Global,
        arena: &'a Bump<Global>,
        bytes: &'a [u8],
        tokens: &'t [Token],
    ) -> Read<'t, Self>
        ensures follows { (few most : ℕ) → length tokens.now < few → length tokens.now < most
            → IsRead result (rule_of few most) tree_of bytes.now tokens.now }
        ensures shorter { IfOk result (λ r. length r.1.now < length tokens.now) };
}

impl<'a> Definition<'a> for Define<'a> {
    ghost Tree = { tree.Define };

    ghost tree_of = { define_of };

    ghost rule_of = { λ few most. rule.define (any_expr most) };

    fn read<'t>(
        alloc: Global,
        arena: &'a Bump<Global>,
        bytes: &'a [u8],
        tokens: &'t [Token],
    ) -> Read<'t, Self> {
        define(alloc, arena, bytes, tokens)
    }
}

impl<'a> Definition<'a> for RegionDef<'a> {
    ghost Tree = { tree.RegionDef };

    ghost tree_of = { region_of };

    ghost rule_of = { λ few most. rule.region few (any_expr most) };

    fn read<'t>(
        alloc: Global,
        arena: &'a Bump<Global>,
        bytes: &'a [u8],
        tokens: &'t [Token],
    ) -> Read<'t, Self> {
        region(alloc, arena, bytes, tokens)
    }
}

impl<'a> Definition<'a> for DirDef<'a> {
    ghost Tree = { tree.DirDef };

    ghost tree_of = { direction_of };

    ghost rule_of = { λ few most. rule.direction few (any_expr most) };

    fn read<'t>(
        alloc: Global,
        arena: &'a Bump<Global>,
        bytes: &'a [u8],
        tokens: &'t [Token],
    ) -> Read<'t, Self> {
        direction(alloc, arena, bytes, tokens)
    }
}

impl<'a> Definition<'a> for VarDef<'a> {
    ghost Tree = { tree.VarDef };

    ghost tree_of = { var_of };

    ghost rule_of = { λ few most. rule.variables few (any_expr most) };

    fn read<'t>(
        alloc: Global,
        arena: &'a Bump<Global>,
        bytes: &'a [u8],
        tokens: &'t [Token],
    ) -> Read<'t, Self> {
        variable(alloc, arena, bytes, tokens)
    }
}

/// definition { definition }.
pub fn group<'a, 't, D: Definition<'a>>(
    alloc: Global,
    arena: &'a Bump<Global>,
    bytes: &'a [u8],
    tokens: &'t [Token],
) -> Read<'t, &'a [D]>
    ensures follows { (few most : ℕ) → length tokens.now < few → length tokens.now < most
        → IsRead result (rule.group few (D.rule_of few most)) (λ read. map D.tree_of read.now)
        bytes.now tokens.now }
    ensures shorter { IfOk result (λ r. length r.1.now < length tokens.now) }
{
    let mut found = Vec::new(alloc);
    let mut rest = tokens;
    loop {
        let (next, after) = D::read(alloc, arena, bytes, rest)?;
        found.push(next)?;
        if !begins_with(after, Kind::Name) {
            let found = placed_list(arena, found.as_slice())?;
            return Ok((found, after));
        }
        rest = after;
    }
}
