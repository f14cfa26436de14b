//! Rules of directions and regions.
ghost use Rattle.std.specs.Prelude.{◌≡◌, ◌<◌, ◌≤◌, ℕ, map, length, IfOk};
ghost use Rattle.zpl_tree.specs.Depth.{dir_depth, posts_depth, inner_depth, bracket_depth};
ghost use Rattle.zpl_tree.specs.Depth.{dims_depth, dim_depth};
ghost use Rattle.zpl_tree.specs.View.{pre_of, base_of, dir_of, posts_of, inner_of, bracket_of};
ghost use Rattle.zpl_tree.specs.View.{dims_of, dim_of};
ghost use Rattle.zpl_parse.specs.Reading.{IsRead, IsReadDeep};
ghost use Rattle.zpl_parse.specs.Expressions.{levels};
ghost use Rattle.zpl_parse.specs.Expressions as rule;

use crate::classes::{ends_dimension, ends_region, goes_on_region, outside, stride};
use crate::expressions::{components, expr};
use crate::faults::ParseFault;
use crate::placing::{placed, placed_list};
use crate::tokens::{
    Read, ReadDeep, begins_with, behind, first_kind, name, offset, refused, second_kind, symbol,
};
use bumpalo::Bump;
use std::alloc::Global;
use zpl_text::Token;
use zpl_tokens::{Kind, Sym};
use zpl_tree::{DimText, Dir, Expr, Inner, Post, Pre, RegionBase, Rexpr};

/// dir = NAME | vector; vector = "[" expr { "," expr } "]".
#[cycle(expression)]
pub fn dir<'a, 't>(
    alloc: Global,
    arena: &'a Bump<Global>,
    bytes: &'a [u8],
    tokens: &'t [Token],
    deep: u32,
) -> ReadDeep<'t, Dir<'a>>
    ensures follows { (few most : ℕ) → length tokens.now < few → length tokens.now < most
        → IsReadDeep result (rule.dir few (levels most deep).expr) dir_of bytes.now tokens.now }
    ensures shorter { IfOk result (λ r. length r.2.now < length tokens.now) }
    ensures depth { IfOk result (λ r. r.1 ≡ dir_depth (dir_of r.0)) }
    ensures within { IfOk result (λ r. r.1 ≤ deep) }
{
    if begins_with(tokens, Kind::Symbol(Sym::OpenBracket)) {
        let (parts, depth, rest) = components(alloc, arena, bytes, behind(tokens), deep)?;
        return Ok((Dir::Vector(parts), depth, rest));
    }
    let (name, rest) = name(bytes, tokens)?;
    Ok((Dir::Named(name), 0, rest))
}

/// { ( "at" | "by" ) dir }.
#[cycle(expression)]
pub fn posts<'a, 't>(
    alloc: Global,
    arena: &'a Bump<Global>,
    bytes: &'a [u8],
    tokens: &'t [Token],
    deep: u32,
) -> ReadDeep<'t, &'a [Post<'a>]>
    ensures follows { (few most : ℕ) → length tokens.now < few → length tokens.now < most
        → IsReadDeep result (rule.posts few (levels most deep).expr) (λ read. posts_of read.now)
        bytes.now tokens.now }
    ensures shorter { IfOk result (λ r. length r.2.now ≤ length tokens.now) }
    ensures depth { IfOk result (λ r. r.1 ≡ posts_depth (posts_of r.0.now)) }
    ensures within { IfOk result (λ r. r.1 ≤ deep) }
{
    let mut posts = Vec::new(alloc);
    let mut deepest = 0;
    let mut rest = tokens;
    while let Some(stride) = stride(first_kind(rest)) {
        let (dir, depth, after) = dir(alloc, arena, bytes, behind(rest), deep)?;
        posts.push(Post { stride, dir })?;
        deepest = depth.max(deepest);
        rest = after;
    }
    let posts = placed_list(arena, posts.as_slice())?;
    Ok((posts, deepest, rest))
}

/// bracket = "[" inner "]".
#[cycle(expression)]
pub fn in_bracket<'a, 't>(
    alloc: Global,
    arena: &'a Bump<Global>,
    bytes: &'a [u8],
    tokens: &'t [Token],
    deep: u32,
) -> ReadDeep<'t, Inner<'a>>
    ensures follows { (few most : ℕ) → length tokens.now < few → length tokens.now < most
        → IsReadDeep result (rule.in_bracket few (levels most deep).expr) inner_of
        bytes.now tokens.now }
    ensures shorter { IfOk result (λ r. length r.2.now < length tokens.now) }
    ensures depth { IfOk result (λ r. r.1 ≡ inner_depth (inner_of r.0)) }
    ensures within { IfOk result (λ r. r.1 ≤ deep) }
{
    let (_, rest) = symbol(tokens, Sym::OpenBracket)?;
    let (region, depth, rest) = inner(alloc, arena, bytes, rest, deep)?;
    let (_, rest) = symbol(rest, Sym::CloseBracket)?;
    Ok((region, depth, rest))
}

/// [ bracket ].
#[cycle(expression)]
pub fn bracket<'a, 't>(
    alloc: Global,
    arena: &'a Bump<Global>,
    bytes: &'a [u8],
    tokens: &'t [Token],
    deep: u32,
) -> ReadDeep<'t, Option<Inner<'a>>>
    ensures follows { (few most : ℕ) → length tokens.now < few → length tokens.now < most
        → IsReadDeep result (rule.bracket few (levels most deep).expr) bracket_of
        bytes.now tokens.now }
    ensures shorter { IfOk result (λ r. length r.2.now ≤ length tokens.now) }
    ensures depth { IfOk result (λ r. r.1 ≡ bracket_depth (bracket_of r.0)) }
    ensures within { IfOk result (λ r. r.1 ≤ deep) }
{
    if !begins_with(tokens, Kind::Symbol(Sym::OpenBracket)) {
        return Ok((None, 0, tokens));
    }
    let (region, depth, rest) = in_bracket(alloc, arena, bytes, tokens, deep)?;
    Ok((Some(region), depth, rest))
}

/// inner = rexpr | dim { "," dim }. A single name is a region expression.
#[cycle(expression)]
pub fn inner<'a, 't>(
    alloc: Global,
    arena: &'a Bump<Global>,
    bytes: &'a [u8],
    tokens: &'t [Token],
    deep: u32,
) -> ReadDeep<'t, Inner<'a>>
    ensures follows { (few most : ℕ) → length tokens.now < few → length tokens.now < most
        → IsReadDeep result (rule.inner few (levels most deep).expr) inner_of bytes.now tokens.now }
    ensures shorter { IfOk result (λ r. length r.2.now ≤ length tokens.now) }
    ensures depth { IfOk result (λ r. r.1 ≡ inner_depth (inner_of r.0)) }
    ensures within { IfOk result (λ r. r.1 ≤ deep) }
{
    if begins_region(first_kind(tokens), second_kind(tokens)) {
        return rexpr(alloc, arena, bytes, tokens, deep);
    }
    let (dims, depth, rest) = dim_texts(alloc, arena, bytes, tokens, deep)?;
    if !ends_region(first_kind(rest)) {
        return Err(refused(rest));
    }
    Ok((Inner::Dims(dims), depth, rest))
}

/// rexpr = { NAME ( "of" | "in" ) } ( NAME | DITTO ) { post }.
#[cycle(expression)]
pub fn rexpr<'a, 't>(
    alloc: Global,
    arena: &'a Bump<Global>,
    bytes: &'a [u8],
    tokens: &'t [Token],
    deep: u32,
) -> ReadDeep<'t, Inner<'a>>
    ensures follows { (few most : ℕ) → length tokens.now < few → length tokens.now < most
        → IsReadDeep result (rule.rexpr few (levels most deep).expr) inner_of bytes.now tokens.now }
    ensures shorter { IfOk result (λ r. length r.2.now ≤ length tokens.now) }
    ensures depth { IfOk result (λ r. r.1 ≡ inner_depth (inner_of r.0)) }
    ensures within { IfOk result (λ r. r.1 ≤ deep) }
{
    let ((pre, base), rest) = region_base(alloc, arena, bytes, tokens)?;
    let (post, depth, rest) = posts(alloc, arena, bytes, rest, deep)?;
    Ok((Inner::Rexpr(Rexpr { pre, base, post }), depth, rest))
}

/// dim { "," dim }.
#[cycle(expression)]
fn dim_texts<'a, 't>(
    alloc: Global,
    arena: &'a Bump<Global>,
    bytes: &'a [u8],
    tokens: &'t [Token],
    deep: u32,
) -> ReadDeep<'t, &'a [DimText<'a>]>
    ensures follows { (few most : ℕ) → length tokens.now < few → length tokens.now < most
        → IsReadDeep result (rule.dim_texts few (levels most deep).expr) (λ read. dims_of read.now)
        bytes.now tokens.now }
    ensures shorter { IfOk result (λ r. length r.2.now ≤ length tokens.now) }
    ensures depth { IfOk result (λ r. r.1 ≡ dims_depth (dims_of r.0.now)) }
    ensures within { IfOk result (λ r. r.1 ≤ deep) }
{
    let mut dims = Vec::new(alloc);
    let mut deepest = 0;
    let mut rest = tokens;
    loop {
        let (next, depth, after) = dim_text(alloc, arena, bytes, rest, deep)?;
        dims.push(next)?;
        deepest = depth.max(deepest);
        if !begins_with(after, Kind::Symbol(Sym::Comma)) {
            let dims = placed_list(arena, dims.as_slice())?;
            return Ok((dims, deepest, after));
        }
        rest = behind(after);
    }
}

/// dim = [ "*" | expr [ ".." expr ] ].
#[cycle(expression)]
fn dim_text<'a, 't>(
    alloc: Global,
    arena: &'a Bump<Global>,
    bytes: &'a [u8],
    tokens: &'t [Token],
    deep: u32,
) -> ReadDeep<'t, DimText<'a>>
    ensures follows { (most : ℕ) → length tokens.now < most
        → IsReadDeep result (rule.dim_text (levels most deep).expr) dim_of bytes.now tokens.now }
    ensures shorter { IfOk result (λ r. length r.2.now ≤ length tokens.now) }
    ensures depth { IfOk result (λ r. r.1 ≡ dim_depth (dim_of r.0)) }
    ensures within { IfOk result (λ r. r.1 ≤ deep) }
{
    if ends_dimension(first_kind(tokens)) {
        return Ok((DimText::Blank(offset(tokens)), 0, tokens));
    }
    if begins_with(tokens, Kind::Symbol(Sym::Star)) && ends_dimension(second_kind(tokens)) {
        return Ok((DimText::Star(offset(tokens)), 0, behind(tokens)));
    }
    bounds(alloc, arena, bytes, tokens, deep)
}

/// expr [ ".." expr ].
#[cycle(expression)]
fn bounds<'a, 't>(
    alloc: Global,
    arena: &'a Bump<Global>,
    bytes: &'a [u8],
    tokens: &'t [Token],
    deep: u32,
) -> ReadDeep<'t, DimText<'a>>
    ensures follows { (most : ℕ) → length tokens.now < most
        → IsReadDeep result (rule.bounds (levels most deep).expr) dim_of bytes.now tokens.now }
    ensures shorter { IfOk result (λ r. length r.2.now ≤ length tokens.now) }
    ensures depth { IfOk result (λ r. r.1 ≡ dim_depth (dim_of r.0)) }
    ensures within { IfOk result (λ r. r.1 ≤ deep) }
{
    let (low, low_depth, rest) = expr(alloc, arena, bytes, tokens, deep)?;
    let low = placed(arena, low)?;
    if !begins_with(rest, Kind::Symbol(Sym::DotDot)) {
        return Ok((DimText::One(low), low_depth, rest));
    }
    let (high, high_depth, rest) = expr(alloc, arena, bytes, behind(rest), deep)?;
    let high = placed(arena, high)?;
    Ok((DimText::Span(low, high), low_depth.max(high_depth), rest))
}

/// { NAME ( "of" | "in" ) } ( NAME | DITTO ).
fn region_base<'a, 't>(
    alloc: Global,
    arena: &'a Bump<Global>,
    bytes: &'a [u8],
    tokens: &'t [Token],
) -> Read<'t, (&'a [Pre<'a>], RegionBase<'a>)>
    ensures follows { (most : ℕ) → length tokens.now < most
        → IsRead result (rule.region_base most) (λ read. (map pre_of read.0.now, base_of read.1))
        bytes.now tokens.now }
    ensures shorter { IfOk result (λ r. length r.1.now ≤ length tokens.now) }
{
    let mut pre = Vec::new(alloc);
    let mut rest = tokens;
    loop {
        if begins_with(rest, Kind::Ditto) {
            let pre = placed_list(arena, pre.as_slice())?;
            return Ok(((pre, RegionBase::Ditto(offset(rest))), behind(rest)));
        }
        let (first, after) = name(bytes, rest)?;
        let Some(outside) = outside(first_kind(after)) else {
            let pre = placed_list(arena, pre.as_slice())?;
            return Ok(((pre, RegionBase::Named(first)), after));
        };
        pre.push(Pre {
            dir: first,
            outside,
        })?;
        rest = behind(after);
    }
}

/// Whether two tokens begin a region expression: a ditto, or a name behind which no dimension
/// goes on.
fn begins_region(first: Kind, second: Kind) -> bool
    ensures { result ≡ rule.begins_region first second }
{
    match first {
        Kind::Ditto => true,
        Kind::Name => goes_on_region(second),
        _ => false,
    }
}
