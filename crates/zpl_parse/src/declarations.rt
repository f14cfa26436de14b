//! Rules of declarations.
ghost use Rattle.std.specs.Prelude.{◌<◌, ◌≤◌, ℕ, map, length, IfOk};
ghost use Rattle.std.specs.Option.{option_map};
ghost use Rattle.zpl_tree.specs.View.{name_of, base_type_of, define_of, region_of, direction_of};
ghost use Rattle.zpl_tree.specs.View.{var_of, param_of, procedure_of, decl_of, stmt_of};
ghost use Rattle.zpl_parse.specs.Classes.{part_of};
ghost use Rattle.zpl_parse.specs.Reading.{IsRead};
ghost use Rattle.zpl_grammar.specs.Lexeme.{head_kind};
ghost use Rattle.zpl_parse.specs.Whole.{any_expr, most_nested};
ghost use Rattle.zpl_parse.specs.Declarations as rule;

use crate::classes::{Part, declared_by};
use crate::expressions::components;
use crate::groups::group;
use crate::placing::{placed_list, placed_procedure};
use crate::regions::{bracket, in_bracket, posts, rexpr};
use crate::statements::{MOST_DEEP, body_end, prefixes, value};
use crate::tokens::{Read, begins_with, behind, first_kind, keyword, name, names, refused, symbol};
use bumpalo::Bump;
use std::alloc::Global;
use zpl_text::Token;
use zpl_tokens::{Key, Kind, Sym};
use zpl_tree::{
    Base, Decl, Define, DirDef, Form, Inner, Name, Param, Post, Procedure, RegionDef, Stmt, VarDef,
};

/// { decl } END.
pub fn decls<'a, 't>(
    alloc: Global,
    arena: &'a Bump<Global>,
    bytes: &'a [u8],
    tokens: &'t [Token],
) -> Read<'t, &'a [Decl<'a>]>
    ensures { (few most : ℕ) → length tokens.now < few → length tokens.now < most
        → IsRead result (rule.decls few (any_expr most) most_nested) (λ read. map decl_of read.now)
        bytes.now tokens.now }
{
    let mut decls = Vec::new(alloc);
    let mut rest = tokens;
    while !begins_with(rest, Kind::End) {
        let (next, after) = decl(alloc, arena, bytes, rest)?;
        decls.push(next)?;
        rest = after;
    }
    let decls = placed_list(arena, decls.as_slice())?;
    Ok((decls, behind(rest)))
}

/// decl = "config" "var" define { define } | "constant" define { define }
/// | "region" regiondef { regiondef } | "direction" dirdef { dirdef }
/// | "var" vardef { vardef } | procedure.
fn decl<'a, 't>(
    alloc: Global,
    arena: &'a Bump<Global>,
    bytes: &'a [u8],
    tokens: &'t [Token],
) -> Read<'t, Decl<'a>>
    ensures follows { (few most : ℕ) → length tokens.now ≤ few → length tokens.now < most
        → IsRead result
        (λ lexemes. rule.decl_by few (any_expr most) most_nested
        (part_of (head_kind lexemes)) lexemes)
        decl_of bytes.now tokens.now }
    ensures shorter { IfOk result (λ r. length r.1.now < length tokens.now) }
{
    let Some(part) = declared_by(first_kind(tokens)) else {
        return Err(refused(tokens));
    };
    let rest = behind(tokens);
    match part {
        Part::Config => {
            let (_, rest) = keyword(rest, Key::Var)?;
            let (those, rest) = group(alloc, arena, bytes, rest)?;
            Ok((Decl::Config(those), rest))
        }
        Part::Constant => {
            let (those, rest) = group(alloc, arena, bytes, rest)?;
            Ok((Decl::Constant(those), rest))
        }
        Part::Region => {
            let (those, rest) = group(alloc, arena, bytes, rest)?;
            Ok((Decl::Regions(those), rest))
        }
        Part::Direction => {
            let (those, rest) = group(alloc, arena, bytes, rest)?;
            Ok((Decl::Directions(those), rest))
        }
        Part::Var => {
            let (those, rest) = group(alloc, arena, bytes, rest)?;
            Ok((Decl::Vars(those), rest))
        }
        Part::Procedure => {
            let (defined, rest) = procedure(alloc, arena, bytes, rest)?;
            let defined = placed_procedure(arena, defined)?;
            Ok((Decl::Procedure(defined), rest))
        }
    }
}

/// define = NAME ":" base "=" expr ";".
pub fn define<'a, 't>(
    alloc: Global,
    arena: &'a Bump<Global>,
    bytes: &'a [u8],
    tokens: &'t [Token],
) -> Read<'t, Define<'a>>
    ensures follows { (most : ℕ) → length tokens.now < most
        → IsRead result (rule.define (any_expr most)) define_of bytes.now tokens.now }
    ensures shorter { IfOk result (λ r. length r.1.now < length tokens.now) }
{
    let (name, rest) = name(bytes, tokens)?;
    let (_, rest) = symbol(rest, Sym::Colon)?;
    let (base, rest) = base(bytes, rest)?;
    let (_, rest) = symbol(rest, Sym::Equal)?;
    let (value, rest) = value(alloc, arena, bytes, rest)?;
    let (_, rest) = symbol(rest, Sym::Semicolon)?;
    Ok((Define { name, base, value }, rest))
}

/// base = "integer" | "boolean" | NAME.
fn base<'a, 't>(bytes: &'a [u8], tokens: &'t [Token]) -> Read<'t, Base<'a>>
    ensures follows { IsRead result rule.base base_type_of bytes.now tokens.now }
    ensures shorter { IfOk result (λ r. length r.1.now < length tokens.now) }
{
    if begins_with(tokens, Kind::Word(Key::Integer)) {
        return Ok((Base::Integer, behind(tokens)));
    }
    if begins_with(tokens, Kind::Word(Key::Boolean)) {
        return Ok((Base::Boolean, behind(tokens)));
    }
    let (name, rest) = name(bytes, tokens)?;
    Ok((Base::Other(name), rest))
}

/// regiondef = NAME "=" ( bracket { post } | rexpr ) ";".
pub fn region<'a, 't>(
    alloc: Global,
    arena: &'a Bump<Global>,
    bytes: &'a [u8],
    tokens: &'t [Token],
) -> Read<'t, RegionDef<'a>>
    ensures follows { (few most : ℕ) → length tokens.now < few → length tokens.now < most
        → IsRead result (rule.region few (any_expr most)) region_of bytes.now tokens.now }
    ensures shorter { IfOk result (λ r. length r.1.now < length tokens.now) }
{
    let (name, rest) = name(bytes, tokens)?;
    let (_, rest) = symbol(rest, Sym::Equal)?;
    let (definition, rest) = region_body(alloc, arena, bytes, name, rest)?;
    let (_, rest) = symbol(rest, Sym::Semicolon)?;
    Ok((definition, rest))
}

/// bracket { post } | rexpr, for the region of this name.
fn region_body<'a, 't>(
    alloc: Global,
    arena: &'a Bump<Global>,
    bytes: &'a [u8],
    name: Name<'a>,
    tokens: &'t [Token],
) -> Read<'t, RegionDef<'a>>
    ensures follows { (few most : ℕ) → length tokens.now < few → length tokens.now < most
        → IsRead result (rule.region_body few (any_expr most) (name_of name.entry)) region_of
        bytes.now tokens.now }
    ensures shorter { IfOk result (λ r. length r.1.now ≤ length tokens.now) }
{
    if !begins_with(tokens, Kind::Symbol(Sym::OpenBracket)) {
        let (body, _, rest) = rexpr(alloc, arena, bytes, tokens, MOST_DEEP)?;
        let posts: &[Post] = &[];
        return Ok((RegionDef { name, body, posts }, rest));
    }
    let (body, _, rest) = in_bracket(alloc, arena, bytes, tokens, MOST_DEEP)?;
    let (posts, _, rest) = posts(alloc, arena, bytes, rest, MOST_DEEP)?;
    Ok((RegionDef { name, body, posts }, rest))
}

/// dirdef = NAME "=" vector ";".
pub fn direction<'a, 't>(
    alloc: Global,
    arena: &'a Bump<Global>,
    bytes: &'a [u8],
    tokens: &'t [Token],
) -> Read<'t, DirDef<'a>>
    ensures follows { (few most : ℕ) → length tokens.now < few → length tokens.now < most
        → IsRead result (rule.direction few (any_expr most)) direction_of bytes.now tokens.now }
    ensures shorter { IfOk result (λ r. length r.1.now < length tokens.now) }
{
    let (name, rest) = name(bytes, tokens)?;
    let (_, rest) = symbol(rest, Sym::Equal)?;
    let (_, rest) = symbol(rest, Sym::OpenBracket)?;
    let (parts, _, rest) = components(alloc, arena, bytes, rest, MOST_DEEP)?;
    let (_, rest) = symbol(rest, Sym::Semicolon)?;
    Ok((DirDef { name, parts }, rest))
}

/// vardef = NAME { "," NAME } ":" [ bracket ] base ";".
pub fn variable<'a, 't>(
    alloc: Global,
    arena: &'a Bump<Global>,
    bytes: &'a [u8],
    tokens: &'t [Token],
) -> Read<'t, VarDef<'a>>
    ensures follows { (few most : ℕ) → length tokens.now < few → length tokens.now < most
        → IsRead result (rule.variables few (any_expr most)) var_of bytes.now tokens.now }
    ensures shorter { IfOk result (λ r. length r.1.now < length tokens.now) }
{
    let (names, rest) = names(alloc, arena, bytes, tokens)?;
    let (_, rest) = symbol(rest, Sym::Colon)?;
    let (shape, _, rest) = bracket(alloc, arena, bytes, rest, MOST_DEEP)?;
    let (base, rest) = base(bytes, rest)?;
    let (_, rest) = symbol(rest, Sym::Semicolon)?;
    Ok((VarDef { names, shape, base }, rest))
}

/// NAME "(" [ param { ";" param } ] ")" [ ":" base ] ";" { "var" vardef { vardef } }
/// { prefix } block, behind a "procedure".
fn procedure<'a, 't>(
    alloc: Global,
    arena: &'a Bump<Global>,
    bytes: &'a [u8],
    tokens: &'t [Token],
) -> Read<'t, Procedure<'a>>
    ensures follows { (few most : ℕ) → length tokens.now < few → length tokens.now < most
        → IsRead result (rule.procedure few (any_expr most) most_nested) procedure_of
        bytes.now tokens.now }
    ensures shorter { IfOk result (λ r. length r.1.now < length tokens.now) }
{
    let (name, rest) = name(bytes, tokens)?;
    let (_, rest) = symbol(rest, Sym::OpenParen)?;
    let (params, rest) = params(alloc, arena, bytes, rest)?;
    let (result, rest) = result_type(bytes, rest)?;
    let (_, rest) = symbol(rest, Sym::Semicolon)?;
    let (locals, rest) = locals(alloc, arena, bytes, rest)?;
    let (body, rest) = body(alloc, arena, bytes, rest)?;
    let procedure = Procedure {
        name,
        params,
        result,
        locals,
        body,
    };
    Ok((procedure, rest))
}

/// [ param { ";" param } ] ")", behind a "(".
fn params<'a, 't>(
    alloc: Global,
    arena: &'a Bump<Global>,
    bytes: &'a [u8],
    tokens: &'t [Token],
) -> Read<'t, &'a [Param<'a>]>
    ensures follows { (few most : ℕ) → length tokens.now < few → length tokens.now < most
        → IsRead result (rule.params few (any_expr most)) (λ read. map param_of read.now)
        bytes.now tokens.now }
    ensures shorter { IfOk result (λ r. length r.1.now ≤ length tokens.now) }
{
    if begins_with(tokens, Kind::Symbol(Sym::CloseParen)) {
        return Ok((&[], behind(tokens)));
    }
    let (those, rest) = some_params(alloc, arena, bytes, tokens)?;
    let (_, rest) = symbol(rest, Sym::CloseParen)?;
    Ok((those, rest))
}

/// param { ";" param }.
fn some_params<'a, 't>(
    alloc: Global,
    arena: &'a Bump<Global>,
    bytes: &'a [u8],
    tokens: &'t [Token],
) -> Read<'t, &'a [Param<'a>]>
    ensures follows { (few most : ℕ) → length tokens.now < few → length tokens.now < most
        → IsRead result (rule.some_params few (any_expr most)) (λ read. map param_of read.now)
        bytes.now tokens.now }
    ensures shorter { IfOk result (λ r. length r.1.now < length tokens.now) }
{
    let mut params = Vec::new(alloc);
    let mut rest = tokens;
    loop {
        let (next, after) = param(alloc, arena, bytes, rest)?;
        params.push(next)?;
        if !begins_with(after, Kind::Symbol(Sym::Semicolon)) {
            let params = placed_list(arena, params.as_slice())?;
            return Ok((params, after));
        }
        rest = behind(after);
    }
}

/// param = [ "var" ] NAME { "," NAME } ":" [ bracket ] base.
fn param<'a, 't>(
    alloc: Global,
    arena: &'a Bump<Global>,
    bytes: &'a [u8],
    tokens: &'t [Token],
) -> Read<'t, Param<'a>>
    ensures follows { (few most : ℕ) → length tokens.now ≤ few → length tokens.now < most
        → IsRead result (rule.param few (any_expr most)) param_of bytes.now tokens.now }
    ensures shorter { IfOk result (λ r. length r.1.now < length tokens.now) }
{
    if begins_with(tokens, Kind::Word(Key::Var)) {
        formals(alloc, arena, bytes, true, behind(tokens))
    } else {
        formals(alloc, arena, bytes, false, tokens)
    }
}

/// NAME { "," NAME } ":" [ bracket ] base, for formals that refer or that are copies.
fn formals<'a, 't>(
    alloc: Global,
    arena: &'a Bump<Global>,
    bytes: &'a [u8],
    by_ref: bool,
    tokens: &'t [Token],
) -> Read<'t, Param<'a>>
    ensures follows { (few most : ℕ) → length tokens.now ≤ few → length tokens.now < most
        → IsRead result (rule.formals few (any_expr most) by_ref) param_of bytes.now tokens.now }
    ensures shorter { IfOk result (λ r. length r.1.now < length tokens.now) }
{
    let (names, rest) = names(alloc, arena, bytes, tokens)?;
    let (_, rest) = symbol(rest, Sym::Colon)?;
    let (shape, _, rest) = bracket(alloc, arena, bytes, rest, MOST_DEEP)?;
    let (base, rest) = base(bytes, rest)?;
    let param = Param {
        by_ref,
        names,
        shape,
        base,
    };
    Ok((param, rest))
}

/// [ ":" base ].
fn result_type<'a, 't>(bytes: &'a [u8], tokens: &'t [Token]) -> Read<'t, Option<Base<'a>>>
    ensures follows { IsRead result rule.result (option_map base_type_of) bytes.now tokens.now }
    ensures shorter { IfOk result (λ r. length r.1.now ≤ length tokens.now) }
{
    if !begins_with(tokens, Kind::Symbol(Sym::Colon)) {
        return Ok((None, tokens));
    }
    let (base, rest) = base(bytes, behind(tokens))?;
    Ok((Some(base), rest))
}

/// { "var" vardef { vardef } }, as one list.
fn locals<'a, 't>(
    alloc: Global,
    arena: &'a Bump<Global>,
    bytes: &'a [u8],
    tokens: &'t [Token],
) -> Read<'t, &'a [VarDef<'a>]>
    ensures follows { (few most : ℕ) → length tokens.now < few → length tokens.now < most
        → IsRead result (rule.locals few (any_expr most)) (λ read. map var_of read.now)
        bytes.now tokens.now }
    ensures shorter { IfOk result (λ r. length r.1.now ≤ length tokens.now) }
{
    let mut locals = Vec::new(alloc);
    let mut rest = tokens;
    while begins_with(rest, Kind::Word(Key::Var)) {
        let (more, after): (&[VarDef], _) = group(alloc, arena, bytes, behind(rest))?;
        locals.extend_from_slice(more)?;
        rest = after;
    }
    let locals = placed_list(arena, locals.as_slice())?;
    Ok((locals, rest))
}

/// { prefix } block.
fn body<'a, 't>(
    alloc: Global,
    arena: &'a Bump<Global>,
    bytes: &'a [u8],
    tokens: &'t [Token],
) -> Read<'t, Stmt<'a>>
    ensures follows { (few most : ℕ) → length tokens.now < few → length tokens.now < most
        → IsRead result (rule.body few (any_expr most) most_nested) stmt_of bytes.now tokens.now }
    ensures shorter { IfOk result (λ r. length r.1.now < length tokens.now) }
{
    let (prefixes, rest) = prefixes(alloc, arena, bytes, tokens)?;
    let (at, rest) = keyword(rest, Key::Begin)?;
    let (those, rest) = body_end(alloc, arena, bytes, rest, MOST_DEEP - 1)?;
    let form = Form::Block(those);
    Ok((Stmt { at, prefixes, form }, rest))
}
