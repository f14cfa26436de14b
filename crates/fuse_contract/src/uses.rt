//! What the group of a loop puts and reads.
ghost use Rattle.std.specs.Prelude.{◌≡◌, ◌++◌, IfOk, OnOk, flat_map, fold};
ghost use Rattle.temp_norm.specs.of_code_parts.Uses.{as_list, exprs_of, member_words, words_of};
ghost use Rattle.fuse_contract.specs.Joining.{no_uses, uses_of, with_member, with_word};

use plan_form::words_of;
use std::alloc::{AllocError, Global};
use temp_norm::node_form::{ExprOp, Item, Member, Rows, Tables};

/// The arrays that a group puts, and those that it reads with a shift; the scalars that it reads;
/// the references of its loop; and whether it has `while` or `repeat`, or accumulates.
#[derive(Drop)]
pub(crate) struct GroupUses {
    pub puts: Rows<u32>,
    pub shifted: Rows<u32>,
    pub scalars: Rows<u32>,
    pub references: Rows<Item>,
    pub alone: bool,
}

/// What a group uses, where a loop runs it over the slot. Each of its words is looked at once.
pub(crate) fn uses_of(
    alloc: Global,
    tables: &Tables,
    slot: u32,
    members: &[Member],
) -> Result<GroupUses, AllocError>
    ensures { IfOk result (λ uses. uses ≡ uses_of tables.now slot members.now) }
{
    let mut uses = no_uses(alloc);
    add_members(alloc, &mut uses, slot, members)?;
    for member in members {
        add_member_words(alloc, &mut uses, tables, slot, member)?;
    }
    Ok(uses)
}

fn no_uses(alloc: Global) -> GroupUses
    ensures { result ≡ no_uses }
{
    GroupUses {
        puts: Rows::new(alloc),
        shifted: Rows::new(alloc),
        scalars: Rows::new(alloc),
        references: Rows::new(alloc),
        alone: false,
    }
}

fn add_members(
    alloc: Global,
    uses: &mut GroupUses,
    slot: u32,
    members: &[Member],
) -> Result<(), AllocError>
    ensures { OnOk result (uses.new ≡ fold (with_member slot) uses.old members.now) }
{
    for member in members {
        add_member(alloc, uses, slot, member)?;
    }
    Ok(())
}

fn add_member(
    alloc: Global,
    uses: &mut GroupUses,
    slot: u32,
    member: &Member,
) -> Result<(), AllocError>
    ensures { OnOk result (uses.new ≡ with_member slot uses.old member.now) }
{
    match *member {
        Member::Put { array, .. } => {
            uses.puts.push(alloc, array)?;
            uses.references.push(
                alloc,
                Item {
                    array,
                    slot,
                    shift: [0, 0, 0],
                },
            )?;
        }
        Member::Acc { .. } | Member::OpenWhile { .. } | Member::OpenRepeat { .. } => {
            uses.alone = true
        }
        _ => {}
    }
    Ok(())
}

// The expressions of a member.
#[derive(Clone, Copy)]
pub(crate) struct Exprs {
    pub expr: Option<u32>,
    pub mask: Option<u32>,
}

/// The expression of a member, and its mask.
pub(crate) fn exprs_of(member: &Member) -> Exprs
    ensures { as_list result.expr ++ as_list result.mask ≡ exprs_of member.now }
{
    match *member {
        Member::Put { expr, mask, .. }
        | Member::Cell { expr, mask, .. }
        | Member::Acc { expr, mask, .. }
        | Member::OpenIf { expr, mask, .. }
        | Member::OpenWhile { expr, mask, .. } => Exprs {
            expr: Some(expr),
            mask,
        },
        Member::OpenRepeat { mask, .. } => Exprs { expr: None, mask },
        Member::Until { expr } => Exprs {
            expr: Some(expr),
            mask: None,
        },
        Member::Otherwise | Member::CloseIf | Member::CloseWhile => Exprs {
            expr: None,
            mask: None,
        },
    }
}

fn add_member_words(
    alloc: Global,
    uses: &mut GroupUses,
    tables: &Tables,
    slot: u32,
    member: &Member,
) -> Result<(), AllocError>
    ensures { OnOk result (uses.new
        ≡ fold (with_word slot) uses.old (member_words tables.now member.now)) }
{
    let Exprs { expr, mask } = exprs_of(member);
    add_expr(alloc, uses, tables, slot, expr)?;
    add_expr(alloc, uses, tables, slot, mask)
}

fn add_expr(
    alloc: Global,
    uses: &mut GroupUses,
    tables: &Tables,
    slot: u32,
    expr: Option<u32>,
) -> Result<(), AllocError>
    ensures { OnOk result (uses.new
        ≡ fold (with_word slot) uses.old (flat_map (words_of tables.now) (as_list expr))) }
{
    let Some(number) = expr else { return Ok(()) };
    for word in words_of(tables, number) {
        add_word(alloc, uses, slot, word)?;
    }
    Ok(())
}

fn add_word(alloc: Global, uses: &mut GroupUses, slot: u32, word: &ExprOp) -> Result<(), AllocError>
    ensures { OnOk result (uses.new ≡ with_word slot uses.old word.now) }
{
    match *word {
        ExprOp::Scalar(scalar) => uses.scalars.push(alloc, scalar),
        ExprOp::Here(array) => uses.references.push(
            alloc,
            Item {
                array,
                slot,
                shift: [0, 0, 0],
            },
        ),
        ExprOp::Shifted(array, shift) => {
            uses.shifted.push(alloc, array)?;
            uses.references.push(alloc, Item { array, slot, shift })
        }
        _ => Ok(()),
    }
}
