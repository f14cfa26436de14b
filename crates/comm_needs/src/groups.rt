//! What groups need, and whether they are voted on.
ghost use Rattle.std.specs.Prelude.{◌≡◌, ◌++◌, ◌∷◌, [], IfOk, OnOk, flat_map};
ghost use Rattle.std.specs.List.{list_any};
ghost use Rattle.plan_form.specs.of_code_parts.Uses.{
  as_list,
  divides_in,
  exprs_of,
  group_words,
  has_loops,
  is_turning,
  member_words,
  words_of,
};
ghost use Rattle.comm_needs.specs.Needs.{is_voted_on, needs_of, with_needed};

use plan_form::node_form::{ExprOp, Item, Member, Tables};
use plan_form::{ItemSet, members_of, words_of};
use std::alloc::{AllocError, Global};
use zpl_nums::Op;

/// The items that a loop over the slot needs for its group, each once, in the order of its members.
/// Each word of the group is looked at once.
pub fn needs_of(
    alloc: Global,
    tables: &Tables,
    slot: u32,
    group: u32,
) -> Result<ItemSet, AllocError>
    ensures { IfOk result (λ items. items ≡ needs_of tables.now slot group) }
{
    let mut items = ItemSet::new(alloc);
    for member in members_of(tables, group) {
        let Exprs { expr, mask } = exprs_of(member);
        add_needs_of(&mut items, tables, slot, expr)?;
        add_needs_of(&mut items, tables, slot, mask)?;
    }
    Ok(items)
}

// The expressions of a member.
#[derive(Clone, Copy)]
struct Exprs {
    expr: Option<u32>,
    mask: Option<u32>,
}

fn exprs_of(member: &Member) -> Exprs
    ensures { as_list result.expr ++ as_list result.mask ≡ exprs_of member.now }
{
    match *member {
        Member::Put { expr, mask, .. }
        | Member::Cell { expr, mask, .. }
        | Member::Acc { expr, mask, .. }
        | Member::OpenIf { expr, mask, .. }
        | Member::OpenWhile { expr, mask, .. } => Exprs {
            expr: Some(expr),
            mask,
        },
        Member::OpenRepeat { mask, .. } => Exprs { expr: None, mask },
        Member::Until { expr } => Exprs {
            expr: Some(expr),
            mask: None,
        },
        Member::Otherwise | Member::CloseIf | Member::CloseWhile => Exprs {
            expr: None,
            mask: None,
        },
    }
}

fn add_needs_of(
    items: &mut ItemSet,
    tables: &Tables,
    slot: u32,
    expr: Option<u32>,
) -> Result<(), AllocError>
    ensures { OnOk result (items.new
        ≡ with_needed slot items.old (flat_map (words_of tables.now) (as_list expr))) }
{
    let Some(number) = expr else { return Ok(()) };
    for word in words_of(tables, number) {
        add_need(items, slot, word)?;
    }
    Ok(())
}

fn add_need(items: &mut ItemSet, slot: u32, word: &ExprOp) -> Result<(), AllocError>
    ensures { OnOk result (items.new ≡ with_needed slot items.old (word.now ∷ [])) }
{
    match *word {
        ExprOp::Shifted(array, shift) => items.add(Item { array, slot, shift }),
        _ => Ok(()),
    }
}

/// Whether the group is voted on: it may divide by zero, or has `while` or `repeat`.
pub fn is_voted_on(tables: &Tables, group: u32) -> bool
    ensures { result ≡ is_voted_on tables.now group }
{
    divides(tables, group) || has_loops(tables, group)
}

fn has_loops(tables: &Tables, group: u32) -> bool
    ensures { result ≡ has_loops tables.now group }
{
    for member in members_of(tables, group) {
        if is_turning(member) {
            return true;
        }
    }
    false
}

fn is_turning(member: &Member) -> bool
    ensures { result ≡ is_turning member.now }
{
    match *member {
        Member::OpenWhile { .. } | Member::OpenRepeat { .. } => true,
        _ => false,
    }
}

fn divides(tables: &Tables, group: u32) -> bool
    ensures { result ≡ list_any divides_in (group_words tables.now group) }
{
    for member in members_of(tables, group) {
        if member_divides(tables, member) {
            return true;
        }
    }
    false
}

fn member_divides(tables: &Tables, member: &Member) -> bool
    ensures { result ≡ list_any divides_in (member_words tables.now member.now) }
{
    let Exprs { expr, mask } = exprs_of(member);
    expr_divides(tables, expr) || expr_divides(tables, mask)
}

fn expr_divides(tables: &Tables, expr: Option<u32>) -> bool
    ensures { result ≡ list_any divides_in (flat_map (words_of tables.now) (as_list expr)) }
{
    let Some(number) = expr else { return false };
    for word in words_of(tables, number) {
        if divides_in(word) {
            return true;
        }
    }
    false
}

fn divides_in(word: &ExprOp) -> bool
    ensures { result ≡ divides_in word.now }
{
    match *word {
        ExprOp::Pair(Op::Div) | ExprOp::Pair(Op::Rem) => true,
        _ => false,
    }
}
