//! Lists of a program by their numbers.
ghost use Rattle.std.specs.Prelude.{◌≡◌};
ghost use Rattle.code_parts.specs.Uses.{items_of, members_of, words_of};

use node_form::{ExprOp, Item, Member, Tables};

/// The words of an expression; none where there is no such expression.
pub(crate) fn words_of(tables: &Tables, expr: u32) -> &[ExprOp]
    ensures { result.now ≡ words_of tables.now expr }
{
    match tables.exprs.get(u64::from(expr)) {
        Some(words) => words.as_slice(),
        None => &[],
    }
}

/// The members of a group; none where there is no such group.
pub(crate) fn members_of(tables: &Tables, group: u32) -> &[Member]
    ensures { result.now ≡ members_of tables.now group }
{
    match tables.groups.get(u64::from(group)) {
        Some(members) => members.as_slice(),
        None => &[],
    }
}

/// The items of an exchange; none where there is no such exchange.
pub(crate) fn items_of(tables: &Tables, exchange: u32) -> &[Item]
    ensures { result.now ≡ items_of tables.now exchange }
{
    match tables.exchanges.get(u64::from(exchange)) {
        Some(items) => items.as_slice(),
        None => &[],
    }
}
