//! Prints: all values are computed before the first of them is printed.
ghost use Rattle.std.specs.Prelude.{◌≡◌, [], ◌∷◌, ◌++◌, IfOk, OnOk, List, None, map};
ghost use Rattle.zpl_tree.specs.View.{expr_of, item_of};
ghost use Rattle.zpl_names.specs.Types.{type_of};
ghost use Rattle.zpl_text.specs.Escapes.{unescaped};
ghost use Rattle.node_form.specs.Expression.{Expression, Variable, words_of};
ghost use Rattle.node_form.specs.declared.instructions.Instr.TheVariants as instr;
ghost use Rattle.flat_form.specs.Row as row;
ghost use Rattle.zpl_lowering.specs.Hoist.{kept_rows};
ghost use Rattle.zpl_lowering.specs.Lowered.{rows_alone};
ghost use Rattle.zpl_lowering.specs.Statement.{is_truth, items_of, lowered_write, newline};
ghost use Rattle.zpl_lowering.specs.Statement.{printed_exprs, scalar_print, shown_of};
ghost use Rattle.lower_draft.specs.Drafted.{grown, pushed, with_scalars};
ghost use Rattle.lower_draft.specs.Inline.{row_of};
ghost use Rattle.lower_points.specs.of_lower_places.Sound.{IsPlace};
ghost use Rattle.lower_points.specs.of_lower_places.View.{where_of};
ghost use Rattle.lower_points.specs.of_lower_operators.Code.{owning};
ghost use Rattle.lower_points.specs.of_lower_operators.Sound.{AreFitPlaced};
ghost use Rattle.lower_points.specs.of_lower_operators.View.{placed_of};
ghost use Rattle.lower_points.specs.Fit.{AreFitItems};
ghost use Rattle.std.specs.Vec.Iter.{into_iter_items};
ghost use Rattle.lower_statements.specs.Writes.{behind_item, is_boolean, print_of, rows_in};
ghost use Rattle.lower_statements.specs.Writes.{shown_alone};
ghost use Rattle.lower_statements.specs.Writes.{value_of, values_of};

use crate::values::push_alone;
use lower_draft::{Draft, FlatRow};
use lower_points::lower_operators::{Placed, keep, phases};
use lower_points::lower_places::{Place, Slotted};
use name_kinds::{BaseType, is_above_zero, part_of};
use node_form::{ExprOp, ExprRow, Instr, TextRow};
use std::alloc::{AllocError, Global};
use std::vec::IntoIter;
use zpl_text::unescape;
use zpl_tree::{Expr, Item};

/// Appends the expression of an item, with its rank, if it has one.
fn push_printed<'a>(
    exprs: &mut Vec<Placed<'a>>,
    place: &Place<'_, '_>,
    item: &Item<'a>,
) -> Result<(), AllocError>
    requires fit { AreFitItems (item_of item.now ∷ []) }
    requires before { AreFitPlaced exprs.old.items }
    ensures pushed { OnOk result (map placed_of exprs.new.items ≡ map placed_of exprs.old.items
        ++ printed_exprs (where_of place.now) (item_of item.now ∷ [])) }
    ensures fit { OnOk result (AreFitPlaced exprs.new.items) }
{
    match item {
        Item::Str(_) => Ok(()),
        Item::Value(expr) => {
            push_alone(exprs, place, *expr)?;
            Ok(())
        }
    }
}

/// The expressions that are printed, with their ranks.
fn printed<'a>(
    alloc: Global,
    place: &Place<'_, '_>,
    items: &[Item<'a>],
) -> Result<Vec<Placed<'a>>, AllocError>
    requires { AreFitItems (map item_of items.now) }
    ensures exprs { IfOk result (λ exprs. map placed_of exprs.items
        ≡ printed_exprs (where_of place.now) (map item_of items.now)) }
    ensures fit { IfOk result (λ exprs. AreFitPlaced exprs.items) }
{
    let mut exprs = Vec::new(alloc);
    for item in items {
        push_printed(&mut exprs, place, item)?;
    }
    Ok(exprs)
}

/// Whether a base type is that of truth values.
fn is_boolean(base: Option<BaseType>) -> bool
    ensures { result ≡ is_boolean base }
{
    match base {
        Some(BaseType::Boolean) => true,
        _ => false,
    }
}

/// Whether an expression is printed as a truth value.
fn prints_truth(place: &Place<'_, '_>, expr: &Expr<'_>) -> bool
    ensures { result ≡ is_truth (type_of (where_of place.now).scope (expr_of expr.now)) }
{
    is_boolean(part_of(&place.scope, place.prefix, expr).base)
}

/// Appends the value of a scalar, and gives the row that prints it.
fn push_scalar(
    draft: &mut Draft,
    line: u32,
    truth: bool,
    expr: ExprRow,
) -> Result<FlatRow, AllocError>
    ensures set { OnOk result (draft.new
        ≡ pushed (with_scalars draft.old 1) (row.Set draft.old.next.scalars expr line)) }
    ensures print { IfOk result (λ print. row_of print
        ≡ scalar_print truth (words_of (Variable draft.old.next.scalars))) }
{
    let scalar = draft.add_scalar()?;
    let mut words = Vec::new(draft.alloc());
    words.push(ExprOp::Scalar(scalar))?;
    let shown = ExprRow::of(words);
    draft.push(FlatRow::Set { scalar, expr, line })?;
    if truth {
        Ok(FlatRow::Truth { expr: shown })
    } else {
        Ok(FlatRow::Number { expr: shown })
    }
}

/// Appends the values of an array over the current region, and gives the row that prints them.
fn push_array(
    draft: &mut Draft,
    line: u32,
    truth: bool,
    over: &Slotted,
    expr: ExprRow,
) -> Result<FlatRow, AllocError>
    ensures kept { (left : Expression) → expr ≡ words_of left → OnOk result (draft.new
        ≡ grown draft.old (owning 0 (over.now.flood ∷ [])
        (kept_rows line draft.old.next.temps over.now.slot left None))) }
    ensures print { IfOk result (λ print. row_of print
        ≡ row.Plain (instr.Gather truth draft.old.next.temps over.now.slot)) }
{
    let slot = over.slot;
    let array = keep(draft, line, slot, over.flood, expr, None)?;
    Ok(FlatRow::Plain(Instr::Gather { truth, array, slot }))
}

/// Appends the rows of a value that is printed, and gives the row that prints it.
fn push_value(
    draft: &mut Draft,
    place: &Place<'_, '_>,
    line: u32,
    expr: &Expr<'_>,
    words: ExprRow,
) -> Result<FlatRow, AllocError>
    ensures code { (left : Expression) → words ≡ words_of left → OnOk result (draft.new
        ≡ grown draft.old (shown_alone (shown_of (where_of place.now) line
        draft.old.next.scalars draft.old.next.temps (expr_of expr.now) left))) }
    ensures print { (left : Expression) → words ≡ words_of left → IfOk result (λ print. row_of print
        ≡ (shown_of (where_of place.now) line draft.old.next.scalars draft.old.next.temps
        (expr_of expr.now) left).print) }
{
    let truth = prints_truth(place, expr);
    let rank = place.rank_in(expr);
    if is_above_zero(rank) {
        let over = place.current(rank);
        let print = push_array(draft, line, truth, &over, words)?;
        Ok(print)
    } else {
        let print = push_scalar(draft, line, truth, words)?;
        Ok(print)
    }
}

/// The row that prints a text.
fn text_row(alloc: Global, string: &[u8]) -> Result<FlatRow, AllocError>
    ensures { IfOk result (λ print. row_of print ≡ row.Print (unescaped string.now)) }
{
    let text = unescape(alloc, string)?;
    Ok(FlatRow::Print {
        text: TextRow::of(text),
    })
}

/// Appends the rows of an item's value, and the row that prints it to those that print.
fn push_item(
    draft: &mut Draft,
    prints: &mut Vec<FlatRow>,
    left: &mut IntoIter<ExprRow>,
    place: &Place<'_, '_>,
    line: u32,
    item: &Item<'_>,
) -> Result<(), AllocError>
    ensures code { (exprs : List Expression) → into_iter_items left.old ≡ map words_of exprs
        → OnOk result (draft.new ≡ grown draft.old
        (value_of (where_of place.now) line draft.old.next (item_of item.now) exprs)) }
    ensures prints { (exprs : List Expression) → into_iter_items left.old ≡ map words_of exprs
        → OnOk result (rows_in prints.new.items ≡ rows_in prints.old.items ++ print_of
        (where_of place.now) line draft.old.next (item_of item.now) exprs) }
    ensures left { (exprs : List Expression) → into_iter_items left.old ≡ map words_of exprs
        → OnOk result (into_iter_items left.new
        ≡ map words_of (behind_item (item_of item.now) exprs)) }
{
    match item {
        Item::Str(string) => {
            let row = text_row(draft.alloc(), string)?;
            prints.push(row)?;
            Ok(())
        }
        Item::Value(expr) => {
            let Some(words) = left.next() else {
                return Ok(());
            };
            let row = push_value(draft, place, line, expr, words)?;
            prints.push(row)?;
            Ok(())
        }
    }
}

/// Appends the end of a line, if there is one, to the rows that print.
fn push_end(alloc: Global, prints: &mut Vec<FlatRow>, ends: bool) -> Result<(), AllocError>
    ensures { OnOk result (rows_in prints.new.items ≡ rows_in prints.old.items ++ newline ends) }
{
    if !ends {
        return Ok(());
    }
    let row = text_row(alloc, b"\n")?;
    prints.push(row)?;
    Ok(())
}

/// Appends the rows of all values that are printed, and gives the rows that print items.
fn push_items(
    draft: &mut Draft,
    place: &Place<'_, '_>,
    line: u32,
    ends: bool,
    items: &[Item<'_>],
    left: Vec<ExprRow>,
) -> Result<Vec<FlatRow>, AllocError>
    ensures code { (exprs : List Expression) → left.items ≡ map words_of exprs → OnOk result
        (draft.new ≡ grown draft.old (values_of (items_of (where_of place.now) line
        draft.old.next.scalars draft.old.next.temps ends (map item_of items.now) exprs))) }
    ensures prints { (exprs : List Expression) → left.items ≡ map words_of exprs → IfOk result
        (λ rows. rows_in rows.items ≡ (items_of (where_of place.now) line
        draft.old.next.scalars draft.old.next.temps ends (map item_of items.now) exprs).prints) }
{
    let alloc = draft.alloc();
    let mut prints = Vec::new(alloc);
    let mut left = left.into_iter();
    for item in items {
        push_item(draft, &mut prints, &mut left, place, line, item)?;
    }
    push_end(alloc, &mut prints, ends)?;
    Ok(prints)
}

/// Appends rows that are there.
fn push_rows(draft: &mut Draft, rows: Vec<FlatRow>) -> Result<(), AllocError>
    ensures { OnOk result (draft.new ≡ grown draft.old (rows_alone (rows_in rows.items))) }
{
    for row in rows {
        draft.push(row)?;
    }
    Ok(())
}

/// Appends a print of items, with or without the end of a line.
pub fn lower_write(
    draft: &mut Draft,
    place: &Place<'_, '_>,
    line: u32,
    ends: bool,
    items: &[Item<'_>],
) -> Result<(), AllocError>
    requires place { IsPlace place.now }
    requires fit { AreFitItems (map item_of items.now) }
    ensures { OnOk result (draft.new ≡ grown draft.old (lowered_write (where_of place.now) line
        draft.old.next ends (map item_of items.now))) }
{
    let exprs = printed(draft.alloc(), place, items)?;
    let left = phases(draft, place, line, None, None, &exprs)?;
    let prints = push_items(draft, place, line, ends, items, left)?;
    push_rows(draft, prints)?;
    Ok(())
}
