//! Shattered statements.
ghost use Rattle.std.specs.Prelude.{◌≡◌, ◌++◌, pos, IfOk, OnOk};
ghost use Rattle.zpl_tree.specs.View.{statement_of};
ghost use Rattle.node_form.specs.Expression.{Constant, words_of};
ghost use Rattle.zpl_lowering.specs.Statement as plain;
ghost use Rattle.zpl_lowering.specs.Statement.{kept_apart, shattered};
ghost use Rattle.lower_operators.specs.of_lower_draft.Drafted.{grown};
ghost use Rattle.lower_operators.specs.of_lower_places.Sound.{IsPlace};
ghost use Rattle.lower_operators.specs.of_lower_places.View.{slotted_of, where_of};
ghost use Rattle.lower_operators.specs.Once.{with_references};
ghost use Rattle.lower_points.specs.Fit.{IsFitForm};
ghost use Rattle.lower_points.specs.Inside.{form_at, group_of, members_in, needed_of};
ghost use Rattle.lower_points.specs.Inside.{whole_inside, whole_rows};

use crate::masks::mask_words;
use crate::members::{has_put, push};
use crate::points::{Point, push_form};
use crate::ranks::tests_rank;
use lower_operators::lower_draft::{Draft, FlatMember, FlatRow};
use lower_operators::lower_places::{Place, Slotted};
use lower_operators::{References, over_reference};
use node_form::{ExprOp, ExprRow};
use std::alloc::{AllocError, Global};
use zpl_tree::Form;

/// Appends the members of a statement, under the mask of its region, which is read once.
fn push_masked(
    members: &mut Vec<FlatMember>,
    references: &mut References,
    at: &Point<'_, '_>,
    over: &Slotted,
    form: &Form<'_>,
) -> Result<(), AllocError>
    requires place { IsPlace at.now.place.now }
    requires fit { IsFitForm (statement_of form.now) }
    ensures members { OnOk result (members_in members.new.items ≡ members_in members.old.items
        ++ group_of (where_of at.now.place.now) at.now.line (slotted_of over.now)
        (form_at at.now (statement_of form.now))) }
    ensures references { OnOk result (references.new ≡ with_references references.old
        (form_at at.now (statement_of form.now)).references) }
{
    let line = at.line;
    let mask = mask_words(at.draft.alloc(), at.place.numbers, over.mask)?;
    match mask {
        None => {
            push_form(members, references, at, form)?;
            Ok(())
        }
        Some(expr) => {
            push(
                members,
                FlatMember::OpenIf {
                    expr,
                    mask: None,
                    line,
                },
            )?;
            push_form(members, references, at, form)?;
            push(members, FlatMember::CloseIf)?;
            Ok(())
        }
    }
}

/// What a shattered statement becomes: its members, and what it refers to, the mask of its region
/// last.
fn collected(
    at: &Point<'_, '_>,
    over: &Slotted,
    form: &Form<'_>,
) -> Result<(Vec<FlatMember>, References), AllocError>
    requires place { IsPlace at.now.place.now }
    requires fit { IsFitForm (statement_of form.now) }
    ensures members { IfOk result (λ r. members_in r.0.items
        ≡ group_of (where_of at.now.place.now) at.now.line (slotted_of over.now)
        (form_at at.now (statement_of form.now))) }
    ensures references { IfOk result (λ r. r.1 ≡ needed_of (where_of at.now.place.now)
        (slotted_of over.now) (form_at at.now (statement_of form.now))) }
{
    let alloc = at.draft.alloc();
    let mut members = Vec::new(alloc);
    let mut references = References::new(alloc);
    push_masked(&mut members, &mut references, at, over, form)?;
    references.add_optional(over_reference(at.place.numbers, over))?;
    Ok((members, references))
}

/// The same where a statement stands.
fn collected_in<'a, 'n>(
    draft: &'a Draft,
    place: &'a Place<'a, 'n>,
    line: u32,
    over: &Slotted,
    form: &Form<'_>,
) -> Result<(Vec<FlatMember>, References), AllocError>
    requires place { IsPlace place.now }
    requires fit { IsFitForm (statement_of form.now) }
    ensures members { IfOk result (λ r. members_in r.0.items
        ≡ group_of (where_of place.entry.now) line (slotted_of over.now)
        (whole_inside (where_of place.entry.now) line draft.entry.now.next
        (statement_of form.now))) }
    ensures references { IfOk result (λ r. r.1 ≡ needed_of (where_of place.entry.now)
        (slotted_of over.now) (whole_inside (where_of place.entry.now) line draft.entry.now.next
        (statement_of form.now))) }
{
    let rank = tests_rank(place, form);
    let at = Point {
        draft,
        place,
        line,
        rank,
    };
    collected(&at, over, form)
}

/// Appends the rows of a shattered statement: one for each different reference, and one loop whose
/// members have the line of the whole statement. Tells whether the loop puts something.
fn push_loop(
    draft: &mut Draft,
    place: &Place<'_, '_>,
    line: u32,
    form: &Form<'_>,
) -> Result<bool, AllocError>
    requires place { IsPlace place.now }
    requires fit { IsFitForm (statement_of form.now) }
    ensures rows { OnOk result (draft.new ≡ grown draft.old (whole_rows (where_of place.now) line
        draft.old.next (statement_of form.now))) }
    ensures put { IfOk result (λ put. put ≡ plain.has_put (whole_inside (where_of place.now) line
        draft.old.next (statement_of form.now)).members) }
{
    let over = place.current(tests_rank(place, form));
    let (members, references) = collected_in(&*draft, &*place, line, &over, form)?;
    let put = has_put(members.as_slice());
    references.push_needs(draft, line)?;
    draft.push(FlatRow::Loop {
        slot: over.slot,
        group: members,
    })?;
    Ok(put)
}

/// The words of 0.
fn zero_words(alloc: Global) -> Result<ExprRow, AllocError>
    ensures { IfOk result (λ words. words ≡ words_of (Constant (pos 0))) }
{
    let mut words = Vec::new(alloc);
    words.push(ExprOp::Const(0))?;
    Ok(ExprRow::of(words))
}

/// Appends the row behind a loop that puts nothing: it sets a scalar of its own.
fn push_apart(draft: &mut Draft, line: u32, put: bool) -> Result<(), AllocError>
    ensures { OnOk result (draft.new
        ≡ grown draft.old (kept_apart put line draft.old.next.scalars)) }
{
    if put {
        return Ok(());
    }
    let scalar = draft.add_scalar()?;
    let expr = zero_words(draft.alloc())?;
    draft.push(FlatRow::Set { scalar, expr, line })?;
    Ok(())
}

/// Appends the code of a shattered statement: its rows, and one behind a loop that puts nothing.
pub fn lower_shattered(
    draft: &mut Draft,
    place: &Place<'_, '_>,
    line: u32,
    form: &Form<'_>,
) -> Result<(), AllocError>
    requires place { IsPlace place.now }
    requires fit { IsFitForm (statement_of form.now) }
    ensures { OnOk result (draft.new ≡ grown draft.old
        (shattered (where_of place.now) line draft.old.next (statement_of form.now))) }
{
    let put = push_loop(draft, place, line, form)?;
    push_apart(draft, line, put)?;
    Ok(())
}
