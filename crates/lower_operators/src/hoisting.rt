//! Operators over regions as rows that leave scalars and temporaries, inner before outer and left
//! before right.
ghost use Rattle.std.specs.Prelude.{◌≡◌, ◌++◌, IfOk, OnOk, map};
ghost use Rattle.node_form.specs.Expression.{words_of};
ghost use Rattle.lower_regions.specs.of_zpl_lowering.Hoist as plain;
ghost use Rattle.lower_regions.specs.of_lower_draft.Drafted.{grown};
ghost use Rattle.lower_operators.specs.Code.{free_of, of_hoisted};
ghost use Rattle.lower_operators.specs.Sound.{AreSound, IsSound};
ghost use Rattle.lower_operators.specs.View.{slate_of, slates_in, slates_of};

use crate::elements::{put_shifted, put_wrapped};
use crate::folding::{flood_over, fold_over, part_fold};
use crate::remapping::remap_over;
use crate::scanning::{Scan, scan_over};
use crate::slates::{Slate, Slates};
use crate::words::{array_word, put, scalar_word, unary_word};
use lower_regions::lower_draft::Draft;
use lower_regions::lower_places::Numbers;
use node_form::{ExprOp, ExprRow};
use std::alloc::AllocError;

/// Appends the rows of an expression's operators over regions to a draft, and the words of what is
/// left of it, which has a value at each index, to others.
#[cycle(hoist)]
pub fn hoist(
    draft: &mut Draft,
    numbers: &Numbers,
    line: u32,
    slate: &Slate<'_>,
    words: &mut Vec<ExprOp>,
) -> Result<(), AllocError>
    requires { IsSound (slate_of slate.now) }
    ensures rows { OnOk result (draft.new ≡ grown draft.old (of_hoisted
        (plain.hoisted numbers.now line (free_of draft.old.next) (slate_of slate.now)))) }
    ensures left { OnOk result (words.new.items ≡ words.old.items ++ words_of
        (plain.hoisted numbers.now line (free_of draft.old.next) (slate_of slate.now)).left) }
{
    match slate {
        Slate::Constant(value) => put(words, ExprOp::Const(*value)),
        Slate::Variable(place) => put(words, scalar_word(numbers, *place)),
        Slate::Coordinate(k) => put(words, ExprOp::Coord(*k)),
        Slate::Element(_, place) => put(words, array_word(numbers.array(*place))),
        Slate::Shifted(_, place, shift) => {
            put_shifted(draft, numbers.array(*place), *shift, words)
        }
        Slate::Wrapped(read) => put_wrapped(draft, numbers, line, read, words),
        Slate::Unary(operator, operand) => {
            hoist(draft, numbers, line, operand, words)?;
            put(words, unary_word(*operator))
        }
        Slate::Binary(op, left, right) => {
            hoist(draft, numbers, line, left, words)?;
            hoist(draft, numbers, line, right, words)?;
            put(words, ExprOp::Pair(*op))?;
            Ok(())
        }
        Slate::Folded(fold, over, operand) => {
            let operand = hoisted(draft, numbers, line, operand)?;
            let scalar = fold_over(draft, numbers, line, *fold, over, operand)?;
            put(words, ExprOp::Scalar(scalar))
        }
        Slate::PartFolded(fold, over, source, operand) => {
            let operand = hoisted(draft, numbers, line, operand)?;
            let temp = part_fold(draft, line, *fold, over, source, operand)?;
            put(words, ExprOp::Here(temp))
        }
        Slate::Scanned(fold, along, over, operand) => {
            let operand = hoisted(draft, numbers, line, operand)?;
            let scan = Scan {
                fold: *fold,
                along: *along,
                over,
            };
            let temp = scan_over(draft, numbers, line, &scan, operand)?;
            put(words, ExprOp::Here(temp))
        }
        Slate::Flooded(over, source, operand) => {
            let operand = hoisted(draft, numbers, line, operand)?;
            let temp = flood_over(draft, line, over, source, operand)?;
            put(words, ExprOp::Here(temp))
        }
        Slate::Remapped(over, place, indices) => {
            let mut rows = Vec::new(draft.alloc());
            hoist_indices(draft, numbers, line, indices, &mut rows)?;
            let word = remap_over(draft, numbers, line, over, *place, rows)?;
            put(words, word)?;
            Ok(())
        }
    }
}

/// The same of an expression by itself.
#[cycle(hoist)]
fn hoisted(
    draft: &mut Draft,
    numbers: &Numbers,
    line: u32,
    slate: &Slate<'_>,
) -> Result<ExprRow, AllocError>
    requires { IsSound (slate_of slate.now) }
    ensures rows { OnOk result (draft.new ≡ grown draft.old (of_hoisted
        (plain.hoisted numbers.now line (free_of draft.old.next) (slate_of slate.now)))) }
    ensures left { IfOk result (λ words. words ≡ words_of
        (plain.hoisted numbers.now line (free_of draft.old.next) (slate_of slate.now)).left) }
{
    let mut words = Vec::new(draft.alloc());
    hoist(draft, numbers, line, slate, &mut words)?;
    Ok(ExprRow::of(words))
}

/// The same of the indices of a remap read, each by itself.
#[cycle(hoist)]
fn hoist_indices(
    draft: &mut Draft,
    numbers: &Numbers,
    line: u32,
    indices: &Slates<'_>,
    rows: &mut Vec<ExprRow>,
) -> Result<(), AllocError>
    requires { AreSound (slates_of indices.now) }
    ensures rows { OnOk result (draft.new ≡ grown draft.old (of_hoisted
        (plain.all_hoisted numbers.now line (free_of draft.old.next) (slates_of indices.now)))) }
    ensures left { OnOk result (rows.new.items ≡ rows.old.items ++ map words_of
        (plain.all_hoisted numbers.now line (free_of draft.old.next)
        (slates_of indices.now)).left) }
{
    match indices {
        Slates::End => Ok(()),
        Slates::Then(first, rest) => {
            let row = hoisted(draft, numbers, line, first)?;
            rows.push(row)?;
            hoist_indices(draft, numbers, line, rest, rows)?;
            Ok(())
        }
    }
}

/// The same of the expressions of a statement, each by itself.
pub fn hoist_all(
    draft: &mut Draft,
    numbers: &Numbers,
    line: u32,
    slates: &[&Slate<'_>],
) -> Result<Vec<ExprRow>, AllocError>
    requires { AreSound (slates_in slates.now) }
    ensures rows { OnOk result (draft.new ≡ grown draft.old (of_hoisted
        (plain.all_hoisted numbers.now line (free_of draft.old.next) (slates_in slates.now)))) }
    ensures left { IfOk result (λ rows. rows.items ≡ map words_of
        (plain.all_hoisted numbers.now line (free_of draft.old.next)
        (slates_in slates.now)).left) }
{
    let mut rows = Vec::new(draft.alloc());
    for slate in slates {
        let row = hoisted(draft, numbers, line, slate)?;
        rows.push(row)?;
    }
    Ok(rows)
}
