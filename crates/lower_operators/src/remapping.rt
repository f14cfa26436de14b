//! Reads at computed indices as rows.
ghost use Rattle.std.specs.Prelude.{◌≡◌, ◌+◌, ◌<◌, ◌≤◌, ◌∷◌, [], IfOk, List, None, OnOk, Some};
ghost use Rattle.std.specs.Prelude.{fold, length, map, replicate, slice_get, take};
ghost use Rattle.node_form.specs.declared.words.ExprOp.TheVariants.{Here};
ghost use Rattle.node_form.specs.Expression.{Constant, Element, Expression, Operation, words_of};
ghost use Rattle.flat_form.specs.Row.{Words};
ghost use Rattle.lower_regions.specs.of_zpl_lowering.Hoist as plain;
ghost use Rattle.lower_regions.specs.of_zpl_lowering.Hoist.{Hoisted};
ghost use Rattle.lower_regions.specs.of_zpl_lowering.Lowered.{coded};
ghost use Rattle.lower_regions.specs.of_lower_draft.Drafted.{Drafted, grown};
ghost use Rattle.lower_regions.specs.of_lower_draft.Inline.{member_of};
ghost use Rattle.lower_regions.specs.of_lower_places.Numbers.{stored_of};
ghost use Rattle.lower_regions.specs.of_lower_places.View.{slotted_of};
ghost use Rattle.lower_operators.specs.Code.{free_of, of_hoisted, owning};
ghost use Rattle.lower_operators.specs.Remapped.{index_rows, numbered, ored, puts_of, read_rows};
ghost use Rattle.lower_operators.specs.Remapped.{test_rows, with_rooms};

use crate::rows::{add_room, push_loop, push_plain};
use crate::words::{mask_row, put, word_row};
use lower_regions::lower_draft::{Draft, FlatMember, FlatRow};
use lower_regions::lower_places::{Numbers, Slotted, Stored};
use node_form::{ExprOp, ExprRow, Instr};
use std::alloc::{AllocError, Global};
use zpl_nums::{Fold, Op, TrapKind};
use zpl_region::{Dim, Region};

/// Makes room for a temporary for each index, and gives the members that fill these.
fn add_indices(
    draft: &mut Draft,
    numbers: &Numbers,
    line: u32,
    over: &Slotted,
    indices: Vec<ExprRow>,
) -> Result<Vec<FlatMember>, AllocError>
    ensures rooms { OnOk result (draft.new ≡ grown draft.old
        (with_rooms (slotted_of over.now) draft.old.next.temps indices.items)) }
    ensures group { IfOk result (λ group. map member_of group.items
        ≡ puts_of line (plain.mask_code numbers.now (slotted_of over.now).mask)
        draft.old.next.temps indices.items) }
{
    let alloc = draft.alloc();
    let mut group = Vec::new(alloc);
    for expr in indices {
        let mask = mask_row(alloc, numbers, over.mask)?;
        let array = add_room(draft, over.slot, over.flood)?;
        group.push(FlatMember::Put {
            array,
            expr,
            mask,
            line,
        })?;
    }
    Ok(group)
}

/// Appends the rows that compute the indices, each into a temporary.
fn compute_indices(
    draft: &mut Draft,
    numbers: &Numbers,
    line: u32,
    over: &Slotted,
    indices: Vec<ExprRow>,
) -> Result<(), AllocError>
    ensures { OnOk result (draft.new ≡ grown draft.old (owning 0
        (replicate (length indices.items) (slotted_of over.now).flood)
        (index_rows numbers.now line (slotted_of over.now) draft.old.next.temps indices.items))) }
{
    let group = add_indices(draft, numbers, line, over, indices)?;
    draft.push(FlatRow::Loop {
        slot: over.slot,
        group,
    })?;
    Ok(())
}

/// Appends to words a comparison of a temporary with a limit, joined with them by `or`.
fn put_test(words: &mut Vec<ExprOp>, temp: u32, op: Op, limit: i64) -> Result<(), AllocError>
    ensures { OnOk result (words.new.items
        ≡ ored words.old.items (Operation op (Element temp) (Constant limit))) }
{
    if words.is_empty() {
        put(words, ExprOp::Here(temp))?;
        put(words, ExprOp::Const(limit))?;
        put(words, ExprOp::Pair(op))?;
        Ok(())
    } else {
        put(words, ExprOp::Here(temp))?;
        put(words, ExprOp::Const(limit))?;
        put(words, ExprOp::Pair(op))?;
        put(words, ExprOp::Pair(Op::Or))?;
        Ok(())
    }
}

/// The same of both limits of a dimension.
fn put_past(words: &mut Vec<ExprOp>, temp: u32, dim: Dim) -> Result<(), AllocError>
    ensures { OnOk result (words.new.items ≡ fold ored words.old.items (plain.past_dim temp dim)) }
{
    match dim {
        Dim::Range { lo, hi, .. } => {
            put_test(words, temp, Op::Lt, lo)?;
            put_test(words, temp, Op::Gt, hi)?;
            Ok(())
        }
        Dim::Flood => Ok(()),
    }
}

/// The number this many behind another one.
fn behind(number: u32, by: u8) -> Result<u32, AllocError>
    ensures { IfOk result (λ behind. behind ≡ number + by) }
{
    number.checked_add(u32::from(by)).ok_or(AllocError)
}

/// The same of a dimension by its place, if the region has it.
fn put_dim(
    words: &mut Vec<ExprOp>,
    first: u32,
    rank: u8,
    place: u8,
    dim: Dim,
) -> Result<(), AllocError>
    ensures within { OnOk result (place < rank → words.new.items
        ≡ fold ored words.old.items (plain.past_dim (first + place) dim)) }
    ensures past { OnOk result (rank ≤ place → words.new.items ≡ words.old.items) }
{
    if place < rank {
        let temp = behind(first, place)?;
        put_past(words, temp, dim)?;
        Ok(())
    } else {
        Ok(())
    }
}

/// The words that see whether indices are outside a storage, none for one that has no limits.
fn past_words(alloc: Global, first: u32, storage: &Region) -> Result<Vec<ExprOp>, AllocError>
    ensures { IfOk result (λ words. words.items ≡ fold ored []
        (plain.past_dims first (take storage.now.rank storage.now.dims))) }
{
    let [planes, rows, columns] = storage.dims;
    let mut words = Vec::new(alloc);
    put_dim(&mut words, first, storage.rank, 0, planes)?;
    put_dim(&mut words, first, storage.rank, 1, rows)?;
    put_dim(&mut words, first, storage.rank, 2, columns)?;
    Ok(words)
}

/// The expression that sees whether indices are outside a storage.
fn outside_row(alloc: Global, first: u32, storage: &Region) -> Result<ExprRow, AllocError>
    ensures { IfOk result (λ row. row ≡ words_of (plain.outside_code first storage.now)) }
{
    let mut words = past_words(alloc, first, storage)?;
    if words.is_empty() {
        put(&mut words, ExprOp::Const(0))?;
        Ok(ExprRow::of(words))
    } else {
        Ok(ExprRow::of(words))
    }
}

/// Appends the rows that see whether an expression is true at some index. Gives the scalar.
fn test_all(
    draft: &mut Draft,
    numbers: &Numbers,
    line: u32,
    over: &Slotted,
    outside: ExprRow,
) -> Result<u32, AllocError>
    ensures number { IfOk result (λ scalar. scalar ≡ draft.old.next.scalars) }
    ensures rows { OnOk result (draft.new ≡ grown draft.old (owning 1 [] (test_rows line
        draft.old.next.scalars (slotted_of over.now).slot outside
        (plain.mask_code numbers.now (slotted_of over.now).mask)))) }
{
    let scalar = draft.add_scalar()?;
    let expr = word_row(draft.alloc(), ExprOp::Const(0))?;
    draft.push(FlatRow::Set { scalar, expr, line })?;
    let mask = mask_row(draft.alloc(), numbers, over.mask)?;
    push_loop(
        draft,
        over.slot,
        FlatMember::Acc {
            scalar,
            fold: Fold::Any,
            expr: outside,
            mask,
            line,
        },
    )?;
    push_plain(
        draft,
        Instr::Fold {
            scalar,
            fold: Fold::Any,
        },
    )?;
    Ok(scalar)
}

/// Appends a trap for where a scalar isn't 0.
fn push_trap(draft: &mut Draft, line: u32, scalar: u32) -> Result<(), AllocError>
    ensures { OnOk result (draft.new ≡ grown draft.old (coded (plain.trap_if scalar line))) }
{
    let test = word_row(draft.alloc(), ExprOp::Scalar(scalar))?;
    let pending = draft.open(test, line)?;
    push_plain(
        draft,
        Instr::Trap {
            kind: TrapKind::OutsideStorage,
            line,
        },
    )?;
    draft.close(pending)?;
    Ok(())
}

/// The temporary of an index by its place, if there are so many.
fn part(first: u32, count: usize, place: u8) -> Result<Option<u32>, AllocError>
    ensures there { IfOk result (λ part. place < count → part ≡ Some (first + place)) }
    ensures none { IfOk result (λ part. count ≤ place → part ≡ None) }
{
    if usize::from(place) < count {
        let temp = behind(first, place)?;
        Ok(Some(temp))
    } else {
        Ok(None)
    }
}

/// The temporaries of the first three indices.
fn parts_from(first: u32, count: usize) -> Result<[Option<u32>; 3], AllocError>
    ensures { IfOk result (λ parts. (words : List Words) → count ≡ length words →
        parts ≡ plain.three_of (numbered first words)) }
{
    let one = part(first, count, 0)?;
    let two = part(first, count, 1)?;
    let three = part(first, count, 2)?;
    Ok([one, two, three])
}

/// Appends the rows of the read itself. Gives the temporary.
fn read_into(
    draft: &mut Draft,
    over: &Slotted,
    from: u32,
    parts: [Option<u32>; 3],
) -> Result<u32, AllocError>
    ensures temp { IfOk result (λ temp. temp ≡ draft.old.next.temps) }
    ensures rows { OnOk result (draft.new ≡ grown draft.old (owning 0
        ((slotted_of over.now).flood ∷ [])
        (read_rows draft.old.next.temps (slotted_of over.now).slot from parts))) }
{
    let array = add_room(draft, over.slot, over.flood)?;
    push_plain(
        draft,
        Instr::Remap {
            array,
            slot: over.slot,
            from,
            parts,
        },
    )?;
    Ok(array)
}

/// Appends the rows of a read of an array that has a storage. Gives the temporary.
fn remap_stored(
    draft: &mut Draft,
    numbers: &Numbers,
    line: u32,
    over: &Slotted,
    stored: Stored,
    indices: Vec<ExprRow>,
) -> Result<u32, AllocError>
    ensures rows { OnOk result ((start : Drafted) (hoisted : Hoisted (List Expression)) →
        draft.old ≡ grown start (of_hoisted hoisted) → indices.items ≡ map words_of hoisted.left →
        draft.new ≡ grown start (of_hoisted (plain.remapping numbers.now line
        (free_of start.next) (slotted_of over.now) (Some (stored_of stored)) hoisted))) }
    ensures left { IfOk result (λ temp. (start : Drafted) (hoisted : Hoisted (List Expression)) →
        draft.old ≡ grown start (of_hoisted hoisted) → indices.items ≡ map words_of hoisted.left →
        Here temp ∷ [] ≡ words_of (plain.remapping numbers.now line (free_of start.next)
        (slotted_of over.now) (Some (stored_of stored)) hoisted).left) }
{
    let first = draft.next().temps;
    let parts = parts_from(first, indices.len())?;
    compute_indices(draft, numbers, line, over, indices)?;
    let outside = outside_row(draft.alloc(), first, &stored.storage)?;
    let scalar = test_all(draft, numbers, line, over, outside)?;
    push_trap(draft, line, scalar)?;
    let temp = read_into(draft, over, stored.array, parts)?;
    Ok(temp)
}

/// Appends the rows of a read of an array at indices, and gives the word that is left.
pub fn remap_over(
    draft: &mut Draft,
    numbers: &Numbers,
    line: u32,
    over: &Slotted,
    place: usize,
    indices: Vec<ExprRow>,
) -> Result<ExprOp, AllocError>
    ensures rows { OnOk result ((start : Drafted) (hoisted : Hoisted (List Expression)) →
        draft.old ≡ grown start (of_hoisted hoisted) → indices.items ≡ map words_of hoisted.left →
        draft.new ≡ grown start (of_hoisted (plain.remapping numbers.now line
        (free_of start.next) (slotted_of over.now) (slice_get numbers.now.arrays place)
        hoisted))) }
    ensures left { IfOk result (λ word. (start : Drafted) (hoisted : Hoisted (List Expression)) →
        draft.old ≡ grown start (of_hoisted hoisted) → indices.items ≡ map words_of hoisted.left →
        word ∷ [] ≡ words_of (plain.remapping numbers.now line (free_of start.next)
        (slotted_of over.now) (slice_get numbers.now.arrays place) hoisted).left) }
{
    match numbers.array(place) {
        Some(stored) => {
            let temp = remap_stored(draft, numbers, line, over, stored, indices)?;
            Ok(ExprOp::Here(temp))
        }
        None => Ok(ExprOp::Const(0)),
    }
}
