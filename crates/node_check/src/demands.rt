//! What an instruction demands.
ghost use Rattle.std.specs.Prelude.{
  ◌≡◌,
  ◌++◌,
  ◌∷◌,
  [],
  All,
  flat_map,
  int_le,
  map,
  neg_ℤ,
  not,
};
ghost use Rattle.std.specs.List.{list_all};
ghost use Rattle.zpl_region.specs.Dim.{IsUpTo};
ghost use Rattle.node_form.specs.Fits.{Fits, FitsInstr};
ghost use Rattle.node_form.specs.Value.{unmoved};
ghost use Rattle.flat_form.specs.Static.{is_in_fringe};
ghost use Rattle.code_parts.specs.Uses.{
  as_list,
  divides_in,
  exprs_of,
  may_divide,
  members_of,
  put_by,
  words_of,
  written_slots,
};
ghost use Rattle.node_check.specs.Demand.{
  are_none,
  has_own,
  has_place,
  is_first,
  is_held,
  is_met,
  is_near,
  is_uniform_part,
  leaves_slots,
  places_in,
  places_of,
  source_shift,
};
ghost use Rattle.node_check.specs.Front.{HasRegion, has_pair};
ghost use Rattle.node_check.specs.Learn.{is_among};

use crate::asks::{Pair, Place, Side, do_agree, has_border, has_side, is_held, is_uniform};
use crate::facts::Fact;
use crate::lists::{items_of, members_of, words_of};
use crate::losses::writes_slot;
use node_form::{
    ArrayDim, ArrayRow, DimRow, ExprOp, Instr, Item, Member, RegionForm, SameKind, Tables,
};
use zpl_nums::{Border, Op};
use zpl_region::Vec3;

/// Whether the demand of an instruction is met by the facts and the open exchanges in front of it.
pub(crate) fn is_met(tables: &Tables, facts: &[Fact], opened: &[u32], row: &Instr) -> bool
    requires fits { Fits tables.now }
    requires row { FitsInstr tables.now row.now }
    requires regions { All HasRegion facts.now }
    ensures { result ≡ is_met tables.now facts.now opened.now row.now }
{
    has_own(tables, facts, opened, row) && leaves_slots(tables, opened, row)
}

fn has_own(tables: &Tables, facts: &[Fact], opened: &[u32], row: &Instr) -> bool
    requires fits { Fits tables.now }
    requires row { FitsInstr tables.now row.now }
    requires regions { All HasRegion facts.now }
    ensures { result ≡ has_own tables.now facts.now opened.now row.now }
{
    match *row {
        Instr::Set { expr, .. } => !may_divide(tables, expr) || is_uniform(tables, facts, expr),
        Instr::Dims { parts, .. } => are_uniform(tables, facts, &parts),
        Instr::Unless { expr, .. } => is_uniform(tables, facts, expr),
        Instr::Number { expr } => is_uniform(tables, facts, expr),
        Instr::Truth { expr } => is_uniform(tables, facts, expr),
        Instr::Loop { slot, group } => has_group(tables, facts, slot, group),
        Instr::Start { exchange } => are_near(tables, items_of(tables, exchange)),
        Instr::Finish { exchange } => is_first(opened, exchange),
        Instr::Edge {
            kind,
            array,
            slot,
            shift,
        } => {
            let edge = Edge {
                kind,
                array,
                slot,
                shift,
            };
            has_edge(tables, facts, opened, &edge)
        }
        Instr::Flood {
            array,
            target,
            from,
            source,
        } => {
            let kind = SameKind::Flood;
            let pair = Pair {
                kind,
                target,
                source,
            };
            has_pair(tables, facts, opened, &Moving { pair, array, from })
        }
        Instr::Part {
            array,
            target,
            from,
            source,
            ..
        } => {
            let kind = SameKind::Part;
            let pair = Pair {
                kind,
                target,
                source,
            };
            has_pair(tables, facts, opened, &Moving { pair, array, from })
        }
        Instr::Scan {
            array,
            slot,
            from,
            mask,
            ..
        } => {
            let none = are_none(opened);
            let target = holds(tables, facts, slot, array);
            let source = holds(tables, facts, slot, from);
            let masked = hold(tables, facts, slot, mask);
            none & (target & (source & masked))
        }
        Instr::Gather { array, slot, .. } => {
            are_none(opened) && hold(tables, facts, slot, Some(array))
        }
        Instr::Remap {
            array,
            slot,
            parts,
            ..
        } => {
            let none = are_none(opened);
            let target = holds(tables, facts, slot, array);
            let sources = all_hold(tables, facts, slot, &parts);
            none & (target & sources)
        }
        Instr::Vote { .. } | Instr::TreeVote { .. } | Instr::Fold { .. } | Instr::TreeFold { .. } =>
            are_none(opened),
        _ => true,
    }
}

// ---- open exchanges
fn are_none(opened: &[u32]) -> bool
    ensures { result ≡ are_none opened.now }
{
    match opened {
        [] => true,
        [_, ..] => false,
    }
}

fn is_first(opened: &[u32], exchange: u32) -> bool
    ensures { result ≡ is_first exchange opened.now }
{
    match opened {
        [] => false,
        [first, ..] => *first == exchange,
    }
}

fn leaves_slots(tables: &Tables, opened: &[u32], row: &Instr) -> bool
    ensures { result ≡ leaves_slots tables.now opened.now row.now }
{
    for exchange in opened {
        if !leaves_items(items_of(tables, *exchange), row) {
            return false;
        }
    }
    true
}

fn leaves_items(items: &[Item], row: &Instr) -> bool
    ensures { result
        ≡ list_all (λ item. not (is_among (written_slots row.now) item.slot)) items.now }
{
    for item in items {
        if writes_slot(row, item.slot) {
            return false;
        }
    }
    true
}

// ---- expressions
fn may_divide(tables: &Tables, expr: u32) -> bool
    ensures { result ≡ may_divide tables.now expr }
{
    for word in words_of(tables, expr) {
        if divides_in(word) {
            return true;
        }
    }
    false
}

fn divides_in(word: &ExprOp) -> bool
    ensures { result ≡ divides_in word.now }
{
    match *word {
        ExprOp::Pair(Op::Div) | ExprOp::Pair(Op::Rem) => true,
        _ => false,
    }
}

fn are_uniform(tables: &Tables, facts: &[Fact], parts: &[DimRow; 3]) -> bool
    ensures { result ≡ list_all (is_uniform_part tables.now facts.now) parts.now }
{
    for part in parts {
        if !is_uniform_part(tables, facts, part) {
            return false;
        }
    }
    true
}

fn is_uniform_part(tables: &Tables, facts: &[Fact], part: &DimRow) -> bool
    ensures { result ≡ is_uniform_part tables.now facts.now part.now }
{
    match *part {
        DimRow::Span(low, high) => {
            is_uniform(tables, facts, low) && is_uniform(tables, facts, high)
        }
        DimRow::Star => true,
        DimRow::Copied(_) => true,
    }
}

// ---- whole arrays
fn holds(tables: &Tables, facts: &[Fact], slot: u32, array: u32) -> bool
    requires fits { Fits tables.now }
    requires regions { All HasRegion facts.now }
    ensures { result ≡ is_held tables.now facts.now array unmoved slot }
{
    let shift = [0, 0, 0];
    is_held(tables, facts, &Place { slot, array, shift })
}

fn hold(tables: &Tables, facts: &[Fact], slot: u32, array: Option<u32>) -> bool
    requires fits { Fits tables.now }
    requires regions { All HasRegion facts.now }
    ensures { result
        ≡ list_all (λ one. is_held tables.now facts.now one unmoved slot) (as_list array) }
{
    match array {
        Some(number) => holds(tables, facts, slot, number),
        None => true,
    }
}

fn all_hold(tables: &Tables, facts: &[Fact], slot: u32, arrays: &[Option<u32>; 3]) -> bool
    requires fits { Fits tables.now }
    requires regions { All HasRegion facts.now }
    ensures { result ≡ list_all (λ one. is_held tables.now facts.now one unmoved slot)
        (flat_map as_list arrays.now) }
{
    for array in arrays {
        if !hold(tables, facts, slot, *array) {
            return false;
        }
    }
    true
}

/// The places beside a slot's region on a side.
#[derive(Drop)]
struct Edge {
    kind: Border,
    array: u32,
    slot: u32,
    shift: Vec3,
}

fn has_edge(tables: &Tables, facts: &[Fact], opened: &[u32], edge: &Edge) -> bool
    requires fits { Fits tables.now }
    requires shift { All (IsUpTo 31) edge.now.shift }
    requires regions { All HasRegion facts.now }
    ensures { result ≡ has_own tables.now facts.now opened.now
        (Instr.Edge edge.now.kind edge.now.array edge.now.slot edge.now.shift) }
{
    let shift = source_shift(edge.kind, &edge.shift);
    let target = Side {
        form: RegionForm::Of,
        from: edge.slot,
        shift: edge.shift,
    };
    let source = Side {
        form: RegionForm::Inside,
        from: edge.slot,
        shift,
    };
    let none = are_none(opened);
    let border = has_border(facts, edge.slot, &edge.shift);
    let written = has_side(tables, facts, edge.array, &target);
    let read = has_side(tables, facts, edge.array, &source);
    none & border & written & read
}

fn source_shift(kind: Border, shift: &Vec3) -> Vec3
    requires { All (IsUpTo 31) shift.now }
    ensures { result ≡ source_shift kind shift.now }
{
    match kind {
        Border::Wrap => opposite(shift),
        Border::Reflect => *shift,
    }
}

fn opposite(shift: &Vec3) -> Vec3
    requires { All (IsUpTo 31) shift.now }
    ensures { result ≡ map neg_ℤ shift.now }
{
    let [planes, rows, columns] = *shift;
    [-planes, -rows, -columns]
}

/// An array over the target becomes something of another one over the source.
#[derive(Drop)]
struct Moving {
    pair: Pair,
    array: u32,
    from: u32,
}

fn has_pair(tables: &Tables, facts: &[Fact], opened: &[u32], moving: &Moving) -> bool
    requires fits { Fits tables.now }
    requires regions { All HasRegion facts.now }
    ensures { result ≡ has_pair tables.now facts.now opened.now moving.now.pair.kind
        moving.now.array moving.now.pair.target moving.now.from moving.now.pair.source }
{
    are_none(opened)
        && do_agree(facts, &moving.pair)
        && hold(tables, facts, moving.pair.target, Some(moving.array))
        && hold(tables, facts, moving.pair.source, Some(moving.from))
}

// ---- groups
fn has_group(tables: &Tables, facts: &[Fact], slot: u32, group: u32) -> bool
    requires fits { Fits tables.now }
    requires regions { All HasRegion facts.now }
    ensures { result
        ≡ list_all (λ one. list_all (has_place tables.now facts.now slot) (places_of tables.now one))
        (members_of tables.now group) }
{
    for member in members_of(tables, group) {
        if !has_member(tables, facts, slot, member) {
            return false;
        }
    }
    true
}

fn has_member(tables: &Tables, facts: &[Fact], slot: u32, member: &Member) -> bool
    requires fits { Fits tables.now }
    requires regions { All HasRegion facts.now }
    ensures { result ≡ list_all (has_place tables.now facts.now slot)
        (places_of tables.now member.now) }
{
    let Exprs { expr, mask } = exprs_of(member);
    has_target(tables, facts, slot, member)
        && (has_reads(tables, facts, slot, expr) && has_reads(tables, facts, slot, mask))
}

fn has_target(tables: &Tables, facts: &[Fact], slot: u32, member: &Member) -> bool
    requires fits { Fits tables.now }
    requires regions { All HasRegion facts.now }
    ensures { result ≡ list_all (has_place tables.now facts.now slot)
        (map (λ array. (array, unmoved)) (put_by member.now)) }
{
    match *member {
        Member::Put { array, .. } => {
            let shift = [0, 0, 0];
            has_place(tables, facts, &Place { slot, array, shift })
        }
        _ => true,
    }
}

// The expressions of a member.
#[derive(Clone, Copy)]
struct Exprs {
    expr: Option<u32>,
    mask: Option<u32>,
}

fn exprs_of(member: &Member) -> Exprs
    ensures { as_list result.expr ++ as_list result.mask ≡ exprs_of member.now }
{
    match *member {
        Member::Put { expr, mask, .. }
        | Member::Cell { expr, mask, .. }
        | Member::Acc { expr, mask, .. }
        | Member::OpenIf { expr, mask, .. }
        | Member::OpenWhile { expr, mask, .. } => Exprs {
            expr: Some(expr),
            mask,
        },
        Member::OpenRepeat { mask, .. } => Exprs { expr: None, mask },
        Member::Until { expr } => Exprs {
            expr: Some(expr),
            mask: None,
        },
        Member::Otherwise | Member::CloseIf | Member::CloseWhile => Exprs {
            expr: None,
            mask: None,
        },
    }
}

fn has_reads(tables: &Tables, facts: &[Fact], slot: u32, expr: Option<u32>) -> bool
    requires fits { Fits tables.now }
    requires regions { All HasRegion facts.now }
    ensures { result ≡ list_all (has_place tables.now facts.now slot)
        (flat_map places_in (flat_map (words_of tables.now) (as_list expr))) }
{
    match expr {
        Some(number) => has_words(tables, facts, slot, words_of(tables, number)),
        None => true,
    }
}

fn has_words(tables: &Tables, facts: &[Fact], slot: u32, words: &[ExprOp]) -> bool
    requires fits { Fits tables.now }
    requires regions { All HasRegion facts.now }
    ensures { result ≡ list_all (has_place tables.now facts.now slot)
        (flat_map places_in words.now) }
{
    for word in words {
        if !has_read(tables, facts, slot, word) {
            return false;
        }
    }
    true
}

fn has_read(tables: &Tables, facts: &[Fact], slot: u32, word: &ExprOp) -> bool
    requires fits { Fits tables.now }
    requires regions { All HasRegion facts.now }
    ensures { result ≡ list_all (has_place tables.now facts.now slot) (places_in word.now) }
{
    match *word {
        ExprOp::Here(array) => {
            let shift = [0, 0, 0];
            has_place(tables, facts, &Place { slot, array, shift })
        }
        ExprOp::Shifted(array, shift) => has_place(tables, facts, &Place { slot, array, shift }),
        _ => true,
    }
}

fn has_place(tables: &Tables, facts: &[Fact], place: &Place) -> bool
    requires fits { Fits tables.now }
    requires regions { All HasRegion facts.now }
    ensures { result
        ≡ has_place tables.now facts.now place.now.slot (place.now.array, place.now.shift) }
{
    is_held(tables, facts, place) && is_near(tables, place.array, &place.shift)
}

// ---- fringes
fn are_near(tables: &Tables, items: &[Item]) -> bool
    ensures { result ≡ list_all (λ item. is_near tables.now item.array item.shift) items.now }
{
    for item in items {
        if !is_near(tables, item.array, &item.shift) {
            return false;
        }
    }
    true
}

// Whether the array is a temporary, or the shift lies within its fringe.
fn is_near(tables: &Tables, array: u32, shift: &Vec3) -> bool
    ensures { result ≡ is_near tables.now array shift.now }
{
    match tables.arrays.get(u64::from(array)) {
        Some(row) => !row.stored || is_in_fringe(row, shift),
        None => true,
    }
}

fn is_in_fringe(row: &ArrayRow, shift: &Vec3) -> bool
    ensures { result ≡ is_in_fringe row.now.dims shift.now }
{
    let [planes, rows, columns] = row.dims;
    let [x, y, z] = *shift;
    let along_planes = is_dim_in_fringe(planes, x);
    let along_rows = is_dim_in_fringe(rows, y);
    let along_columns = is_dim_in_fringe(columns, z);
    along_planes & (along_rows & along_columns)
}

fn is_dim_in_fringe(dim: ArrayDim, d: i64) -> bool
    ensures { result ≡ is_in_fringe (dim ∷ []) (d ∷ []) }
{
    match dim {
        ArrayDim::Range { low, high, .. } => is_from(low, d) && d <= high,
        ArrayDim::Star => d == 0,
    }
}

// Whether the number is at least the other one with its sign turned.
fn is_from(low: i64, d: i64) -> bool
    ensures { result ≡ int_le (neg_ℤ low) d }
{
    match low.checked_neg() {
        Some(least) => least <= d,
        None => false,
    }
}
