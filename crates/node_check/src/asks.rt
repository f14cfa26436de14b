//! What facts tell.
ghost use Rattle.std.specs.Prelude.{◌≡◌, ◌&&◌, All, true};
ghost use Rattle.std.specs.List.{list_all, list_any};
ghost use Rattle.zpl_arrays.specs.Border.{border_conforms};
ghost use Rattle.node_form.specs.Control.{conforms};
ghost use Rattle.node_form.specs.Fits.{Fits, FitsArray};
ghost use Rattle.node_form.specs.Value.{unmoved};
ghost use Rattle.code_parts.specs.Needs.{is_within, passes};
ghost use Rattle.code_parts.specs.Uses.{scalars_in};
ghost use Rattle.node_check.specs.Demand.{
  do_agree,
  has_border,
  is_held,
  is_side_form,
  is_stored,
  made_in,
  slots_made,
  tells_agree,
  tells_border,
  tells_held,
};
ghost use Rattle.node_check.specs.Front.{HasRegion, makes_side};
ghost use Rattle.node_check.specs.Learn.{is_uniform, region_in, regions_of, tells_uniform};

use crate::alike::{is_kind, is_vector};
use crate::facts::Fact;
use crate::lists::words_of;
use crate::places::{conforms, is_within};
use node_form::{ArrayRow, ExprOp, RegionForm, SameKind, Tables};
use zpl_arrays::border_conforms;
use zpl_region::{Region, Vec3};

/// Whether all scalars of the expression are uniform.
pub(crate) fn is_uniform(tables: &Tables, facts: &[Fact], expr: u32) -> bool
    ensures { result ≡ is_uniform tables.now facts.now expr }
{
    for word in words_of(tables, expr) {
        if !is_word_uniform(facts, word) {
            return false;
        }
    }
    true
}

fn is_word_uniform(facts: &[Fact], word: &ExprOp) -> bool
    ensures { result
        ≡ list_all (λ scalar. list_any (tells_uniform scalar) facts.now) (scalars_in word.now) }
{
    match *word {
        ExprOp::Scalar(scalar) => tell_uniform(facts, scalar),
        _ => true,
    }
}

fn tell_uniform(facts: &[Fact], scalar: u32) -> bool
    ensures { result ≡ list_any (tells_uniform scalar) facts.now }
{
    for fact in facts {
        if tells_uniform(fact, scalar) {
            return true;
        }
    }
    false
}

fn tells_uniform(fact: &Fact, number: u32) -> bool
    ensures { result ≡ tells_uniform number fact.now }
{
    match *fact {
        Fact::Uniform { scalar } => scalar == number,
        _ => false,
    }
}

/// A place of an array in a slot's region, moved by a vector.
#[derive(Clone, Copy)]
pub(crate) struct Place {
    pub slot: u32,
    pub array: u32,
    pub shift: Vec3,
}

/// Whether the place is held: it is told, or follows from the region that is told of the slot.
pub(crate) fn is_held(tables: &Tables, facts: &[Fact], place: &Place) -> bool
    requires fits { Fits tables.now }
    requires regions { All HasRegion facts.now }
    ensures { result ≡ is_held tables.now facts.now place.now.array place.now.shift place.now.slot }
{
    tell_held(facts, place) || lies_within(tables, facts, place)
}

fn tell_held(facts: &[Fact], place: &Place) -> bool
    ensures { result
        ≡ list_any (tells_held place.now.slot place.now.array place.now.shift) facts.now }
{
    for fact in facts {
        if tells_held(fact, place) {
            return true;
        }
    }
    false
}

fn tells_held(fact: &Fact, place: &Place) -> bool
    ensures { result ≡ tells_held place.now.slot place.now.array place.now.shift fact.now }
{
    match *fact {
        Fact::Held { slot, array, shift } => {
            slot == place.slot && (array == place.array && is_vector(&shift, &place.shift))
        }
        _ => false,
    }
}

fn lies_within(tables: &Tables, facts: &[Fact], place: &Place) -> bool
    requires fits { Fits tables.now }
    requires regions { All HasRegion facts.now }
    ensures { result ≡ (is_stored tables.now place.now.array
        && list_any (passes tables.now place.now.array place.now.shift)
        (regions_of facts.now place.now.slot)) }
{
    match tables.arrays.get(u64::from(place.array)) {
        Some(row) => row.stored && lie_within(row, facts, place),
        None => false,
    }
}

fn lie_within(row: &ArrayRow, facts: &[Fact], place: &Place) -> bool
    requires row { FitsArray row.now }
    requires stored { row.now.stored ≡ true }
    requires regions { All HasRegion facts.now }
    ensures { result ≡ list_any (λ region. is_within place.now.shift region (Some row.now))
        (regions_of facts.now place.now.slot) }
{
    for fact in facts {
        if stands_within(row, fact, place) {
            return true;
        }
    }
    false
}

fn stands_within(row: &ArrayRow, fact: &Fact, place: &Place) -> bool
    requires row { FitsArray row.now }
    requires stored { row.now.stored ≡ true }
    requires region { HasRegion fact.now }
    ensures { result ≡ list_any (λ region. is_within place.now.shift region (Some row.now))
        (region_in place.now.slot fact.now) }
{
    match *fact {
        Fact::Stands { slot, region } => {
            slot == place.slot && is_within(row, &place.shift, &region)
        }
        _ => false,
    }
}

/// Two slots whose regions have to conform for an operator.
#[derive(Clone, Copy)]
pub(crate) struct Pair {
    pub kind: SameKind,
    pub target: u32,
    pub source: u32,
}

/// Whether the regions conform: it is told, or follows from the regions that are told.
pub(crate) fn do_agree(facts: &[Fact], pair: &Pair) -> bool
    requires { All HasRegion facts.now }
    ensures { result ≡ do_agree facts.now pair.now.kind pair.now.target pair.now.source }
{
    tell_agree(facts, pair) || do_conform(facts, pair)
}

fn tell_agree(facts: &[Fact], pair: &Pair) -> bool
    ensures { result
        ≡ list_any (tells_agree pair.now.kind pair.now.target pair.now.source) facts.now }
{
    for fact in facts {
        if tells_agree(fact, pair) {
            return true;
        }
    }
    false
}

fn tells_agree(fact: &Fact, pair: &Pair) -> bool
    ensures { result ≡ tells_agree pair.now.kind pair.now.target pair.now.source fact.now }
{
    match *fact {
        Fact::Agree {
            target,
            source,
            kind,
        } => target == pair.target && (source == pair.source && is_kind(kind, pair.kind)),
        _ => false,
    }
}

fn do_conform(facts: &[Fact], pair: &Pair) -> bool
    requires { All HasRegion facts.now }
    ensures { result ≡ list_any
        (λ region. list_any (conforms pair.now.kind region) (regions_of facts.now pair.now.source))
        (regions_of facts.now pair.now.target) }
{
    for fact in facts {
        if target_conforms(facts, fact, pair) {
            return true;
        }
    }
    false
}

fn target_conforms(facts: &[Fact], fact: &Fact, pair: &Pair) -> bool
    requires regions { All HasRegion facts.now }
    requires region { HasRegion fact.now }
    ensures { result ≡ list_any
        (λ region. list_any (conforms pair.now.kind region) (regions_of facts.now pair.now.source))
        (region_in pair.now.target fact.now) }
{
    match *fact {
        Fact::Stands { slot, region } => {
            slot == pair.target && any_conforms(facts, &region, pair)
        }
        _ => false,
    }
}

fn any_conforms(facts: &[Fact], target: &Region, pair: &Pair) -> bool
    requires regions { All HasRegion facts.now }
    requires target { HasRegion (Fact.Stands 0 target.now) }
    ensures { result
        ≡ list_any (conforms pair.now.kind target.now) (regions_of facts.now pair.now.source) }
{
    for fact in facts {
        if source_conforms(target, fact, pair) {
            return true;
        }
    }
    false
}

fn source_conforms(target: &Region, fact: &Fact, pair: &Pair) -> bool
    requires target { HasRegion (Fact.Stands 0 target.now) }
    requires region { HasRegion fact.now }
    ensures { result
        ≡ list_any (conforms pair.now.kind target.now) (region_in pair.now.source fact.now) }
{
    match *fact {
        Fact::Stands { slot, region } => {
            slot == pair.source && conforms(pair.kind, target, &region)
        }
        _ => false,
    }
}

/// Whether the border on this side of the slot's region conforms: it is told, or follows from the
/// region that is told.
pub(crate) fn has_border(facts: &[Fact], number: u32, shift: &Vec3) -> bool
    requires { All HasRegion facts.now }
    ensures { result ≡ has_border facts.now number shift.now }
{
    tell_border(facts, number, shift) || conforms_border(facts, number, shift)
}

fn tell_border(facts: &[Fact], number: u32, shift: &Vec3) -> bool
    ensures { result ≡ list_any (tells_border number shift.now) facts.now }
{
    for fact in facts {
        if tells_border(fact, number, shift) {
            return true;
        }
    }
    false
}

fn tells_border(fact: &Fact, number: u32, vector: &Vec3) -> bool
    ensures { result ≡ tells_border number vector.now fact.now }
{
    match *fact {
        Fact::Border { slot, shift } => slot == number && is_vector(&shift, vector),
        _ => false,
    }
}

fn conforms_border(facts: &[Fact], number: u32, shift: &Vec3) -> bool
    requires { All HasRegion facts.now }
    ensures { result ≡ list_any (border_conforms shift.now) (regions_of facts.now number) }
{
    for fact in facts {
        if stands_conforms(fact, number, shift) {
            return true;
        }
    }
    false
}

fn stands_conforms(fact: &Fact, number: u32, shift: &Vec3) -> bool
    requires { HasRegion fact.now }
    ensures { result ≡ list_any (border_conforms shift.now) (region_in number fact.now) }
{
    match *fact {
        Fact::Stands { slot, region } => slot == number && border_conforms(shift, &region),
        _ => false,
    }
}

/// A side of a border: the slots that are made by a form of a slot's region and a vector.
#[derive(Clone, Copy)]
pub(crate) struct Side {
    pub form: RegionForm,
    pub from: u32,
    pub shift: Vec3,
}

/// Whether the array has all places of some slot of this side.
pub(crate) fn has_side(tables: &Tables, facts: &[Fact], array: u32, side: &Side) -> bool
    requires fits { Fits tables.now }
    requires regions { All HasRegion facts.now }
    ensures { result ≡ list_any (is_held tables.now facts.now array unmoved)
        (slots_made facts.now side.now.form side.now.from side.now.shift) }
{
    for fact in facts {
        if holds_side(tables, facts, array, side, fact) {
            return true;
        }
    }
    false
}

fn holds_side(tables: &Tables, facts: &[Fact], array: u32, side: &Side, fact: &Fact) -> bool
    requires fits { Fits tables.now }
    requires regions { All HasRegion facts.now }
    ensures { result ≡ list_any (is_held tables.now facts.now array unmoved)
        (made_in side.now.form side.now.from side.now.shift fact.now) }
{
    let Fact::Made { slot, .. } = *fact else {
        return false;
    };
    let shift = [0, 0, 0];
    is_side(fact, side) && is_held(tables, facts, &Place { slot, array, shift })
}

fn is_side(fact: &Fact, side: &Side) -> bool
    ensures { result ≡ makes_side side.now.form side.now.from side.now.shift fact.now }
{
    match *fact {
        Fact::Made {
            form,
            from,
            shift,
            ..
        } => is_side_form(form, side.form) && (from == side.from && is_vector(&shift, &side.shift)),
        _ => false,
    }
}

fn is_side_form(one: RegionForm, other: RegionForm) -> bool
    ensures { result ≡ is_side_form one other }
{
    match (one, other) {
        (RegionForm::Of, RegionForm::Of) => true,
        (RegionForm::Inside, RegionForm::Inside) => true,
        _ => false,
    }
}
