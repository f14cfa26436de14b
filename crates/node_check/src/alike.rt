//! Facts that are the same.
ghost use Rattle.std.specs.Prelude.{◌≡◌};
ghost use Rattle.std.specs.List.{list_any};
ghost use Rattle.node_check.specs.Alike.{is_dim, is_fact, is_form, is_region};
ghost use Rattle.node_check.specs.Demand.{is_kind, is_vector};

use crate::facts::Fact;
use node_form::{RegionForm, SameKind};
use zpl_region::{Dim, Region, Vec3};

/// Whether two vectors are the same.
pub(crate) fn is_vector(one: &Vec3, other: &Vec3) -> bool
    ensures { result ≡ is_vector one.now other.now }
{
    one == other
}

fn is_dim(one: Dim, other: Dim) -> bool
    ensures { result ≡ is_dim one other }
{
    let Dim::Range {
        lo,
        hi,
        step,
        align,
    } = one
    else {
        return is_flood(other);
    };
    match other {
        Dim::Range {
            lo: low,
            hi: high,
            step: by,
            align: at,
        } => lo == low && (hi == high && (step == by && align == at)),
        Dim::Flood => false,
    }
}

fn is_flood(dim: Dim) -> bool
    ensures { result ≡ is_dim Dim.Flood dim }
{
    match dim {
        Dim::Flood => true,
        Dim::Range { .. } => false,
    }
}

fn is_region(one: &Region, other: &Region) -> bool
    ensures { result ≡ is_region one.now other.now }
{
    let [planes, rows, columns] = one.dims;
    let [other_planes, other_rows, other_columns] = other.dims;
    one.rank == other.rank
        && (is_dim(planes, other_planes)
            && (is_dim(rows, other_rows) && is_dim(columns, other_columns)))
}

/// Whether two regions conform for the same operator.
pub(crate) fn is_kind(one: SameKind, other: SameKind) -> bool
    ensures { result ≡ is_kind one other }
{
    match one {
        SameKind::Part => is_part(other),
        SameKind::Flood => !is_part(other),
    }
}

fn is_part(kind: SameKind) -> bool
    ensures { result ≡ is_kind SameKind.Part kind }
{
    match kind {
        SameKind::Part => true,
        SameKind::Flood => false,
    }
}

fn is_form(one: RegionForm, other: RegionForm) -> bool
    ensures { result ≡ is_form one other }
{
    match (one, other) {
        (RegionForm::Of, RegionForm::Of) => true,
        (RegionForm::Inside, RegionForm::Inside) => true,
        (RegionForm::At, RegionForm::At) => true,
        (RegionForm::By, RegionForm::By) => true,
        _ => false,
    }
}

/// Whether two facts are the same.
pub(crate) fn is_fact(one: &Fact, other: &Fact) -> bool
    ensures { result ≡ is_fact one.now other.now }
{
    match *one {
        Fact::Uniform { scalar } => is_uniform(scalar, other),
        Fact::Stands { slot, region } => is_stands(slot, &region, other),
        Fact::Made {
            form,
            slot,
            from,
            shift,
        } => is_made(form, slot, from, &shift, other),
        Fact::Held { slot, array, shift } => is_held(slot, array, &shift, other),
        Fact::Agree {
            target,
            source,
            kind,
        } => is_agree(target, source, kind, other),
        Fact::Border { slot, shift } => is_border(slot, &shift, other),
    }
}

fn is_uniform(mine: u32, other: &Fact) -> bool
    ensures { result ≡ is_fact (Fact.Uniform mine) other.now }
{
    match *other {
        Fact::Uniform { scalar } => mine == scalar,
        _ => false,
    }
}

fn is_stands(mine: u32, own: &Region, other: &Fact) -> bool
    ensures { result ≡ is_fact (Fact.Stands mine own.now) other.now }
{
    match *other {
        Fact::Stands { slot, region } => mine == slot && is_region(own, &region),
        _ => false,
    }
}

fn is_made(by: RegionForm, mine: u32, source: u32, vector: &Vec3, other: &Fact) -> bool
    ensures { result ≡ is_fact (Fact.Made by mine source vector.now) other.now }
{
    match *other {
        Fact::Made {
            form,
            slot,
            from,
            shift,
        } => is_form(by, form) && (mine == slot && (source == from && is_vector(vector, &shift))),
        _ => false,
    }
}

fn is_held(mine: u32, of: u32, vector: &Vec3, other: &Fact) -> bool
    ensures { result ≡ is_fact (Fact.Held mine of vector.now) other.now }
{
    match *other {
        Fact::Held { slot, array, shift } => {
            mine == slot && (of == array && is_vector(vector, &shift))
        }
        _ => false,
    }
}

fn is_agree(one: u32, from: u32, by: SameKind, other: &Fact) -> bool
    ensures { result ≡ is_fact (Fact.Agree one from by) other.now }
{
    match *other {
        Fact::Agree {
            target,
            source,
            kind,
        } => one == target && (from == source && is_kind(by, kind)),
        _ => false,
    }
}

fn is_border(mine: u32, vector: &Vec3, other: &Fact) -> bool
    ensures { result ≡ is_fact (Fact.Border mine vector.now) other.now }
{
    match *other {
        Fact::Border { slot, shift } => mine == slot && is_vector(vector, &shift),
        _ => false,
    }
}

/// Whether the fact stands among others.
pub(crate) fn has_fact(facts: &[Fact], fact: &Fact) -> bool
    ensures { result ≡ list_any (is_fact fact.now) facts.now }
{
    for other in facts {
        if is_fact(fact, other) {
            return true;
        }
    }
    false
}
