//! The storages of arrays.
ghost use Rattle.std.specs.Prelude.{◌≡◌, ◌≤◌, ◌++◌, ◌∷◌, [], IfErr, All, MatchOption, OnOk, filter};
ghost use Rattle.std.specs.Prelude.{flat_map, map, true};
ghost use Rattle.std.specs.Str.{bytes_eq};
ghost use Rattle.zpl_region.specs.Dim.{HasStep, IsDimWithinLimit, dim_outside_of};
ghost use Rattle.zpl_region.specs.Hull.{hull};
ghost use Rattle.zpl_region.specs.Region.{components, outside_of};
ghost use Rattle.zpl_parts.specs.of_zpl_binding.Bound.{IsVector};
ghost use Rattle.zpl_parts.specs.of_zpl_binding.Outcome.{Gives, and_then, failures};
ghost use Rattle.zpl_parts.specs.of_zpl_binding.Regions.{limited};
ghost use Rattle.zpl_parts.specs.of_zpl_binding.Storages.{shape_borders, shaped_by, shaped_in, shaped_over};
ghost use Rattle.zpl_parts.specs.of_zpl_binding.Storages.{storage_of, widened};
ghost use Rattle.zpl_parts.specs.of_zpl_binding.Vectors.{is_component};
ghost use Rattle.zpl_tree.specs.Syntax.{Bracketed, Rexpr};
ghost use Rattle.zpl_tree.specs.View.{base_of, decl_of, inner_of as seen_inner, name_of, posts_of};
ghost use Rattle.zpl_tree.specs.View.{pre_of, var_of};
ghost use Rattle.zpl_bind.specs.Fault.{Computes, IsAmong};
ghost use Rattle.zpl_bind.specs.Few.{AreFewVars, IsFew, IsFewBracket, IsFewDecl};
ghost use Rattle.zpl_bind.specs.Known.{IsBuilt, IsKnown, known_in};
ghost use Rattle.zpl_bind.specs.Storages.{HasBordersOf, HasNoBorders, IsAround, borders_in};
ghost use Rattle.zpl_bind.specs.Storages.{shaped_locals, storages_over};

use crate::faults::BindFault;
use crate::known::Known;
use crate::regions::{direction_named, inner_of, is_plain, limited};
use zpl_parts::Part;
use zpl_region::{Dim, Region, Vec3};
use zpl_tree::{Decl, Inner, Name, Post, Pre, RegionBase, VarDef};

/// The positions beside the bounds of a dimension.
fn outside(dim: Dim, d: i64) -> Dim
    requires limit { IsDimWithinLimit dim }
    requires step { HasStep dim }
    requires part { is_component d ≡ true }
    ensures { result ≡ dim_outside_of d dim }
{
    let Dim::Range {
        lo,
        hi,
        step,
        align,
    } = dim
    else {
        return Dim::Flood;
    };
    if d > 0 {
        Dim::Range {
            lo: hi + 1,
            hi: hi + d,
            step,
            align,
        }
    } else if d < 0 {
        Dim::Range {
            lo: lo + d,
            hi: lo - 1,
            step,
            align,
        }
    } else {
        dim
    }
}

/// The components of a vector up to a rank, and 0 past it.
fn components(rank: u8, v: Vec3) -> Vec3
    requires { 1 ≤ rank }
    ensures { result ≡ components rank v }
{
    let [x, y, z] = v;
    [
        x,
        if rank > 1 { y } else { 0 },
        if rank > 2 { z } else { 0 },
    ]
}

/// `d of R`, also where it passes the limit.
fn outside_of(region: &Region, d: Vec3) -> Region
    requires region { IsBuilt region.now }
    requires rank { 1 ≤ region.now.rank }
    requires vector { IsVector d }
    ensures { result ≡ outside_of d region.now }
{
    let [x, y, z] = components(region.rank, d);
    let [planes, rows, columns] = region.dims;
    Region {
        rank: region.rank,
        dims: [outside(planes, x), outside(rows, y), outside(columns, z)],
    }
}

/// The hull of what there is, and of each `d of R` with the region's name.
fn around(known: &Known<'_>, borders: &[Part<'_>], name: &[u8], region: &Region) -> Region
    requires known { IsKnown known.now }
    requires region { IsBuilt region.now }
    requires rank { 1 ≤ region.now.rank }
    ensures around { IsAround region.now result }
    ensures widened { widened (known_in known.now) region.now (hull region.now)
        (filter (λ border. bytes_eq border.region.text name.now) (borders_in borders.now))
        ≡ Gives result }
{
    let mut storage = region.hull();
    for part in borders {
        storage = widened_by(known, part, name, region, &storage);
    }
    storage
}

/// The hull of what there is and, if the part is a border of the region, of that.
fn widened_by(
    known: &Known<'_>,
    part: &Part<'_>,
    name: &[u8],
    region: &Region,
    storage: &Region,
) -> Region
    requires known { IsKnown known.now }
    requires region { IsBuilt region.now }
    requires rank { 1 ≤ region.now.rank }
    requires around { IsAround region.now storage.now }
    ensures around { IsAround region.now result }
    ensures widened { widened (known_in known.now) region.now storage.now
        (filter (λ border. bytes_eq border.region.text name.now) (borders_in (part.now ∷ [])))
        ≡ Gives result }
{
    match part {
        Part::Border(direction, of) => {
            if of.text == name {
                let outside = outside_of(region, direction_named(known, direction));
                storage.hull_with(&outside)
            } else {
                *storage
            }
        }
        Part::Vector(_) | Part::Around(_, _) | Part::Call(_, _) => *storage,
    }
}

/// The region's name that an array is declared over, if that is all there is.
fn plain_name<'a>(known: &Known<'_>, inner: &Inner<'a>) -> Option<&'a [u8]>
    requires { IsKnown known.now }
    ensures { MatchOption result (HasNoBorders (known_in known.now) (seen_inner inner.now))
        (λ name. HasBordersOf (known_in known.now) (seen_inner inner.now) name.now) }
{
    match inner {
        Inner::Rexpr(rexpr) => name_alone(known, rexpr.pre, &rexpr.base, rexpr.post),
        Inner::Dims(_) => None,
    }
}

/// The name of a region expression, if it is a region's and nothing stands around it.
fn name_alone<'a>(
    known: &Known<'_>,
    pre: &[Pre<'a>],
    base: &RegionBase<'a>,
    post: &[Post<'a>],
) -> Option<&'a [u8]>
    requires { IsKnown known.now }
    ensures { MatchOption result
        (HasNoBorders (known_in known.now)
        (Rexpr (map pre_of pre.now) (base_of base.now) (posts_of post.now)))
        (λ name. HasBordersOf (known_in known.now)
        (Rexpr (map pre_of pre.now) (base_of base.now) (posts_of post.now)) name.now) }
{
    let RegionBase::Named(name) = base else {
        return None;
    };
    if !is_plain(pre, post) {
        return None;
    }
    match known.regions.find(name.text) {
        Some(_) => Some(name.text),
        None => None,
    }
}

/// The storage of an array over a region.
fn storage_over(
    known: &Known<'_>,
    borders: &[Part<'_>],
    inner: &Inner<'_>,
    region: &Region,
) -> Result<Region, BindFault>
    requires known { IsKnown known.now }
    requires region { IsBuilt region.now }
    ensures { Computes result (and_then (widened (known_in known.now) region.now (hull region.now)
        (shape_borders (known_in known.now) (borders_in borders.now)
        (seen_inner inner.now))) limited) }
{
    if region.rank == 0 {
        return Ok(*region);
    }
    let storage = match plain_name(known, inner) {
        Some(name) => around(known, borders, name, region),
        None => region.hull(),
    };
    limited(storage.rank, storage.dims)
}

/// The storage of an array.
fn storage_of(
    known: &Known<'_>,
    borders: &[Part<'_>],
    inner: &Inner<'_>,
) -> Result<Region, BindFault>
    requires known { IsKnown known.now }
    requires few { IsFew (seen_inner inner.now) }
    ensures { Computes result
        (storage_of (known_in known.now) (borders_in borders.now) (seen_inner inner.now)) }
{
    let region = inner_of(known, inner)?;
    storage_over(known, borders, inner, &region)
}

/// Adds the storage of each variable that is an array.
fn add_var(
    into: &mut Vec<Region>,
    known: &Known<'_>,
    borders: &[Part<'_>],
    var: &VarDef<'_>,
) -> Result<(), BindFault>
    requires known { IsKnown known.now }
    requires few { IsFewBracket (var_of var.now).shape }
    ensures ok { OnOk result (map Gives into.new.items ≡ map Gives into.old.items
        ++ storages_over (known_in known.now) (borders_in borders.now)
        (shaped_by (var_of var.now))) }
    ensures err { IfErr result (λ fault. IsAmong fault (failures
        (storages_over (known_in known.now) (borders_in borders.now)
        (shaped_by (var_of var.now))))) }
{
    match &var.shape {
        None => Ok(()),
        Some(inner) => add_arrays(into, known, borders, inner, var.names),
    }
}

/// Adds the storage of each of these arrays, which is the same.
fn add_arrays(
    into: &mut Vec<Region>,
    known: &Known<'_>,
    borders: &[Part<'_>],
    inner: &Inner<'_>,
    names: &[Name<'_>],
) -> Result<(), BindFault>
    requires known { IsKnown known.now }
    requires few { IsFew (seen_inner inner.now) }
    ensures ok { OnOk result (map Gives into.new.items ≡ map Gives into.old.items
        ++ storages_over (known_in known.now) (borders_in borders.now)
        (shaped_over (map name_of names.now) (Bracketed (seen_inner inner.now)))) }
    ensures err { IfErr result (λ fault. IsAmong fault (failures
        (storages_over (known_in known.now) (borders_in borders.now)
        (shaped_over (map name_of names.now) (Bracketed (seen_inner inner.now)))))) }
{
    if names.is_empty() {
        return Ok(());
    }
    let storage = storage_of(known, borders, inner)?;
    for _name in names {
        into.push(storage)?;
    }
    Ok(())
}

/// Adds the storages of arrays.
pub fn add_vars(
    into: &mut Vec<Region>,
    known: &Known<'_>,
    borders: &[Part<'_>],
    vars: &[VarDef<'_>],
) -> Result<(), BindFault>
    requires known { IsKnown known.now }
    requires few { AreFewVars (map var_of vars.now) }
    ensures ok { OnOk result (map Gives into.new.items ≡ map Gives into.old.items
        ++ storages_over (known_in known.now) (borders_in borders.now)
        (flat_map shaped_by (map var_of vars.now))) }
    ensures err { IfErr result (λ fault. IsAmong fault (failures
        (storages_over (known_in known.now) (borders_in borders.now)
        (flat_map shaped_by (map var_of vars.now))))) }
{
    for var in vars {
        add_var(into, known, borders, var)?;
    }
    Ok(())
}

/// Adds the storages of global arrays.
pub fn add_globals(
    into: &mut Vec<Region>,
    known: &Known<'_>,
    borders: &[Part<'_>],
    decls: &[Decl<'_>],
) -> Result<(), BindFault>
    requires known { IsKnown known.now }
    requires few { All (λ decl. IsFewDecl (decl_of decl)) decls.now }
    ensures ok { OnOk result (map Gives into.new.items ≡ map Gives into.old.items
        ++ storages_over (known_in known.now) (borders_in borders.now)
        (flat_map shaped_in (map decl_of decls.now))) }
    ensures err { IfErr result (λ fault. IsAmong fault (failures
        (storages_over (known_in known.now) (borders_in borders.now)
        (flat_map shaped_in (map decl_of decls.now))))) }
{
    for decl in decls {
        add_global(into, known, borders, decl)?;
    }
    Ok(())
}

fn add_global(
    into: &mut Vec<Region>,
    known: &Known<'_>,
    borders: &[Part<'_>],
    decl: &Decl<'_>,
) -> Result<(), BindFault>
    requires known { IsKnown known.now }
    requires few { IsFewDecl (decl_of decl.now) }
    ensures ok { OnOk result (map Gives into.new.items ≡ map Gives into.old.items
        ++ storages_over (known_in known.now) (borders_in borders.now)
        (shaped_in (decl_of decl.now))) }
    ensures err { IfErr result (λ fault. IsAmong fault (failures
        (storages_over (known_in known.now) (borders_in borders.now)
        (shaped_in (decl_of decl.now))))) }
{
    match decl {
        Decl::Vars(vars) => add_vars(into, known, borders, vars),
        _ => Ok(()),
    }
}

/// Adds the storages of local arrays.
pub fn add_locals(
    into: &mut Vec<Region>,
    known: &Known<'_>,
    borders: &[Part<'_>],
    decls: &[Decl<'_>],
) -> Result<(), BindFault>
    requires known { IsKnown known.now }
    requires few { All (λ decl. IsFewDecl (decl_of decl)) decls.now }
    ensures ok { OnOk result (map Gives into.new.items ≡ map Gives into.old.items
        ++ storages_over (known_in known.now) (borders_in borders.now)
        (flat_map shaped_locals (map decl_of decls.now))) }
    ensures err { IfErr result (λ fault. IsAmong fault (failures
        (storages_over (known_in known.now) (borders_in borders.now)
        (flat_map shaped_locals (map decl_of decls.now))))) }
{
    for decl in decls {
        add_local(into, known, borders, decl)?;
    }
    Ok(())
}

fn add_local(
    into: &mut Vec<Region>,
    known: &Known<'_>,
    borders: &[Part<'_>],
    decl: &Decl<'_>,
) -> Result<(), BindFault>
    requires known { IsKnown known.now }
    requires few { IsFewDecl (decl_of decl.now) }
    ensures ok { OnOk result (map Gives into.new.items ≡ map Gives into.old.items
        ++ storages_over (known_in known.now) (borders_in borders.now)
        (shaped_locals (decl_of decl.now))) }
    ensures err { IfErr result (λ fault. IsAmong fault (failures
        (storages_over (known_in known.now) (borders_in borders.now)
        (shaped_locals (decl_of decl.now))))) }
{
    match decl {
        Decl::Procedure(procedure) => add_vars(into, known, borders, procedure.locals),
        _ => Ok(()),
    }
}
