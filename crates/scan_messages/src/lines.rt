//! The lines of a part, and its tuples line by line.
ghost use Rattle.std.specs.Prelude.{◌≡◌, ◌<◌, ◌≤◌, ◌++◌, ◌^◌, All, IfOk, length, map};
ghost use Rattle.scan_messages.specs.Line.{line_by_line, on_line, value_in};
ghost use Rattle.scan_plan.specs.Line.{heads, line_dim};
ghost use Rattle.zpl_region.specs.Region.{IsMember, IsRegion, members};

use region_places::place;
use std::alloc::{AllocError, Global};
use zpl_region::{Region, Vec3};

/// The number of the dimension along which lines run, counted from 0.
pub(crate) fn line_dim(rank: u8, along: u8) -> u8
    requires above { 1 ≤ rank }
    requires along { along ≤ rank }
    ensures dim { result ≡ line_dim rank along }
    ensures below { result < rank }
{
    if along == 0 { rank - 1 } else { along - 1 }
}

/// The first tuples of the lines along a dimension, counted from 0.
pub(crate) fn line_heads(part: &Region, k: u8) -> Region
    requires part { IsRegion part.now }
    requires dim { k < part.now.rank }
    requires many { length part.now.dims ≡ 3 }
    ensures heads { members result ≡ members (heads k part.now) }
    ensures region { IsRegion result }
    ensures few { length (members result) ≤ length (members part.now) }
{
    let Some(least) = part.least() else {
        return *part;
    };
    let Some(mut greatest) = part.greatest() else {
        return *part;
    };
    greatest[usize::from(k)] = least[usize::from(k)];
    part.meet(least, greatest)
}

/// The part's tuples on the line that begins with a tuple.
pub(crate) fn line_from(part: &Region, k: u8, head: &Vec3) -> Region
    requires part { IsRegion part.now }
    requires dim { k < part.now.rank }
    requires many { length part.now.dims ≡ 3 }
    requires head { IsMember part.now head.now }
    ensures line { members result ≡ on_line k part.now head.now }
    ensures region { IsRegion result }
{
    let Some(least) = part.least() else {
        return *part;
    };
    let Some(greatest) = part.greatest() else {
        return *part;
    };
    let mut lo = *head;
    lo[usize::from(k)] = least[usize::from(k)];
    let mut hi = *head;
    hi[usize::from(k)] = greatest[usize::from(k)];
    part.meet(lo, hi)
}

/// Appends the tuples of a region, in row-major order.
fn push_tuples(region: &Region, into: &mut Vec<Vec3>) -> Result<(), AllocError>
    requires { IsRegion region.now }
    ensures { IfOk result (λ done. into.new.items ≡ into.old.items ++ members region.now) }
{
    let mut next = region.least();
    while let Some(x) = next {
        into.push(x)?;
        next = region.next_after(x);
    }
    Ok(())
}

/// The tuples of a part, line by line.
pub(crate) fn line_by_line(alloc: Global, part: &Region, k: u8) -> Result<Vec<Vec3>, AllocError>
    requires part { IsRegion part.now }
    requires dim { k < part.now.rank }
    requires many { length part.now.dims ≡ 3 }
    ensures { IfOk result (λ tuples. tuples.items ≡ line_by_line k part.now) }
{
    let heads = line_heads(part, k);
    let mut tuples = Vec::new(alloc);
    let mut next = heads.least();
    while let Some(head) = next {
        let line = line_from(part, k, &head);
        push_tuples(&line, &mut tuples)?;
        next = heads.next_after(head);
    }
    Ok(tuples)
}

/// The values at some tuples of a part, of values that stand in row-major order.
pub(crate) fn values_in(
    alloc: Global,
    part: &Region,
    values: &[i64],
    tuples: &[Vec3],
) -> Result<Vec<i64>, AllocError>
    requires part { IsRegion part.now }
    requires few { length (members part.now) < 2 ^ 64 }
    requires filled { length values.now ≡ length (members part.now) }
    requires tuples { All (IsMember part.now) tuples.now }
    ensures { IfOk result (λ found. found.items ≡ map (value_in part.now values.now) tuples.now) }
{
    let mut found = Vec::new(alloc);
    for x in tuples {
        found.push(values[place(part, x) as usize])?;
    }
    Ok(found)
}
