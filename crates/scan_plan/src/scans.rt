//! Scans on one processor's block.
ghost use Rattle.std.specs.Prelude.{◌≡◌, ◌≤◌, ◌<◌, ◌^◌, ◌++◌, ◌-◌, IfOk, IfSome, List, OnErr, OnOk};
ghost use Rattle.std.specs.Prelude.{length, map, option_map, slice_index_or};
ghost use Rattle.std.specs.List.{zip};
ghost use Rattle.zpl_nums.specs.Fold.{unit_of};
ghost use Rattle.zpl_region.specs.declared.dims.Dim.{Dim as Dimension};
ghost use Rattle.zpl_region.specs.Ends.{coordinate_count};
ghost use Rattle.zpl_region.specs.Region.{IsRegion, members};
ghost use Rattle.grid_layout.specs.Grid.{processors_of};
ghost use Rattle.grid_layout.specs.Layout.{AreBlocks, laid_out};
ghost use Rattle.grid_layout.specs.Piece.{owned_part};
ghost use Rattle.scan_plan.specs.Line.{heads, line_dim, value_at};
ghost use Rattle.scan_plan.specs.Scan.{LineTotal, before, block_scan, gone_through, line_behind};
ghost use Rattle.scan_plan.specs.Scan.{lines_of, parts_of, sums};

use crate::lines::{Lines, heads, line_dim};
use crate::lists::Totals;
use grid_layout::{Blocks, Layout};
use region_places::place;
use std::alloc::{AllocError, Global};
use zpl_nums::{Fold, join, unit};
use zpl_region::{Region, Vec3};

/// The number of the first own line behind a line that begins with `h`: of all lines where the scan
/// goes in row-major order, and else of the one that `h` is on. The own lines are given by their
/// first tuples.
fn line_behind(along: u8, own: &Region, h: &Vec3) -> Option<u64>
    requires own { IsRegion own.now }
    requires along { along ≤ 3 }
    requires fits { length (members own.now) < 2 ^ 64 }
    ensures behind { result ≡ line_behind along own.now h.now }
    ensures below { IfSome result (λ line. line < length (members own.now)) }
{
    if along == 0 {
        return match own.next_after(*h) {
            Some(next) => Some(place(own, &next)),
            None => None,
        };
    }
    let Some(least) = own.least() else {
        return None;
    };
    let k = usize::from(along) - 1;
    let first = least[k];
    if h[k] >= first {
        return None;
    }
    let mut next = *h;
    next[k] = first;
    if own.contains(next) {
        Some(place(own, &next))
    } else {
        None
    }
}

/// Joins the totals of a part's lines into what is kept for the own lines that stand behind them.
/// Both are given by the first tuples of their lines.
fn add_totals(fold: Fold, along: u8, own: &Region, part: &Region, totals: &[i64], kept: &mut [i64])
    requires own { IsRegion own.now }
    requires part { IsRegion part.now }
    requires own_dims { length own.now.dims ≡ 3 }
    requires part_dims { length part.now.dims ≡ 3 }
    requires along { along ≤ 3 }
    requires fits { length (members own.now) < 2 ^ 64 }
    requires alone { 1 ≤ along
        → coordinate_count (slice_index_or own.now.dims (along - 1) Dimension.Flood) ≤ 1 }
    requires filled { length kept.old ≡ length (members own.now) }
    ensures { (lines : List LineTotal) → kept.old ≡ gone_through fold along (members own.now) lines
        → kept.new ≡ gone_through fold along (members own.now)
        (lines ++ zip (members part.now) totals.now) }
{
    let mut head = part.least();
    for total in totals {
        let Some(h) = head else {
            break;
        };
        if let Some(line) = line_behind(along, own, &h) {
            let line = line as usize;
            kept[line] = join(fold, kept[line], *total);
        }
        head = part.next_after(h);
    }
}

/// Joins each value with all that stand before it.
fn join_up(fold: Fold, values: &mut [i64])
    ensures { values.new ≡ sums fold (unit_of fold) values.old }
{
    let mut so_far = unit(fold);
    for value in values.iter_mut() {
        so_far = join(fold, so_far, *value);
        *value = so_far;
    }
}

/// What stands before each line of processor `p`'s part of a region: the fold of the totals of all
/// lines that precede it.
fn befores(
    alloc: Global,
    fold: Fold,
    along: u8,
    region: &Region,
    blocks: &Blocks,
    p: u32,
    all: &Totals,
    count: usize,
) -> Result<Vec<i64>, AllocError>
    requires region { IsRegion region.now }
    requires along { along ≤ region.now.rank }
    requires blocks { AreBlocks blocks.now }
    requires processor { p < processors_of blocks.now.grid }
    requires lists { length all.now ≡ processors_of blocks.now.grid }
    requires count { count ≡ length (members
        (heads (line_dim region.now.rank along) (owned_part blocks.now p p region.now))) }
    ensures { IfOk result (λ v. v.items ≡ map
        (before fold along (lines_of (line_dim region.now.rank along)
        (parts_of blocks.now p region.now) all.now))
        (members (heads (line_dim region.now.rank along) (owned_part blocks.now p p region.now)))) }
{
    let k = line_dim(region.rank, along);
    let own = heads(&blocks.owned(p, p, region), k);
    let mut kept = vec![in alloc; unit(fold); count]?;
    for q in 0..blocks.grid.count() {
        let part = heads(&blocks.owned(q, p, region), k);
        add_totals(fold, along, &own, &part, all.list(q), &mut kept);
    }
    if along == 0 {
        join_up(fold, &mut kept);
    }
    Ok(kept)
}

/// Appends the scan on processor `p`'s part of a region, from the totals of all processors' lines
/// and the values of the part: at each tuple what stands before its line, joined with the values of
/// the line up to and with the tuple, those aside that are masked out and so `None`. Lines run
/// along a dimension, counted from 1, or along the last one where `along` is 0 and the scan goes in
/// row-major order. Without memory `into` stays as it was.
pub fn scan_block(
    alloc: Global,
    fold: Fold,
    along: u8,
    region: &Region,
    layout: &Layout,
    p: u32,
    all: &Totals,
    values: &[Option<i64>],
    into: &mut Vec<i64>,
) -> Result<(), AllocError>
    requires region { IsRegion region.now }
    requires along { along ≤ region.now.rank }
    requires processor { p < processors_of layout.now.grid }
    requires lists { length all.now ≡ processors_of layout.now.grid }
    requires filled { length values.now
        ≡ length (members (owned_part (laid_out layout.now) p p region.now)) }
    ensures ok { OnOk result (into.new.items ≡ into.old.items
        ++ block_scan fold along (laid_out layout.now) p region.now all.now
        (value_at (owned_part (laid_out layout.now) p p region.now) values.now)) }
    ensures err { OnErr result (into.new.items ≡ into.old.items) }
{
    if values.is_empty() {
        return Ok(());
    }
    let blocks = layout.blocks();
    let lines = Lines::of(&blocks.owned(p, p, region), line_dim(region.rank, along));
    let count = values.len() / lines.along as usize;
    let mut so_far = befores(alloc, fold, along, region, blocks, p, all, count)?;
    let mut scanned = Vec::with_capacity(alloc, values.len())?;
    for (i, value) in values.iter().enumerate() {
        let line = lines.number(i as u64) as usize;
        if let Some(value) = *value {
            so_far[line] = join(fold, so_far[line], value);
        }
        scanned.push(so_far[line])?;
    }
    into.extend_from_slice(&scanned)
}
