//! Turns of `room` and `clear`.
ghost use Rattle.std.specs.Prelude.{◌≡◌, ◌<◌, ◌≤◌, ◌+◌, ◌^◌};
ghost use Rattle.std.specs.Prelude.{All, IfErr, IfOk, IsNone, false, slice_get};
ghost use Rattle.zpl_region.specs.Ends.{has_none};
ghost use Rattle.zpl_region.specs.Hull.{IsBoxed};
ghost use Rattle.zpl_region.specs.Region.{IsRegion};
ghost use Rattle.grid_layout.specs.Layout.{HasWideBounds};
ghost use Rattle.grid_meaning.specs.Local.{processors};
ghost use Rattle.grid_meaning.specs.Place.{own_part};
ghost use Rattle.grid_meaning.specs.Room.{cleared, room_dim, room_of, roomed};
ghost use Rattle.grid_meaning.specs.State.{IsSlot};
ghost use Rattle.grid_meaning.specs.Stored.{arrangement_of};
ghost use Rattle.node_local.specs.Workplace.{IsReady};
ghost use Rattle.node_loop.specs.LocalTurn.{StaysWhereStuck, turned};

use crate::turns::LocalTurn;
use grid_layout::Layout;
use node_form::{ArrayDim, ArrayRow, NodeProgram};
use node_local::{Local, no_places};
use node_stages::own_tuples;
use std::alloc::{AllocError, Global};
use zpl_region::{Dim, Region};

/// A dimension of a temporary's places, where this one is wanted.
fn room_dim(row: ArrayDim, dim: Dim) -> Dim
    ensures { result ≡ room_dim row dim }
{
    match (row, dim) {
        (ArrayDim::Star, _) => Dim::Flood,
        (ArrayDim::Range { .. }, Dim::Flood) => Dim::Range {
            lo: 0,
            hi: 0,
            step: 1,
            align: 0,
        },
        (ArrayDim::Range { .. }, Dim::Range { .. }) => dim,
    }
}

/// The places of a temporary for the tuples of a region, which has some.
fn room_of(row: &ArrayRow, own: &Region) -> Region
    requires region { IsRegion own.now }
    requires some { has_none own.now ≡ false }
    ensures { result ≡ room_of row.now own.now false }
{
    let hull = own.hull();
    let [a, b, c] = row.dims;
    let [x, y, z] = hull.dims;
    Region {
        rank: row.rank,
        dims: [room_dim(a, x), room_dim(b, y), room_dim(c, z)],
    }
}

/// The places of a temporary for the tuples of a region that a processor owns.
fn own_room(code: &NodeProgram, layout: &Layout, row: &ArrayRow, region: &Region, p: u32) -> Region
    requires layout { layout.now ≡ arrangement_of code.now }
    requires slot { IsSlot region.now.rank region.now }
    requires processor { p < processors code.now }
    requires above { 1 ≤ row.now.rank }
    requires below { row.now.rank ≤ 3 }
    ensures places { result ≡ room_of row.now (own_part code.now p region.now)
        (has_none (own_part code.now p region.now)) }
    ensures boxed { All IsBoxed result.dims }
    ensures bounds { All HasWideBounds result.dims }
{
    if own_tuples(code, layout, region, p).is_empty() {
        return no_places(row.rank);
    }
    let (first, last) = layout.blocks().own_block(region.rank, p);
    room_of(row, &region.meet(first, last))
}

/// A turn of `room` on processor p: a temporary gets places for the tuples of a slot's region that
/// the processor owns, with 0 at each. For want of memory nothing changes.
pub fn room(
    alloc: Global,
    local: &mut Local,
    code: &NodeProgram,
    layout: &Layout,
    p: u32,
    array: u32,
    slot: u32,
) -> Result<LocalTurn, AllocError>
    requires layout { layout.now ≡ arrangement_of code.now }
    requires processor { p < processors code.now }
    requires ready { IsReady code.now p local.old }
    requires next { local.old.local.at + 1 < 2 ^ 64 }
    ensures turn { IfOk result (λ turn. roomed code.now p local.old.local array
        (slice_get code.now.arrays array) (slice_get local.old.local.slots slot)
        ≡ turned turn local.new.local) }
    ensures same { local.new ≡ record local.old { local = local.new.local } }
    ensures stuck { IfOk result (λ turn. StaysWhereStuck turn local.old local.new) }
    ensures short { IfErr result (λ fault. local.new ≡ local.old) }
{
    let Some(region) = local.slot(slot) else {
        return Ok(LocalTurn::Undefined);
    };
    let Some(row) = code.tables().arrays.get(u64::from(array)) else {
        return Ok(LocalTurn::Undefined);
    };
    let places = own_room(code, layout, row, &region, p);
    local.make_places(alloc, array, places)?;
    local.go_on();
    Ok(LocalTurn::Moves)
}

/// A turn of `clear`: an array gets 0 at all its places. It takes no memory.
pub fn clear(local: &mut Local, array: u32) -> LocalTurn
    requires next { local.old.local.at + 1 < 2 ^ 64 }
    ensures turn { cleared local.old.local array (slice_get local.old.local.stores array)
        ≡ turned result local.new.local }
    ensures same { local.new ≡ record local.old { local = local.new.local } }
    ensures stuck { StaysWhereStuck result local.old local.new }
{
    if local.shape(array).is_none() {
        return LocalTurn::Undefined;
    }
    local.clear_values(array);
    local.go_on();
    LocalTurn::Moves
}
