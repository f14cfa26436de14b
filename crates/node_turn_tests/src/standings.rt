//! The state of a processor, told part by part by its readers, and a processor restored from it.
ghost use Rattle.std.specs.Prelude.{◌≡◌, ◌<◌, All, IfOk, IsTrue, Some, length, map, slice_get};
ghost use Rattle.zpl_arrays.specs.Array.{IsArray};
ghost use Rattle.zpl_region.specs.Dim.{IsDim, IsUpTo};
ghost use Rattle.zpl_region.specs.Region.{IsRegion, padding};
ghost use Rattle.grid_meaning.specs.Local.{processors};
ghost use Rattle.grid_meaning.specs.Stored.{arrangement_of};
ghost use Rattle.node_local.specs.Standing.{array_in, entry_of, standing_local};
ghost use Rattle.node_local.specs.Workplace.{IsReady};

use fold_messages::push_values;
use grid_layout::Layout;
use grid_links::Words;
use node_form::NodeProgram;
use node_turn::{Kept, KeptWords, Local, Slots, Standing, Store, Stores};
use std::alloc::{AllocError, Global};
use zpl_region::{Dim, Region};

/// The greatest bound of a place in the programs here, and the least one with the sign turned.
const FARTHEST: i64 = 1 << 40;

/// The scalars, of which there are so many.
fn scalars_of(alloc: Global, local: &Local, count: u32) -> Result<Words, AllocError>
    requires { length local.now.local.scalars ≡ count }
    ensures { IfOk result (λ words. words ≡ local.now.local.scalars) }
{
    let mut words = Vec::new(alloc);
    for i in 0..count {
        let Some(value) = local.scalar(i) else {
            return Err(AllocError);
        };
        words.push(value)?;
    }
    Ok(Words::of(words))
}

/// The cells, of which there are so many.
fn cells_of(alloc: Global, local: &Local, count: u32) -> Result<Words, AllocError>
    requires { length local.now.local.cells ≡ count }
    ensures { IfOk result (λ words. words ≡ local.now.local.cells) }
{
    let mut words = Vec::new(alloc);
    for i in 0..count {
        let Some(value) = local.cell(i) else {
            return Err(AllocError);
        };
        words.push(value)?;
    }
    Ok(Words::of(words))
}

/// Whether a bound is one of a place in the programs here.
fn is_near(bound: i64) -> bool
    ensures near { IsTrue result → IsUpTo 40 bound }
    ensures nearer { IsTrue result → IsUpTo 42 bound }
{
    -FARTHEST <= bound && bound <= FARTHEST
}

/// Whether this is a dimension of a box.
fn is_dim(dim: Dim) -> bool
    ensures { IsTrue result → IsDim dim }
{
    let Dim::Range {
        lo,
        hi,
        step,
        align,
    } = dim
    else {
        return true;
    };
    if step != 1 {
        return false;
    }
    if align != lo {
        return false;
    }
    if !is_near(lo) {
        return false;
    }
    is_near(hi)
}

/// Whether this stands for a dimension past the rank.
fn is_padding(dim: Dim) -> bool
    ensures { IsTrue result → dim ≡ padding }
{
    match dim {
        Dim::Range {
            lo,
            hi,
            step,
            align,
        } => lo == 0 && hi == 0 && step == 1 && align == 0,
        Dim::Flood => false,
    }
}

/// Whether this is a box of a rank from 1 to 3.
fn is_region(region: &Region) -> bool
    ensures { IsTrue result → IsRegion region.now }
{
    let [planes, rows, columns] = region.dims;
    let fits = is_dim(planes) && is_dim(rows) && is_dim(columns);
    match region.rank {
        1 => fits && is_padding(rows) && is_padding(columns),
        2 => fits && is_padding(columns),
        3 => fits,
        _ => false,
    }
}

/// A copy of words.
fn copied(alloc: Global, words: &Words) -> Result<Words, AllocError>
    ensures { IfOk result (λ copy. copy ≡ words.now) }
{
    Ok(Words::of(words.as_slice().to_vec(alloc)?))
}

/// The words that are kept.
fn kept_of(alloc: Global, local: &Local) -> Result<KeptWords, AllocError>
    ensures { IfOk result (λ words. map entry_of words ≡ local.now.local.kept) }
{
    let mut kept = Vec::new(alloc);
    for entry in local.kept_words() {
        let words = copied(alloc, &entry.words)?;
        kept.push(Kept {
            from: entry.from,
            words,
        })?;
    }
    Ok(KeptWords::of(kept))
}

/// The places of an array, with their values.
fn store_of(alloc: Global, local: &Local, array: u32) -> Result<Store, AllocError>
    requires { All IsArray local.now.local.stores }
    ensures { IfOk result (λ store.
        slice_get local.now.local.stores array ≡ Some (array_in store)) }
{
    let Some(shape) = local.shape(array) else {
        return Err(AllocError);
    };
    if !is_region(&shape) {
        return Err(AllocError);
    }
    let mut values = Vec::new(alloc);
    if !push_values(local, array, &shape, &mut values)? {
        return Err(AllocError);
    }
    Ok(Store {
        shape,
        values: Words::of(values),
    })
}

/// The places of all arrays, of which there are so many, with their values.
fn stores_of(alloc: Global, local: &Local, count: u32) -> Result<Stores, AllocError>
    requires arrays { All IsArray local.now.local.stores }
    requires count { length local.now.local.stores ≡ count }
    ensures { IfOk result (λ stores. map array_in stores ≡ local.now.local.stores) }
{
    let mut stores = Vec::new(alloc);
    for i in 0..count {
        let store = store_of(alloc, local, i)?;
        stores.push(store)?;
    }
    Ok(Stores::of(stores))
}

/// The state of processor p.
fn standing_of(
    alloc: Global,
    code: &NodeProgram,
    p: u32,
    local: &Local,
) -> Result<Standing, AllocError>
    requires { IsReady code.now p local.now }
    ensures { IfOk result (λ standing. standing_local standing ≡ local.now.local) }
{
    let tables = code.tables();
    let Ok(arrays) = u32::try_from(tables.arrays.len()) else {
        return Err(AllocError);
    };
    let scalars = scalars_of(alloc, local, tables.scalars)?;
    let slots = local.slots().to_vec(alloc)?;
    let cells = cells_of(alloc, local, tables.cells)?;
    let stores = stores_of(alloc, local, arrays)?;
    let kept = kept_of(alloc, local)?;
    Ok(Standing {
        at: local.at(),
        made: local.made(),
        index: local.index(),
        member: local.member(),
        flag: local.flag(),
        ended: local.ending(),
        scalars,
        slots: Slots::of(slots),
        cells,
        stores,
        kept,
    })
}

/// Processor p once more, restored from what its readers tell.
pub fn restored(
    alloc: Global,
    code: &NodeProgram,
    layout: &Layout,
    p: u32,
    local: &Local,
) -> Result<Local, AllocError>
    requires layout { layout.now ≡ arrangement_of code.now }
    requires processor { p < processors code.now }
    requires ready { IsReady code.now p local.now }
    ensures same { IfOk result (λ made. made.local ≡ local.now.local) }
    ensures ready { IfOk result (IsReady code.now p) }
{
    let standing = standing_of(alloc, code, p, local)?;
    Local::restore(alloc, code, layout, p, standing)
}
