//! What expressions read and members write: scalars, cells and stores.
ghost use Rattle.std.specs.Prelude.{◌≡◌, IfSome, IfNone, slice_get};
ghost use Rattle.std.specs.Option.{option_map};
ghost use Rattle.grid_meaning.specs.Place.{moved_by, value_at, with_value};

use crate::changes::Change;
use crate::stores::{FlatStore, put_back};
use grid_meaning::zpl_region::Vec3;

/// What expressions read and members write.
#[derive(Debug, Drop)]
pub(crate) struct Memory {
    pub(crate) scalars: Vec<i64>,
    pub(crate) cells: Vec<i64>,
    pub(crate) stores: Vec<FlatStore>,
}

impl Memory {
    ghost use Rattle.node_local.specs.Computing.{point_in};
    ghost use Rattle.node_local.specs.Undo.{taken_back};
    ghost use Rattle.node_local.specs.declared.changes.Change.TheVariants as Change;

    /// The value of a scalar, if there is one of that number.
    pub(crate) fn scalar(&self, scalar: u32) -> Option<i64>
        ensures { result ≡ slice_get self.now.scalars.items scalar }
    {
        self.scalars.as_slice().get(scalar as usize).copied()
    }

    /// The value of a cell, if there is one of that number.
    pub(crate) fn cell(&self, cell: u32) -> Option<i64>
        ensures { result ≡ slice_get self.now.cells.items cell }
    {
        self.cells.as_slice().get(cell as usize).copied()
    }

    /// The value of an array at a tuple, where its place is held.
    #[inline(always)]
    pub(crate) fn value_at(&self, array: u32, index: &Vec3) -> Option<i64>
        ensures { result ≡ value_at self.now.stores.items array index.now }
    {
        let store = self.stores.as_slice().get(array as usize)?;
        store.value_at(index)
    }

    /// The value of an array at a tuple moved by a vector, where its place is held.
    pub(crate) fn value_beside(&self, array: u32, index: &Vec3, shift: Vec3) -> Option<i64>
        ensures { result ≡ value_at self.now.stores.items array (moved_by shift index.now) }
    {
        let store = self.stores.as_slice().get(array as usize)?;
        store.value_beside(index, shift)
    }

    /// Puts a value at a tuple of an array, where its place is held. Answers the place in the
    /// array's row, and the value that was there.
    pub(crate) fn set_value(&mut self, array: u32, index: &Vec3, value: i64) -> Option<(usize, i64)>
        ensures held { with_value self.old.stores.items array index.now value
            ≡ option_map (λ old. self.new.stores.items) result }
        ensures back { IfSome result (λ old.
            taken_back (Change.Place array old.0 old.1) (point_in self.new) ≡ point_in self.old) }
        ensures stores { self.new ≡ record self.old { stores = self.new.stores } }
        ensures same { IfNone result (self.new.stores.items ≡ self.old.stores.items) }
    {
        let at = array as usize;
        if self.stores.len() <= at {
            return None;
        }
        let place = self.stores[at].place(index)?;
        let store = &mut self.stores[at];
        Some((place, store.replace(place, value)))
    }

    /// Takes a change back. A place that isn't there stays away.
    pub(crate) fn take_back(&mut self, change: Change)
        ensures { point_in self.new ≡ taken_back change (point_in self.old) }
    {
        match change {
            Change::Scalar(scalar, old) => put_back(self.scalars.as_mut_slice(), scalar, old),
            Change::Cell(cell, old) => put_back(self.cells.as_mut_slice(), cell, old),
            Change::Place(array, place, old) => {
                if array < self.stores.len() {
                    let store = &mut self.stores[array];
                    store.put_back(place, old);
                }
            }
        }
    }
}
