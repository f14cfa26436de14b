//! Rows that change all places of an array.
ghost use Rattle.std.specs.Prelude.{◌≡◌, ◌<◌, length, All, OnErr, OnOk, Some, slice_get};
ghost use Rattle.grid_meaning.specs.of_zpl_region.Hull.{IsBoxed};
ghost use Rattle.grid_meaning.specs.of_zpl_arrays.Array.{Array};
ghost use Rattle.grid_meaning.specs.of_grid_layout.Layout.{HasWideBounds};
ghost use Rattle.grid_meaning.specs.Room.{with_store, zeros_at};

use crate::locals::Local;
use crate::stores::FlatStore;
use grid_meaning::zpl_region::Region;
use std::alloc::{AllocError, Global};

impl Local {
    /// Gives an array other places, with 0 at each. For want of memory nothing changes.
    pub fn make_places(
        &mut self,
        alloc: Global,
        array: u32,
        places: Region,
    ) -> Result<(), AllocError>
        requires there { array < length self.old.local.stores }
        requires boxed { All IsBoxed places.dims }
        requires bounds { All HasWideBounds places.dims }
        ensures made { OnOk result (self.new ≡ record self.old {
          local = with_store self.old.local array (zeros_at places);
        }) }
        ensures same { OnErr result (self.new ≡ self.old) }
    {
        let store = FlatStore::zeros(alloc, places)?;
        self.memory.stores[array as usize] = store;
        Ok(())
    }

    /// Sets the values of an array to 0 at all its places. It takes no memory.
    pub fn clear_values(&mut self, array: u32)
        requires { array < length self.old.local.stores }
        ensures { (store : Array) → slice_get self.old.local.stores array ≡ Some store
            → self.new ≡ record self.old {
              local = with_store self.old.local array (zeros_at store.storage);
            } }
    {
        let store = &mut self.memory.stores[array as usize];
        store.clear();
    }
}
