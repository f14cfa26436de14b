//! The layout of a program's stored arrays.
ghost use Rattle.std.specs.Prelude.{◌≡◌, ◌↔◌, IfOk, IsTrue};
ghost use Rattle.grid_meaning.specs.Stored.{arrangement_of};
ghost use Rattle.code_layout.specs.Room.{HasRoom};

use crate::boxes::boxes_of;
use crate::grids::grid_of;
use grid_layout::{Layout, LayoutFault};
use grid_meaning::node_form::NodeProgram;
use std::alloc::{AllocError, Global};

/// The layout of the program's stored arrays over its grid.
pub fn layout_of(alloc: Global, code: &NodeProgram) -> Result<Layout, AllocError>
    requires { HasRoom code.now }
    ensures { IfOk result (λ layout. layout ≡ arrangement_of code.now) }
{
    let tables = code.tables();
    let boxes = boxes_of(alloc, tables)?;
    match Layout::new(alloc, grid_of(&tables.grid), &boxes) {
        Ok(layout) => Ok(layout),
        Err(LayoutFault::NoMemory) => Err(AllocError),
        Err(LayoutFault::TooMuchStorage) => unreachable!(),
    }
}

/// Whether the processors of the grid have room for the program's stored arrays.
pub fn has_room(alloc: Global, code: &NodeProgram) -> Result<bool, AllocError>
    ensures { IfOk result (λ room. IsTrue room ↔ HasRoom code.now) }
{
    let tables = code.tables();
    let boxes = boxes_of(alloc, tables)?;
    match Layout::new(alloc, grid_of(&tables.grid), &boxes) {
        Ok(_) => Ok(true),
        Err(LayoutFault::TooMuchStorage) => Ok(false),
        Err(LayoutFault::NoMemory) => Err(AllocError),
    }
}
