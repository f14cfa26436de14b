//! A processor at the beginning of its row.
ghost use Rattle.std.specs.Prelude.{◌≡◌, ◌<◌, IfOk};
ghost use Rattle.grid_meaning.specs.Local.{processors};
ghost use Rattle.grid_meaning.specs.Stored.{arrangement_of};
ghost use Rattle.node_local.specs.Standing.{standing_local};
ghost use Rattle.row_progress.specs.Begun.{AreTold, IsBegun, stands};

use grid_layout::Layout;
use node_form::{NodeProgram, rows_fit};
use node_local::{Local, Standing};
use std::alloc::{AllocError, Global};

/// A processor of which this was told, at the beginning of its row: no turns are made there, no
/// indices are done, and no words are kept.
pub fn begun(
    alloc: Global,
    code: &NodeProgram,
    layout: &Layout,
    p: u32,
    standing: Standing,
) -> Result<Local, AllocError>
    requires layout { layout.now ≡ arrangement_of code.now }
    requires processor { p < processors code.now }
    requires told { AreTold code.now p (standing_local standing) }
    ensures begun { IfOk result (IsBegun code.now p) }
    ensures values { IfOk result (λ begun. stands begun.local (record {
      made = standing.made;
      index = standing.index;
      member = standing.member;
    }) ≡ standing_local standing) }
{
    rows_fit();
    let _fits = code.tables();
    let first = Standing {
        at: standing.at,
        made: 0,
        index: 0,
        member: 0,
        flag: standing.flag,
        ended: standing.ended,
        scalars: standing.scalars,
        slots: standing.slots,
        cells: standing.cells,
        stores: standing.stores,
        kept: standing.kept,
    };
    Local::restore(alloc, code, layout, p, first)
}
