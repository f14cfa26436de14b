//! Steps along a row.
ghost use Rattle.std.specs.Prelude.{◌≡◌, ◌<◌, ◌↔◌, IsTrue, length, Some};
ghost use Rattle.grid_meaning.specs.Collective.{stage_of};
ghost use Rattle.grid_meaning.specs.Stored.{arrangement_of};
ghost use Rattle.node_stages.specs.Stage.{staged};
ghost use Rattle.row_turn.specs.Together.{OfRow};
ghost use Rattle.row_progress.specs.Walk.{IsAlong, IsAtStart};

use crate::keepers::{is_keeper, keeper_stage};
use grid_layout::Layout;
use node_form::{Instr, NodeProgram};
use node_local::Local;
use node_stages::{Partners, Stage};
use row_turn::row_stage;

/// What processor p does in its next turn of a row, of whose words none are kept.
pub(crate) fn next_stage(
    code: &NodeProgram,
    layout: &Layout,
    p: u32,
    local: &Local,
    row: &Instr,
) -> Stage
    requires layout { layout.now ≡ arrangement_of code.now }
    requires along { IsAlong code.now p local.now row.now }
    ensures { OfRow code.now p row.now (λ together.
        stage_of together local.now.local ≡ Some (staged result)) }
{
    if is_keeper(row) {
        keeper_stage(code, layout, p, local, row)
    } else {
        row_stage(code, layout, p, local, row, &Partners::unknown())
    }
}

/// Whether a row has more turns than these, where no words are kept.
pub(crate) fn is_under(
    code: &NodeProgram,
    layout: &Layout,
    p: u32,
    local: &mut Local,
    row: &Instr,
    most: u64,
) -> bool
    requires layout { layout.now ≡ arrangement_of code.now }
    requires start { IsAtStart code.now p local.old row.now }
    ensures under { OfRow code.now p row.now (λ together.
        IsTrue result ↔ (most < length (together.stages local.old.local))) }
    ensures same { local.new ≡ local.old }
{
    for k in 0..most {
        let stage = next_stage(code, layout, p, local, row);
        if let Stage::Last = stage {
            local.go_to(local.at());
            return false;
        }
        local.count_turn();
    }
    local.go_to(local.at());
    true
}
