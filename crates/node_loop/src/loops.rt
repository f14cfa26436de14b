//! Turns of `loop`.
ghost use Rattle.std.specs.Prelude.{◌≡◌, ◌<◌, ◌+◌, ◌^◌, slice_get};
ghost use Rattle.grid_meaning.specs.Local.{processors};
ghost use Rattle.grid_meaning.specs.Loop.{looped};
ghost use Rattle.grid_meaning.specs.Stored.{arrangement_of};
ghost use Rattle.node_local.specs.Workplace.{IsReady};
ghost use Rattle.node_loop.specs.LocalTurn.{StaysWhereStuck, turned};

use crate::indices::nth;
use crate::turns::{LocalTurn, turn_at};
use grid_layout::Layout;
use node_form::NodeProgram;
use node_local::Local;
use node_stages::own_tuples;

/// One turn of `loop` on processor p: what the members of a group do at one index of its own part
/// of the slot's region. Behind the last index the row is left. Where the processor is stuck it
/// stays as it was.
pub fn loop_turn(
    local: &mut Local,
    code: &NodeProgram,
    layout: &Layout,
    p: u32,
    slot: u32,
    group: u32,
) -> LocalTurn
    requires layout { layout.now ≡ arrangement_of code.now }
    requires processor { p < processors code.now }
    requires ready { IsReady code.now p local.old }
    requires next { local.old.local.at + 1 < 2 ^ 64 }
    ensures turn { looped code.now p local.old.local
        (slice_get local.old.local.slots slot) (slice_get code.now.groups group)
        ≡ turned result local.new.local }
    ensures same { local.new ≡ record local.old { local = local.new.local } }
    ensures stuck { StaysWhereStuck result local.old local.new }
{
    let tables = code.tables();
    let Some(region) = local.slots().get(slot as usize) else {
        return LocalTurn::Undefined;
    };
    let Some(members) = tables.groups.get(u64::from(group)) else {
        return LocalTurn::Undefined;
    };
    let own = own_tuples(code, layout, region, p);
    match &nth(&own, local.index()) {
        Some(index) => turn_at(local, tables, index, members.as_slice()),
        None => {
            local.go_on();
            LocalTurn::Moves
        }
    }
}
