//! Moves that print.
ghost use Rattle.std.specs.Prelude.{◌≡◌, ℕ, List};
ghost use Rattle.grid_meaning.specs.Action.{goes_on};
ghost use Rattle.grid_meaning.specs.Stored.{arrangement_of};
ghost use Rattle.node_local.specs.Workplace.{IsReady};
ghost use Rattle.node_turn.specs.Turned.{IsPrinting};

use crate::silent::see_three;
use grid_layout::Layout;
use grid_meaning::states_are_kept;
use node_form::NodeProgram;
use node_local::Local;

/// Makes the move of processor p that [`turn_of`](crate::turn_of) answered with bytes to be
/// printed. It takes no memory.
pub fn printed(code: &NodeProgram, _layout: &Layout, p: u32, local: &mut Local)
    requires layout { _layout.now ≡ arrangement_of code.now }
    requires ready { IsReady code.now p local.old }
    requires prints { (bytes : List ℕ) × IsPrinting code.now p bytes local.old.local }
    ensures made { local.new ≡ record local.old { local = goes_on local.old.local } }
    ensures ready { IsReady code.now p local.new }
{
    states_are_kept();
    let _rows = code.tables().code.len();
    see_three(code, code.tables().code.get(local.at()).unwrap());
    local.go_on();
}
