//! Turns.
ghost use Rattle.std.specs.Prelude.{◌≡◌, ◌<◌, IfOk, OnErr};
ghost use Rattle.grid_meaning.specs.Local.{processors};
ghost use Rattle.grid_meaning.specs.Stored.{arrangement_of};
ghost use Rattle.node_local.specs.Workplace.{IsReady};
ghost use Rattle.node_turn.specs.Turned.{IsTurn, turn_over};
ghost use Rattle.row_turn.specs.Known.{Knows};

use crate::silent::{end_step, own_step};
use crate::steps::Step;
use crate::together::together_turn;
use grid_layout::Layout;
use grid_links::Links;
use node_form::{NodeProgram, rows_fit};
use node_local::Local;
use node_loop::node_stages::Partners;
use row_turn::{is_together, leave_partners};
use std::alloc::{AllocError, Global};

/// Gives processor p a turn. A move is made, unless it prints: then its bytes are answered, and
/// [`printed`](crate::printed) makes it. What is known of the processor's partners in exchanges
/// is used, and kept up with the turn. For want of memory nothing changes but that.
pub fn turn_of(
    alloc: Global,
    code: &NodeProgram,
    layout: &Layout,
    p: u32,
    local: &mut Local,
    links: &mut Links,
    known: &mut Partners,
) -> Result<Step, AllocError>
    requires layout { layout.now ≡ arrangement_of code.now }
    requires processor { p < processors code.now }
    requires ready { IsReady code.now p local.old }
    requires links { links.old.count ≡ processors code.now }
    requires known { Knows code.now p local.old.local known.old }
    ensures turn { IfOk result (IsTurn code.now p local.old local.new links.old links.new
        (turn_over code.now p local.old.local links.old)) }
    ensures known { Knows code.now p local.new.local known.new }
    ensures kept { OnErr result (local.new ≡ local.old) }
    ensures links_kept { OnErr result (links.new ≡ links.old) }
{
    if local.ending().is_some() {
        return Ok(Step::Over);
    }
    rows_fit();
    let Some(row) = code.tables().code.get(local.at()) else {
        leave_partners(known);
        return Ok(end_step(code, p, local));
    };
    if is_together(row) {
        together_turn(alloc, code, layout, p, local, links, row, known)
    } else {
        leave_partners(known);
        own_step(alloc, code, layout, p, local, row)
    }
}
