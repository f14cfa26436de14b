//! Turns in rows in which processors work together.
ghost use Rattle.std.specs.Prelude.{◌≡◌, ◌+◌, ◌<◌, ◌^◌, IfOk, OnErr, Some};
ghost use Rattle.grid_meaning.specs.Collective.{Sends, TakesFrom, stage_of};
ghost use Rattle.grid_meaning.specs.Local.{processors};
ghost use Rattle.grid_meaning.specs.Stored.{arrangement_of};
ghost use Rattle.node_turn.specs.Turned.{IsTurn, turn_over};
ghost use Rattle.row_turn.specs.Known.{Knows};
ghost use Rattle.row_turn.specs.Placed.{IsAtRow, StaysAtRow};
ghost use Rattle.row_turn.specs.Together.{IsTogether, OfRow};

use crate::silent::{alone_step, last_step, see_three};
use crate::steps::{Step, StuckKind, Traffic};
use grid_layout::Layout;
use grid_links::Links;
use grid_meaning::states_are_kept;
use node_form::{Instr, NodeProgram};
use node_local::Local;
use node_loop::node_stages::{Partners, Stage};
use row_turn::{Receipt, learn_partners, leave_partners, message_for, row_stage, take_message};
use std::alloc::{AllocError, Global};

/// The turn of a processor that sends a message: it waits where the link is full, and is stuck
/// where a place isn't held that the words need. For want of memory nothing changes.
fn send_step(
    alloc: Global,
    code: &NodeProgram,
    layout: &Layout,
    p: u32,
    local: &mut Local,
    links: &mut Links,
    row: &Instr,
    to: u32,
) -> Result<Step, AllocError>
    requires layout { layout.now ≡ arrangement_of code.now }
    requires links { links.old.count ≡ processors code.now }
    requires together { IsTogether row.now }
    requires at { IsAtRow code.now p local.old row.now }
    requires stage { OfRow code.now p row.now (λ together.
        stage_of together local.old.local ≡ Some (Sends to)) }
    requires receiver { to < processors code.now }
    requires few { local.old.local.made + 1 < 2 ^ 64 }
    ensures turn { IfOk result (IsTurn code.now p local.old local.new links.old links.new
        (turn_over code.now p local.old.local links.old)) }
    ensures row { StaysAtRow local.old local.new }
    ensures kept { OnErr result (local.new ≡ local.old) }
    ensures links_kept { OnErr result (links.new ≡ links.old) }
{
    states_are_kept();
    let _fits = code.tables();
    see_three(code, row);
    let Some(message) = message_for(alloc, code, layout, p, local, row, to)? else {
        return Ok(Step::Stuck(StuckKind::Unheld));
    };
    if !links.has_room(p, to) {
        return Ok(Step::Waiting);
    }
    let words = message.words.as_slice().len() as u64;
    if links.send(alloc, p, to, message).is_err() {
        return Err(AllocError);
    }
    local.count_turn();
    Ok(Step::Moved(Traffic::Sent { to, words }))
}

/// The turn of a processor that takes a message: it waits where there is none, and is stuck with
/// one that it can't take, which stays on its link. For want of memory nothing changes.
fn take_step(
    alloc: Global,
    code: &NodeProgram,
    layout: &Layout,
    p: u32,
    local: &mut Local,
    links: &mut Links,
    row: &Instr,
    from: u32,
) -> Result<Step, AllocError>
    requires layout { layout.now ≡ arrangement_of code.now }
    requires links { links.old.count ≡ processors code.now }
    requires together { IsTogether row.now }
    requires at { IsAtRow code.now p local.old row.now }
    requires stage { OfRow code.now p row.now (λ together.
        stage_of together local.old.local ≡ Some (TakesFrom from)) }
    requires sender { from < processors code.now }
    requires few { local.old.local.made + 1 < 2 ^ 64 }
    ensures turn { IfOk result (IsTurn code.now p local.old local.new links.old links.new
        (turn_over code.now p local.old.local links.old)) }
    ensures row { StaysAtRow local.old local.new }
    ensures kept { OnErr result (local.new ≡ local.old) }
    ensures links_kept { OnErr result (links.new ≡ links.old) }
{
    states_are_kept();
    let _fits = code.tables();
    let Some(message) = links.head(from, p) else {
        return Ok(Step::Waiting);
    };
    match take_message(alloc, code, layout, p, local, row, from, message)? {
        Receipt::Tag => Ok(Step::Stuck(StuckKind::Tag)),
        Receipt::Length => Ok(Step::Stuck(StuckKind::Length)),
        Receipt::Unheld => Ok(Step::Stuck(StuckKind::Unheld)),
        Receipt::Accepted => {
            let _message = links.take(from, p);
            Ok(Step::Moved(Traffic::Took { from }))
        }
    }
}

/// The turn of a processor at a row in which processors work together. For want of memory nothing
/// changes but what is known of its partners.
pub(crate) fn together_turn(
    alloc: Global,
    code: &NodeProgram,
    layout: &Layout,
    p: u32,
    local: &mut Local,
    links: &mut Links,
    row: &Instr,
    known: &mut Partners,
) -> Result<Step, AllocError>
    requires layout { layout.now ≡ arrangement_of code.now }
    requires links { links.old.count ≡ processors code.now }
    requires together { IsTogether row.now }
    requires at { IsAtRow code.now p local.old row.now }
    requires known { Knows code.now p local.old.local known.old }
    ensures turn { IfOk result (IsTurn code.now p local.old local.new links.old links.new
        (turn_over code.now p local.old.local links.old)) }
    ensures known { Knows code.now p local.new.local known.new }
    ensures kept { OnErr result (local.new ≡ local.old) }
    ensures links_kept { OnErr result (links.new ≡ links.old) }
{
    if !known.are_known() {
        learn_partners(code, layout, p, local, row, known);
    }
    match row_stage(code, layout, p, local, row, known) {
        Stage::Alone => {
            leave_partners(known);
            alone_step(alloc, code, layout, p, local, row)
        }
        Stage::Sends(to) => send_step(alloc, code, layout, p, local, links, row, to),
        Stage::TakesFrom(from) => take_step(alloc, code, layout, p, local, links, row, from),
        Stage::Last => {
            leave_partners(known);
            last_step(alloc, code, layout, p, local, row)
        }
    }
}
