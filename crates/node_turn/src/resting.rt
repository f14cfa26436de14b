//! Processors at rest.
ghost use Rattle.std.specs.Prelude.{◌≡◌, ◌<◌, Some};
ghost use Rattle.grid_meaning.specs.Collective.{Sends, TakesFrom, stage_of};
ghost use Rattle.grid_meaning.specs.Local.{processors};
ghost use Rattle.grid_meaning.specs.Stored.{arrangement_of};
ghost use Rattle.node_local.specs.Workplace.{IsReady};
ghost use Rattle.node_turn.specs.Turned.{is_resting, turn_over};
ghost use Rattle.row_turn.specs.Known.{Knows};
ghost use Rattle.row_turn.specs.Placed.{IsAtRow};
ghost use Rattle.row_turn.specs.Together.{IsTogether, OfRow};

use grid_layout::Layout;
use grid_links::Links;
use node_form::{Instr, NodeProgram, rows_fit};
use node_local::Local;
use node_loop::node_stages::{Partners, Stage};
use row_turn::{has_words, is_together, row_stage};

/// Whether a processor waits that has a message to send: the link is full, and the message's words
/// are there.
fn sender_rests(
    code: &NodeProgram,
    layout: &Layout,
    p: u32,
    local: &Local,
    links: &Links,
    row: &Instr,
    to: u32,
) -> bool
    requires layout { layout.now ≡ arrangement_of code.now }
    requires links { links.now.count ≡ processors code.now }
    requires together { IsTogether row.now }
    requires at { IsAtRow code.now p local.now row.now }
    requires stage { OfRow code.now p row.now (λ together.
        stage_of together local.now.local ≡ Some (Sends to)) }
    requires receiver { to < processors code.now }
    ensures { result ≡ is_resting (turn_over code.now p local.now.local links.now) }
{
    if links.has_room(p, to) {
        return false;
    }
    has_words(code, layout, p, local, row, to)
}

/// Whether a processor waits that awaits a message: there is none.
fn receiver_rests(
    code: &NodeProgram,
    p: u32,
    local: &Local,
    links: &Links,
    row: &Instr,
    from: u32,
) -> bool
    requires links { links.now.count ≡ processors code.now }
    requires together { IsTogether row.now }
    requires at { IsAtRow code.now p local.now row.now }
    requires stage { OfRow code.now p row.now (λ together.
        stage_of together local.now.local ≡ Some (TakesFrom from)) }
    requires sender { from < processors code.now }
    ensures { result ≡ is_resting (turn_over code.now p local.now.local links.now) }
{
    let _rows = code.tables().code.len();
    match links.head(from, p) {
        Some(_message) => false,
        None => true,
    }
}

/// Whether a processor waits at a row in which processors work together.
#[inline(never)]
fn rests_together(
    code: &NodeProgram,
    layout: &Layout,
    p: u32,
    local: &Local,
    links: &Links,
    row: &Instr,
    known: &Partners,
) -> bool
    requires layout { layout.now ≡ arrangement_of code.now }
    requires links { links.now.count ≡ processors code.now }
    requires together { IsTogether row.now }
    requires at { IsAtRow code.now p local.now row.now }
    requires known { Knows code.now p local.now.local known.now }
    ensures { result ≡ is_resting (turn_over code.now p local.now.local links.now) }
{
    match row_stage(code, layout, p, local, row, known) {
        Stage::Alone => false,
        Stage::Sends(to) => sender_rests(code, layout, p, local, links, row, to),
        Stage::TakesFrom(from) => receiver_rests(code, p, local, links, row, from),
        Stage::Last => false,
    }
}

/// Whether the next turn of processor p changes nothing, and it isn't stuck: it waits, or it has
/// ended. It takes no memory.
#[inline(always)]
pub fn rests(
    code: &NodeProgram,
    layout: &Layout,
    p: u32,
    local: &Local,
    links: &Links,
    known: &Partners,
) -> bool
    requires layout { layout.now ≡ arrangement_of code.now }
    requires processor { p < processors code.now }
    requires ready { IsReady code.now p local.now }
    requires links { links.now.count ≡ processors code.now }
    requires known { Knows code.now p local.now.local known.now }
    ensures { result ≡ is_resting (turn_over code.now p local.now.local links.now) }
{
    if local.ending().is_some() {
        return true;
    }
    rows_fit();
    let Some(row) = code.tables().code.get(local.at()) else {
        return false;
    };
    if is_together(row) {
        rests_together(code, layout, p, local, links, row, known)
    } else {
        false
    }
}
