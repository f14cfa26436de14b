//! Writing grids.
ghost use Rattle.std.specs.Prelude.{◌≡◌, ◌<◌, ◌++◌, ℕ, OnErr, OnOk, Some, map, slice_get};
ghost use Rattle.std.specs.Fmt.{decimal};
ghost use Rattle.std.specs.Option.{option_copied};
ghost use Rattle.grid_links.specs.Links.{link_of};
ghost use Rattle.grid_meaning.specs.Local.{Local, processors};
ghost use Rattle.grid_save.specs.Onward.{CanBeSaved, MayBe};
ghost use Rattle.grid_save.specs.Saved.{IsSaveable};
ghost use Rattle.grid_save.specs.Writing.{Writes};
ghost use Rattle.grid_save.specs.Written.{counts_text, found_lines, grid_lines, message_line};
ghost use Rattle.grid_save.specs.Written.{message_lines, save_text, state_lines};

use crate::parts::{message_line, traps_have_lines};
use crate::states::add_local;
use grid_links::Message;
use grid_sim::{Counts, Sim};
use itoa::Buffer;
use listing_rows::write_listing;
use save_lines::write_line;
use std::alloc::{AllocError, Global};

/// Appends the grid's saved text. Where memory runs out nothing is appended; so it is where a
/// number is none of 64 bits, or an array's none of 32, as of code that no memory holds.
pub fn write_save(alloc: Global, sim: &Sim, into: &mut Vec<u8>) -> Result<(), AllocError>
    ensures ok { OnOk result (into.new.items
        ≡ into.old.items ++ save_text sim.now.code sim.now.grid) }
    ensures saveable { OnOk result (CanBeSaved sim.now.code sim.now.grid
        → IsSaveable sim.now.code sim.now.grid) }
    ensures err { OnErr result (into.new.items ≡ into.old.items) }
{
    states_may_be(sim);
    let mut text = Vec::new(alloc);
    text.extend_from_slice(b"zplsave 1\n")?;
    add_counts(&sim.counts(), &mut text)?;
    write_listing(alloc, sim.code(), &mut text)?;
    add_states(alloc, sim, &mut text)?;
    into.extend_from_slice(&text)
}

fn add_decimal(number: u128, text: &mut Vec<u8>) -> Result<(), AllocError>
    ensures { OnOk result (text.new.items ≡ text.old.items ++ decimal number) }
{
    let mut buffer = Buffer::new();
    text.extend_from_slice(buffer.format(number).as_bytes())
}

fn add_counts(counts: &Counts, text: &mut Vec<u8>) -> Result<(), AllocError>
    ensures { OnOk result (text.new.items
        ≡ text.old.items ++ counts_text counts.now.turns counts.now.sends counts.now.words) }
{
    text.extend_from_slice(b"counts ")?;
    add_decimal(u128::from(counts.turns), text)?;
    text.extend_from_slice(b" ")?;
    add_decimal(u128::from(counts.sends), text)?;
    text.extend_from_slice(b" ")?;
    add_decimal(counts.words, text)?;
    text.extend_from_slice(b"\n")
}

/// A law: each processor is in a state that it may have, and the line of its trap is of 32 bits.
fn states_may_be(sim: &Sim)
    ensures { (p : ℕ) (local : Local) → p < processors sim.now.code →
        slice_get sim.now.grid.world.locals p ≡ Some local → MayBe sim.now.code p local }
{
    for p in 0..sim.processors() {
        traps_have_lines(sim.local(p).ending());
    }
}

/// Appends the lines of all processors.
fn add_states(alloc: Global, sim: &Sim, text: &mut Vec<u8>) -> Result<(), AllocError>
    ensures { OnOk result (Writes text.old.items (grid_lines sim.now.code sim.now.grid)
        text.new.items) }
{
    for p in 0..sim.processors() {
        add_state(alloc, sim, p, text)?;
    }
    Ok(())
}

fn add_state(alloc: Global, sim: &Sim, p: u32, text: &mut Vec<u8>) -> Result<(), AllocError>
    requires { p < processors sim.now.code }
    ensures { OnOk result (Writes text.old.items
        (state_lines sim.now.code sim.now.grid.world.links p
        (slice_get sim.now.grid.world.locals p)) text.new.items) }
{
    add_local(alloc, sim.code(), sim.processors(), p, sim.local(p), text)?;
    add_messages(alloc, sim, p, text)
}

/// Appends the lines of the messages that a processor sent.
fn add_messages(alloc: Global, sim: &Sim, p: u32, text: &mut Vec<u8>) -> Result<(), AllocError>
    requires { p < processors sim.now.code }
    ensures { OnOk result (Writes text.old.items
        (message_lines sim.now.code sim.now.grid.world.links p) text.new.items) }
{
    for q in 0..sim.processors() {
        add_link(alloc, sim, p, q, text)?;
    }
    Ok(())
}

/// Appends the lines of the messages on a link, the oldest first.
fn add_link(alloc: Global, sim: &Sim, p: u32, q: u32, text: &mut Vec<u8>) -> Result<(), AllocError>
    requires from { p < processors sim.now.code }
    requires to { q < processors sim.now.code }
    ensures { OnOk result (Writes text.old.items (map (message_line q)
        (link_of (processors sim.now.code) sim.now.grid.world.links p q)) text.new.items) }
{
    for k in 0..sim.links().length(p, q) {
        add_message(alloc, q, sim.links().nth(p, q, k), text)?;
    }
    Ok(())
}

/// Appends the line of a message to this processor, if there is one.
fn add_message(
    alloc: Global,
    to: u32,
    found: Option<&Message>,
    text: &mut Vec<u8>,
) -> Result<(), AllocError>
    ensures { OnOk result (Writes text.old.items
        (found_lines (message_line to) (option_copied found.entry)) text.new.items) }
{
    match found {
        Some(message) => write_line(&message_line(alloc, to, message)?, text),
        None => Ok(()),
    }
}
