//! The states of a grid and its links, from what was read.
ghost use Rattle.std.specs.Prelude.{◌≡◌, ◌<◌, IfOk, None, OnOk, length, map};
ghost use Rattle.grid_links.specs.Network.{HasLink, empty_network, sending};
ghost use Rattle.save_reading.specs.Sent.{sent_pair};
ghost use Rattle.save_texts.specs.Links.{AreTo, EachTo, sending_all, sending_each, sent_in};
ghost use Rattle.save_texts.specs.Links.{workplace_in};

use grid_links::Links;
use grid_sim::Locals;
use save_reading::Sent;
use state_reading::ReadState;
use std::alloc::{AllocError, Global};

/// Puts a message on its link.
fn send_one(alloc: Global, links: &mut Links, from: u32, sent: Sent) -> Result<(), AllocError>
    requires link { HasLink links.old from sent.to }
    requires unbounded { links.old.capacity ≡ None }
    ensures { OnOk result (links.new ≡ sending links.old from sent.to sent.message) }
{
    let Sent { to, message } = sent;
    match links.send(alloc, from, to, message) {
        Ok(()) => Ok(()),
        Err(_) => Err(AllocError),
    }
}

/// Puts a sender's messages on their links, one after another.
fn send_all(alloc: Global, links: &mut Links, from: u32, sents: Vec<Sent>) -> Result<(), AllocError>
    requires from { from < links.old.count }
    requires unbounded { links.old.capacity ≡ None }
    requires receivers { AreTo links.old.count (map sent_pair sents.items) }
    ensures { OnOk result (links.new
        ≡ sending_all from (map sent_pair sents.items) links.old) }
{
    for sent in sents {
        send_one(alloc, links, from, sent)?;
    }
    Ok(())
}

/// The states of so many processors, and their links with the messages that were sent.
pub(crate) fn place_states(
    alloc: Global,
    count: u32,
    states: Vec<ReadState>,
) -> Result<(Locals, Links), AllocError>
    requires many { length states.items ≡ count }
    requires receivers { EachTo count (map sent_in states.items) }
    ensures locals { IfOk result (λ placed. placed.0 ≡ map workplace_in states.items) }
    ensures links { IfOk result (λ placed. placed.1
        ≡ sending_each 0 (map sent_in states.items) (empty_network count None)) }
{
    let mut locals = Locals::new(alloc);
    let mut links = Links::new(alloc, count)?;
    let mut from = 0;
    for state in states {
        let ReadState { local, sent } = state;
        send_all(alloc, &mut links, from, sent)?;
        locals.push(alloc, local)?;
        from += 1;
    }
    Ok((locals, links))
}
