//! Sending where there is room.
ghost use Rattle.std.specs.Prelude.{◌≡◌};
ghost use Rattle.grid_links.specs.Network.{HasLink};

use grid_links::{Links, Message};
use std::alloc::Global;

/// Sends a message, or lets it go where the link is full, and tells which. For want of memory it
/// comes back.
pub fn send_where_room(
    links: &mut Links,
    alloc: Global,
    from: u32,
    to: u32,
    message: Message,
) -> Result<bool, Message>
    requires { HasLink links.old from to }
    ensures { links.new.count ≡ links.old.count }
{
    if !links.has_room(from, to) {
        return Ok(false);
    }
    links.send(alloc, from, to, message)?;
    Ok(true)
}
