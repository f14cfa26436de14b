//! The links of a network of processes.
ghost use Rattle.std.specs.Prelude.{◌≡◌, ◌≤◌, ◌+◌, ◌*◌, None, Some, [], length, map, replicate};
ghost use Rattle.std.specs.Prelude.{IfErr, IfOk, OnErr, OnOk, option_copied, slice_get, true};
ghost use Rattle.grid_links.specs.Links.{has_room, IsWithin};
ghost use Rattle.grid_links.specs.Network.{empty_network, HasLink, HasRoom, link, sending, taking};

use crate::messages::Message;
use std::alloc::{AllocError, Global};
use std::collections::VecDeque;
use std::marker::Model;

/// Links from each of so many processes to each, the one to itself included. A link is a list of
/// messages, the oldest first, of any length or of at most a capacity that is the same for all.
#[derive(Drop)]
pub struct Links {
    count: u32,
    capacity: Option<u32>,
    queues: Vec<VecDeque<Message>>,
}

impl Model for Links {
    ghost use Rattle.grid_links.specs.Network.{IsNetwork, Network};

    ghost Value = { Network };

    ghost use Rattle.grid_links.specs.Inside.{network_of};

    ghost view = { network_of };

    ghost invariant = { λ a. IsNetwork (network_of a) };
}

/// So many queues with nothing in them.
fn empty_queues(alloc: Global, many: usize) -> Result<Vec<VecDeque<Message>>, AllocError>
    ensures { IfOk result (λ queues. map (λ queue. queue.items) queues.items ≡ replicate many []) }
{
    let mut queues = Vec::with_capacity(alloc, many)?;
    for _place in 0..many {
        queues.push(VecDeque::new(alloc))?;
    }
    Ok(queues)
}

impl Links {
    /// Links that hold any number of messages, for `count` processes. None is on its way.
    pub fn new(alloc: Global, count: u32) -> Result<Links, AllocError>
        ensures { IfOk result (λ links. links ≡ empty_network count None) }
    {
        let queues = empty_queues(alloc, count as usize * count as usize)?;
        Ok(Links {
            count,
            capacity: None,
            queues,
        })
    }

    /// Links that hold at most `capacity` messages each, for `count` processes. None is on its way.
    pub fn bounded(alloc: Global, count: u32, capacity: u32) -> Result<Links, AllocError>
        requires { 1 ≤ capacity }
        ensures { IfOk result (λ links. links ≡ empty_network count (Some capacity)) }
    {
        let queues = empty_queues(alloc, count as usize * count as usize)?;
        Ok(Links {
            count,
            capacity: Some(capacity),
            queues,
        })
    }

    /// The place of a link in `queues`.
    fn place(&self, from: u32, to: u32) -> usize
        requires { HasLink self.now from to }
        ensures { result ≡ from * self.now.count + to }
    {
        from as usize * self.count as usize + to as usize
    }

    /// Whether the link from a process to another holds fewer messages than its capacity.
    pub fn has_room(&self, from: u32, to: u32) -> bool
        requires { HasLink self.now from to }
        ensures { result ≡ has_room self.now.capacity (link self.now from to) }
    {
        let queue = &self.queues[self.place(from, to)];
        match self.capacity {
            None => true,
            Some(capacity) => queue.len() < capacity as usize,
        }
    }

    /// Puts a message at the end of the link from a process to another. For want of memory it comes
    /// back, and nothing changes.
    pub fn send(
        &mut self,
        _alloc: Global,
        from: u32,
        to: u32,
        message: Message,
    ) -> Result<(), Message>
        requires link { HasLink self.old from to }
        requires room { HasRoom self.old from to }
        ensures sent { OnOk result (self.new ≡ sending self.old from to message) }
        ensures kept { OnErr result (self.new ≡ self.old) }
        ensures back { IfErr result (λ back. back ≡ message) }
    {
        let place = self.place(from, to);
        let queue = &mut self.queues[place];
        if let Err(failed) = queue.push_back(message) {
            return Err(failed.value);
        }
        Ok(())
    }

    /// The oldest message on the link from a process to another; none exactly where the link is
    /// empty.
    pub fn head(&self, from: u32, to: u32) -> Option<&Message>
        requires { HasLink self.now from to }
        ensures { option_copied result ≡ slice_get (link self.now from to) 0 }
    {
        self.queues[self.place(from, to)].front()
    }

    /// Takes the oldest message off the link from a process to another; none exactly where the link
    /// is empty.
    pub fn take(&mut self, from: u32, to: u32) -> Option<Message>
        requires { HasLink self.old from to }
        ensures head { result ≡ slice_get (link self.old from to) 0 }
        ensures taken { self.new ≡ taking self.old from to }
    {
        let place = self.place(from, to);
        let queue = &mut self.queues[place];
        queue.pop_front()
    }

    /// How many messages are on the link from a process to another: at most its capacity.
    pub fn length(&self, from: u32, to: u32) -> u64
        requires { HasLink self.now from to }
        ensures exact { result ≡ length (link self.now from to) }
        ensures within { IsWithin self.now.capacity (link self.now from to) }
    {
        self.queues[self.place(from, to)].len() as u64
    }

    /// The message number `k` of the link from a process to another, counted from the oldest as 0;
    /// none exactly from the link's length on.
    pub fn nth(&self, from: u32, to: u32, k: u64) -> Option<&Message>
        requires { HasLink self.now from to }
        ensures { option_copied result ≡ slice_get (link self.now from to) k }
    {
        self.queues[self.place(from, to)].get(k as usize)
    }
}
