//! Messages on their way.
ghost use Rattle.std.specs.Prelude.{◌≡◌, ◌+◌, ◌*◌, ◌<◌, [], IfOk, OnErr, OnOk, map, option_copied};
ghost use Rattle.std.specs.Prelude.{replicate, slice_get};
ghost use Rattle.grid_timetable.specs.Mail.{HasLink, link, no_mail, sending, taking};

use crate::places::Place;
use std::alloc::{AllocError, Global};
use std::collections::VecDeque;
use std::marker::Model;

/// The messages on the links between so many processors, each told by the move that sent it, the
/// oldest first.
#[derive(Drop)]
pub(crate) struct Mail {
    count: u32,
    queues: Vec<VecDeque<Place>>,
}

impl Model for Mail {
    ghost use Rattle.grid_timetable.specs.Mail.{IsPost, Post};

    ghost Value = { Post };

    ghost use Rattle.grid_timetable.specs.Post.{post_of};

    ghost view = { post_of };

    ghost invariant = { λ a. IsPost (post_of a) };
}

/// So many queues with nothing in them.
fn empty_queues(alloc: Global, many: usize) -> Result<Vec<VecDeque<Place>>, AllocError>
    ensures { IfOk result (λ queues. map (λ queue. queue.items) queues.items ≡ replicate many []) }
{
    let mut queues = Vec::with_capacity(alloc, many)?;
    for _place in 0..many {
        queues.push(VecDeque::new(alloc))?;
    }
    Ok(queues)
}

impl Mail {
    /// No message is on its way.
    pub(crate) fn new(alloc: Global, count: u32) -> Result<Mail, AllocError>
        ensures { IfOk result (λ mail. mail ≡ no_mail count) }
    {
        let queues = empty_queues(alloc, count as usize * count as usize)?;
        Ok(Mail { count, queues })
    }

    /// The place of a link in `queues`.
    fn place(&self, from: u32, to: u32) -> usize
        requires { HasLink self.now from to }
        ensures { result ≡ from * self.now.count + to }
    {
        from as usize * self.count as usize + to as usize
    }

    /// The move that sent the oldest message of the link, where there is one.
    pub(crate) fn head(&self, from: u32, to: u32) -> Option<&Place>
        requires { HasLink self.now from to }
        ensures { option_copied result ≡ slice_get (link self.now from to) 0 }
    {
        self.queues[self.place(from, to)].front()
    }

    /// A message more at the end of a link.
    pub(crate) fn send(&mut self, from: u32, to: u32, sender: Place) -> Result<(), AllocError>
        requires { HasLink self.old from to }
        ensures sent { OnOk result (self.new ≡ sending self.old from to sender) }
        ensures kept { OnErr result (self.new ≡ self.old) }
    {
        let place = self.place(from, to);
        let queue = &mut self.queues[place];
        if let Err(_full) = queue.push_back(sender) {
            return Err(AllocError);
        }
        Ok(())
    }

    /// The oldest message of the link is gone, if there is one.
    pub(crate) fn take(&mut self, from: u32, to: u32)
        requires { HasLink self.old from to }
        ensures { self.new ≡ taking self.old from to }
    {
        let place = self.place(from, to);
        let queue = &mut self.queues[place];
        let _ = queue.pop_front();
    }
}
