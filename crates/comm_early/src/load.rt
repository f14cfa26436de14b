//! How many exchanges are open in a stretch, and where links hold no more.
ghost use Rattle.std.specs.Prelude.{◌<◌, ◌^◌, ℕ, OnOk};
ghost use Rattle.last_writes.specs.Last.{noted};
ghost use Rattle.comm_early.specs.Place.{IsFilled, IsFinished, IsLoaded, IsNewLoad, IsStarted};

use last_writes::Noted;
use last_writes::node_form::Instr;
use std::alloc::{AllocError, Global};

/// The exchanges that are open behind the rows of a stretch, and the finishes that starts don't
/// cross, since links would hold too many messages.
#[derive(Drop)]
pub struct Load {
    /// The most messages on a link, where that is bounded.
    pub links: Option<u32>,
    /// How often each exchange is open.
    pub times: Noted,
    /// How many are open.
    pub opened: u64,
    /// How many were started.
    pub starts: u64,
    /// The last finish that the next start doesn't cross, numbered from 1, or 0.
    pub full: u64,
    /// The last finish that no start from a number on crosses, for each later number.
    pub later: Noted,
}

impl Load {
    /// Nothing is open. It takes no memory.
    pub fn new(alloc: Global, links: Option<u32>) -> Load
        ensures { IsNewLoad links result }
    {
        Load {
            links,
            times: Noted::new(alloc),
            opened: 0,
            starts: 0,
            full: 0,
            later: Noted::new(alloc),
        }
    }

    /// Notes a row.
    pub fn note(&mut self, row: Instr, number: u64) -> Result<(), AllocError>
        requires opened { self.old.opened < 2 ^ 32 }
        requires starts { self.old.starts < 2 ^ 32 }
        requires times { (exchange : ℕ) → noted self.old.times exchange < 2 ^ 32 }
        ensures { OnOk result (IsLoaded self.old row number self.new) }
    {
        match row {
            Instr::Start { exchange } => self.start(exchange),
            Instr::Finish { exchange } => self.finish(exchange, number),
            _ => Ok(()),
        }
    }

    fn start(&mut self, exchange: u32) -> Result<(), AllocError>
        requires opened { self.old.opened < 2 ^ 32 }
        requires starts { self.old.starts < 2 ^ 32 }
        requires times { (exchange : ℕ) → noted self.old.times exchange < 2 ^ 32 }
        ensures { OnOk result (IsStarted self.old exchange self.new) }
    {
        let exchange = u64::from(exchange);
        let times = self.times.of(exchange);
        self.times.note(exchange, times + 1)?;
        self.opened += 1;
        self.starts += 1;
        self.full = self.full.max(self.later.of(self.starts));
        Ok(())
    }

    fn finish(&mut self, exchange: u32, number: u64) -> Result<(), AllocError>
        requires { self.old.starts < 2 ^ 32 }
        ensures { OnOk result (IsFinished self.old exchange number self.new) }
    {
        self.fill(number)?;
        let exchange = u64::from(exchange);
        self.opened = self.opened.saturating_sub(self.times.of(exchange));
        self.times.note(exchange, 0)
    }

    // Notes which starts don't cross a finish.
    fn fill(&mut self, number: u64) -> Result<(), AllocError>
        requires { self.old.starts < 2 ^ 32 }
        ensures { OnOk result (IsFilled self.old number self.new) }
    {
        let Some(links) = self.links else {
            return Ok(());
        };
        let links = u64::from(links);
        if links <= self.opened {
            self.full = number;
            return Ok(());
        }
        self.later.note(self.starts + (links - self.opened), number)
    }
}
