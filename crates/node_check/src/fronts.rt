//! What is known in front of an instruction.
ghost use Rattle.std.specs.Prelude.{◌≡◌, ◌≤◌, IfOk, OnOk, length};
ghost use Rattle.node_form.specs.Fits.{Fits, FitsInstr};

use crate::demands::is_met;
use crate::facts::Fact;
use crate::makes::learnt;
use crate::starts::{opened_behind, shared_facts, start_facts};
use crate::strikes::is_lost;
use bit_sets::BitSet;
use node_form::{Instr, Tables};
use std::alloc::{AllocError, Global};
use std::marker::Model;

/// The exchanges that are open along some path to an instruction, and facts that stand in front of
/// it.
#[derive(Drop)]
pub(crate) struct Front {
    opened: Vec<u32>,
    facts: Vec<Fact>,
}

impl Model for Front {
    ghost use Rattle.std.specs.Prelude.{All};
    ghost use Rattle.node_check.specs.Front.{HasRegion, Point};

    ghost Value = { Point };

    ghost view = { λ front. record { opened = front.opened.items; facts = front.facts.items } };

    ghost invariant = { λ front. All HasRegion front.facts.items };
}

impl Front {
    ghost use Rattle.node_check.specs.Demand.{is_met};
    ghost use Rattle.node_check.specs.Front.{behind, has_less, met, start_point};
    ghost use Rattle.node_check.specs.Strike.{left_of};

    /// What is known at the start.
    pub(crate) fn start(alloc: Global, tables: &Tables) -> Result<Front, AllocError>
        requires fits { Fits tables.now }
        requires small { length tables.now.slots ≤ 16384 }
        ensures { IfOk result (λ front. front ≡ start_point tables.now) }
    {
        let facts = start_facts(alloc, tables)?;
        Ok(Front {
            opened: Vec::new(alloc),
            facts,
        })
    }

    /// The same again.
    pub(crate) fn copy(&self, alloc: Global) -> Result<Front, AllocError>
        ensures { IfOk result (λ front. front ≡ self.now) }
    {
        Ok(Front {
            opened: Vec::from_slice(alloc, self.opened.as_slice())?,
            facts: Vec::from_slice(alloc, self.facts.as_slice())?,
        })
    }

    /// What is known behind the instruction.
    pub(crate) fn behind(
        self,
        alloc: Global,
        tables: &Tables,
        row: &Instr,
    ) -> Result<Front, AllocError>
        requires fits { Fits tables.now }
        requires row { FitsInstr tables.now row.now }
        ensures { IfOk result (λ front. front ≡ behind tables.now self row.now) }
    {
        let Front { opened, facts } = self;
        let opened = opened_behind(opened, row)?;
        let facts = learnt(alloc, tables, facts, row)?;
        Ok(Front { opened, facts })
    }

    /// Leaves the facts that are known there too. Whether some facts are lost.
    pub(crate) fn meet(&mut self, alloc: Global, other: &Front) -> Result<bool, AllocError>
        ensures met { OnOk result (self.new ≡ met self.old other.now) }
        ensures lost { IfOk result (λ lost. lost ≡ has_less self.old other.now) }
    {
        let shared = shared_facts(alloc, self.facts.as_slice(), other.facts.as_slice())?;
        let lost = shared.len() < self.facts.len();
        self.facts = shared;
        Ok(lost)
    }

    /// The facts.
    pub(crate) fn facts(&self) -> &[Fact]
        ensures { result.now ≡ self.now.facts }
    {
        self.facts.as_slice()
    }

    /// Leaves out facts that are lost.
    pub(crate) fn strike(&mut self, lost: &BitSet)
        ensures { self.new ≡ left_of lost.now self.old }
    {
        self.facts.retain(|fact| !is_lost(lost, fact));
    }

    /// Whether the instruction's demand is met.
    pub(crate) fn is_met(&self, tables: &Tables, row: &Instr) -> bool
        requires fits { Fits tables.now }
        requires row { FitsInstr tables.now row.now }
        ensures { result ≡ is_met tables.now self.now.facts self.now.opened row.now }
    {
        is_met(tables, self.facts.as_slice(), self.opened.as_slice(), row)
    }

    /// The exchanges that are open.
    pub(crate) fn opened(&self) -> &[u32]
        ensures { result.now ≡ self.now.opened }
    {
        self.opened.as_slice()
    }
}
