//! Which processors of a grid rest.
ghost use Rattle.std.specs.Prelude.{◌≡◌, ◌<◌, length};
ghost use Rattle.grid_meaning.specs.Local.{processors};
ghost use Rattle.grid_meaning.specs.Stored.{arrangement_of};
ghost use Rattle.grid_sim.specs.Processors.{
  AreLeft,
  AreProcessors,
  AreUnsettled,
  HaveMarks,
  IsAmong,
  is_at_rest,
  looked_as,
  unmarked,
};

use crate::processors::Processors;
use grid_layout::Layout;
use node_form::NodeProgram;
use node_turn::{Step, Traffic, rests};

impl Processors {
    /// Whether a processor rests. Then it is marked; and else it becomes the one that doesn't.
    #[inline(always)]
    fn look(&mut self, code: &NodeProgram, layout: &Layout, p: u32) -> bool
        requires layout { layout.now ≡ arrangement_of code.now }
        requires processor { p < processors code.now }
        requires marks { HaveMarks code.now self.old }
        ensures rest { result ≡ is_at_rest code.now self.old p }
        ensures looked { self.new ≡ looked_as result self.old p }
    {
        if self.resting.has(p) {
            return true;
        }
        let known = &self.partners[p as usize];
        if !rests(
            code,
            layout,
            p,
            &self.locals[p as usize],
            &self.links,
            known,
        ) {
            self.awake = p;
            return false;
        }
        self.resting.set(p, true);
        true
    }

    /// Looks for a processor that doesn't rest, from the last one down. Where there is none, all
    /// are marked.
    #[inline(never)]
    pub(crate) fn seek(&mut self, code: &NodeProgram, layout: &Layout)
        requires layout { layout.now ≡ arrangement_of code.now }
        requires marks { HaveMarks code.now self.old }
        ensures processors { AreProcessors code.now self.new }
        ensures locals { self.new.locals ≡ self.old.locals }
        ensures links { self.new.links ≡ self.old.links }
    {
        let count = layout.grid().count();
        for k in 0..count {
            if !self.look(code, layout, count - 1 - k) {
                return;
            }
        }
    }

    /// The same, and p is looked at first.
    #[inline(always)]
    fn seek_from(&mut self, code: &NodeProgram, layout: &Layout, p: u32)
        requires layout { layout.now ≡ arrangement_of code.now }
        requires processor { p < processors code.now }
        requires marks { HaveMarks code.now self.old }
        ensures processors { AreProcessors code.now self.new }
        ensures locals { self.new.locals ≡ self.old.locals }
        ensures links { self.new.links ≡ self.old.links }
    {
        if self.look(code, layout, p) {
            self.seek(code, layout);
        }
    }

    /// Takes the mark of rest off the processor at the other end of a message.
    #[inline(always)]
    fn unmark(&mut self, traffic: Traffic)
        requires { IsAmong (length self.old.resting) traffic }
        ensures { self.new ≡ record self.old { resting = unmarked traffic self.old.resting } }
    {
        match traffic {
            Traffic::Quiet => (),
            Traffic::Sent { to, .. } => self.resting.set(to, false),
            Traffic::Took { from } => self.resting.set(from, false),
        }
    }

    /// Brings the marks up to a move of p.
    #[inline(always)]
    pub(crate) fn settle(&mut self, code: &NodeProgram, layout: &Layout, p: u32, traffic: Traffic)
        requires layout { layout.now ≡ arrangement_of code.now }
        requires processor { p < processors code.now }
        requires partner { IsAmong (processors code.now) traffic }
        requires moved { AreUnsettled code.now self.old p traffic }
        ensures processors { AreProcessors code.now self.new }
        ensures locals { self.new.locals ≡ self.old.locals }
        ensures links { self.new.links ≡ self.old.links }
    {
        let ended = self.locals[p as usize].ending().is_some();
        self.ended.set(p, ended);
        self.unmark(traffic);
        if self.awake == p {
            self.seek_from(code, layout, p);
        }
    }

    /// Brings the marks up to what came of a turn of p.
    pub(crate) fn note(&mut self, code: &NodeProgram, layout: &Layout, p: u32, step: &Step)
        requires layout { layout.now ≡ arrangement_of code.now }
        requires processor { p < processors code.now }
        requires left { AreLeft code.now self.old p step.now }
        ensures processors { AreProcessors code.now self.new }
        ensures locals { self.new.locals ≡ self.old.locals }
        ensures links { self.new.links ≡ self.old.links }
    {
        match step {
            Step::Moved(traffic) => self.settle(code, layout, p, *traffic),
            Step::Waiting => self.resting.set(p, true),
            Step::Over => self.resting.set(p, true),
            Step::Prints(_) | Step::Stuck(_) => (),
        }
    }
}
