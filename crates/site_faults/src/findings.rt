//! What a walk finds.
ghost use Rattle.std.specs.Prelude.{◌≡◌, ◌∷◌, [], None, OnOk, Some, map};
ghost use Rattle.name_kinds.specs.of_zpl_names.Faults.{at_if};
ghost use Rattle.site_faults.specs.Findings.{number_of, order_of, tells, where_reached, with_call};
ghost use Rattle.site_faults.specs.Found.{found_in, found_of, kind_of};
ghost use Rattle.site_faults.specs.Walk.{state_of};
ghost use Rattle.site_faults.specs.Reach.{call_site_of};

use name_kinds::Shapes;
use std::alloc::{AllocError, Global};
use zpl_tree::{Expr, Name};

/// The faults of a program.
#[derive(Clone, Copy)]
pub enum FaultKind {
    /// A name isn't declared in reach, or stands for what its place doesn't take.
    UnknownName,
    /// A second name of its kind.
    TwiceNamed,
    /// A type is neither `integer` nor `boolean`.
    UnknownType,
    /// An integer stands where a boolean is wanted, or what no bound has in a bound.
    TypeClash,
    /// Two ranks meet that differ, or there is a fourth part.
    RankClash,
    /// There is no current region of a rank.
    NoRegion,
    /// A flood dimension meets what it can't have.
    FloodClash,
    /// What a shattered statement can't have stands in it.
    ShatterBody,
    /// A config or a constant is changed.
    NotAssignable,
    /// Actuals don't fit their parameters.
    Arguments,
    /// A procedure reaches itself by calls.
    Recursion,
    /// A `return` stands elsewhere than it has to.
    ReturnPlace,
    /// A call stands elsewhere than it may.
    CallPlace,
    /// A mask isn't a boolean array, or one holds where none may.
    MaskPlace,
    /// A border statement's prefix has another form.
    BorderForm,
    /// There is no entry procedure.
    NoEntry,
    /// No rule gives a rank.
    RankUnknown,
    /// A chain of calls is too long.
    DeepCalls,
}

impl FaultKind {
    // How the kinds are told apart where two stand at one place.
    fn number(self) -> u8
        ensures { result ≡ number_of (kind_of self) }
    {
        match self {
            FaultKind::UnknownName => 0,
            FaultKind::TwiceNamed => 1,
            FaultKind::UnknownType => 2,
            FaultKind::TypeClash => 3,
            FaultKind::RankClash => 4,
            FaultKind::NoRegion => 5,
            FaultKind::FloodClash => 6,
            FaultKind::ShatterBody => 7,
            FaultKind::NotAssignable => 8,
            FaultKind::Arguments => 9,
            FaultKind::Recursion => 10,
            FaultKind::ReturnPlace => 11,
            FaultKind::CallPlace => 12,
            FaultKind::MaskPlace => 13,
            FaultKind::BorderForm => 14,
            FaultKind::NoEntry => 15,
            FaultKind::RankUnknown => 16,
            FaultKind::DeepCalls => 17,
        }
    }
}

/// A fault and its place.
#[derive(Clone, Copy)]
pub struct Found {
    /// What is wrong.
    pub kind: FaultKind,
    /// The offset of the place.
    pub at: u32,
}

impl Found {
    // Where it stands among all faults: by the place, and at one place by the kind.
    fn order(self) -> u64
        ensures { result ≡ order_of (found_of self) }
    {
        u64::from(self.at) * 18 + u64::from(self.kind.number())
    }
}

/// A call that stands in a procedure.
#[derive(Clone, Copy)]
pub struct Called<'a> {
    /// The name called.
    pub name: Name<'a>,
    /// The actuals.
    pub actuals: &'a [Expr<'a>],
    /// The current regions there.
    pub shapes: Shapes,
}

/// What a walk finds: the fault that comes first in the text, and the calls.
#[derive(Drop)]
pub struct Findings<'a> {
    fault: Option<Found>,
    calls: Vec<Called<'a>>,
    reached: bool,
}

impl<'a> Findings<'a> {
    /// Nothing yet, for a walk under current regions that some chain of calls gives, or for one
    /// over a text alone.
    pub fn new(alloc: Global, reached: bool) -> Findings<'a>
        ensures { state_of result ≡ record { fault = None; calls = []; reached = reached } }
    {
        Findings {
            fault: None,
            calls: Vec::new(alloc),
            reached,
        }
    }

    /// The fault that comes first in the text, if there is one.
    pub fn fault(&self) -> Option<Found>
        ensures { found_in result ≡ (state_of self.now).fault }
    {
        self.fault
    }

    /// Tells a fault, where the test holds.
    #[tactic(auto, unfolding(crate::specs::Findings::tells))]
    pub fn add_if(&mut self, test: bool, kind: FaultKind, at: u32)
        ensures told { state_of self.new ≡ tells (kind_of kind) (at_if test at)
            (state_of self.old) }
        ensures reached { (state_of self.new).reached ≡ (state_of self.old).reached }
    {
        if test {
            self.keep(Found { kind, at });
        }
    }

    /// Tells a fault that is told under chains of calls alone, where the test holds.
    #[tactic(auto, unfolding(crate::specs::Findings::tells))]
    pub fn add_if_reached(&mut self, test: bool, kind: FaultKind, at: u32)
        ensures told { state_of self.new ≡ tells (kind_of kind)
            (where_reached (state_of self.old).reached (at_if test at)) (state_of self.old) }
        ensures reached { (state_of self.new).reached ≡ (state_of self.old).reached }
    {
        if test && self.reached {
            self.keep(Found { kind, at });
        }
    }

    // Tells a fault: of two the one that comes first in the text stays.
    #[tactic(auto, unfolding(crate::specs::Findings::tells))]
    fn keep(&mut self, found: Found)
        ensures { state_of self.new
            ≡ tells (kind_of found.kind) (found.at ∷ []) (state_of self.old) }
    {
        self.fault = match self.fault {
            None => Some(found),
            Some(old) => Some(if found.order() < old.order() {
                found
            } else {
                old
            }),
        };
    }

    /// Adds a call behind the others.
    pub fn add_call(&mut self, call: Called<'a>) -> Result<(), AllocError>
        ensures { OnOk result (state_of self.new
            ≡ with_call (Some (call_site_of call.entry)) (state_of self.old)) }
    {
        self.calls.push(call)?;
        Ok(())
    }

    /// The calls, in the order of the text.
    pub fn calls(&self) -> &[Called<'a>]
        ensures { map call_site_of result.now ≡ (state_of self.now).calls }
    {
        &self.calls
    }
}
