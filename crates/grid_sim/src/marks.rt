//! Marks of processors.
ghost use Rattle.std.specs.Prelude.{◌≡◌, ◌<◌, ◌↔◌, All, IfOk, IfSome, IsNone, IsTrue, false, true};
ghost use Rattle.std.specs.Prelude.{length, replicate, slice_index_or, slice_set};
ghost use Rattle.grid_sim.specs.Marks.{IsFirstUnmarked};

use std::alloc::{AllocError, Global};
use std::marker::Model;

/// A mark for each of some processors, seen as the list of these. Whether all of them are marked is
/// known without going through them.
#[derive(Drop)]
pub(crate) struct Marks {
    marks: Vec<bool>,
    unmarked: usize,
}

impl Model for Marks {
    ghost use Rattle.std.specs.Prelude.{Bool, List};

    ghost Value = { List Bool };

    ghost use Rattle.grid_sim.specs.Marks.{CountsUnmarked};

    ghost view = { λ a. a.marks.items };

    ghost invariant = { CountsUnmarked };
}

impl Marks {
    /// These marks.
    pub(crate) fn of(marks: Vec<bool>) -> Marks
        ensures { result ≡ marks.items }
    {
        let unmarked = marks.iter().filter(|mark| !**mark).count();
        Marks { marks, unmarked }
    }

    /// So many processors, of which none is marked.
    pub(crate) fn none(alloc: Global, count: u32) -> Result<Marks, AllocError>
        ensures { IfOk result (λ marks. marks ≡ replicate count false) }
    {
        let count = count as usize;
        let marks = vec![in alloc; false; count]?;
        Ok(Marks {
            marks,
            unmarked: count,
        })
    }

    /// Marks a processor, or takes its mark away.
    #[inline(always)]
    pub(crate) fn set(&mut self, p: u32, mark: bool)
        requires { p < length self.old }
        ensures { self.new ≡ slice_set self.old p mark }
    {
        let p = p as usize;
        if self.marks[p] == mark {
            return;
        }
        self.marks[p] = mark;
        if mark {
            self.unmarked -= 1;
        } else {
            self.unmarked += 1;
        }
    }

    /// Whether a processor is marked.
    #[inline(always)]
    pub(crate) fn has(&self, p: u32) -> bool
        requires { p < length self.now }
        ensures { result ≡ slice_index_or self.now p false }
    {
        self.marks[p as usize]
    }

    /// Whether all are marked.
    pub(crate) fn all(&self) -> bool
        ensures { IsTrue result ↔ All (λ mark. mark ≡ true) self.now }
    {
        self.unmarked == 0
    }

    /// The first that isn't marked, if there is one.
    pub(crate) fn first_unmarked(&self) -> Option<usize>
        ensures some { IfSome result (IsFirstUnmarked self.now) }
        ensures none { IsNone result → All (λ mark. mark ≡ true) self.now }
    {
        for p in 0..self.marks.len() {
            if !self.marks[p] {
                return Some(p);
            }
        }
        None
    }
}
