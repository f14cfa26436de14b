//! Changes that are logged, so that a turn which gets stuck may take them back.
ghost use Rattle.std.specs.Prelude.{◌≡◌, ◌+◌, ◌<◌, ◌≤◌, ◌^◌, ◌∷◌, [], length, drop, slice_set};
ghost use Rattle.std.specs.Prelude.{if◌then◌else◌, Some, None, false};
ghost use Rattle.grid_meaning.specs.Loop.{next_index, point_of, with_point};
ghost use Rattle.grid_meaning.specs.Place.{with_value};
ghost use Rattle.node_local.specs.Computing.{point_in};
ghost use Rattle.node_local.specs.Undo.{undone};

use crate::changes::Change;
use crate::locals::Local;
use crate::memories::Memory;
use grid_meaning::zpl_region::Vec3;

/// The log with a change in front; its changes stand from `logged` on. Answers where they begin
/// then.
fn push(log: &mut [Change], logged: usize, change: Change) -> usize
    requires room { 1 ≤ logged }
    requires inside { logged ≤ length log.old }
    ensures front { result + 1 ≡ logged }
    ensures log { drop result log.new ≡ change ∷ drop logged log.old }
{
    let after = logged - 1;
    log[after] = change;
    after
}

/// Takes changes back, the first one first.
fn take_back(memory: &mut Memory, log: &[Change])
    ensures { point_in memory.new ≡ undone log.now (point_in memory.old) }
{
    for change in log {
        memory.take_back(*change);
    }
}

impl Local {
    // ---- changes that are logged
    // Each takes a place of the log, and taking all that is logged back gives what it gave before.

    /// Puts a value at a tuple of an array, where that place is held; answers whether it is.
    pub fn log_value(&mut self, array: u32, x: &Vec3, value: i64) -> bool
        requires { length self.old.log < self.old.room }
        ensures held { with_value self.old.local.stores array x.now value
            ≡ (if result then Some self.new.local.stores else None) }
        ensures stores { self.new ≡ record self.old {
          local = record self.old.local { stores = self.new.local.stores };
          log = self.new.log;
        } }
        ensures same { (result ≡ false) → self.new ≡ self.old }
        ensures back { undone self.new.log (point_of self.new.local)
            ≡ undone self.old.log (point_of self.old.local) }
        ensures long { length self.new.log ≤ length self.old.log + 1 }
    {
        match self.memory.set_value(array, x, value) {
            Some((place, old)) => {
                let change = Change::Place(array as usize, place, old);
                self.logged = push(self.log.as_mut_slice(), self.logged, change);
                true
            }
            None => false,
        }
    }

    /// Sets a scalar.
    pub fn log_scalar(&mut self, scalar: u32, value: i64)
        requires room { length self.old.log < self.old.room }
        requires there { scalar < length self.old.local.scalars }
        ensures scalars { self.new ≡ record self.old {
          local = record self.old.local {
            scalars = slice_set self.old.local.scalars scalar value;
          };
          log = self.new.log;
        } }
        ensures back { undone self.new.log (point_of self.new.local)
            ≡ undone self.old.log (point_of self.old.local) }
        ensures long { length self.new.log ≤ length self.old.log + 1 }
    {
        let at = scalar as usize;
        let old = self.memory.scalars[at];
        self.memory.scalars[at] = value;
        self.logged = push(
            self.log.as_mut_slice(),
            self.logged,
            Change::Scalar(at, old),
        );
    }

    /// Sets a cell. One that isn't there stays away.
    pub fn log_cell(&mut self, cell: u32, value: i64)
        requires { length self.old.log < self.old.room }
        ensures cells { self.new ≡ record self.old {
          local = record self.old.local {
            cells = slice_set self.old.local.cells cell value;
          };
          log = self.new.log;
        } }
        ensures back { undone self.new.log (point_of self.new.local)
            ≡ undone self.old.log (point_of self.old.local) }
        ensures long { length self.new.log ≤ length self.old.log + 1 }
    {
        let at = cell as usize;
        if self.memory.cells.len() <= at {
            return;
        }
        let old = self.memory.cells[at];
        self.memory.cells[at] = value;
        self.logged = push(self.log.as_mut_slice(), self.logged, Change::Cell(at, old));
    }

    // ---- the end of a turn

    /// Takes all changes back that are logged, and empties the log.
    pub fn take_back(&mut self)
        ensures { self.new ≡ record self.old {
          local = with_point self.old.local (undone self.old.log (point_of self.old.local));
          log = [];
        } }
    {
        take_back(&mut self.memory, &self.log.as_slice()[self.logged..]);
        self.logged = self.log.len();
    }

    /// Ends a turn of a loop: the next one begins with the first member at the next index. What was
    /// changed stays so, and the log is emptied.
    pub fn next_index(&mut self)
        requires { self.old.local.index + 1 < 2 ^ 64 }
        ensures { self.new ≡ record self.old { local = next_index self.old.local; log = [] } }
    {
        self.index += 1;
        self.member = 0;
        self.logged = self.log.len();
    }

    /// Ends a turn of a loop: the next one begins with this member. What was changed stays so, and
    /// the log is emptied.
    pub fn begin_with(&mut self, member: u64)
        ensures { self.new ≡ record self.old {
          local = record self.old.local { member = member };
          log = [];
        } }
    {
        self.member = member;
        self.logged = self.log.len();
    }
}
