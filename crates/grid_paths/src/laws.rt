//! The laws of paths, for every machine, every start and links of every capacity (`None`: of any
//! number of messages). Each is the contract of a function that does nothing: a call brings the
//! law into a proof. The statements stand in `specs/Laws.antt`.
ghost use Rattle.std.specs.Prelude.{List, Option, ℕ};
ghost use Rattle.grid_links.specs.Laws.{system_of};
ghost use Rattle.grid_paths.specs.Laws.{Composes, Halts, HoldsAsMuch, ReachesFrom, RunsAlone};
ghost use Rattle.grid_paths.specs.Laws.{RunsInTurn, StaysStuck};

use grid_links::Machine;

/// A process that has a path goes along it while all others stay, where the links hold the messages
/// that it takes and have room for those that it sends: some order does just that.
pub fn processes_run_alone<T: Machine>()
    ensures { (machine : T) (start : List T.Local) (capacity : Option ℕ) →
        RunsAlone (system_of (T.act machine) (T.fed machine) start capacity) }
{}

/// Where each process has a path, and on each link what is sent is what is taken and what is left,
/// some order leads all of them along, in whichever order they come.
pub fn rounds_are_run<T: Machine>()
    ensures { (machine : T) (start : List T.Local) (capacity : Option ℕ) →
        RunsInTurn (system_of (T.act machine) (T.fed machine) start capacity) }
{}

/// Behind an order that leads to a scene comes one that leads on from it: moves and bytes are those
/// of both.
pub fn orders_compose<T: Machine>()
    ensures { (machine : T) (start : List T.Local) (capacity : Option ℕ) →
        Composes (system_of (T.act machine) (T.fed machine) start capacity) }
{}

/// A process that is stuck stays so, and makes no more moves. So nobody is stuck on the way to
/// where nobody is.
pub fn stuck_processes_stay<T: Machine>()
    ensures { (machine : T) (start : List T.Local) (capacity : Option ℕ) →
        StaysStuck (system_of (T.act machine) (T.fed machine) start capacity) }
{}

/// An order over links of some capacity in which each turn is a move is so over links of any number
/// of messages too, and no link ever holds more than that capacity: turn for turn it is the same
/// run.
pub fn orders_hold_as_much<T: Machine>()
    ensures { (machine : T) (start : List T.Local) (capacity : Option ℕ) →
        HoldsAsMuch (system_of (T.act machine) (T.fed machine) start capacity) }
{}

/// Where an order leads from the start to a scene in which each process rests, or has made so many
/// moves and makes another one next, it reaches so many moves and nobody is stuck on the way: the
/// laws of every order hold by it.
pub fn scenes_are_reached<T: Machine>()
    ensures { (machine : T) (start : List T.Local) (capacity : Option ℕ) →
        ReachesFrom (system_of (T.act machine) (T.fed machine) start capacity) }
{}

/// Where some processes stay away from an exchange up a tree and go on by themselves, some order
/// leads these along their paths and brings all others to where they await a message that isn't on
/// its way.
pub fn others_come_to_wait<T: Machine>()
    ensures { (machine : T) (start : List T.Local) (capacity : Option ℕ) →
        Halts (system_of (T.act machine) (T.fed machine) start capacity) }
{}
