//! The laws of deterministic processes over links, for every order of turns: any list of process
//! numbers, of which those beyond the last process change nothing.
//!
//! Each law is the contract of a function that does nothing: a call brings the law into a proof,
//! for all machines of its type, all states at the start, and links of every capacity (`None`: of
//! any number of messages). The statements stand in `specs/Laws.antt`.
ghost use Rattle.std.specs.Prelude.{List, Option, ℕ};
ghost use Rattle.grid_links.specs.Laws.{CarriesReach, CountsMoves, Dominates, EndsAlike};
ghost use Rattle.grid_links.specs.Laws.{EndsInLaps, FitsCapacity, GoesOn, KeepsCapacity};
ghost use Rattle.grid_links.specs.Laws.{KeepsMessages, NeverIdle, NeverStuck, system_of};

use crate::machine::Machine;

/// If after one order each process has ended, waits or has made so many moves, and none is
/// stuck, then every order of at most so many turns is dominated: each process's moves in it
/// begin its moves in the one, and so do the bytes that it shows and the messages that it sends
/// to each process.
pub fn orders_are_dominated<T: Machine>()
    ensures { (machine : T) (start : List T.Local) (capacity : Option ℕ) →
        Dominates (system_of (T.act machine) (T.fed machine) start capacity) }
{}

/// Under the same premises no process is stuck after the other order.
pub fn no_order_gets_stuck<T: Machine>()
    ensures { (machine : T) (start : List T.Local) (capacity : Option ℕ) →
        NeverStuck (system_of (T.act machine) (T.fed machine) start capacity) }
{}

/// Under the same premises the processes aren't all at rest after the other order with one not
/// ended, unless that is so after the one too, and no process has made more moves there than
/// the other order has turns.
pub fn no_order_is_idle<T: Machine>()
    ensures { (machine : T) (start : List T.Local) (capacity : Option ℕ) →
        NeverIdle (system_of (T.act machine) (T.fed machine) start capacity) }
{}

/// A run over links of any number of messages, in which no link ever holds more than so many,
/// is, turn for turn, the run over links of that capacity. Over these the order reaches as many
/// moves as over the others, and ends all processes where it ends them there.
pub fn small_links_are_enough<T: Machine>()
    ensures same { (machine : T) (start : List T.Local) (capacity : Option ℕ) →
        FitsCapacity (system_of (T.act machine) (T.fed machine) start capacity) }
    ensures reach { (machine : T) (start : List T.Local) (capacity : Option ℕ) →
        CarriesReach (system_of (T.act machine) (T.fed machine) start capacity) }
{}

/// Two orders after which all processes have ended have the same moves of each process, and
/// leave the same states and the same messages on each link.
pub fn orders_end_alike<T: Machine>()
    ensures { (machine : T) (start : List T.Local) (capacity : Option ℕ) →
        EndsAlike (system_of (T.act machine) (T.fed machine) start capacity) }
{}

/// Where one order ends all processes, so does every order with as many rounds of turns behind
/// it as the one has moves more, whatever turns come then.
pub fn rounds_end_all<T: Machine>()
    ensures { (machine : T) (start : List T.Local) (capacity : Option ℕ) →
        EndsInLaps (system_of (T.act machine) (T.fed machine) start capacity) }
{}

/// The world after an order and more turns is what the further turns make of the world after
/// the order, and each process's moves go on.
pub fn orders_go_on<T: Machine>()
    ensures { (machine : T) (start : List T.Local) (capacity : Option ℕ) →
        GoesOn (system_of (T.act machine) (T.fed machine) start capacity) }
{}

/// No link ever holds more messages than its capacity.
pub fn links_keep_their_capacity<T: Machine>()
    ensures { (machine : T) (start : List T.Local) (capacity : Option ℕ) →
        KeepsCapacity (system_of (T.act machine) (T.fed machine) start capacity) }
{}

/// On a link are the messages that its sender sent to its receiver, the oldest first, without as
/// many of the first as the receiver took from the sender; and no more were taken than were sent.
/// So the receiver's `k`-th move that takes from the sender takes the `k`-th message sent on the
/// link.
pub fn links_keep_their_messages<T: Machine>()
    ensures { (machine : T) (start : List T.Local) (capacity : Option ℕ) →
        KeepsMessages (system_of (T.act machine) (T.fed machine) start capacity) }
{}

/// A process makes no more moves than an order has turns; and where none makes more than so many,
/// all together make at most that many times how many there are.
pub fn moves_are_turns<T: Machine>()
    ensures { (machine : T) (start : List T.Local) (capacity : Option ℕ) →
        CountsMoves (system_of (T.act machine) (T.fed machine) start capacity) }
{}
