//! Small machines over links, run under all orders of eight turns and compared with what the laws
//! claim of every order.
ghost use Rattle.std.specs.Prelude.{◌≡◌, ◌<◌};

use crate::room::send_where_room;
use crate::same::Step;
use grid_links::{Links, Message, Words};
use std::alloc::{AllocError, Global};
use std::process::Abort;
use std::test::Fail;

/// A capacity that stands for links of any number of messages.
const ANY: u32 = 0;

/// A machine: how many processes follow which scripts, how many orders of eight turns there are for
/// so many, and how many moves all scripts have.
struct Game {
    count: u32,
    orders: u32,
    moves: u32,
    scripts: &'static [&'static [Step]],
}

/// Three processes: each sends to the next one and takes from the one before.
static RING: Game = Game {
    count: 3,
    orders: 6561,
    moves: 6,
    scripts: &[
        &[Step::Send { to: 1, word: 10 }, Step::Take { from: 2 }],
        &[Step::Send { to: 2, word: 11 }, Step::Take { from: 0 }],
        &[Step::Send { to: 0, word: 12 }, Step::Take { from: 1 }],
    ],
};

/// One process in the middle takes from two others and answers both.
static STAR: Game = Game {
    count: 3,
    orders: 6561,
    moves: 8,
    scripts: &[
        &[
            Step::Take { from: 1 },
            Step::Take { from: 2 },
            Step::Send { to: 1, word: 20 },
            Step::Send { to: 2, word: 21 },
        ],
        &[Step::Send { to: 0, word: 22 }, Step::Take { from: 0 }],
        &[Step::Send { to: 0, word: 23 }, Step::Take { from: 0 }],
    ],
};

/// Two processes that exchange in different orders.
static PAIR: Game = Game {
    count: 2,
    orders: 256,
    moves: 4,
    scripts: &[
        &[Step::Send { to: 1, word: 30 }, Step::Take { from: 1 }],
        &[Step::Take { from: 0 }, Step::Send { to: 0, word: 31 }],
    ],
};

/// Two processes that each send twice before they take.
static EAGER: Game = Game {
    count: 2,
    orders: 256,
    moves: 8,
    scripts: &[
        &[
            Step::Send { to: 1, word: 40 },
            Step::Send { to: 1, word: 41 },
            Step::Take { from: 1 },
            Step::Take { from: 1 },
        ],
        &[
            Step::Send { to: 0, word: 42 },
            Step::Send { to: 0, word: 43 },
            Step::Take { from: 0 },
            Step::Take { from: 0 },
        ],
    ],
};

/// What a turn was: a move, or none.
#[derive(Clone, Copy, PartialEq)]
enum Turn {
    Sent { to: u32, word: i64 },
    Took { from: u32, word: i64 },
    Waiting,
    Over,
}

/// So many processes, the script of each, and the moves that each has made.
#[derive(Drop)]
struct Players {
    count: u32,
    scripts: &'static [&'static [Step]],
    moves: Vec<Vec<Turn>>,
    links: Links,
    ghost linked: { links.count ≡ count },
}

impl Players {
    fn new(alloc: Global, game: &Game, capacity: u32) -> Result<Players, AllocError> {
        let Game { count, scripts, .. } = *game;
        let links = if capacity == ANY {
            Links::new(alloc, count)?
        } else {
            Links::bounded(alloc, count, capacity)?
        };
        let mut moves = Vec::new(alloc);
        for _ in scripts {
            moves.push(Vec::new(alloc))?;
        }
        Ok(Players {
            count,
            scripts,
            moves,
            links,
        })
    }

    fn send(&mut self, alloc: Global, p: u32, to: u32, word: i64) -> Result<Turn, AllocError> {
        if p >= self.count || to >= self.count {
            return Ok(Turn::Waiting);
        }
        let words = Words::of(vec![in alloc; word]?);
        match send_where_room(&mut self.links, alloc, p, to, Message { tag: 1, words }) {
            Ok(true) => Ok(Turn::Sent { to, word }),
            Ok(false) => Ok(Turn::Waiting),
            Err(_) => Err(AllocError),
        }
    }

    fn take(&mut self, p: u32, from: u32) -> Turn {
        if p >= self.count || from >= self.count {
            return Turn::Waiting;
        }
        match self.links.take(from, p) {
            None => Turn::Waiting,
            Some(message) => {
                let word = message.words.as_slice().first().copied().unwrap_or(0);
                Turn::Took { from, word }
            }
        }
    }

    /// A turn of a process, which does the next step of its script.
    fn turn(&mut self, alloc: Global, p: u32) -> Result<Turn, AllocError> {
        let Some(script) = self.scripts.get(p as usize) else {
            return Ok(Turn::Over);
        };
        let made = match self.moves.get(p as usize) {
            None => 0,
            Some(moves) => moves.len(),
        };
        let turn = match script.get(made) {
            None => Turn::Over,
            Some(Step::Send { to, word }) => self.send(alloc, p, *to, *word)?,
            Some(Step::Take { from }) => self.take(p, *from),
        };
        if let Some(moves) = self.moves.get_mut(p as usize) {
            if matches!(turn, Turn::Sent { .. } | Turn::Took { .. }) {
                moves.push(turn)?;
            }
        }
        Ok(turn)
    }

    /// A turn of each process, and whether one moved.
    fn round(&mut self, alloc: Global) -> Result<bool, AllocError> {
        let mut moved = false;
        for p in 0..self.count {
            let turn = self.turn(alloc, p)?;
            moved = moved || matches!(turn, Turn::Sent { .. } | Turn::Took { .. });
        }
        Ok(moved)
    }

    /// At most so many rounds, up to the first one in which nobody moves.
    fn rounds(&mut self, alloc: Global, most: u32) -> Result<(), AllocError> {
        for _ in 0..most {
            if !self.round(alloc)? {
                break;
            }
        }
        Ok(())
    }

    /// Eight turns: the digits of a number to the base of how many processes there are.
    fn eight(&mut self, alloc: Global, order: u32) -> Result<(), AllocError> {
        let mut rest = order;
        for _ in 0..8 {
            let p = rest.checked_rem(self.count).unwrap_or(0);
            self.turn(alloc, p)?;
            rest = rest.checked_div(self.count).unwrap_or(0);
        }
        Ok(())
    }

    /// Whether each process has done its whole script.
    fn is_over(&self) -> bool {
        for (script, moves) in self.scripts.iter().zip(self.moves.iter()) {
            if moves.len() != script.len() {
                return false;
            }
        }
        true
    }

    /// Whether no message is on its way.
    fn is_empty(&self) -> bool {
        for from in 0..self.count {
            for to in 0..self.count {
                if self.links.length(from, to) != 0 {
                    return false;
                }
            }
        }
        true
    }

    /// Whether each process's moves begin its moves in the other run.
    fn begins(&self, whole: &Players) -> bool {
        for (front, all) in self.moves.iter().zip(whole.moves.iter()) {
            if !all.starts_with(front) {
                return false;
            }
        }
        true
    }
}

/// Each order of eight turns begins the run in rounds. With as many rounds behind it as there are
/// moves it is over, with the same moves and empty links.
fn every_order(rt: &impl Abort, alloc: Global, game: &Game, capacity: u32) -> Result<(), Fail> {
    let mut whole = Players::new(alloc, game, capacity)?;
    whole.rounds(alloc, game.moves)?;
    assert!(rt; whole.is_over());
    for order in 0..game.orders {
        let mut players = Players::new(alloc, game, capacity)?;
        players.eight(alloc, order)?;
        assert!(rt; players.begins(&whole), "order {order}");
        players.rounds(alloc, game.moves)?;
        let ends_alike = players.moves == whole.moves;
        assert!(rt;
            players.is_over() && ends_alike && players.is_empty(),
            "order {order}"
        );
    }
    Ok(())
}

/// Over links of a capacity each order of eight turns has the turns that it has over links of any
/// number of messages.
fn same_turns(rt: &impl Abort, alloc: Global, game: &Game, capacity: u32) -> Result<(), Fail> {
    for order in 0..game.orders {
        let mut bounded = Players::new(alloc, game, capacity)?;
        let mut free = Players::new(alloc, game, ANY)?;
        bounded.eight(alloc, order)?;
        free.eight(alloc, order)?;
        assert!(rt; bounded.moves == free.moves, "order {order}");
    }
    Ok(())
}

#[test]
fn rings_and_pairs_end_alike(rt: HostRuntime) -> Result<(), Fail> {
    let alloc = rt.alloc();
    for capacity in [1, 2, ANY] {
        every_order(&rt, alloc, &RING, capacity)?;
        every_order(&rt, alloc, &PAIR, capacity)?;
    }
    every_order(&rt, alloc, &EAGER, 2)?;
    every_order(&rt, alloc, &EAGER, ANY)
}

#[test]
fn stars_end_alike(rt: HostRuntime) -> Result<(), Fail> {
    for capacity in [1, 2, ANY] {
        every_order(&rt, rt.alloc(), &STAR, capacity)?;
    }
    Ok(())
}

#[test]
fn small_links_are_enough(rt: HostRuntime) -> Result<(), Fail> {
    same_turns(&rt, rt.alloc(), &RING, 1)?;
    same_turns(&rt, rt.alloc(), &PAIR, 1)?;
    same_turns(&rt, rt.alloc(), &EAGER, 2)
}

#[test]
fn full_links_end_in_a_deadlock(rt: HostRuntime) -> Result<(), Fail> {
    let alloc = rt.alloc();
    for order in 0..EAGER.orders {
        let mut players = Players::new(alloc, &EAGER, 1)?;
        players.eight(alloc, order)?;
        players.rounds(alloc, EAGER.moves)?;
        let first = players.turn(alloc, 0)?;
        let second = players.turn(alloc, 1)?;
        assert!(rt; first == Turn::Waiting && second == Turn::Waiting);
        assert!(rt; !players.is_over() && !players.is_empty());
    }
    Ok(())
}

/// The tag of a message, or 0 where there is none.
fn tag_of(message: Option<&Message>) -> u64 {
    match message {
        None => 0,
        Some(message) => message.tag,
    }
}

#[test]
fn a_link_keeps_order_and_capacity(rt: HostRuntime) -> Result<(), Fail> {
    let alloc = rt.alloc();
    let mut links = Links::bounded(alloc, 2, 2)?;
    let first = Words::of(vec![in alloc; -1, 2]?);
    assert!(rt; links.has_room(0, 1));
    links.send(
        alloc,
        0,
        1,
        Message {
            tag: 5,
            words: first,
        },
    )?;
    let second = Words::of(vec![in alloc; 3]?);
    assert!(rt; links.has_room(0, 1));
    links.send(
        alloc,
        0,
        1,
        Message {
            tag: 6,
            words: second,
        },
    )?;
    assert!(rt; !links.has_room(0, 1) && links.has_room(1, 0));
    assert!(rt; tag_of(links.head(0, 1)) == 5 && tag_of(links.nth(0, 1, 1)) == 6);
    assert!(rt; links.nth(0, 1, 2).is_none());
    let taken = links.take(0, 1);
    assert!(rt; tag_of(taken.as_ref()) == 5 && links.length(0, 1) == 1);
    Ok(())
}
