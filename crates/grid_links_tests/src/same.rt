//! Processes that all follow one script, which is lent: a machine, and the laws for it.
ghost use Rattle.std.specs.Prelude.{List, Option, ℕ, ℤ};
ghost use Rattle.grid_links.specs.Laws.{Dominates, system_of};
ghost use Rattle.grid_links_tests.specs.Same.{Kind, Local, act_of, fed_of};

use grid_links::{Machine, laws};
use std::marker::Model;

/// One step of a script.
#[derive(Clone, Copy)]
pub enum Step {
    Send { to: u32, word: i64 },
    Take { from: u32 },
}

/// Processes that follow the same steps. A process's state is the number of its next step
/// and the words that it has taken.
pub struct Same<'a> {
    steps: &'a [Step],
}

impl<'a> Model for Same<'a> {
    ghost use Rattle.std.specs.Prelude.{List};
    ghost use Rattle.grid_links_tests.specs.declared.same.Step.{Step};

    ghost Value = { List Step };

    ghost view = { λ a. a.steps.now };
}

impl Machine for Same<'_> {
    ghost Local = { Local };

    ghost Message = { ℤ };

    ghost Kind = { Kind };

    ghost act = { act_of };

    ghost fed = { fed_of };
}

/// The law of domination for any script.
pub fn scripts_are_dominated()
    ensures { (steps : List Step) (start : List Local) (capacity : Option ℕ) →
        Dominates (system_of (act_of steps) (fed_of steps) start capacity) }
{
    laws::orders_are_dominated::<Same<'static>>();
}
