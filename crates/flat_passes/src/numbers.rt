//! Where old rows come to stand in new code.
ghost use Rattle.std.specs.Prelude.{◌≡◌, ◌∷◌, [], ◌++◌, IfOk, OnOk, length, map};
ghost use Rattle.flat_passes.specs.Numbers.{number_among};
ghost use Rattle.flat_passes.specs.Rewritten.{with_moved_goal};

use flat_form::node_form::{Code, Instr};
use std::alloc::{AllocError, Global};
use std::marker::Model;

/// The number of a row behind so many others. From 2^32 on there is no room for a row.
pub fn number_of(rows: u64) -> Result<u32, AllocError>
    ensures { IfOk result (λ number. number ≡ rows) }
{
    u32::try_from(rows).map_err(|_| AllocError)
}

/// The new number of each old row, in the order of the old rows. Contracts see it as the list of
/// these numbers.
#[derive(Debug, Drop)]
pub struct NewNumbers {
    numbers: Vec<u32>,
}

impl Model for NewNumbers {
    ghost use Rattle.std.specs.Prelude.{ℕ, List};

    ghost Value = { List ℕ };

    ghost view = { λ list. list.numbers.items };
}

impl NewNumbers {
    /// No numbers. It takes no memory.
    pub fn new(alloc: Global) -> NewNumbers
        ensures { result ≡ [] }
    {
        NewNumbers {
            numbers: Vec::new(alloc),
        }
    }

    /// Notes that the next old row begins behind so many new ones.
    pub fn note(&mut self, rows: u64) -> Result<(), AllocError>
        ensures { OnOk result (self.new ≡ self.old ++ rows ∷ []) }
    {
        let number = number_of(rows)?;
        self.numbers.push(number)?;
        Ok(())
    }

    /// Lets the jumps and tests of new code lead to the new numbers of their goals. A goal behind
    /// all old rows goes behind all new ones.
    pub fn move_goals(&self, code: &mut Code) -> Result<(), AllocError>
        ensures { OnOk result (code.new
            ≡ map (with_moved_goal (number_among self.now (length code.old))) code.old) }
    {
        let end = number_of(code.len())?;
        for i in 0..code.len() {
            let row = *code.get(i).unwrap();
            code.set(i, self.with_moved_goal(row, end));
        }
        Ok(())
    }

    fn with_moved_goal(&self, row: Instr, end: u32) -> Instr
        ensures { result ≡ with_moved_goal (number_among self.now end) row }
    {
        match row {
            Instr::Jump { goal } => Instr::Jump {
                goal: self.number_among(goal, end),
            },
            Instr::Unless { expr, goal, line } => Instr::Unless {
                expr,
                goal: self.number_among(goal, end),
                line,
            },
            other => other,
        }
    }

    /// The new number of an old row, or the end behind all of them.
    fn number_among(&self, row: u32, end: u32) -> u32
        ensures { result ≡ number_among self.now end row }
    {
        self.numbers.get(row as usize).copied().unwrap_or(end)
    }
}
