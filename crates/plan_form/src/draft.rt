//! Plans while they are written.
ghost use Rattle.std.specs.Prelude.{◌≡◌, IfOk, OnOk};
ghost use Rattle.plan_form.specs.Draft.{
  empty_draft,
  plan_of,
  with_exchange,
  with_number,
  with_row,
};

use flat_passes::node_form::{Code, ExchangeRow, Exchanges, Instr, Rows, Tables};
use flat_passes::{NewNumbers, number_of};
use std::alloc::{AllocError, Global};

/// The rows of a plan while a pass writes them anew, its exchanges in the order of their starts,
/// and where the old rows come to stand.
#[derive(Drop)]
pub struct PlanDraft {
    pub code: Code,
    pub exchanges: Exchanges,
    pub numbers: NewNumbers,
}

impl PlanDraft {
    /// No rows. It takes no memory.
    pub fn new(alloc: Global) -> PlanDraft
        ensures { result ≡ empty_draft }
    {
        PlanDraft {
            code: Rows::new(alloc),
            exchanges: Rows::new(alloc),
            numbers: NewNumbers::new(alloc),
        }
    }

    /// Notes that the next old row comes to stand behind the rows that are written.
    pub fn begin_row(&mut self) -> Result<(), AllocError>
        ensures { OnOk result (self.new ≡ with_number self.old) }
    {
        self.numbers.note(self.code.len())
    }

    /// Appends a row that is no start and no finish.
    pub fn push(&mut self, alloc: Global, row: Instr) -> Result<(), AllocError>
        ensures { OnOk result (self.new ≡ with_row self.old row) }
    {
        self.code.push(alloc, row)?;
        Ok(())
    }

    /// Appends an exchange: its start, and its finish directly behind it.
    pub fn push_exchange(&mut self, alloc: Global, items: ExchangeRow) -> Result<(), AllocError>
        ensures { OnOk result (self.new ≡ with_exchange self.old items) }
    {
        let exchange = number_of(self.exchanges.len())?;
        self.exchanges.push(alloc, items)?;
        self.code.push(alloc, Instr::Start { exchange })?;
        self.code.push(alloc, Instr::Finish { exchange })?;
        Ok(())
    }

    /// The plan with these rows and exchanges, and for the rest as the tables. Its jumps and tests
    /// lead to where their goals have come to stand.
    pub fn into_plan(self, tables: Tables) -> Result<Tables, AllocError>
        ensures { IfOk result (λ plan. plan ≡ plan_of self tables) }
    {
        let PlanDraft {
            mut code,
            exchanges,
            numbers,
        } = self;
        numbers.move_goals(&mut code)?;
        let mut plan = tables;
        plan.code = code;
        plan.exchanges = exchanges;
        Ok(plan)
    }
}
