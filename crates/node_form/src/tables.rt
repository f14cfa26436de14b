//! The tables of a program.
ghost use Rattle.std.specs.Prelude.{◌≡◌, []};

use crate::arrays::{ArrayRow, ExchangeRow};
use crate::instructions::Instr;
use crate::members::GroupRow;
use crate::rows::Rows;
use crate::words::{ExprRow, TextRow};
use std::alloc::Global;

/// The factors of a processor grid, one to three of them, in front; 0 for each absent one.
pub type Grid3 = [u32; 3];

/// The ranks of a program's slots, each of which keeps a region.
pub type Slots = Rows<u8>;

/// The arrays of a program.
pub type Arrays = Rows<ArrayRow>;

/// The texts that a program prints.
pub type Texts = Rows<TextRow>;

/// The expressions of a program.
pub type Exprs = Rows<ExprRow>;

/// The groups of members that a program's loops run.
pub type Groups = Rows<GroupRow>;

/// The exchanges of a program.
pub type Exchanges = Rows<ExchangeRow>;

/// The instructions of a program.
pub type Code = Rows<Instr>;

/// What a program is made of. A row names another one by its number in its list, counted from 0.
#[derive(Debug, Drop)]
pub struct Tables {
    /// The grid of processors that the program is for.
    pub grid: Grid3,
    /// How many scalars each processor has; they start as 0.
    pub scalars: u32,
    /// How many cells its loops share; each is one value of the index at hand.
    pub cells: u32,
    pub slots: Slots,
    pub arrays: Arrays,
    pub texts: Texts,
    pub exprs: Exprs,
    pub groups: Groups,
    pub exchanges: Exchanges,
    pub code: Code,
}

impl Tables {
    /// Tables without rows, scalars and cells. They take no memory.
    pub fn new(alloc: Global, grid: Grid3) -> Tables
        ensures { result ≡ record {
          grid = grid;
          scalars = 0;
          cells = 0;
          slots = [];
          arrays = [];
          texts = [];
          exprs = [];
          groups = [];
          exchanges = [];
          code = [];
        } }
    {
        Tables {
            grid,
            scalars: 0,
            cells: 0,
            slots: Rows::new(alloc),
            arrays: Rows::new(alloc),
            texts: Rows::new(alloc),
            exprs: Rows::new(alloc),
            groups: Rows::new(alloc),
            exchanges: Rows::new(alloc),
            code: Rows::new(alloc),
        }
    }
}
