//! The parts of a processor's state, told one by one.
ghost use Rattle.std.specs.Prelude.{◌≡◌};

use grid_meaning::grid_links::Words;
use grid_meaning::zpl_nums::End;
use grid_meaning::zpl_region::Region;
use std::marker::Model;

/// The state of a processor. Outside a loop `index` and `member` are 0, and inside one `made` is 0.
#[derive(Drop)]
pub struct Standing {
    /// The number of the next instruction; that of instructions stands for the end.
    pub at: u64,
    /// How many turns were made in it.
    pub made: u64,
    /// How many indices of its loop are done.
    pub index: u64,
    /// The member with which the next turn of a loop begins, 0 at a new index.
    pub member: u64,
    /// The least member that met a zero divisor, until a vote.
    pub flag: Option<u64>,
    /// How the processor ended, once it has.
    pub ended: Option<End>,
    pub scalars: Words,
    pub slots: Slots,
    pub cells: Words,
    pub stores: Stores,
    /// The words of messages that were taken in this instruction and are still to be used.
    pub kept: KeptWords,
}

/// The places of an array that a processor holds, and their values in row-major order.
#[derive(Drop)]
pub struct Store {
    pub shape: Region,
    pub values: Words,
}

/// The words that are kept of a message from a processor.
#[derive(Drop)]
pub struct Kept {
    pub from: u32,
    pub words: Words,
}

/// The regions of slots, made from a `Vec` without taking memory. Contracts see the list.
#[derive(Drop)]
pub struct Slots {
    regions: Vec<Region>,
}

impl Model for Slots {
    ghost use Rattle.std.specs.Prelude.{List};
    ghost use Rattle.grid_meaning.specs.of_zpl_region.declared.regions.Region.{Region};

    ghost Value = { List Region };

    ghost view = { λ slots. slots.regions.items };
}

impl Slots {
    /// These regions.
    pub fn of(regions: Vec<Region>) -> Slots
        ensures { result ≡ regions.items }
    {
        Slots { regions }
    }

    /// The vector of the regions.
    pub(crate) fn into_vec(self) -> Vec<Region>
        ensures { result.items ≡ self }
    {
        let Slots { regions } = self;
        regions
    }
}

/// The stores of arrays, made from a `Vec` without taking memory. Contracts see the list.
#[derive(Drop)]
pub struct Stores {
    stores: Vec<Store>,
}

impl Model for Stores {
    ghost use Rattle.std.specs.Prelude.{List};
    ghost use Rattle.node_local.specs.declared.standings.Store.{Store};

    ghost Value = { List Store };

    ghost view = { λ stores. stores.stores.items };
}

impl Stores {
    /// These stores.
    pub fn of(stores: Vec<Store>) -> Stores
        ensures { result ≡ stores.items }
    {
        Stores { stores }
    }

    /// All of them, in the order of the arrays.
    pub(crate) fn as_slice(&self) -> &[Store]
        ensures { result.now ≡ self.now }
    {
        self.stores.as_slice()
    }
}

/// The words that are kept, made from a `Vec` without taking memory. Contracts see the list.
#[derive(Drop)]
pub struct KeptWords {
    kept: Vec<Kept>,
}

impl Model for KeptWords {
    ghost use Rattle.std.specs.Prelude.{List};
    ghost use Rattle.node_local.specs.declared.standings.Kept.{Kept};

    ghost Value = { List Kept };

    ghost view = { λ words. words.kept.items };
}

impl KeptWords {
    /// These words, those of one sender each.
    pub fn of(kept: Vec<Kept>) -> KeptWords
        ensures { result ≡ kept.items }
    {
        KeptWords { kept }
    }

    /// The vector of the words.
    pub(crate) fn into_vec(self) -> Vec<Kept>
        ensures { result.items ≡ self }
    {
        let KeptWords { kept } = self;
        kept
    }
}
