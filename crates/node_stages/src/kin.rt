//! From whom a processor takes values, and to whom it sends what they and its own come to.
ghost use Rattle.std.specs.Prelude.{◌≡◌, ◌<◌, ◌≤◌, ℕ, length, slice_get, Some};
ghost use Rattle.grid_meaning.specs.Collective.{agreeing_stages, star, tree};
ghost use Rattle.grid_meaning.specs.Local.{processors};
ghost use Rattle.grid_meaning.specs.of_node_form.declared.tables.Tables.{Tables as Code};
ghost use Rattle.node_stages.specs.Kin.{stages_behind, telling_stages};
ghost use Rattle.node_stages.specs.Stage.{staged};

use crate::stages::Stage;
use reduce_plan::{children, parent};
use std::marker::Model;

/// From whom a processor takes values, and to whom it sends what they and its own come to: its
/// children, and its parent, if it has one. Processor 0 learns what all come to, and tells it.
#[derive(Debug, Drop)]
pub struct Kin {
    first: u32,
    many: u32,
    parent: Option<u32>,
}

impl Model for Kin {
    ghost use Rattle.grid_meaning.specs.Collective.{Kin};

    ghost Value = { Kin };

    ghost use Rattle.node_stages.specs.Kin.{AreNumbers, kin_of};

    ghost view = { kin_of };

    ghost invariant = { AreNumbers };
}

impl Kin {
    /// All other processors, of `count`, are children of processor 0.
    pub fn star(count: u32, p: u32) -> Kin
        requires { p < count }
        ensures { (code : Code) → processors code ≡ count → result ≡ star code p }
    {
        if p == 0 {
            Kin {
                first: 1,
                many: count - 1,
                parent: None,
            }
        } else {
            Kin {
                first: 0,
                many: 0,
                parent: Some(0),
            }
        }
    }

    /// The processors, `count` of them, are a tree in which the children of p are 2p + 1 and
    /// 2p + 2.
    pub fn tree(count: u32, p: u32) -> Kin
        requires { p < count }
        ensures { (code : Code) → processors code ≡ count → result ≡ tree code p }
    {
        let parent = parent(p);
        match children(p, count) {
            [Some(first), Some(_)] => Kin {
                first,
                many: 2,
                parent,
            },
            [Some(first), None] => Kin {
                first,
                many: 1,
                parent,
            },
            [None, _] => Kin {
                first: 0,
                many: 0,
                parent,
            },
        }
    }

    /// The parent: none of processor 0.
    pub fn parent(&self) -> Option<u32>
        ensures { result ≡ self.now.parent }
    {
        self.parent
    }

    /// What the processor does when it has made so many turns of the row.
    pub fn stage(&self, made: u64) -> Stage
        requires { made < length (agreeing_stages self.now) }
        ensures { slice_get (agreeing_stages self.now) made ≡ Some (staged result) }
    {
        let many = u64::from(self.many);
        if made < many {
            Stage::TakesFrom(self.first + made as u32)
        } else {
            self.later_stage(made - many)
        }
    }

    /// The stage behind those in which the children's values come.
    fn later_stage(&self, k: u64) -> Stage
        requires { k < length (stages_behind self.now) }
        ensures { slice_get (stages_behind self.now) k ≡ Some (staged result) }
    {
        match self.parent {
            None => self.telling_stage(k),
            Some(parent) => match k {
                0 => Stage::Sends(parent),
                1 => Stage::TakesFrom(parent),
                _ => self.telling_stage(k - 2),
            },
        }
    }

    /// The stage once it is known what all come to.
    fn telling_stage(&self, k: u64) -> Stage
        requires { k < length (telling_stages self.now) }
        ensures { slice_get (telling_stages self.now) k ≡ Some (staged result) }
    {
        if k < u64::from(self.many) {
            Stage::Sends(self.first + k as u32)
        } else {
            Stage::Last
        }
    }
}
