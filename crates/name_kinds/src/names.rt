//! Tables of names.
ghost use Rattle.std.specs.Prelude.{◌≡◌, [], IfOk};
ghost use Rattle.zpl_names.specs.Scope.{kind_in};
ghost use Rattle.zpl_tree.specs.View.{name_of};
ghost use Rattle.name_kinds.specs.Names.{Adds};
ghost use Rattle.name_kinds.specs.Seen.{kind_of, known_of};

use crate::kinds::Kind;
use indexmap::IndexMap;
use std::alloc::{AllocError, Global};
use std::marker::Model;
use zpl_tree::Name;

/// Where a name is declared, and what it stands for.
#[derive(Clone, Copy)]
pub struct Known<'a> {
    /// The offset of the name.
    pub at: u32,
    /// What it stands for.
    pub kind: Kind<'a>,
}

/// Names with what they stand for, in the order in which they were added. No two are the same.
#[derive(Drop)]
pub struct Names<'a> {
    entries: IndexMap<&'a [u8], Known<'a>>,
}

impl<'a> Model for Names<'a> {
    ghost use Rattle.std.specs.Prelude.{List, map};
    ghost use Rattle.zpl_names.specs.Scope.{Entry};
    ghost use Rattle.name_kinds.specs.Names.{entry_of};

    ghost Value = { List Entry };

    ghost view = { λ names. map entry_of names.entries.entries };
}

impl<'a> Names<'a> {
    /// No names.
    pub fn new(alloc: Global) -> Names<'a>
        ensures { result ≡ [] }
    {
        Names {
            entries: IndexMap::new(alloc),
        }
    }

    /// Adds a name, and answers whether it is new. One that is there stays as it is.
    pub fn add(&mut self, name: &Name<'a>, kind: Kind<'a>) -> Result<bool, AllocError>
        ensures { IfOk result (Adds (name_of name.now) (kind_of kind.entry) self.old self.new) }
    {
        if self.entries.contains_key(name.text) {
            return Ok(false);
        }
        let known = Known { at: name.at, kind };
        self.entries.insert(name.text, known)?;
        Ok(true)
    }

    /// What a name stands for, if it is there.
    pub fn find(&self, text: &[u8]) -> Option<Kind<'a>>
        ensures { known_of result ≡ kind_in self.now text.now }
    {
        match self.entries.get(text) {
            Some(known) => Some(known.kind),
            None => None,
        }
    }
}
