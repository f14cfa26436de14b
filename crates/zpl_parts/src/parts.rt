//! The parts of a text, and lists of them.
ghost use Rattle.std.specs.Prelude.{◌≡◌, ◌∷◌, ◌++◌, [], OnOk, map};
ghost use Rattle.zpl_binding.specs.of_zpl_tree.View.{base_of, exprs_of, posts_of, pre_of};
ghost use Rattle.zpl_parts.specs.View.{part_of, seen};
ghost use Rattle.zpl_parts.specs.Walk.{border_parts, vector_parts};

use std::alloc::{AllocError, Global};
use zpl_tree::{Dir, Expr, Name, Post, Pre, RegionBase};

/// A part of a text.
#[derive(Clone, Copy)]
pub enum Part<'a> {
    /// The components of a vector that stands in a statement.
    Vector(&'a [Expr<'a>]),
    /// A direction and a region: `d of R`, with nothing behind it.
    Border(Name<'a>, Name<'a>),
    /// An array that is read as if it were a torus, and its shift: `A@^d`.
    Around(Name<'a>, Dir<'a>),
    /// A call with its actuals.
    Call(Name<'a>, &'a [Expr<'a>]),
}

/// Parts, in the order of the text.
#[derive(Drop)]
pub struct Parts<'a> {
    items: Vec<Part<'a>>,
}

impl<'a> Parts<'a> {
    /// No part so far. It takes no memory.
    pub(crate) fn new(alloc: Global) -> Parts<'a>
        ensures { seen result ≡ [] }
    {
        Parts {
            items: Vec::new(alloc),
        }
    }

    /// The parts.
    pub fn as_slice(&self) -> &[Part<'a>]
        ensures { map part_of result.now ≡ seen self.now }
    {
        &self.items
    }

    /// Appends a part.
    pub(crate) fn put(&mut self, part: Part<'a>) -> Result<(), AllocError>
        ensures { OnOk result (seen self.new ≡ seen self.old ++ part_of part.entry ∷ []) }
    {
        self.items.push(part)?;
        Ok(())
    }

    /// Appends a vector, unless it stands in a declaration.
    pub(crate) fn put_vector(
        &mut self,
        declared: bool,
        parts: &'a [Expr<'a>],
    ) -> Result<(), AllocError>
        ensures { OnOk result (seen self.new ≡ seen self.old
            ++ vector_parts declared (exprs_of parts.entry.now)) }
    {
        if declared {
            Ok(())
        } else {
            self.put(Part::Vector(parts))
        }
    }

    /// Appends the border that a region expression is, if it is one.
    pub(crate) fn put_border(
        &mut self,
        pre: &[Pre<'a>],
        base: &RegionBase<'a>,
        post: &[Post<'a>],
    ) -> Result<(), AllocError>
        ensures { OnOk result (seen self.new ≡ seen self.old
            ++ border_parts (map pre_of pre.now) (base_of base.now) (posts_of post.now)) }
    {
        let RegionBase::Named(region) = base else {
            return Ok(());
        };
        if !post.is_empty() {
            return Ok(());
        }
        match pre.split_last() {
            Some((last, _)) if last.outside => self.put(Part::Border(last.dir, *region)),
            _ => Ok(()),
        }
    }
}
