//! Which scalars, slots and arrays a row reads and writes.
ghost use Rattle.std.specs.Prelude.{◌≡◌, ◌↔◌, IsTrue, slice_get, Any};
ghost use Rattle.std.specs.Option.{IsSomeAnd};
ghost use Rattle.node_form.specs.Touch.{
  IsNamed,
  IsNamedByExchange,
  IsNamedByExpr,
  IsNamedByGroup,
  IsNamedByItem,
  IsNamedByMask,
  IsNamedByMember,
  IsNamedByPart,
  IsNamedByWord,
  IsTouch,
  IsWritten,
  IsWrittenByMember,
};

use crate::arrays::Item;
use crate::instructions::{DimRow, Instr};
use crate::members::Member;
use crate::tables::Tables;
use crate::words::ExprOp;

/// A thing that a row may read or write, by its number.
#[derive(Clone, Copy, Debug, PartialEq, Eq)]
pub enum Thing {
    Scalar(u32),
    Slot(u32),
    Array(u32),
}

/// What a row does with a thing.
#[derive(Clone, Copy, Debug, PartialEq, Eq)]
pub enum Touch {
    /// It neither reads nor writes it.
    No,
    /// It may read it, and doesn't write it.
    Reads,
    /// It writes it, and may read it.
    Writes,
}

impl Tables {
    /// What the instruction with number `at` does with the thing: `Writes` for what it changes,
    /// `Reads` for what else the row names, or an expression of it, or its loop's group or an
    /// expression of that, or the exchange of its start or finish; and `No` where there is no such
    /// instruction. It takes no memory.
    pub fn touches(&self, at: u32, thing: Thing) -> Touch
        ensures { IsTouch self.now (slice_get self.now.code at) thing result }
    {
        let Some(instr) = self.code.get(u64::from(at)) else {
            return Touch::No;
        };
        if self.writes(instr, thing) {
            Touch::Writes
        } else if self.names(instr, thing) {
            Touch::Reads
        } else {
            Touch::No
        }
    }

    fn writes(&self, instr: &Instr, thing: Thing) -> bool
        ensures { IsTrue result ↔ IsWritten self.now instr.now thing }
    {
        match *instr {
            Instr::Set { scalar, .. }
            | Instr::Fold { scalar, .. }
            | Instr::TreeFold { scalar, .. } => thing == Thing::Scalar(scalar),
            Instr::Fix { slot, .. } | Instr::Dims { slot, .. } | Instr::Formed { slot, .. } => {
                thing == Thing::Slot(slot)
            }
            Instr::Room { array, .. }
            | Instr::Clear { array }
            | Instr::Edge { array, .. }
            | Instr::Flood { array, .. }
            | Instr::Part { array, .. }
            | Instr::Scan { array, .. }
            | Instr::Remap { array, .. } => thing == Thing::Array(array),
            Instr::Loop { group, .. } => match self.groups.get(u64::from(group)) {
                Some(members) => members
                    .as_slice()
                    .iter()
                    .any(|row| member_writes(row, thing)),
                None => false,
            },
            Instr::Finish { exchange } => match self.exchanges.get(u64::from(exchange)) {
                Some(items) => items
                    .as_slice()
                    .iter()
                    .any(|item| thing == Thing::Array(item.array)),
                None => false,
            },
            Instr::Need { .. }
            | Instr::Same { .. }
            | Instr::Fits { .. }
            | Instr::Start { .. }
            | Instr::Vote { .. }
            | Instr::TreeVote { .. }
            | Instr::Print { .. }
            | Instr::Number { .. }
            | Instr::Truth { .. }
            | Instr::Gather { .. }
            | Instr::Jump { .. }
            | Instr::Unless { .. }
            | Instr::Trap { .. }
            | Instr::End => false,
        }
    }

    fn names(&self, instr: &Instr, thing: Thing) -> bool
        ensures { IsTrue result ↔ IsNamed self.now instr.now thing }
    {
        match *instr {
            Instr::Set { scalar, expr, .. } => {
                thing == Thing::Scalar(scalar) || self.expr_names(expr, thing)
            }
            Instr::Number { expr } | Instr::Truth { expr } | Instr::Unless { expr, .. } => {
                self.expr_names(expr, thing)
            }
            Instr::Fold { scalar, .. } | Instr::TreeFold { scalar, .. } => {
                thing == Thing::Scalar(scalar)
            }
            Instr::Fix { slot, .. } | Instr::Fits { slot, .. } => thing == Thing::Slot(slot),
            Instr::Dims { slot, parts, .. } => {
                thing == Thing::Slot(slot) || self.parts_name(&parts, thing)
            }
            Instr::Formed {
                slot: one,
                from: other,
                ..
            }
            | Instr::Same {
                target: one,
                source: other,
                ..
            } => thing == Thing::Slot(one) || thing == Thing::Slot(other),
            Instr::Need { slot, array, .. } => {
                thing == Thing::Slot(slot) || thing == Thing::Array(array)
            }
            Instr::Room { array, slot }
            | Instr::Edge { array, slot, .. }
            | Instr::Gather { array, slot, .. } => {
                thing == Thing::Array(array) || thing == Thing::Slot(slot)
            }
            Instr::Clear { array } => thing == Thing::Array(array),
            Instr::Loop { slot, group } => {
                thing == Thing::Slot(slot) || self.group_names(group, thing)
            }
            Instr::Start { exchange } | Instr::Finish { exchange } => {
                self.exchange_names(exchange, thing)
            }
            Instr::Flood {
                array,
                target,
                from,
                source,
            }
            | Instr::Part {
                array,
                target,
                from,
                source,
                ..
            } => {
                thing == Thing::Array(array)
                    || thing == Thing::Slot(target)
                    || thing == Thing::Array(from)
                    || thing == Thing::Slot(source)
            }
            Instr::Scan {
                array,
                slot,
                from,
                mask,
                ..
            } => {
                thing == Thing::Array(array)
                    || thing == Thing::Slot(slot)
                    || thing == Thing::Array(from)
                    || is_array(mask, thing)
            }
            Instr::Remap {
                array,
                slot,
                from,
                parts,
            } => {
                thing == Thing::Array(array)
                    || thing == Thing::Slot(slot)
                    || thing == Thing::Array(from)
                    || contains_array(&parts, thing)
            }
            Instr::Vote { .. }
            | Instr::TreeVote { .. }
            | Instr::Print { .. }
            | Instr::Jump { .. }
            | Instr::Trap { .. }
            | Instr::End => false,
        }
    }

    fn expr_names(&self, expr: u32, thing: Thing) -> bool
        ensures { IsTrue result ↔ IsNamedByExpr self.now thing expr }
    {
        match self.exprs.get(u64::from(expr)) {
            Some(words) => words.as_slice().iter().any(|word| word_names(word, thing)),
            None => false,
        }
    }

    fn mask_names(&self, mask: Option<u32>, thing: Thing) -> bool
        ensures { IsTrue result ↔ IsNamedByMask self.now thing mask }
    {
        match mask {
            Some(expr) => self.expr_names(expr, thing),
            None => false,
        }
    }

    fn parts_name(&self, parts: &[DimRow; 3], thing: Thing) -> bool
        ensures { IsTrue result ↔ Any (IsNamedByPart self.now thing) parts.now }
    {
        parts.iter().any(|part| self.part_names(part, thing))
    }

    fn part_names(&self, part: &DimRow, thing: Thing) -> bool
        ensures { IsTrue result ↔ IsNamedByPart self.now thing part.now }
    {
        match *part {
            DimRow::Span(low, high) => self.expr_names(low, thing) || self.expr_names(high, thing),
            DimRow::Star => false,
            DimRow::Copied(slot) => thing == Thing::Slot(slot),
        }
    }

    fn group_names(&self, group: u32, thing: Thing) -> bool
        ensures { IsTrue result ↔ IsNamedByGroup self.now thing group }
    {
        match self.groups.get(u64::from(group)) {
            Some(members) => members
                .as_slice()
                .iter()
                .any(|member| self.member_names(member, thing)),
            None => false,
        }
    }

    fn member_names(&self, member: &Member, thing: Thing) -> bool
        ensures { IsTrue result ↔ IsNamedByMember self.now thing member.now }
    {
        match *member {
            Member::Put {
                array,
                expr,
                mask,
                ..
            } => {
                thing == Thing::Array(array)
                    || self.expr_names(expr, thing)
                    || self.mask_names(mask, thing)
            }
            Member::Acc {
                scalar,
                expr,
                mask,
                ..
            } => {
                thing == Thing::Scalar(scalar)
                    || self.expr_names(expr, thing)
                    || self.mask_names(mask, thing)
            }
            Member::Cell { expr, mask, .. }
            | Member::OpenIf { expr, mask, .. }
            | Member::OpenWhile { expr, mask, .. } => {
                self.expr_names(expr, thing) || self.mask_names(mask, thing)
            }
            Member::OpenRepeat { mask, .. } => self.mask_names(mask, thing),
            Member::Until { expr } => self.expr_names(expr, thing),
            Member::Otherwise | Member::CloseIf | Member::CloseWhile => false,
        }
    }

    fn exchange_names(&self, exchange: u32, thing: Thing) -> bool
        ensures { IsTrue result ↔ IsNamedByExchange self.now thing exchange }
    {
        match self.exchanges.get(u64::from(exchange)) {
            Some(items) => items.as_slice().iter().any(|item| item_names(item, thing)),
            None => false,
        }
    }
}

fn member_writes(member: &Member, thing: Thing) -> bool
    ensures { IsTrue result ↔ IsWrittenByMember thing member.now }
{
    match *member {
        Member::Put { array, .. } => thing == Thing::Array(array),
        Member::Acc { scalar, .. } => thing == Thing::Scalar(scalar),
        _ => false,
    }
}

fn word_names(word: &ExprOp, thing: Thing) -> bool
    ensures { IsTrue result ↔ IsNamedByWord thing word.now }
{
    match *word {
        ExprOp::Scalar(scalar) => thing == Thing::Scalar(scalar),
        ExprOp::Here(array) | ExprOp::Shifted(array, _) => thing == Thing::Array(array),
        _ => false,
    }
}

fn item_names(item: &Item, thing: Thing) -> bool
    ensures { IsTrue result ↔ IsNamedByItem thing item.now }
{
    thing == Thing::Array(item.array) || thing == Thing::Slot(item.slot)
}

/// Whether the thing is the array, if there is one.
fn is_array(array: Option<u32>, thing: Thing) -> bool
    ensures { IsTrue result ↔ IsSomeAnd array (λ number. thing ≡ Thing.Array number) }
{
    match array {
        Some(number) => thing == Thing::Array(number),
        None => false,
    }
}

/// Whether the thing is one of the arrays.
fn contains_array(arrays: &[Option<u32>; 3], thing: Thing) -> bool
    ensures { IsTrue result
        ↔ Any (λ array. IsSomeAnd array (λ number. thing ≡ Thing.Array number)) arrays.now }
{
    arrays.iter().any(|array| is_array(*array, thing))
}
