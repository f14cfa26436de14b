//! Groups that grow by those of later loops.
ghost use Rattle.std.specs.Prelude.{◌≡◌, [], IfOk, OnOk, flat_map, fold};
ghost use Rattle.std.specs.List.{list_all};
ghost use Rattle.temp_norm.specs.of_code_parts.Uses.{accumulated_by, share};
ghost use Rattle.temp_norm.specs.Normalised.{is_like, is_same_kind};
ghost use Rattle.fuse_contract.specs.Fusing.{are_like, are_put_alike};
ghost use Rattle.fuse_contract.specs.Joining.{
  all_totals,
  can_take,
  no_numbers,
  with_number,
  with_uses,
};

use crate::uses::GroupUses;
use indexmap::IndexSet;
use std::alloc::{AllocError, Global};
use std::marker::Model;
use temp_norm::node_form::{ArrayDim, ArrayRow, Member, Rows, Tables};

/// Numbers, each once. Contracts see them as their list, in the order in which they came.
#[derive(Drop)]
pub(crate) struct NumberSet {
    numbers: IndexSet<u32>,
}

impl Model for NumberSet {
    ghost use Rattle.std.specs.Prelude.{ℕ, List};

    ghost Value = { List ℕ };

    ghost view = { λ set. set.numbers.keys };
}

impl NumberSet {
    fn new(alloc: Global) -> NumberSet
        ensures { result ≡ [] }
    {
        NumberSet {
            numbers: IndexSet::new(alloc),
        }
    }

    fn add(&mut self, number: u32) -> Result<(), AllocError>
        ensures { OnOk result (self.new ≡ with_number self.old number) }
    {
        self.numbers.insert(number)?;
        Ok(())
    }

    /// Adds the scalars that members accumulate.
    fn add_totals(&mut self, members: &[Member]) -> Result<(), AllocError>
        ensures { OnOk result
            (self.new ≡ fold with_number self.old (flat_map accumulated_by members.now)) }
    {
        for member in members {
            self.add_total(member)?;
        }
        Ok(())
    }

    fn add_total(&mut self, member: &Member) -> Result<(), AllocError>
        ensures { OnOk result (self.new ≡ fold with_number self.old (accumulated_by member.now)) }
    {
        match *member {
            Member::Acc { scalar, .. } => self.add(scalar),
            _ => Ok(()),
        }
    }

    /// Adds each of these, unless it is there.
    fn add_all(&mut self, numbers: &Rows<u32>) -> Result<(), AllocError>
        ensures { OnOk result (self.new ≡ fold with_number self.old numbers.now) }
    {
        for i in 0..numbers.len() {
            self.add(*numbers.get(i).unwrap())?;
        }
        Ok(())
    }

    /// Whether one of these is there.
    fn shares(&self, numbers: &Rows<u32>) -> bool
        ensures { result ≡ share numbers.now self.now }
    {
        for i in 0..numbers.len() {
            if self.numbers.contains(numbers.get(i).unwrap()) {
                return true;
            }
        }
        false
    }

    /// Whether the first of these arrays is like each of the others; where there is none, whether
    /// there are no others.
    fn are_like(&self, tables: &Tables, others: &Rows<u32>) -> bool
        ensures { result ≡ are_put_alike tables.now self.now others.now }
    {
        match self.numbers.first() {
            Some(array) => all_like(tables, *array, others),
            None => others.len() == 0,
        }
    }
}

fn all_like(tables: &Tables, array: u32, others: &Rows<u32>) -> bool
    ensures { result ≡ list_all (are_like tables.now array) others.now }
{
    for i in 0..others.len() {
        if !are_like(tables, array, *others.get(i).unwrap()) {
            return false;
        }
    }
    true
}

/// Whether two arrays have one rank and the same flood dimensions.
fn are_like(tables: &Tables, array: u32, other: u32) -> bool
    ensures { result ≡ are_like tables.now array other }
{
    let Some(row) = tables.arrays.get(u64::from(array)) else {
        return false
    };
    let Some(other_row) = tables.arrays.get(u64::from(other)) else {
        return false
    };
    is_like(row, other_row)
}

fn is_like(row: &ArrayRow, other: &ArrayRow) -> bool
    ensures { result ≡ is_like row.now other.now }
{
    let [planes, rows, columns] = row.dims;
    let [other_planes, other_rows, other_columns] = other.dims;
    row.rank == other.rank
        && is_same_kind(planes, other_planes)
        && is_same_kind(rows, other_rows)
        && is_same_kind(columns, other_columns)
}

fn is_same_kind(dim: ArrayDim, other: ArrayDim) -> bool
    ensures { result ≡ is_same_kind dim other }
{
    match dim {
        ArrayDim::Range { .. } => matches!(other, ArrayDim::Range { .. }),
        ArrayDim::Star => matches!(other, ArrayDim::Star),
    }
}

/// The scalars that some group accumulates. Each member is looked at once.
pub(crate) fn totals_of(alloc: Global, tables: &Tables) -> Result<NumberSet, AllocError>
    ensures { IfOk result (λ totals. totals ≡ all_totals tables.now) }
{
    let mut totals = NumberSet::new(alloc);
    for group in 0..tables.groups.len() {
        let members = tables.groups.get(group).unwrap().as_slice();
        totals.add_totals(members)?;
    }
    Ok(totals)
}

/// The arrays that a group that grows puts, and those that it reads with a shift, each once; and
/// whether it has `while` or `repeat`, or accumulates.
#[derive(Drop)]
pub(crate) struct UsedNumbers {
    pub puts: NumberSet,
    pub shifted: NumberSet,
    pub alone: bool,
}

impl UsedNumbers {
    pub(crate) fn new(alloc: Global) -> UsedNumbers
        ensures { result ≡ no_numbers }
    {
        UsedNumbers {
            puts: NumberSet::new(alloc),
            shifted: NumberSet::new(alloc),
            alone: false,
        }
    }

    pub(crate) fn add(&mut self, uses: &GroupUses) -> Result<(), AllocError>
        ensures { OnOk result (self.new ≡ with_uses self.old uses.now) }
    {
        self.puts.add_all(&uses.puts)?;
        self.shifted.add_all(&uses.shifted)?;
        self.alone = self.alone || uses.alone;
        Ok(())
    }

    /// Whether the other group can be joined to the one that grows, where these are the scalars
    /// that groups accumulate. It takes a time linear in the other one.
    pub(crate) fn can_take(&self, tables: &Tables, totals: &NumberSet, uses: &GroupUses) -> bool
        requires totals { totals.now ≡ all_totals tables.now }
        ensures { result ≡ can_take tables.now self.now uses.now }
    {
        !self.alone
            && !uses.alone
            && !self.puts.shares(&uses.shifted)
            && !self.shifted.shares(&uses.puts)
            && !totals.shares(&uses.scalars)
            && self.puts.are_like(tables, &uses.puts)
    }
}
