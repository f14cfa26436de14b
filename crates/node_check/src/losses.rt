//! Facts that an instruction loses.
ghost use Rattle.std.specs.Prelude.{◌≡◌, filter, flat_map, IfOk, not};
ghost use Rattle.code_parts.specs.Uses.{accumulated_by, written_slots};
ghost use Rattle.node_check.specs.Learn.{changed_scalars, is_among, loses, roomed_arrays};
ghost use Rattle.node_check.specs.Front.{loses_none};

use crate::facts::Fact;
use crate::lists::members_of;
use node_form::{Instr, Member, Tables};
use std::alloc::{AllocError, Global};

/// The facts without those that the instruction loses.
pub(crate) fn kept(
    alloc: Global,
    tables: &Tables,
    facts: Vec<Fact>,
    row: &Instr,
) -> Result<Vec<Fact>, AllocError>
    ensures { IfOk result (λ left. left.items
        ≡ filter (λ fact. not (loses tables.now row.now fact)) facts.items) }
{
    if loses_none(row) {
        return Ok(facts);
    }
    facts
        .iter()
        .filter(|fact| !loses(tables, row, fact))
        .copied()
        .collect(alloc)
}

fn loses_none(row: &Instr) -> bool
    ensures { result ≡ loses_none row.now }
{
    match *row {
        Instr::Set { .. }
        | Instr::Fix { .. }
        | Instr::Dims { .. }
        | Instr::Formed { .. }
        | Instr::Room { .. }
        | Instr::Loop { .. } => false,
        _ => true,
    }
}

fn loses(tables: &Tables, row: &Instr, fact: &Fact) -> bool
    ensures { result ≡ loses tables.now row.now fact.now }
{
    match *fact {
        Fact::Uniform { scalar } => changes_scalar(tables, row, scalar),
        Fact::Stands { slot, .. } => writes_slot(row, slot),
        Fact::Made { slot, from, .. } => writes_slot(row, slot) || writes_slot(row, from),
        Fact::Held { slot, array, .. } => writes_slot(row, slot) || makes_room(row, array),
        Fact::Agree { target, source, .. } => writes_slot(row, target) || writes_slot(row, source),
        Fact::Border { slot, .. } => writes_slot(row, slot),
    }
}

/// Whether the instruction writes the slot.
pub(crate) fn writes_slot(row: &Instr, number: u32) -> bool
    ensures { result ≡ is_among (written_slots row.now) number }
{
    match *row {
        Instr::Fix { slot, .. } => slot == number,
        Instr::Dims { slot, .. } => slot == number,
        Instr::Formed { slot, .. } => slot == number,
        _ => false,
    }
}

fn makes_room(row: &Instr, number: u32) -> bool
    ensures { result ≡ is_among (roomed_arrays row.now) number }
{
    match *row {
        Instr::Room { array, .. } => array == number,
        _ => false,
    }
}

fn changes_scalar(tables: &Tables, row: &Instr, number: u32) -> bool
    ensures { result ≡ is_among (changed_scalars tables.now row.now) number }
{
    match *row {
        Instr::Set { scalar, .. } => scalar == number,
        Instr::Loop { group, .. } => accumulates(members_of(tables, group), number),
        _ => false,
    }
}

fn accumulates(members: &[Member], number: u32) -> bool
    ensures { result ≡ is_among (flat_map accumulated_by members.now) number }
{
    for member in members {
        if is_accumulated(member, number) {
            return true;
        }
    }
    false
}

fn is_accumulated(member: &Member, number: u32) -> bool
    ensures { result ≡ is_among (accumulated_by member.now) number }
{
    match *member {
        Member::Acc { scalar, .. } => scalar == number,
        _ => false,
    }
}
