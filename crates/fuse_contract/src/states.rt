//! Which arrays become cells.
ghost use Rattle.std.specs.Prelude.{◌≡◌, IfOk, OnOk, fold, flat_map, replicate};
ghost use Rattle.std.specs.List.{filter_map, list_any};
ghost use Rattle.temp_norm.specs.of_node_form.Group.{depth_behind};
ghost use Rattle.temp_norm.specs.of_code_parts.Uses.{arrays_in, as_list, put_by, words_of};
ghost use Rattle.fuse_contract.specs.declared.states.CellState.TheVariants as state;
ghost use Rattle.fuse_contract.specs.Contracting.{begins_it, is_among};
ghost use Rattle.fuse_contract.specs.Naming.{
  all_noted,
  member_noted,
  members_noted,
  named,
  noted,
  put_noted,
  row_noted,
  rows_noted,
  set_apart,
  word_names,
  word_noted,
};

use crate::uses::{Exprs, exprs_of};
use plan_form::words_of;
use std::alloc::{AllocError, Global};
use temp_norm::node_form::{ExprOp, Instr, Member, Tables};

/// What the names of an array, so far, say of it.
#[derive(Clone, Copy)]
pub(crate) enum CellState {
    /// Nothing names it.
    Unnamed,
    /// The group of this number alone names it, and begins with a put that makes it a cell.
    Begun(u64),
    /// It stays an array.
    Apart,
}

/// What the rows and the groups say of each array. One walk over the rows and one over the groups
/// find it, at each member and each of its words.
pub(crate) fn states_of(alloc: Global, tables: &Tables) -> Result<Vec<CellState>, AllocError>
    ensures { IfOk result (λ states. states.items ≡ all_noted tables.now) }
{
    let mut states = rows_noted(alloc, tables)?;
    for group in 0..tables.groups.len() {
        let members = tables.groups.get(group).unwrap().as_slice();
        note_members(&mut states, tables, group, members)?;
    }
    Ok(states)
}

fn rows_noted(alloc: Global, tables: &Tables) -> Result<Vec<CellState>, AllocError>
    ensures { IfOk result (λ states. states.items ≡ rows_noted tables.now) }
{
    let mut states = unnamed(alloc, tables.arrays.len())?;
    for i in 0..tables.code.len() {
        let row = *tables.code.get(i).unwrap();
        note_row(&mut states, row);
    }
    Ok(states)
}

fn unnamed(alloc: Global, arrays: u64) -> Result<Vec<CellState>, AllocError>
    ensures { IfOk result (λ states. states.items ≡ replicate arrays state.Unnamed) }
{
    let mut states = Vec::new(alloc);
    for _ in 0..arrays {
        states.push(CellState::Unnamed)?;
    }
    Ok(states)
}

fn note_row(states: &mut Vec<CellState>, row: Instr)
    ensures { states.new.items ≡ row_noted states.old.items row }
{
    match row {
        Instr::Edge { array, .. } | Instr::Gather { array, .. } => set_apart(states, array),
        Instr::Flood { array, from, .. } | Instr::Part { array, from, .. } => {
            set_apart(states, array);
            set_apart(states, from);
        }
        Instr::Scan {
            array,
            from,
            mask,
            ..
        } => {
            set_apart(states, array);
            set_apart(states, from);
            set_each_apart(states, mask);
        }
        Instr::Remap {
            array,
            from,
            parts,
            ..
        } => {
            set_apart(states, array);
            set_apart(states, from);
            set_parts_apart(states, &parts);
        }
        _ => {}
    }
}

fn set_parts_apart(states: &mut Vec<CellState>, parts: &[Option<u32>])
    ensures { states.new.items
        ≡ fold (noted set_apart) states.old.items (filter_map (λ part. part) parts.now) }
{
    for part in parts {
        set_each_apart(states, *part);
    }
}

fn set_each_apart(states: &mut Vec<CellState>, array: Option<u32>)
    ensures { states.new.items ≡ fold (noted set_apart) states.old.items (as_list array) }
{
    if let Some(number) = array {
        set_apart(states, number);
    }
}

fn set_apart(states: &mut Vec<CellState>, array: u32)
    ensures { states.new.items ≡ noted set_apart states.old.items array }
{
    if (array as usize) < states.len() {
        states[array as usize] = CellState::Apart;
    }
}

fn note_name(states: &mut Vec<CellState>, array: u32, group: u64, begins: bool)
    ensures { states.new.items ≡ noted (named begins group) states.old.items array }
{
    if (array as usize) < states.len() {
        let before = states[array as usize];
        states[array as usize] = named(before, group, begins);
    }
}

fn named(before: CellState, group: u64, begins: bool) -> CellState
    ensures { result ≡ named begins group before }
{
    match before {
        CellState::Unnamed => {
            if begins {
                CellState::Begun(group)
            } else {
                CellState::Apart
            }
        }
        CellState::Begun(other) => {
            if other == group {
                CellState::Begun(other)
            } else {
                CellState::Apart
            }
        }
        CellState::Apart => CellState::Apart,
    }
}

fn note_members(
    states: &mut Vec<CellState>,
    tables: &Tables,
    group: u64,
    members: &[Member],
) -> Result<(), AllocError>
    ensures { OnOk result (states.new.items
        ≡ members_noted tables.now group 0 states.old.items members.now) }
{
    let mut depth = 0;
    for member in members {
        note_member(states, tables, group, depth, member);
        depth = depth_behind(depth, member)?;
    }
    Ok(())
}

// How many members are open behind one.
fn depth_behind(depth: u64, member: &Member) -> Result<u64, AllocError>
    ensures { IfOk result (λ behind. behind ≡ depth_behind depth member.now) }
{
    match *member {
        Member::OpenIf { .. } | Member::OpenWhile { .. } | Member::OpenRepeat { .. } => {
            depth.checked_add(1).ok_or(AllocError)
        }
        Member::CloseIf | Member::CloseWhile | Member::Until { .. } => Ok(depth.saturating_sub(1)),
        _ => Ok(depth),
    }
}

fn note_member(
    states: &mut Vec<CellState>,
    tables: &Tables,
    group: u64,
    depth: u64,
    member: &Member,
)
    ensures { states.new.items
        ≡ member_noted tables.now group depth states.old.items member.now }
{
    note_put(states, tables, group, depth, member);
    let Exprs { expr, mask } = exprs_of(member);
    note_words(states, tables, group, expr);
    note_words(states, tables, group, mask);
}

fn note_put(states: &mut Vec<CellState>, tables: &Tables, group: u64, depth: u64, member: &Member)
    ensures { states.new.items
        ≡ fold (put_noted tables.now group depth member.now) states.old.items (put_by member.now) }
{
    if let Member::Put { array, .. } = *member {
        note_name(
            states,
            array,
            group,
            begins_it(tables, array, depth, member),
        );
    }
}

/// Whether the member, with so many others open around it, puts the array without a mask and
/// outside `if`, `while` and `repeat`, and its expression doesn't name it.
fn begins_it(tables: &Tables, array: u32, depth: u64, member: &Member) -> bool
    ensures { result ≡ begins_it tables.now array depth member.now }
{
    depth == 0 && begins_outermost(tables, array, member)
}

fn begins_outermost(tables: &Tables, array: u32, member: &Member) -> bool
    ensures { result ≡ begins_it tables.now array 0 member.now }
{
    match *member {
        Member::Put {
            array: other,
            expr,
            mask: None,
            ..
        } => other == array && !names(words_of(tables, expr), array),
        _ => false,
    }
}

fn names(words: &[ExprOp], array: u32) -> bool
    ensures { result ≡ is_among array (flat_map arrays_in words.now) }
{
    some_names(words, array)
}

fn some_names(words: &[ExprOp], array: u32) -> bool
    ensures { result ≡ list_any (λ one. word_names array one) words.now }
{
    words.iter().any(|word| word_names(word, array))
}

fn word_names(word: &ExprOp, array: u32) -> bool
    ensures { result ≡ word_names array word.now }
{
    match *word {
        ExprOp::Here(other) => other == array,
        ExprOp::Shifted(other, _) => other == array,
        _ => false,
    }
}

fn note_words(states: &mut Vec<CellState>, tables: &Tables, group: u64, expr: Option<u32>)
    ensures { states.new.items
        ≡ fold (word_noted group) states.old.items
        (flat_map (words_of tables.now) (as_list expr)) }
{
    let Some(number) = expr else { return };
    for word in words_of(tables, number) {
        note_word(states, group, word);
    }
}

fn note_word(states: &mut Vec<CellState>, group: u64, word: &ExprOp)
    ensures { states.new.items ≡ word_noted group states.old.items word.now }
{
    match *word {
        ExprOp::Here(array) => note_name(states, array, group, false),
        ExprOp::Shifted(array, _) => set_apart(states, array),
        _ => {}
    }
}
