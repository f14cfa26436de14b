//! Cells in the place of arrays.
ghost use Rattle.std.specs.Prelude.{◌≡◌, ◌∷◌, ◌++◌, [], IfOk, OnOk, map};
ghost use Rattle.fuse_contract.specs.Contracting.{contracted, member_contracted, word_contracted};
ghost use Rattle.fuse_contract.specs.Naming.{cell_at, count_with, next_cell};
ghost use Rattle.fuse_contract.specs.Cells.{AreCells};

use crate::states::{CellState, states_of};
use std::alloc::{AllocError, Global};
use temp_norm::node_form::{ExprOp, ExprRow, Exprs, GroupRow, Groups, Member, Rows, Tables};

/// A cell for each array that becomes one, and how many cells there are with them.
#[derive(Drop)]
pub(crate) struct Cells {
    pub of_arrays: Vec<Option<u32>>,
    pub count: u32,
}

/// The tables in which arrays that one group alone names, always without a shift, and first in a
/// put that has no mask, is within no `if`, `while` or `repeat`, and doesn't read them, are cells.
/// It takes a time linear in the rows, the members and the words.
pub fn contract(alloc: Global, tables: Tables) -> Result<Tables, AllocError>
    ensures { IfOk result (λ made. made ≡ contracted tables) }
{
    let mut made = tables;
    let states = states_of(alloc, &made)?;
    let Cells { of_arrays, count } = cells_of(alloc, made.cells, &states)?;
    let exprs = exprs_with(alloc, &made.exprs, &of_arrays)?;
    let groups = groups_with(alloc, &made.groups, &of_arrays)?;
    made.cells = count;
    made.exprs = exprs;
    made.groups = groups;
    Ok(made)
}

fn cells_of(alloc: Global, cells: u32, states: &[CellState]) -> Result<Cells, AllocError>
    ensures { IfOk result (λ made. AreCells made cells states.now) }
{
    let mut made = Cells {
        of_arrays: Vec::new(alloc),
        count: cells,
    };
    for state in states {
        push_cell(&mut made, *state)?;
    }
    Ok(made)
}

fn push_cell(cells: &mut Cells, state: CellState) -> Result<(), AllocError>
    ensures cell { OnOk result (cells.new.of_arrays.items
        ≡ cells.old.of_arrays.items ++ next_cell cells.old.count state ∷ []) }
    ensures count { OnOk result (cells.new.count ≡ count_with cells.old.count state) }
{
    match state {
        CellState::Begun(_) => {
            let cell = cells.count;
            cells.of_arrays.push(Some(cell))?;
            cells.count = cell.checked_add(1).ok_or(AllocError)?;
        }
        _ => cells.of_arrays.push(None)?,
    }
    Ok(())
}

fn exprs_with(alloc: Global, exprs: &Exprs, cells: &[Option<u32>]) -> Result<Exprs, AllocError>
    ensures { IfOk result (λ made. made ≡ map (map (word_contracted (cell_at cells.now))) exprs.now) }
{
    let mut made = Rows::new(alloc);
    for i in 0..exprs.len() {
        let words = words_with(alloc, exprs.get(i).unwrap().as_slice(), cells)?;
        made.push(alloc, ExprRow::of(words))?;
    }
    Ok(made)
}

fn words_with(
    alloc: Global,
    words: &[ExprOp],
    cells: &[Option<u32>],
) -> Result<Vec<ExprOp>, AllocError>
    ensures { IfOk result (λ made. made.items ≡ map (word_contracted (cell_at cells.now)) words.now) }
{
    let mut made = Vec::new(alloc);
    for word in words {
        made.push(word_with(*word, cells))?;
    }
    Ok(made)
}

fn word_with(word: ExprOp, cells: &[Option<u32>]) -> ExprOp
    ensures { result ≡ word_contracted (cell_at cells.now) word }
{
    match word {
        ExprOp::Here(array) => match cell_at(cells, array) {
            Some(cell) => ExprOp::Cell(cell),
            None => ExprOp::Here(array),
        },
        other => other,
    }
}

fn cell_at(cells: &[Option<u32>], array: u32) -> Option<u32>
    ensures { result ≡ cell_at cells.now array }
{
    cells.get(array as usize).copied().unwrap_or(None)
}

fn groups_with(alloc: Global, groups: &Groups, cells: &[Option<u32>]) -> Result<Groups, AllocError>
    ensures { IfOk result (λ made. made
        ≡ map (map (member_contracted (cell_at cells.now))) groups.now) }
{
    let mut made = Rows::new(alloc);
    for i in 0..groups.len() {
        let members = members_with(alloc, groups.get(i).unwrap().as_slice(), cells)?;
        made.push(alloc, GroupRow::of(members))?;
    }
    Ok(made)
}

fn members_with(
    alloc: Global,
    members: &[Member],
    cells: &[Option<u32>],
) -> Result<Vec<Member>, AllocError>
    ensures { IfOk result (λ made. made.items
        ≡ map (member_contracted (cell_at cells.now)) members.now) }
{
    let mut made = Vec::new(alloc);
    for member in members {
        made.push(member_with(*member, cells))?;
    }
    Ok(made)
}

fn member_with(member: Member, cells: &[Option<u32>]) -> Member
    ensures { result ≡ member_contracted (cell_at cells.now) member }
{
    match member {
        Member::Put {
            array,
            expr,
            mask,
            line,
        } => match cell_at(cells, array) {
            Some(cell) => Member::Cell {
                cell,
                expr,
                mask,
                line,
            },
            None => Member::Put {
                array,
                expr,
                mask,
                line,
            },
        },
        other => other,
    }
}
