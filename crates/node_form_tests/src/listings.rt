//! Programs that fit, and members nested very deep.
use crate::reading::tables_of;
use node_form::{GroupRow, Member, NodeProgram, Tables};
use std::alloc::{AllocError, Global};
use std::process::Abort;
use std::test::Fail;

/// Sets a scalar to 20, and prints a text and the scalar plus 1.
const GREETS: &str = "zplnode 1\ngrid 2\nscalars 1\nslots\ncells 0\narray 1..4:1,1\ntext 6869\n\
    expr n20\nexpr s0 n1 +\ncode\nset 0 0 1\nprint 0\nnumber 1\nend\n";

/// Prints an array over a region that depends on a scalar.
const GATHERS: &str = "zplnode 1\ngrid 2\nscalars 1\nslots 1 1\ncells 0\narray 1..4:1,1\nexpr n1\n\
    expr n3\nexpr n3 s0 +\ngroup\nacc 0 sum 0 - 1\ncode\nfix 0 4..4:1:4\nloop 0 0\ndims 1 0..1 1\n\
    gather number 0 1\nend\n";

/// Others: both processors loop, and the one whose scalar isn't 0 waits in a fold; a fold alone; a
/// loop reads beside each index of an array; two exchanges are open at once.
const OTHERS: [&str; 4] = [
    "zplnode 1\ngrid 2\nscalars 1\nslots 1\ncells 0\narray 1..4:1,1\nexpr n1\nexpr s0\ngroup\n\
     acc 0 sum 0 - 1\ncode\nfix 0 1..1:1:1\nloop 0 0\nunless 1 4 1\nfold 0 sum\n",
    "zplnode 1\ngrid 2\nscalars 1\nslots\ncells 0\narray 1..4:1,1\ncode\nfold 0 sum\nend\n",
    "zplnode 1\ngrid 1\nscalars 0\nslots 1\ncells 0\narray 1..4:1,1\nexpr a0@1\ngroup\n\
     put 0 0 - 1\ncode\nfix 0 1..2:1:1\nloop 0 0\nend\n",
    "zplnode 1\ngrid 2\nscalars 0\nslots 1\ncells 0\narray 1..4:1,1\nexchange\nitem 0 0 1\n\
     item 0 0 -1\nexchange\nitem 0 0 1\nitem 0 0 -1\ncode\nfix 0 2..3:1:2\nstart 0\nstart 1\n\
     finish 0\nfinish 1\nend\n",
];

#[test]
fn listings_fit(rt: HostRuntime) -> Result<(), Fail> {
    for listing in [GREETS, GATHERS, OTHERS[0], OTHERS[1], OTHERS[2], OTHERS[3]] {
        let tables = tables_of(&rt, rt.alloc(), listing)?;
        assert!(rt; tables.fits_tables());
    }
    Ok(())
}

/// The tables of `GREETS`, which has no slots, groups and exchanges.
fn expect_greets(rt: &impl Abort, tables: &Tables) {
    assert!(rt; tables.grid == [2, 0, 0] && tables.scalars == 1 && tables.cells == 0);
    assert!(rt; tables.slots.len() == 0 && tables.groups.len() == 0);
    assert!(rt; tables.arrays.len() == 1 && tables.texts.len() == 1 && tables.exprs.len() == 2);
    assert!(rt; tables.exchanges.len() == 0);
    let code = &tables.code;
    assert!(rt; code.len() == 4 && code.get(3).is_some() && code.get(4).is_none());
}

#[test]
fn a_program_keeps_its_tables(rt: HostRuntime) -> Result<(), Fail> {
    let tables = tables_of(&rt, rt.alloc(), GREETS)?;
    assert!(rt; tables.fits_tables());
    let program = NodeProgram::of(tables);
    expect_greets(&rt, program.tables());
    Ok(())
}

/// So many openings, each closed in turn.
fn nest(alloc: Global, depth: usize) -> Result<Vec<Member>, AllocError> {
    let mut members = Vec::new(alloc);
    for _ in 0..depth {
        members.push(Member::OpenIf {
            expr: 0,
            mask: None,
            line: 1,
        })?;
    }
    for _ in 0..depth {
        members.push(Member::CloseIf)?;
    }
    Ok(members)
}

/// Whether a program fits with a group of these members behind its others.
fn fits_with(
    rt: &impl Abort,
    alloc: Global,
    listing: &str,
    members: Vec<Member>,
) -> Result<bool, Fail> {
    let mut tables = tables_of(rt, alloc, listing)?;
    tables.groups.push(alloc, GroupRow::of(members))?;
    Ok(tables.fits_tables())
}

#[test]
fn ten_thousand_members_nest(rt: HostRuntime) -> Result<(), Fail> {
    let members = nest(rt.alloc(), 10_000)?;
    assert!(rt; fits_with(&rt, rt.alloc(), GATHERS, members)?);
    let mut open = nest(rt.alloc(), 100)?;
    let _ = open.pop();
    assert!(rt; !fits_with(&rt, rt.alloc(), GATHERS, open)?);
    Ok(())
}
