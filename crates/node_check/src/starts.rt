//! Facts at the start, facts that are shared, and open exchanges.
ghost use Rattle.std.specs.Prelude.{◌≡◌, ◌≤◌, ◌<◌, ◌++◌, All, IfOk, OnOk, map, length};
ghost use Rattle.std.specs.List.{range_with_len};
ghost use Rattle.node_form.specs.Fits.{Fits};
ghost use Rattle.node_check.specs.Front.{HasRegion, shared_facts};
ghost use Rattle.node_check.specs.Learn.{start_facts, start_slots};
ghost use Rattle.node_check.specs.Path.{open_behind, without};

use crate::alike::has_fact;
use crate::facts::Fact;
use crate::places::no_places;
use node_form::{Instr, Tables, rows_fit};
use std::alloc::{AllocError, Global};

/// The facts at the start: all scalars are uniform, and slots are without tuples.
pub(crate) fn start_facts(alloc: Global, tables: &Tables) -> Result<Vec<Fact>, AllocError>
    requires fits { Fits tables.now }
    requires small { length tables.now.slots ≤ 16384 }
    ensures facts { IfOk result (λ facts. facts.items ≡ start_facts tables.now) }
    ensures regions { IfOk result (λ facts. All HasRegion facts.items) }
{
    let mut facts = start_scalars(alloc, tables.scalars)?;
    start_slots(tables, &mut facts)?;
    Ok(facts)
}

fn start_scalars(alloc: Global, scalars: u32) -> Result<Vec<Fact>, AllocError>
    ensures facts { IfOk result (λ facts. facts.items
        ≡ map Fact.Uniform (range_with_len 0 scalars)) }
    ensures regions { IfOk result (λ facts. All HasRegion facts.items) }
{
    let mut facts = Vec::new(alloc);
    for scalar in 0..scalars {
        facts.push(Fact::Uniform { scalar })?;
    }
    Ok(facts)
}

fn start_slots(tables: &Tables, facts: &mut Vec<Fact>) -> Result<(), AllocError>
    requires fits { Fits tables.now }
    requires small { length tables.now.slots ≤ 16384 }
    requires regions { All HasRegion facts.old.items }
    ensures facts { OnOk result (facts.new.items ≡ facts.old.items ++ start_slots 0 tables.now.slots) }
    ensures regions { OnOk result (All HasRegion facts.new.items) }
{
    rows_fit();
    for i in 0..tables.slots.len() {
        let rank = *tables.slots.get(i).unwrap();
        let slot = i as u32;
        let region = no_places(rank);
        facts.push(Fact::Stands { slot, region })?;
    }
    Ok(())
}

/// The facts that others have too.
pub(crate) fn shared_facts(
    alloc: Global,
    mine: &[Fact],
    others: &[Fact],
) -> Result<Vec<Fact>, AllocError>
    ensures { IfOk result (λ shared. shared.items ≡ shared_facts mine.now others.now) }
{
    mine.iter()
        .filter(|fact| has_fact(others, fact))
        .copied()
        .collect(alloc)
}

/// The exchanges that are open behind an instruction.
pub(crate) fn opened_behind(mut opened: Vec<u32>, row: &Instr) -> Result<Vec<u32>, AllocError>
    ensures { IfOk result (λ behind. behind.items ≡ open_behind opened.items row.now) }
{
    match *row {
        Instr::Start { exchange } => {
            opened.push(exchange)?;
        }
        Instr::Finish { exchange } => close(&mut opened, exchange),
        _ => {}
    }
    Ok(opened)
}

// Takes out the first of these numbers.
fn close(opened: &mut Vec<u32>, exchange: u32)
    ensures { opened.new.items ≡ without exchange opened.old.items }
{
    for i in 0..opened.len() {
        if opened[i] == exchange {
            opened.remove(i);
            return;
        }
    }
}
