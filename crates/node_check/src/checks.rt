//! The validator.
ghost use Rattle.std.specs.Prelude.{◌≡◌, ◌↔◌, IfErr, IfOk, IsTrue};
ghost use Rattle.node_check.specs.Sound.{IsChecked, IsFaulty, IsLarge};

use crate::faults::CheckFault;
use crate::verdicts::{Verdict, judged};
use crate::walks::settled;
use node_form::{NodeProgram, Tables};
use std::alloc::Global;

/// How many instructions, scalars, slots and members there may be together.
const LIMIT: u64 = 16_384;

/// Code that is sound, and how many messages links have to hold.
#[derive(Clone, Copy)]
pub struct Checked<'c> {
    code: &'c NodeProgram,
    links: u32,
}

impl<'c> Checked<'c> {
    /// The code.
    pub fn code(&self) -> &'c NodeProgram
        ensures { result.now ≡ self.now.code.now }
    {
        self.code
    }

    /// How many messages links have to hold: as many as exchanges are open at once, or one.
    pub fn links_needed(&self) -> u32
        ensures { result ≡ self.now.links }
    {
        self.links
    }
}

/// Checks code. The code is sound exactly where it is checked; a fault names the least instruction
/// whose demand isn't met, as far as instructions have the same open exchanges on all paths.
pub fn validate<'c>(alloc: Global, code: &'c NodeProgram) -> Result<Checked<'c>, CheckFault>
    ensures code { IfOk result (λ checked. checked.code.now ≡ code.now) }
    ensures checked { IfOk result (λ checked. IsChecked code.now checked.links) }
    ensures faults { IfErr result (λ fault. IsFaulty code.now fault) }
{
    let tables = code.tables();
    if is_large(tables) {
        return Err(CheckFault::TooLarge);
    }
    let fronts = settled(alloc, tables)?;
    let Verdict { least, links, .. } = judged(alloc, tables, fronts.as_slice())?;
    if let Some(at) = least {
        return Err(CheckFault::Unsound { at });
    }
    let needed = links as u32;
    Ok(Checked {
        code,
        links: needed,
    })
}

// Whether there are too many instructions, scalars, slots and members.
fn is_large(tables: &Tables) -> bool
    ensures { IsTrue result ↔ IsLarge tables.now }
{
    let mut total = tables
        .code
        .len()
        .saturating_add(u64::from(tables.scalars))
        .saturating_add(tables.slots.len());
    for i in 0..tables.groups.len() {
        if total > LIMIT {
            return true;
        }
        let members = tables.groups.get(i).unwrap().as_slice().len();
        total = total.saturating_add(members as u64);
    }
    total > LIMIT
}
