//! Rows that see whether regions conform.
ghost use Rattle.std.specs.Prelude.{◌≡◌, OnOk};
ghost use Rattle.node_form.specs.declared.instructions.Instr.TheVariants as instr;
ghost use Rattle.flat_form.specs.Row as row;
ghost use Rattle.lower_regions.specs.of_zpl_lowering.Lowered.{rows_alone};
ghost use Rattle.lower_regions.specs.of_zpl_lowering.Reference as plain;
ghost use Rattle.lower_regions.specs.of_lower_draft.Drafted.{grown, pushed};
ghost use Rattle.lower_operators.specs.View.{slate_of, slates_in, slates_of};

use crate::slates::{Slate, Slates};
use lower_regions::lower_draft::{Draft, FlatRow};
use lower_regions::lower_places::Slotted;
use node_form::{Instr, SameKind};
use std::alloc::AllocError;

/// Appends the row that sees whether a current region and a source conform.
fn push_same(
    draft: &mut Draft,
    line: u32,
    over: &Slotted,
    source: &Slotted,
    kind: SameKind,
) -> Result<(), AllocError>
    ensures { OnOk result (draft.new ≡ pushed draft.old (row.Plain (instr.Same over.now.slot
        source.now.slot kind line))) }
{
    draft.push(FlatRow::Plain(Instr::Same {
        target: over.slot,
        source: source.slot,
        kind,
        line,
    }))
}

/// Appends the rows that see whether the regions of an expression conform, in the order of the
/// text.
#[cycle(conform)]
pub fn conform(draft: &mut Draft, line: u32, slate: &Slate<'_>) -> Result<(), AllocError>
    ensures { OnOk result (draft.new
        ≡ grown draft.old (rows_alone (plain.conforming line (slate_of slate.now)))) }
{
    match slate {
        Slate::Constant(_)
        | Slate::Variable(_)
        | Slate::Coordinate(_)
        | Slate::Element(..)
        | Slate::Shifted(..)
        | Slate::Wrapped(_) => Ok(()),
        Slate::Unary(_, operand)
        | Slate::Folded(_, _, operand)
        | Slate::Scanned(_, _, _, operand) => { conform(draft, line, operand) }
        Slate::Binary(_, left, right) => {
            conform(draft, line, left)?;
            conform(draft, line, right)
        }
        Slate::PartFolded(_, over, source, operand) => {
            push_same(draft, line, over, source, SameKind::Part)?;
            conform(draft, line, operand)
        }
        Slate::Flooded(over, source, operand) => {
            push_same(draft, line, over, source, SameKind::Flood)?;
            conform(draft, line, operand)
        }
        Slate::Remapped(_, _, indices) => conform_indices(draft, line, indices),
    }
}

/// The same of the indices of a remap read.
#[cycle(conform)]
fn conform_indices(draft: &mut Draft, line: u32, indices: &Slates<'_>) -> Result<(), AllocError>
    ensures { OnOk result (draft.new
        ≡ grown draft.old (rows_alone (plain.all_conforming line (slates_of indices.now)))) }
{
    match indices {
        Slates::End => Ok(()),
        Slates::Then(first, rest) => {
            conform(draft, line, first)?;
            conform_indices(draft, line, rest)
        }
    }
}

/// The same of the expressions of a statement.
pub fn conform_all(draft: &mut Draft, line: u32, slates: &[&Slate<'_>]) -> Result<(), AllocError>
    ensures { OnOk result (draft.new
        ≡ grown draft.old (rows_alone (plain.all_conforming line (slates_in slates.now)))) }
{
    for slate in slates {
        conform(draft, line, slate)?;
    }
    Ok(())
}
