//! Facts that an instruction makes.
ghost use Rattle.std.specs.Prelude.{◌≡◌, ◌==◌, ◌&&◌, ◌++◌, All, IfOk, filter, flat_map, map, not};
ghost use Rattle.std.specs.Option.{IfSome, option_to_list};
ghost use Rattle.zpl_region.specs.Region.{IsRegion};
ghost use Rattle.zpl_region.specs.Tests.{is_within_limit};
ghost use Rattle.node_form.specs.Control.{formed_by};
ghost use Rattle.node_form.specs.Fits.{FitsInstr};
ghost use Rattle.node_check.specs.Front.{HasRegion, formed_in};
ghost use Rattle.node_check.specs.Learn.{is_side, learnt, made, made_where, regions_of};

use crate::asks::is_uniform;
use crate::facts::Fact;
use crate::losses::kept;
use crate::places::formed;
use node_form::{Instr, RegionForm, Tables};
use std::alloc::{AllocError, Global};
use zpl_region::{Region, Vec3};

/// The facts behind an instruction: it loses before it makes, and sees the facts before it.
pub(crate) fn learnt(
    alloc: Global,
    tables: &Tables,
    facts: Vec<Fact>,
    row: &Instr,
) -> Result<Vec<Fact>, AllocError>
    requires row { FitsInstr tables.now row.now }
    requires regions { All HasRegion facts.items }
    ensures facts { IfOk result (λ known. known.items ≡ learnt tables.now facts.items row.now) }
    ensures regions { IfOk result (λ known. All HasRegion known.items) }
{
    let made = made(alloc, tables, facts.as_slice(), row)?;
    let mut left = kept(alloc, tables, facts, row)?;
    left.extend_from_slice(made.as_slice())?;
    Ok(left)
}

fn made(
    alloc: Global,
    tables: &Tables,
    facts: &[Fact],
    row: &Instr,
) -> Result<Vec<Fact>, AllocError>
    requires row { FitsInstr tables.now row.now }
    requires regions { All HasRegion facts.now }
    ensures facts { IfOk result (λ all. all.items ≡ made tables.now facts.now row.now) }
    ensures regions { IfOk result (λ all. All HasRegion all.items) }
{
    match *row {
        Instr::Set { scalar, expr, .. } => {
            made_where(
                alloc,
                is_uniform(tables, facts, expr),
                Fact::Uniform { scalar },
            )
        }
        Instr::Fold { scalar, .. } => made_where(alloc, true, Fact::Uniform { scalar }),
        Instr::TreeFold { scalar, .. } => made_where(alloc, true, Fact::Uniform { scalar }),
        Instr::Fix { slot, region } => made_where(alloc, true, Fact::Stands { slot, region }),
        Instr::Need {
            slot,
            array,
            shift,
            ..
        } => made_where(alloc, true, Fact::Held { slot, array, shift }),
        Instr::Room { array, slot } => {
            let shift = [0, 0, 0];
            made_where(alloc, true, Fact::Held { slot, array, shift })
        }
        Instr::Same {
            target,
            source,
            kind,
            ..
        } => {
            let fact = Fact::Agree {
                target,
                source,
                kind,
            };
            made_where(alloc, true, fact)
        }
        Instr::Fits { slot, shift, .. } => made_where(alloc, true, Fact::Border { slot, shift }),
        Instr::Formed {
            form,
            slot,
            from,
            shift,
            ..
        } => {
            let forming = Forming {
                form,
                slot,
                from,
                shift,
            };
            made_formed(alloc, facts, &forming)
        }
        _ => Ok(Vec::new(alloc)),
    }
}

fn made_where(alloc: Global, holds: bool, fact: Fact) -> Result<Vec<Fact>, AllocError>
    requires { HasRegion fact }
    ensures facts { IfOk result (λ all. all.items ≡ made_where holds fact) }
    ensures regions { IfOk result (λ all. All HasRegion all.items) }
{
    let mut made = Vec::new(alloc);
    if holds {
        made.push(fact)?;
    }
    Ok(made)
}

/// How a slot is made of another one.
#[derive(Clone, Copy)]
struct Forming {
    form: RegionForm,
    slot: u32,
    from: u32,
    shift: Vec3,
}

fn made_formed(alloc: Global, facts: &[Fact], forming: &Forming) -> Result<Vec<Fact>, AllocError>
    requires { All HasRegion facts.now }
    ensures regions { IfOk result (λ made. All HasRegion made.items) }
    ensures facts { IfOk result (λ made. made.items
        ≡ map (Fact.Stands forming.now.slot) (filter is_within_limit
        (map (formed_by forming.now.form forming.now.shift) (regions_of facts.now forming.now.from)))
        ++ made_where (is_side forming.now.form && not (forming.now.slot == forming.now.from))
        (Fact.Made forming.now.form forming.now.slot forming.now.from forming.now.shift)) }
{
    let mut made = formed_regions(alloc, facts, forming)?;
    let side = made_side(alloc, forming)?;
    made.extend_from_slice(side.as_slice())?;
    Ok(made)
}

fn made_side(alloc: Global, forming: &Forming) -> Result<Vec<Fact>, AllocError>
    ensures facts { IfOk result (λ all. all.items
        ≡ made_where (is_side forming.now.form && not (forming.now.slot == forming.now.from))
        (Fact.Made forming.now.form forming.now.slot forming.now.from forming.now.shift)) }
    ensures regions { IfOk result (λ all. All HasRegion all.items) }
{
    let Forming {
        form,
        slot,
        from,
        shift,
    } = *forming;
    let fact = Fact::Made {
        form,
        slot,
        from,
        shift,
    };
    made_where(alloc, is_side(form) & (slot != from), fact)
}

fn is_side(form: RegionForm) -> bool
    ensures { result ≡ is_side form }
{
    match form {
        RegionForm::Of | RegionForm::Inside => true,
        RegionForm::At | RegionForm::By => false,
    }
}

fn formed_regions(alloc: Global, facts: &[Fact], forming: &Forming) -> Result<Vec<Fact>, AllocError>
    requires { All HasRegion facts.now }
    ensures regions { IfOk result (λ made. All HasRegion made.items) }
    ensures facts { IfOk result (λ made. made.items
        ≡ flat_map (formed_in forming.now.form forming.now.slot forming.now.from forming.now.shift)
        facts.now) }
{
    let mut made = Vec::new(alloc);
    for fact in facts {
        if let Some(region) = region_formed(fact, forming) {
            made.push(Fact::Stands {
                slot: forming.slot,
                region,
            })?;
        }
    }
    Ok(made)
}

// The region that is made of the one that the fact tells.
fn region_formed(fact: &Fact, forming: &Forming) -> Option<Region>
    requires { HasRegion fact.now }
    ensures region { IfSome result IsRegion }
    ensures facts { map (Fact.Stands forming.now.slot) (option_to_list result)
        ≡ formed_in forming.now.form forming.now.slot forming.now.from forming.now.shift fact.now }
{
    match *fact {
        Fact::Stands { slot, region } => {
            if slot != forming.from {
                return None;
            }
            formed(forming.form, &region, forming.shift).ok()
        }
        _ => None,
    }
}
