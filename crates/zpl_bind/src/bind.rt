//! Binding a program by settings.
ghost use Rattle.std.specs.Prelude.{◌≡◌, ◌++◌, ◌∷◌, [], All, IfErr, IfOk, OnOk, flat_map, map};
ghost use Rattle.zpl_parts.specs.of_zpl_binding.Bound.{Binds, faults_of};
ghost use Rattle.zpl_parts.specs.of_zpl_binding.Declarations.{known_of};
ghost use Rattle.zpl_parts.specs.of_zpl_binding.Outcome.{Gives, failures};
ghost use Rattle.zpl_parts.specs.of_zpl_binding.Storages.{shaped_in};
ghost use Rattle.zpl_parts.specs.of_zpl_binding.Vectors.{vector_of};
ghost use Rattle.zpl_tree.specs.View.{decl_of, syntax_of};
ghost use Rattle.zpl_parts.specs.of_zpl_names.Accepted.{IsFaultless};
ghost use Rattle.zpl_parts.specs.View.{part_of, seen};
ghost use Rattle.zpl_parts.specs.Walk.{text_parts};
ghost use Rattle.zpl_bind.specs.Fault.{IsAmong};
ghost use Rattle.zpl_bind.specs.Few.{IsFewDecl};
ghost use Rattle.zpl_bind.specs.Known.{IsKnown, known_failures, known_in};
ghost use Rattle.zpl_bind.specs.Lists.{bound_of, settings_of};
ghost use Rattle.zpl_bind.specs.Storages.{borders_in, shaped_locals, storages_over, vectors_among};
ghost use Rattle.zpl_bind.specs.Texts.{all_text_faults, config_bases};

use crate::faults::BindFault;
use crate::few::are_few;
use crate::known::Known;
use crate::lists::{Bound, Regions, Values, Vectors};
use crate::settings::Settings;
use crate::storages::{add_globals, add_locals};
use crate::texts::{configs_of, texts_of};
use crate::vectors::vector_of;
use std::alloc::Global;
use zpl_parts::{Part, parts_of_text};
use zpl_region::{Region, Vec3};
use zpl_tree::{Decl, Program};

/// What settings bind a program to: the values of configs and constants, the declared regions, the
/// directions with the vectors in statements, and the storages of arrays; with what is known of the
/// declared names, and the parts of the text. The copies that reads which wrap round need aren't
/// looked at. Where a bracket of a declaration has a fourth dimension, as in no program without
/// faults, the answer is `RegionLimit`.
pub fn bind_declarations<'a>(
    alloc: Global,
    program: &Program<'a>,
    settings: &Settings,
) -> Result<Bound<'a>, BindFault>
    ensures known { IfOk result (λ bound. IsKnown bound.known) }
    ensures computed { IfOk result (λ bound. known_in bound.known
        ≡ known_of (syntax_of program.now) (settings_of settings.now)) }
    ensures parts { IfOk result (λ bound. seen bound.parts ≡ text_parts (syntax_of program.now)) }
    ensures bound { IfOk result (λ bound.
        Binds (syntax_of program.now) (settings_of settings.now) (bound_of bound)) }
    ensures accepted { IsFaultless (syntax_of program.now) →
        OnOk result (faults_of (syntax_of program.now) (settings_of settings.now) ≡ []) }
    ensures err { IsFaultless (syntax_of program.now) → IfErr result (λ fault. IsAmong fault
        (faults_of (syntax_of program.now) (settings_of settings.now))) }
{
    if !are_few(program.decls) {
        return Err(BindFault::RegionLimit);
    }
    let known = known_of(alloc, program, settings)?;
    let parts = parts_of_text(alloc, program)?;
    let vectors = vectors_of(alloc, &known, parts.as_slice())?;
    let storages = storages_of(alloc, &known, parts.as_slice(), program.decls)?;
    let values = known.values.values(alloc)?;
    let regions = known.regions.values(alloc)?;
    Ok(Bound {
        values: Values::of(values),
        regions: Regions::of(regions),
        vectors: Vectors::of(vectors),
        storages: Regions::of(storages),
        known,
        parts,
    })
}

/// What the declarations of a program come to.
pub fn known_of<'a>(
    alloc: Global,
    program: &Program<'a>,
    settings: &Settings,
) -> Result<Known<'a>, BindFault>
    requires { All (λ decl. IsFewDecl (decl_of decl)) program.now.decls.now }
    ensures known { IfOk result IsKnown }
    ensures ok { IfOk result (λ known. known_in known
        ≡ known_of (syntax_of program.now) (settings_of settings.now)) }
    ensures texts { OnOk result (all_text_faults
        (flat_map config_bases (map decl_of program.now.decls.now)) (settings_of settings.now)
        ≡ []) }
    ensures err { IfErr result (λ fault. IsAmong fault (all_text_faults
        (flat_map config_bases (map decl_of program.now.decls.now)) (settings_of settings.now)
        ++ known_failures (known_of (syntax_of program.now) (settings_of settings.now)))) }
{
    let bases = configs_of(alloc, program.decls)?;
    let texts = texts_of(alloc, settings, &bases)?;
    let mut known = Known::new(alloc);
    known.add_decls(&texts, program.decls)?;
    Ok(known)
}

/// The directions, and then the vectors in statements.
pub fn vectors_of(
    alloc: Global,
    known: &Known<'_>,
    parts: &[Part<'_>],
) -> Result<Vec<Vec3>, BindFault>
    requires { IsKnown known.now }
    ensures ok { IfOk result (λ vectors. map Gives vectors.items
        ≡ map (λ one. one.outcome) (known_in known.now).directions
        ++ map (vector_of (known_in known.now).values) (vectors_among (map part_of parts.now))) }
    ensures err { IfErr result (λ fault. IsAmong fault (failures
        (map (vector_of (known_in known.now).values) (vectors_among (map part_of parts.now))))) }
{
    let mut vectors = known.directions.values(alloc)?;
    for part in parts {
        add_vector(&mut vectors, known, part)?;
    }
    Ok(vectors)
}

fn add_vector(vectors: &mut Vec<Vec3>, known: &Known<'_>, part: &Part<'_>) -> Result<(), BindFault>
    requires { IsKnown known.now }
    ensures ok { OnOk result (map Gives vectors.new.items ≡ map Gives vectors.old.items
        ++ map (vector_of (known_in known.now).values) (vectors_among (part_of part.now ∷ []))) }
    ensures err { IfErr result (λ fault. IsAmong fault (failures
        (map (vector_of (known_in known.now).values) (vectors_among (part_of part.now ∷ []))))) }
{
    match part {
        Part::Vector(parts) => {
            let vector = vector_of(&known.values, parts)?;
            vectors.push(vector)?;
            Ok(())
        }
        Part::Border(_, _) | Part::Around(_, _) | Part::Call(_, _) => Ok(()),
    }
}

/// The storages of global arrays, and then of local arrays.
pub fn storages_of(
    alloc: Global,
    known: &Known<'_>,
    parts: &[Part<'_>],
    decls: &[Decl<'_>],
) -> Result<Vec<Region>, BindFault>
    requires known { IsKnown known.now }
    requires few { All (λ decl. IsFewDecl (decl_of decl)) decls.now }
    ensures ok { IfOk result (λ storages. map Gives storages.items
        ≡ storages_over (known_in known.now) (borders_in parts.now)
        (flat_map shaped_in (map decl_of decls.now))
        ++ storages_over (known_in known.now) (borders_in parts.now)
        (flat_map shaped_locals (map decl_of decls.now))) }
    ensures err { IfErr result (λ fault. IsAmong fault
        (failures (storages_over (known_in known.now) (borders_in parts.now)
        (flat_map shaped_in (map decl_of decls.now)))
        ++ failures (storages_over (known_in known.now) (borders_in parts.now)
        (flat_map shaped_locals (map decl_of decls.now))))) }
{
    let mut storages = Vec::new(alloc);
    add_globals(&mut storages, known, parts, decls)?;
    add_locals(&mut storages, known, parts, decls)?;
    Ok(storages)
}
