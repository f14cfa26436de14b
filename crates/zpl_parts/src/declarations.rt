//! The parts of declarations, and of a whole text.
ghost use Rattle.std.specs.Prelude.{◌≡◌, ◌++◌, IfOk, OnOk, flat_map, map};
ghost use Rattle.zpl_binding.specs.of_zpl_tree.View.{decl_of, define_of, direction_of, param_of, procedure_of};
ghost use Rattle.zpl_binding.specs.of_zpl_tree.View.{region_of, syntax_of, var_of};
ghost use Rattle.zpl_parts.specs.View.{seen};
ghost use Rattle.zpl_parts.specs.Walk.{decl_parts, define_parts, direction_parts, param_parts};
ghost use Rattle.zpl_parts.specs.Walk.{procedure_parts, region_def_parts, text_parts};
ghost use Rattle.zpl_parts.specs.Walk.{variable_parts};

use crate::expressions::{walk_bracket, walk_expr, walk_exprs, walk_inner, walk_posts};
use crate::parts::Parts;
use crate::statements::walk_stmt;
use std::alloc::{AllocError, Global};
use zpl_tree::{Decl, Define, DirDef, Param, Procedure, Program, RegionDef, VarDef};

/// The parts of a program's text.
pub fn parts_of_text<'a>(alloc: Global, program: &Program<'a>) -> Result<Parts<'a>, AllocError>
    ensures { IfOk result (λ parts. seen parts ≡ text_parts (syntax_of program.now)) }
{
    let mut parts = Parts::new(alloc);
    walk_decls(&mut parts, program.decls)?;
    Ok(parts)
}

fn walk_decls<'a>(into: &mut Parts<'a>, decls: &[Decl<'a>]) -> Result<(), AllocError>
    ensures { OnOk result (seen into.new
        ≡ seen into.old ++ flat_map decl_parts (map decl_of decls.now)) }
{
    for decl in decls {
        walk_decl(into, decl)?;
    }
    Ok(())
}

fn walk_decl<'a>(into: &mut Parts<'a>, decl: &Decl<'a>) -> Result<(), AllocError>
    ensures { OnOk result (seen into.new ≡ seen into.old ++ decl_parts (decl_of decl.now)) }
{
    match decl {
        Decl::Config(defines) | Decl::Constant(defines) => walk_defines(into, defines),
        Decl::Regions(regions) => walk_regions(into, regions),
        Decl::Directions(directions) => walk_directions(into, directions),
        Decl::Vars(vars) => walk_vars(into, vars),
        Decl::Procedure(procedure) => walk_procedure(into, procedure),
    }
}

fn walk_defines<'a>(into: &mut Parts<'a>, defines: &[Define<'a>]) -> Result<(), AllocError>
    ensures { OnOk result (seen into.new ≡ seen into.old
        ++ flat_map define_parts (map define_of defines.now)) }
{
    for define in defines {
        walk_expr(into, true, define.value)?;
    }
    Ok(())
}

fn walk_regions<'a>(into: &mut Parts<'a>, regions: &[RegionDef<'a>]) -> Result<(), AllocError>
    ensures { OnOk result (seen into.new ≡ seen into.old
        ++ flat_map region_def_parts (map region_of regions.now)) }
{
    for region in regions {
        walk_inner(into, true, &region.body)?;
        walk_posts(into, true, region.posts)?;
    }
    Ok(())
}

fn walk_directions<'a>(into: &mut Parts<'a>, directions: &[DirDef<'a>]) -> Result<(), AllocError>
    ensures { OnOk result (seen into.new ≡ seen into.old
        ++ flat_map direction_parts (map direction_of directions.now)) }
{
    for direction in directions {
        walk_exprs(into, true, direction.parts)?;
    }
    Ok(())
}

fn walk_vars<'a>(into: &mut Parts<'a>, vars: &[VarDef<'a>]) -> Result<(), AllocError>
    ensures { OnOk result (seen into.new
        ≡ seen into.old ++ flat_map variable_parts (map var_of vars.now)) }
{
    for var in vars {
        walk_bracket(into, true, &var.shape)?;
    }
    Ok(())
}

fn walk_params<'a>(into: &mut Parts<'a>, params: &[Param<'a>]) -> Result<(), AllocError>
    ensures { OnOk result (seen into.new
        ≡ seen into.old ++ flat_map param_parts (map param_of params.now)) }
{
    for param in params {
        walk_bracket(into, true, &param.shape)?;
    }
    Ok(())
}

fn walk_procedure<'a>(into: &mut Parts<'a>, procedure: &Procedure<'a>) -> Result<(), AllocError>
    ensures { OnOk result (seen into.new
        ≡ seen into.old ++ procedure_parts (procedure_of procedure.now)) }
{
    walk_params(into, procedure.params)?;
    walk_vars(into, procedure.locals)?;
    walk_stmt(into, &procedure.body)
}
