//! Printing declarations.
ghost use Rattle.std.specs.Prelude.{◌≡◌, ◌++◌, OnOk, map};
ghost use Rattle.std.specs.List.{flat_map};
ghost use Rattle.std.specs.Option.{option_map};
ghost use Rattle.zpl_tree.specs.Spelling.{decl_words, define_words, direction_words, heading_words};
ghost use Rattle.zpl_tree.specs.Spelling.{in_round, locals_words, param_words, params_words};
ghost use Rattle.zpl_tree.specs.Spelling.{procedure_words, region_words, result_words, type_words};
ghost use Rattle.zpl_tree.specs.Spelling.{var_words};
ghost use Rattle.zpl_tree.specs.View.{base_type_of, decl_of, define_of, direction_of, param_of};
ghost use Rattle.zpl_tree.specs.View.{procedure_of, region_of, var_of};
ghost use Rattle.zpl_tree.specs.Word.{Gains};

use super::expressions::{print_bracket, print_expr, print_exprs, print_in_square, print_posts};
use super::statements::{print_names, print_stmt};
use super::words::{put_keyword, put_name, put_symbol};
use crate::declarations::{Base, Decl, Define, DirDef, Param, Procedure, RegionDef, VarDef};
use std::alloc::AllocError;
use zpl_tokens::{Key, Sym};

pub fn print_decl(text: &mut Vec<u8>, decl: &Decl<'_>) -> Result<(), AllocError>
    ensures { OnOk result (Gains text.old.items text.new.items (decl_words (decl_of decl.now))) }
{
    match decl {
        Decl::Config(defines) => {
            put_keyword(text, Key::Config)?;
            put_keyword(text, Key::Var)?;
            print_defines(text, defines)
        }
        Decl::Constant(defines) => {
            put_keyword(text, Key::Constant)?;
            print_defines(text, defines)
        }
        Decl::Regions(regions) => {
            put_keyword(text, Key::Region)?;
            print_regions(text, regions)
        }
        Decl::Directions(directions) => {
            put_keyword(text, Key::Direction)?;
            print_directions(text, directions)
        }
        Decl::Vars(vars) => {
            put_keyword(text, Key::Var)?;
            print_vars(text, vars)
        }
        Decl::Procedure(procedure) => print_procedure(text, procedure),
    }
}

fn print_defines(text: &mut Vec<u8>, defines: &[Define<'_>]) -> Result<(), AllocError>
    ensures { OnOk result (Gains text.old.items text.new.items
        (flat_map define_words (map define_of defines.now))) }
{
    for define in defines {
        print_define(text, define)?;
    }
    Ok(())
}

fn print_define(text: &mut Vec<u8>, define: &Define<'_>) -> Result<(), AllocError>
    ensures { OnOk result (Gains text.old.items text.new.items
        (define_words (define_of define.now))) }
{
    put_name(text, &define.name)?;
    put_symbol(text, Sym::Colon)?;
    print_type(text, &define.base)?;
    put_symbol(text, Sym::Equal)?;
    print_expr(text, define.value)?;
    put_symbol(text, Sym::Semicolon)
}

fn print_regions(text: &mut Vec<u8>, regions: &[RegionDef<'_>]) -> Result<(), AllocError>
    ensures { OnOk result (Gains text.old.items text.new.items
        (flat_map region_words (map region_of regions.now))) }
{
    for region in regions {
        print_region(text, region)?;
    }
    Ok(())
}

fn print_region(text: &mut Vec<u8>, region: &RegionDef<'_>) -> Result<(), AllocError>
    ensures { OnOk result (Gains text.old.items text.new.items
        (region_words (region_of region.now))) }
{
    put_name(text, &region.name)?;
    put_symbol(text, Sym::Equal)?;
    print_in_square(text, &region.body)?;
    print_posts(text, region.posts)?;
    put_symbol(text, Sym::Semicolon)
}

fn print_directions(text: &mut Vec<u8>, directions: &[DirDef<'_>]) -> Result<(), AllocError>
    ensures { OnOk result (Gains text.old.items text.new.items
        (flat_map direction_words (map direction_of directions.now))) }
{
    for direction in directions {
        print_direction(text, direction)?;
    }
    Ok(())
}

fn print_direction(text: &mut Vec<u8>, direction: &DirDef<'_>) -> Result<(), AllocError>
    ensures { OnOk result (Gains text.old.items text.new.items
        (direction_words (direction_of direction.now))) }
{
    put_name(text, &direction.name)?;
    put_symbol(text, Sym::Equal)?;
    put_symbol(text, Sym::OpenBracket)?;
    print_exprs(text, direction.parts)?;
    put_symbol(text, Sym::CloseBracket)?;
    put_symbol(text, Sym::Semicolon)
}

fn print_vars(text: &mut Vec<u8>, vars: &[VarDef<'_>]) -> Result<(), AllocError>
    ensures { OnOk result (Gains text.old.items text.new.items
        (flat_map var_words (map var_of vars.now))) }
{
    for var in vars {
        print_var(text, var)?;
    }
    Ok(())
}

fn print_var(text: &mut Vec<u8>, var: &VarDef<'_>) -> Result<(), AllocError>
    ensures { OnOk result (Gains text.old.items text.new.items (var_words (var_of var.now))) }
{
    print_names(text, var.names)?;
    put_symbol(text, Sym::Colon)?;
    print_bracket(text, &var.shape)?;
    print_type(text, &var.base)?;
    put_symbol(text, Sym::Semicolon)
}

fn print_type(text: &mut Vec<u8>, base: &Base<'_>) -> Result<(), AllocError>
    ensures { OnOk result (Gains text.old.items text.new.items
        (type_words (base_type_of base.now))) }
{
    match base {
        Base::Integer => put_keyword(text, Key::Integer),
        Base::Boolean => put_keyword(text, Key::Boolean),
        Base::Other(name) => put_name(text, name),
    }
}

fn print_procedure(text: &mut Vec<u8>, procedure: &Procedure<'_>) -> Result<(), AllocError>
    ensures { OnOk result (Gains text.old.items text.new.items
        (procedure_words (procedure_of procedure.now))) }
{
    print_heading(text, procedure)?;
    print_locals(text, procedure.locals)?;
    print_stmt(text, &procedure.body)
}

fn print_heading(text: &mut Vec<u8>, procedure: &Procedure<'_>) -> Result<(), AllocError>
    ensures { OnOk result (Gains text.old.items text.new.items
        (heading_words (procedure_of procedure.now))) }
{
    put_keyword(text, Key::Procedure)?;
    put_name(text, &procedure.name)?;
    print_formals(text, procedure.params)?;
    print_result(text, &procedure.result)?;
    put_symbol(text, Sym::Semicolon)
}

// The parameters in their brackets.
fn print_formals(text: &mut Vec<u8>, params: &[Param<'_>]) -> Result<(), AllocError>
    ensures { OnOk result (Gains text.old.items text.new.items
        (in_round (params_words (map param_of params.now)))) }
{
    put_symbol(text, Sym::OpenParen)?;
    print_params(text, params)?;
    put_symbol(text, Sym::CloseParen)
}

fn print_params(text: &mut Vec<u8>, params: &[Param<'_>]) -> Result<(), AllocError>
    ensures { OnOk result (Gains text.old.items text.new.items
        (params_words (map param_of params.now))) }
{
    let Some((first, rest)) = params.split_first() else {
        return Ok(());
    };
    print_param(text, first)?;
    for param in rest {
        put_symbol(text, Sym::Semicolon)?;
        print_param(text, param)?;
    }
    Ok(())
}

fn print_param(text: &mut Vec<u8>, param: &Param<'_>) -> Result<(), AllocError>
    ensures { OnOk result (Gains text.old.items text.new.items (param_words (param_of param.now))) }
{
    if param.by_ref {
        put_keyword(text, Key::Var)?;
    }
    print_names(text, param.names)?;
    put_symbol(text, Sym::Colon)?;
    print_bracket(text, &param.shape)?;
    print_type(text, &param.base)
}

fn print_result(text: &mut Vec<u8>, base: &Option<Base<'_>>) -> Result<(), AllocError>
    ensures { OnOk result (Gains text.old.items text.new.items
        (result_words (option_map base_type_of base.now))) }
{
    let Some(base) = base else {
        return Ok(());
    };
    put_symbol(text, Sym::Colon)?;
    print_type(text, base)
}

fn print_locals(text: &mut Vec<u8>, locals: &[VarDef<'_>]) -> Result<(), AllocError>
    ensures { OnOk result (Gains text.old.items text.new.items
        (locals_words (map var_of locals.now))) }
{
    if locals.is_empty() {
        return Ok(());
    }
    put_keyword(text, Key::Var)?;
    print_vars(text, locals)
}
