//! Arrays that are declared.
ghost use Rattle.std.specs.Prelude.{◌≡◌, ◌+◌, OnOk, map, sum_by};
ghost use Rattle.zpl_tree.specs.View.{decl_of, param_of, var_of};
ghost use Rattle.lower_numbers.specs.Arrays.{decl_arrays, param_arrays, var_arrays};

use std::alloc::AllocError;
use zpl_tree::{Decl, Param, VarDef};

/// So many more. From 2^64 on there is no room for the number.
fn add(count: &mut usize, more: usize) -> Result<(), AllocError>
    ensures { OnOk result (count.new ≡ count.old + more) }
{
    *count = count.checked_add(more).ok_or(AllocError)?;
    Ok(())
}

/// Counts the variables of a definition that are arrays.
fn count_variable(count: &mut usize, var: &VarDef<'_>) -> Result<(), AllocError>
    ensures { OnOk result (count.new ≡ count.old + var_arrays (var_of var.now)) }
{
    match &var.shape {
        None => Ok(()),
        Some(_) => {
            add(count, var.names.len())?;
            Ok(())
        }
    }
}

/// Counts the variables that are arrays.
pub fn count_variables(count: &mut usize, vars: &[VarDef<'_>]) -> Result<(), AllocError>
    ensures { OnOk result (count.new ≡ count.old + sum_by var_arrays (map var_of vars.now)) }
{
    for var in vars {
        count_variable(count, var)?;
    }
    Ok(())
}

/// Counts the parameters of a group that are copies of arrays.
fn count_parameter(count: &mut usize, param: &Param<'_>) -> Result<(), AllocError>
    ensures { OnOk result (count.new ≡ count.old + param_arrays (param_of param.now)) }
{
    if param.by_ref {
        return Ok(());
    }
    match &param.shape {
        None => Ok(()),
        Some(_) => {
            add(count, param.names.len())?;
            Ok(())
        }
    }
}

/// Counts the parameters that are copies of arrays.
pub fn count_parameters(count: &mut usize, params: &[Param<'_>]) -> Result<(), AllocError>
    ensures { OnOk result (count.new
        ≡ count.old + sum_by param_arrays (map param_of params.now)) }
{
    for param in params {
        count_parameter(count, param)?;
    }
    Ok(())
}

/// Counts the global arrays of a declaration.
fn count_declared(count: &mut usize, decl: &Decl<'_>) -> Result<(), AllocError>
    ensures { OnOk result (count.new ≡ count.old + decl_arrays (decl_of decl.now)) }
{
    match decl {
        Decl::Vars(vars) => {
            count_variables(count, vars)?;
            Ok(())
        }
        Decl::Config(_)
        | Decl::Constant(_)
        | Decl::Regions(_)
        | Decl::Directions(_)
        | Decl::Procedure(_) => Ok(()),
    }
}

/// Counts the global arrays.
pub fn count_globals(count: &mut usize, decls: &[Decl<'_>]) -> Result<(), AllocError>
    ensures { OnOk result (count.new ≡ count.old + sum_by decl_arrays (map decl_of decls.now)) }
{
    for decl in decls {
        count_declared(count, decl)?;
    }
    Ok(())
}
