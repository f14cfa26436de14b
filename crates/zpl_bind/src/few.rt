//! Declarations whose brackets have at most three dimensions.
ghost use Rattle.std.specs.Prelude.{◌≡◌, map};
ghost use Rattle.std.specs.List.{list_all};
ghost use Rattle.zpl_tree.specs.View.{bracket_of, decl_of, inner_of, region_of, var_of};
ghost use Rattle.zpl_bind.specs.Few.{are_few_vars, is_few, is_few_bracket, is_few_decl};

use zpl_tree::{Decl, Inner, RegionDef, VarDef};

/// Whether no bracket of the declarations has a fourth dimension.
pub fn are_few(decls: &[Decl<'_>]) -> bool
    ensures { result ≡ list_all is_few_decl (map decl_of decls.now) }
{
    for decl in decls {
        if !is_few_decl(decl) {
            return false;
        }
    }
    true
}

fn is_few_decl(decl: &Decl<'_>) -> bool
    ensures { result ≡ is_few_decl (decl_of decl.now) }
{
    match decl {
        Decl::Regions(regions) => are_few_regions(regions),
        Decl::Vars(vars) => are_few_vars(vars),
        Decl::Procedure(procedure) => are_few_vars(procedure.locals),
        Decl::Config(_) | Decl::Constant(_) | Decl::Directions(_) => true,
    }
}

fn are_few_regions(regions: &[RegionDef<'_>]) -> bool
    ensures { result ≡ list_all (λ region. is_few region.body) (map region_of regions.now) }
{
    for region in regions {
        if !is_few(&region.body) {
            return false;
        }
    }
    true
}

fn are_few_vars(vars: &[VarDef<'_>]) -> bool
    ensures { result ≡ are_few_vars (map var_of vars.now) }
{
    for var in vars {
        if !is_few_bracket(&var.shape) {
            return false;
        }
    }
    true
}

fn is_few_bracket(bracket: &Option<Inner<'_>>) -> bool
    ensures { result ≡ is_few_bracket (bracket_of bracket.now) }
{
    match bracket {
        None => true,
        Some(inner) => is_few(inner),
    }
}

fn is_few(inner: &Inner<'_>) -> bool
    ensures { result ≡ is_few (inner_of inner.now) }
{
    match inner {
        Inner::Rexpr(_) => true,
        Inner::Dims(dims) => dims.len() <= 3,
    }
}
