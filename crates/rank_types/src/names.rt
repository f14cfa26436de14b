//! The global names of a text, with their kinds.
ghost use Rattle.std.specs.Prelude.{◌≡◌, ◌++◌, [], IfErr, IfOk, OnOk, flat_map, map};
ghost use Rattle.zpl_tree.specs.View.{bracket_of, decl_of, define_of, direction_of, name_of};
ghost use Rattle.zpl_tree.specs.View.{region_of, syntax_of, var_of};
ghost use Rattle.zpl_names.specs.Faults.{repeated};
ghost use Rattle.rank_types.specs.Faults.{Holds};
ghost use Rattle.rank_types.specs.Names as names;
ghost use Rattle.rank_types.specs.Names.{IsSecond, row_names, row_symbols};
ghost use Rattle.rank_types.specs.Symbols.{symbols_of};

use crate::faults::Fault;
use crate::symbols::{NameKind, Symbols};
use indexmap::IndexMap;
use std::alloc::{AllocError, Global};
use zpl_tree::{Decl, Define, DirDef, Inner, Name, Program, RegionDef, VarDef};

// A global name and its kind.
#[derive(Clone, Copy)]
struct Row<'a> {
    name: Name<'a>,
    kind: NameKind,
}

// Adds configs or constants.
fn add_defines<'a>(
    rows: &mut Vec<Row<'a>>,
    kind: NameKind,
    defines: &[Define<'a>],
) -> Result<(), AllocError>
    ensures { OnOk result (map names.row_of rows.new.items ≡ map names.row_of rows.old.items
        ++ names.define_rows kind (map define_of defines.now)) }
{
    for define in defines {
        rows.push(Row {
            name: define.name,
            kind,
        })?;
    }
    Ok(())
}

// Adds regions.
fn add_regions<'a>(rows: &mut Vec<Row<'a>>, regions: &[RegionDef<'a>]) -> Result<(), AllocError>
    ensures { OnOk result (map names.row_of rows.new.items ≡ map names.row_of rows.old.items
        ++ names.region_rows (map region_of regions.now)) }
{
    for region in regions {
        rows.push(Row {
            name: region.name,
            kind: NameKind::Region,
        })?;
    }
    Ok(())
}

// Adds directions.
fn add_directions<'a>(rows: &mut Vec<Row<'a>>, directions: &[DirDef<'a>]) -> Result<(), AllocError>
    ensures { OnOk result (map names.row_of rows.new.items ≡ map names.row_of rows.old.items
        ++ names.direction_rows (map direction_of directions.now)) }
{
    for direction in directions {
        rows.push(Row {
            name: direction.name,
            kind: NameKind::Direction,
        })?;
    }
    Ok(())
}

// Adds names of one kind.
fn add_names<'a>(
    rows: &mut Vec<Row<'a>>,
    kind: NameKind,
    more: &[Name<'a>],
) -> Result<(), AllocError>
    ensures { OnOk result (map names.row_of rows.new.items ≡ map names.row_of rows.old.items
        ++ names.rows_for kind (map name_of more.now)) }
{
    for name in more {
        rows.push(Row { name: *name, kind })?;
    }
    Ok(())
}

// The kind of a variable: one with a region is an array.
fn variable_kind(shape: &Option<Inner<'_>>) -> NameKind
    ensures { result ≡ names.variable_kind (bracket_of shape.now) }
{
    match shape {
        None => NameKind::Scalar,
        Some(_) => NameKind::Array,
    }
}

// Adds variables.
fn add_vars<'a>(rows: &mut Vec<Row<'a>>, vars: &[VarDef<'a>]) -> Result<(), AllocError>
    ensures { OnOk result (map names.row_of rows.new.items ≡ map names.row_of rows.old.items
        ++ names.var_rows (map var_of vars.now)) }
{
    for var in vars {
        add_names(rows, variable_kind(&var.shape), var.names)?;
    }
    Ok(())
}

// Adds what a declaration does.
fn add_decl<'a>(rows: &mut Vec<Row<'a>>, decl: &Decl<'a>) -> Result<(), AllocError>
    ensures { OnOk result (map names.row_of rows.new.items ≡ map names.row_of rows.old.items
        ++ names.decl_rows (decl_of decl.now)) }
{
    match decl {
        Decl::Config(defines) => add_defines(rows, NameKind::Config, defines),
        Decl::Constant(defines) => add_defines(rows, NameKind::Constant, defines),
        Decl::Regions(regions) => add_regions(rows, regions),
        Decl::Directions(directions) => add_directions(rows, directions),
        Decl::Vars(vars) => add_vars(rows, vars),
        Decl::Procedure(procedure) => {
            rows.push(Row {
                name: procedure.name,
                kind: NameKind::Procedure,
            })?;
            Ok(())
        }
    }
}

// The global names of declarations, in the order of the text.
fn rows_of<'a>(alloc: Global, decls: &[Decl<'a>]) -> Result<Vec<Row<'a>>, AllocError>
    ensures { IfOk result (λ rows. map names.row_of rows.items
        ≡ flat_map names.decl_rows (map decl_of decls.now)) }
{
    let mut rows = Vec::new(alloc);
    for decl in decls {
        add_decl(&mut rows, decl)?;
    }
    Ok(rows)
}

// A table of names, or the first that is a second one.
fn table_of<'a>(alloc: Global, rows: &[Row<'a>]) -> Result<Symbols<'a>, Fault>
    ensures ok { IfOk result (λ symbols. symbols ≡ row_symbols (map names.row_of rows.now)) }
    ensures once { OnOk result (repeated [] (row_names (map names.row_of rows.now)) ≡ []) }
    ensures err { IfErr result (IsSecond (row_names (map names.row_of rows.now))) }
{
    let mut entries = IndexMap::new(alloc);
    for row in rows {
        if entries.contains_key(row.name.text) {
            return Err(Fault::TwiceNamed(row.name.at));
        }
        entries.insert(row.name.text, row.kind)?;
    }
    Ok(Symbols { entries })
}

/// The global names of a program with their kinds. It stops at the first that is a second one.
pub fn global_names<'a>(alloc: Global, program: &'a Program<'a>) -> Result<Symbols<'a>, Fault>
    ensures ok { IfOk result (λ symbols. symbols ≡ symbols_of (syntax_of program.entry.now)) }
    ensures once { OnOk result (names.AreDistinct (syntax_of program.entry.now)) }
    ensures err { IfErr result (Holds (syntax_of program.entry.now)) }
{
    let rows = rows_of(alloc, program.decls)?;
    table_of(alloc, rows.as_slice())
}
