//! Listings.
ghost use Rattle.std.specs.Prelude.{◌≡◌, ◌++◌, [], ◌∷◌, IfOk, OnErr, OnOk, map};
ghost use Rattle.std.specs.List.{flat_map};
ghost use Rattle.listing_lines.specs.of_node_form.Grid.{factors_of};
ghost use Rattle.listing_rows.specs.Fields.{fields_of};
ghost use Rattle.listing_rows.specs.Listing.{body_lines, code_lines, head_lines, lines_of};
ghost use Rattle.listing_rows.specs.Listing.{listing_of};
ghost use Rattle.listing_rows.specs.Rows.{
  array_line,
  exchange_lines,
  expr_line,
  group_lines,
  instr_line,
  item_line,
  line_of,
  member_line,
  text_line,
};

use crate::fields::{Said, line_of, push_said};
use crate::instructions::instr_line;
use crate::rows::{array_line, expr_line, item_line, member_line, text_line};
use listing_lines::node_form::{Grid3, Item, Member, NodeProgram, Row, Slots, Tables};
use listing_lines::{Keyword, Line, write_lines};
use std::alloc::{AllocError, Global};

/// Appends the program's listing. Where memory runs out nothing is appended.
pub fn write_listing(
    alloc: Global,
    code: &NodeProgram,
    into: &mut Vec<u8>,
) -> Result<(), AllocError>
    ensures ok { OnOk result (into.new.items ≡ into.old.items ++ listing_of code.now) }
    ensures err { OnErr result (into.new.items ≡ into.old.items) }
{
    let lines = all_lines(alloc, code.tables())?;
    write_lines(alloc, &lines, into)
}

fn all_lines(alloc: Global, tables: &Tables) -> Result<Vec<Line>, AllocError>
    ensures { IfOk result (λ lines. lines.items ≡ lines_of tables.now) }
{
    let mut lines = Vec::new(alloc);
    add_head(alloc, tables, &mut lines)?;
    add_body(alloc, tables, &mut lines)?;
    add_code(alloc, tables, &mut lines)?;
    Ok(lines)
}

// ---- the head

fn add_head(alloc: Global, tables: &Tables, lines: &mut Vec<Line>) -> Result<(), AllocError>
    ensures { OnOk result (lines.new.items ≡ lines.old.items ++ head_lines tables.now) }
{
    lines.push(line_of(alloc, Keyword::Version, &[Said::Number(1)])?)?;
    lines.push(grid_line(alloc, &tables.grid)?)?;
    lines.push(line_of(alloc, Keyword::Scalars, &[Said::Number(tables.scalars)])?)?;
    lines.push(slots_line(alloc, &tables.slots)?)?;
    lines.push(line_of(alloc, Keyword::Cells, &[Said::Number(tables.cells)])?)?;
    Ok(())
}

/// The line of a grid.
#[tactic(auto, using(crate::proofs::Rests::factors_more))]
pub fn grid_line(alloc: Global, grid: &Grid3) -> Result<Line, AllocError>
    ensures { IfOk result (λ line.
        line ≡ line_of Keyword.Grid (map Said.Number (factors_of grid.now))) }
{
    let mut fields = Vec::new(alloc);
    for factor in grid {
        if *factor == 0 {
            break;
        }
        push_said(alloc, &mut fields, Said::Number(*factor))?;
    }
    Ok(Line {
        keyword: Keyword::Grid,
        fields: Row::of(fields),
    })
}

/// The line of slots.
pub fn slots_line(alloc: Global, slots: &Slots) -> Result<Line, AllocError>
    ensures { IfOk result (λ line. line ≡ line_of Keyword.Slots (map Said.Number slots.now)) }
{
    let mut fields = Vec::new(alloc);
    for i in 0..slots.len() {
        let rank = slots.get(i).unwrap();
        push_said(alloc, &mut fields, Said::Number(u32::from(*rank)))?;
    }
    Ok(Line {
        keyword: Keyword::Slots,
        fields: Row::of(fields),
    })
}

// ---- the body

fn add_body(alloc: Global, tables: &Tables, lines: &mut Vec<Line>) -> Result<(), AllocError>
    ensures { OnOk result (lines.new.items ≡ lines.old.items ++ body_lines tables.now) }
{
    add_arrays(alloc, tables, lines)?;
    add_texts(alloc, tables, lines)?;
    add_exprs(alloc, tables, lines)?;
    add_groups(alloc, tables, lines)?;
    add_exchanges(alloc, tables, lines)
}

fn add_arrays(alloc: Global, tables: &Tables, lines: &mut Vec<Line>) -> Result<(), AllocError>
    ensures { OnOk result (lines.new.items
        ≡ lines.old.items ++ map array_line tables.now.arrays) }
{
    for i in 0..tables.arrays.len() {
        let row = tables.arrays.get(i).unwrap();
        lines.push(array_line(alloc, row)?)?;
    }
    Ok(())
}

fn add_texts(alloc: Global, tables: &Tables, lines: &mut Vec<Line>) -> Result<(), AllocError>
    ensures { OnOk result (lines.new.items ≡ lines.old.items ++ map text_line tables.now.texts) }
{
    for i in 0..tables.texts.len() {
        let row = tables.texts.get(i).unwrap();
        lines.push(text_line(alloc, row.as_slice())?)?;
    }
    Ok(())
}

fn add_exprs(alloc: Global, tables: &Tables, lines: &mut Vec<Line>) -> Result<(), AllocError>
    ensures { OnOk result (lines.new.items
        ≡ lines.old.items ++ map (expr_line tables.now) tables.now.exprs) }
{
    for i in 0..tables.exprs.len() {
        let row = tables.exprs.get(i).unwrap();
        lines.push(expr_line(alloc, tables, row.as_slice())?)?;
    }
    Ok(())
}

fn add_groups(alloc: Global, tables: &Tables, lines: &mut Vec<Line>) -> Result<(), AllocError>
    ensures { OnOk result (lines.new.items
        ≡ lines.old.items ++ flat_map group_lines tables.now.groups) }
{
    for i in 0..tables.groups.len() {
        let row = tables.groups.get(i).unwrap();
        add_group(alloc, row.as_slice(), lines)?;
    }
    Ok(())
}

fn add_group(alloc: Global, members: &[Member], lines: &mut Vec<Line>) -> Result<(), AllocError>
    ensures { OnOk result (lines.new.items ≡ lines.old.items ++ group_lines members.now) }
{
    lines.push(line_of(alloc, Keyword::Group, &[])?)?;
    for member in members {
        lines.push(member_line(alloc, member)?)?;
    }
    Ok(())
}

fn add_exchanges(alloc: Global, tables: &Tables, lines: &mut Vec<Line>) -> Result<(), AllocError>
    ensures { OnOk result (lines.new.items
        ≡ lines.old.items ++ flat_map (exchange_lines tables.now) tables.now.exchanges) }
{
    for i in 0..tables.exchanges.len() {
        let row = tables.exchanges.get(i).unwrap();
        add_exchange(alloc, tables, row.as_slice(), lines)?;
    }
    Ok(())
}

fn add_exchange(
    alloc: Global,
    tables: &Tables,
    items: &[Item],
    lines: &mut Vec<Line>,
) -> Result<(), AllocError>
    ensures { OnOk result (lines.new.items
        ≡ lines.old.items ++ exchange_lines tables.now items.now) }
{
    lines.push(line_of(alloc, Keyword::Exchange, &[])?)?;
    for item in items {
        lines.push(item_line(alloc, tables, item)?)?;
    }
    Ok(())
}

// ---- the code

fn add_code(alloc: Global, tables: &Tables, lines: &mut Vec<Line>) -> Result<(), AllocError>
    ensures { OnOk result (lines.new.items ≡ lines.old.items ++ code_lines tables.now) }
{
    lines.push(line_of(alloc, Keyword::Code, &[])?)?;
    for i in 0..tables.code.len() {
        let row = tables.code.get(i).unwrap();
        lines.push(instr_line(alloc, tables, row)?)?;
    }
    Ok(())
}
