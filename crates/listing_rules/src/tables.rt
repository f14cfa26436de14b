//! The tables that lines tell, part by part.
ghost use Rattle.std.specs.Prelude.{◌≡◌, ◌+◌, ◌^◌, ◌<◌, ◌≤◌, [], All, IfErr, IfOk, drop, length};
ghost use Rattle.node_form.specs.Fits.{IsRank};
ghost use Rattle.listing_rules.specs.Facts.{AreExprFacts, Knows, Tell};
ghost use Rattle.listing_rules.specs.Reads.{FaultAt};
ghost use Rattle.listing_rules.specs.Room.{HasRoom};
ghost use Rattle.listing_rules.specs.Stages.{
  AreTables,
  Breaks,
  ReadArrays,
  ReadExchanges,
  ReadExprs,
};

use crate::blocks::{read_exchanges, read_groups};
use crate::facts::{ExprFacts, Known};
use crate::faults::ListFault;
use crate::heads::{read_head, take_code};
use crate::reads::{read_arrays, read_exprs, read_instrs, read_texts};
use crate::rooms::check_room;
use listing_rows::listing_lines::Line;
use node_form::{Rows, Tables};
use std::alloc::{AllocError, Global};

/// The head and the arrays, which have room; and the place behind them.
fn read_shapes(alloc: Global, lines: &[Line]) -> Result<(Tables, usize), ListFault>
    requires { length lines.now + 1 < 2 ^ 32 }
    ensures ok { IfOk result (λ found. ReadArrays lines.now found.0 (drop found.1 lines.now)) }
    ensures room { IfOk result (λ found. HasRoom found.0) }
    ensures inside { IfOk result (λ found. found.1 ≤ length lines.now) }
    ensures err { IfErr result (FaultAt (Breaks lines.now) lines.now) }
{
    let mut tables = read_head(alloc, lines)?;
    let (arrays, at) = read_arrays(alloc, lines, 5)?;
    tables.arrays = arrays;
    check_room(alloc, &tables, lines)?;
    Ok((tables, at))
}

/// And the texts and the expressions.
fn read_words(alloc: Global, lines: &[Line]) -> Result<(Tables, usize), ListFault>
    requires { length lines.now + 1 < 2 ^ 32 }
    ensures ok { IfOk result (λ found. ReadExprs lines.now found.0 (drop found.1 lines.now)) }
    ensures inside { IfOk result (λ found. found.1 ≤ length lines.now) }
    ensures err { IfErr result (FaultAt (Breaks lines.now) lines.now) }
{
    let (mut tables, at) = read_shapes(alloc, lines)?;
    let (texts, at) = read_texts(alloc, lines, at)?;
    tables.texts = texts;
    let known = Known {
        tables,
        exprs: Rows::new(alloc),
        groups: Rows::new(alloc),
    };
    let (exprs, at) = read_exprs(alloc, &known, lines, at)?;
    let mut tables = known.tables;
    tables.exprs = exprs;
    Ok((tables, at))
}

/// What is known of each expression.
fn facts_of(alloc: Global, known: &Known) -> Result<Rows<ExprFacts>, AllocError>
    ensures { IfOk result (λ facts.
        Tell (AreExprFacts known.now.tables) known.now.tables.exprs facts) }
{
    let mut facts = Rows::new(alloc);
    for i in 0..known.tables.exprs.len() {
        let words = known.tables.exprs.get(i).unwrap();
        facts.push(alloc, known.expr_facts(words.as_slice()))?;
    }
    Ok(facts)
}

/// The tables with what is known of their expressions; there are no groups yet.
fn known_of(alloc: Global, tables: Tables) -> Result<Known, AllocError>
    requires slots { All IsRank tables.slots }
    requires groups { tables.groups ≡ [] }
    ensures same { IfOk result (λ known. known.tables ≡ tables) }
    ensures knows { IfOk result Knows }
{
    let mut known = Known {
        tables,
        exprs: Rows::new(alloc),
        groups: Rows::new(alloc),
    };
    known.exprs = facts_of(alloc, &known)?;
    Ok(known)
}

/// And the groups and the exchanges.
fn read_bodies(alloc: Global, lines: &[Line]) -> Result<(Known, usize), ListFault>
    requires { length lines.now + 1 < 2 ^ 32 }
    ensures ok { IfOk result (λ found. ReadExchanges lines.now found.0.tables
        (drop found.1 lines.now)) }
    ensures knows { IfOk result (λ found. Knows found.0) }
    ensures inside { IfOk result (λ found. found.1 ≤ length lines.now) }
    ensures err { IfErr result (FaultAt (Breaks lines.now) lines.now) }
{
    let (tables, at) = read_words(alloc, lines)?;
    let mut known = known_of(alloc, tables)?;
    let (groups, ranks, at) = read_groups(alloc, &known, lines, at)?;
    known.tables.groups = groups;
    known.groups = ranks;
    let (exchanges, at) = read_exchanges(alloc, &known, lines, at)?;
    known.tables.exchanges = exchanges;
    Ok((known, at))
}

/// The tables that the lines of a listing tell.
pub fn read_tables(alloc: Global, lines: &[Line]) -> Result<Tables, ListFault>
    requires { length lines.now + 1 < 2 ^ 32 }
    ensures ok { IfOk result (AreTables lines.now) }
    ensures err { IfErr result (FaultAt (Breaks lines.now) lines.now) }
{
    let (known, at) = read_bodies(alloc, lines)?;
    take_code(alloc, lines, at)?;
    let count = (lines.len() - at - 1) as u64;
    let (code, _end) = read_instrs(alloc, &known, count, lines, at + 1)?;
    let mut tables = known.tables;
    tables.code = code;
    Ok(tables)
}
