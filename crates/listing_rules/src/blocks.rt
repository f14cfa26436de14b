//! Groups and exchanges: a heading, and lines below it.
ghost use Rattle.std.specs.Prelude.{◌≡◌, ◌+◌, ◌^◌, ◌<◌, ◌≤◌, [], ◌∷◌, IfErr, IfOk, drop, length};
ghost use Rattle.node_form.specs.Fits.{FitsGroup};
ghost use Rattle.listing_rows.specs.Rows.{line_of};
ghost use Rattle.listing_rules.specs.Blocks.{Block, Blocks, BlocksStop, NoBlock};
ghost use Rattle.listing_rules.specs.Facts.{AreGroupFacts, Knows, Tell};
ghost use Rattle.listing_rules.specs.Reads.{FaultAt};
ghost use Rattle.listing_rules.specs.Rules.{IsItemLine, IsMemberLine, belongs};
ghost use Rattle.listing_rules.specs.Stages.{IsExchange};

use crate::facts::{Known, Ranks};
use crate::faults::{ListFault, bad_table};
use crate::groups::Group;
use crate::lines::is_heading;
use crate::parts::{Part, next_of};
use crate::reads::{read_items, read_members};
use listing_rows::listing_lines::{Keyword, Line};
use node_form::{Exchanges, Groups, Item, Row, Rows};
use std::alloc::Global;

/// The group whose heading is this line, and the place behind it.
fn read_group(
    alloc: Global,
    known: &Known,
    lines: &[Line],
    line: &Line,
    from: usize,
) -> Result<(Group, usize), ListFault>
    requires knows { Knows known.now }
    requires few { length lines.now + 1 < 2 ^ 32 }
    requires inside { from < length lines.now }
    requires here { drop from lines.now ≡ line.now ∷ drop (from + 1) lines.now }
    ensures ok { IfOk result (λ found. Block (line_of Keyword.Group []) (belongs Part.Members)
        (IsMemberLine known.now.tables) (FitsGroup known.now.tables)
        (drop from lines.now) found.0.members.items (drop found.1 lines.now)) }
    ensures facts { IfOk result (λ found.
        AreGroupFacts known.now.tables found.0.members.items found.0.ranks) }
    ensures inside { IfOk result (λ found. found.1 ≤ length lines.now) }
    ensures on { IfOk result (λ found. from < found.1) }
    ensures err { IfErr result (FaultAt (NoBlock (line_of Keyword.Group []) (belongs Part.Members)
        (IsMemberLine known.now.tables) (FitsGroup known.now.tables)
        (drop from lines.now)) lines.now) }
{
    if !is_heading(alloc, Keyword::Group, line)? {
        return Err(bad_table(from));
    }
    let (group, at) = read_members(alloc, known, lines, from + 1)?;
    if !group.is_whole() {
        return Err(bad_table(at));
    }
    Ok((group, at))
}

/// The groups from a line on, the ranks at which each fits, and the place behind them.
pub(crate) fn read_groups(
    alloc: Global,
    known: &Known,
    lines: &[Line],
    from: usize,
) -> Result<(Groups, Rows<Ranks>, usize), ListFault>
    requires knows { Knows known.now }
    requires few { length lines.now + 1 < 2 ^ 32 }
    requires inside { from ≤ length lines.now }
    ensures ok { IfOk result (λ found. Blocks (belongs Part.Groups) (line_of Keyword.Group [])
        (belongs Part.Members) (IsMemberLine known.now.tables) (FitsGroup known.now.tables)
        (drop from lines.now) found.0 (drop found.2 lines.now)) }
    ensures facts { IfOk result (λ found. Tell (AreGroupFacts known.now.tables) found.0 found.1) }
    ensures inside { IfOk result (λ found. found.2 ≤ length lines.now) }
    ensures err { IfErr result (FaultAt (BlocksStop (belongs Part.Groups) (line_of Keyword.Group [])
        (belongs Part.Members) (IsMemberLine known.now.tables) (FitsGroup known.now.tables)
        (drop from lines.now)) lines.now) }
{
    let mut groups = Rows::new(alloc);
    let mut ranks = Rows::new(alloc);
    let mut at = from;
    while let Some(line) = next_of(Part::Groups, lines, at) {
        let (group, behind) = read_group(alloc, known, lines, line, at)?;
        ranks.push(alloc, group.ranks)?;
        groups.push(alloc, Row::of(group.members))?;
        at = behind;
    }
    Ok((groups, ranks, at))
}

/// The exchange whose heading is this line, and the place behind it.
fn read_exchange(
    alloc: Global,
    known: &Known,
    lines: &[Line],
    line: &Line,
    from: usize,
) -> Result<(Vec<Item>, usize), ListFault>
    requires few { length lines.now + 1 < 2 ^ 32 }
    requires inside { from < length lines.now }
    requires here { drop from lines.now ≡ line.now ∷ drop (from + 1) lines.now }
    ensures ok { IfOk result (λ found. Block (line_of Keyword.Exchange []) (belongs Part.Items)
        (λ done. IsItemLine known.now.tables) IsExchange
        (drop from lines.now) found.0.items (drop found.1 lines.now)) }
    ensures inside { IfOk result (λ found. found.1 ≤ length lines.now) }
    ensures on { IfOk result (λ found. from < found.1) }
    ensures err { IfErr result (FaultAt (NoBlock (line_of Keyword.Exchange []) (belongs Part.Items)
        (λ done. IsItemLine known.now.tables) IsExchange (drop from lines.now)) lines.now) }
{
    if !is_heading(alloc, Keyword::Exchange, line)? {
        return Err(bad_table(from));
    }
    let (items, at) = read_items(alloc, known, lines, from + 1)?;
    Ok((items, at))
}

/// The exchanges from a line on, and the place behind them.
pub(crate) fn read_exchanges(
    alloc: Global,
    known: &Known,
    lines: &[Line],
    from: usize,
) -> Result<(Exchanges, usize), ListFault>
    requires few { length lines.now + 1 < 2 ^ 32 }
    requires inside { from ≤ length lines.now }
    ensures ok { IfOk result (λ found. Blocks (belongs Part.Exchanges) (line_of Keyword.Exchange [])
        (belongs Part.Items) (λ done. IsItemLine known.now.tables) IsExchange
        (drop from lines.now) found.0 (drop found.1 lines.now)) }
    ensures inside { IfOk result (λ found. found.1 ≤ length lines.now) }
    ensures err { IfErr result (FaultAt (BlocksStop (belongs Part.Exchanges)
        (line_of Keyword.Exchange []) (belongs Part.Items)
        (λ done. IsItemLine known.now.tables) IsExchange (drop from lines.now)) lines.now) }
{
    let mut exchanges = Rows::new(alloc);
    let mut at = from;
    while let Some(line) = next_of(Part::Exchanges, lines, at) {
        let (items, behind) = read_exchange(alloc, known, lines, line, at)?;
        exchanges.push(alloc, Row::of(items))?;
        at = behind;
    }
    Ok((exchanges, at))
}
