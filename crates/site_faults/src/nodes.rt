//! The nodes of expressions.
ghost use Rattle.std.specs.Prelude.{◌≡◌, None, Some};
ghost use Rattle.name_kinds.specs.of_zpl_names.Accepted as kind;
ghost use Rattle.name_kinds.specs.of_zpl_names.Faults as faults;
ghost use Rattle.name_kinds.specs.of_zpl_names.Ranks as ranks;
ghost use Rattle.name_kinds.specs.of_zpl_names.Sites.{AtExpr};
ghost use Rattle.zpl_tree.specs.Syntax as plain;
ghost use Rattle.zpl_tree.specs.View.{dir_of, expr_of, exprs_of, inner_of, name_of};
ghost use Rattle.name_kinds.specs.Part.{part_of};
ghost use Rattle.name_kinds.specs.Seen.{known_of};
ghost use Rattle.site_faults.specs.Findings.{tells};
ghost use Rattle.site_faults.specs.Reach.{reach_of};
ghost use Rattle.site_faults.specs.Walk.{Tells, state_of};
ghost use Rattle.site_faults.specs.Whole.{fold_takes_booleans};

use crate::findings::{FaultKind, Findings};
use crate::reach::Reach;
use crate::shapes::{floods_at, has_flood, is_read_beyond};
use crate::whole::{is_integer, takes_booleans};
use name_kinds::zpl_nums::{Fold, Op};
use name_kinds::{
    Kind, Part, Rank, array_rank, array_shape, both_ranks, dir_rank, inner_shape, is_array,
    is_past, is_value, part_of, placed_rank, ranks_clash,
};
use zpl_tree::{Dir, Expr, Inner, Name};

/// Whether a reduction or a scan takes booleans.
fn folds_booleans(operator: Fold) -> bool
    ensures { result ≡ fold_takes_booleans operator }
{
    match operator {
        Fold::All | Fold::Any => true,
        _ => false,
    }
}

/// The offset of a direction.
pub fn dir_at(dir: &Dir<'_>) -> u32
    ensures { result ≡ faults.dir_at (dir_of dir.now) }
{
    match dir {
        Dir::Named(name) => name.at,
        Dir::Vector(parts) => match parts.split_first() {
            None => 0,
            Some((first, _)) => first.at,
        },
    }
}

// Whether a scan's dimension isn't one of its rank.
fn lacks_dimension(rank: Rank, along: Option<i64>) -> bool
    ensures { result ≡ faults.no_dimension rank along }
{
    match (rank, along) {
        (Some(rank), Some(along)) => along < 1 || i64::from(rank) < along,
        _ => false,
    }
}

// Whether a remap read has another number of indices than its array has dimensions.
fn is_other_count(rank: Rank, count: usize) -> bool
    ensures { result ≡ faults.is_other_count rank count }
{
    match rank {
        None => false,
        Some(rank) => usize::from(rank) != count,
    }
}

/// Tells what is wrong with a coordinate.
#[tactic(auto, using(crate::proofs::NodeLemmas::coord_told))]
pub fn tell_coord(
    findings: &mut Findings<'_>,
    reach: &Reach<'_>,
    rank: Rank,
    at: u32,
    dimension: u8,
)
    ensures { Tells findings.old findings.new
        (AtExpr (reach_of reach.now) rank (plain.Coord at dimension)) }
{
    findings.add_if(is_past(rank, dimension), FaultKind::RankClash, at);
    let floods = floods_at(reach.shape_at(rank), dimension);
    findings.add_if_reached(floods, FaultKind::FloodClash, at);
}

/// Tells what is wrong with a name in an expression.
#[tactic(auto, using(crate::proofs::NodeLemmas::named_told))]
pub fn tell_named(
    findings: &mut Findings<'_>,
    reach: &Reach<'_>,
    rank: Rank,
    at: u32,
    name: &Name<'_>,
    kind: Option<Kind<'_>>,
)
    requires { known_of kind ≡ faults.kind_at (reach_of reach.now) (name_of name.now) }
    ensures { Tells findings.old findings.new
        (AtExpr (reach_of reach.now) rank (plain.Named at (name_of name.now))) }
{
    findings.add_if(!is_value(kind), FaultKind::UnknownName, name.at);
    findings.add_if_reached(is_read_beyond(reach, kind), FaultKind::FloodClash, at);
}

/// Tells what is wrong with an array that is read by `@` or `@^`.
#[tactic(auto, using(crate::proofs::NodeLemmas::shifted_rules))]
pub fn tell_shifted(
    findings: &mut Findings<'_>,
    reach: &Reach<'_>,
    rank: Rank,
    at: u32,
    name: &Name<'_>,
    shift: &Dir<'_>,
    kind: Option<Kind<'_>>,
)
    requires { known_of kind ≡ faults.kind_at (reach_of reach.now) (name_of name.now) }
    ensures shifted { Tells findings.old findings.new (AtExpr (reach_of reach.now) rank
        (plain.Shifted at (name_of name.now) (dir_of shift.now))) }
    ensures around { Tells findings.old findings.new (AtExpr (reach_of reach.now) rank
        (plain.Around at (name_of name.now) (dir_of shift.now))) }
{
    findings.add_if(!is_array(kind), FaultKind::UnknownName, name.at);
    let clashes = ranks_clash(array_rank(kind), dir_rank(&reach.scope, shift));
    findings.add_if(clashes, FaultKind::RankClash, dir_at(shift));
    findings.add_if_reached(is_read_beyond(reach, kind), FaultKind::FloodClash, at);
}

/// Tells what is wrong with an array that is read at computed indices.
#[tactic(auto, using(crate::proofs::NodeLemmas::remap_rules))]
pub fn tell_remap(
    findings: &mut Findings<'_>,
    reach: &Reach<'_>,
    rank: Rank,
    at: u32,
    name: &Name<'_>,
    indices: &[Expr<'_>],
    kind: Option<Kind<'_>>,
)
    requires { known_of kind ≡ faults.kind_at (reach_of reach.now) (name_of name.now) }
    ensures { Tells findings.old findings.new (AtExpr (reach_of reach.now) rank
        (plain.Remap at (name_of name.now) (exprs_of indices.now))) }
{
    findings.add_if(!is_array(kind), FaultKind::UnknownName, name.at);
    let is_other = is_other_count(array_rank(kind), indices.len());
    findings.add_if(is_other, FaultKind::RankClash, at);
    tell_indices(findings, reach, indices);
    let floods = has_flood(array_shape(kind)) | has_flood(reach.shape_at(rank));
    findings.add_if_reached(floods, FaultKind::FloodClash, at);
}

// Tells each index whose rank clashes with those before it.
fn tell_indices(findings: &mut Findings<'_>, reach: &Reach<'_>, indices: &[Expr<'_>])
    ensures told { state_of findings.new ≡ tells kind.RankClash
        (faults.index_clashes (reach_of reach.now) (Some 0) (exprs_of indices.now))
        (state_of findings.old) }
    ensures reached { (state_of findings.new).reached ≡ (state_of findings.old).reached }
{
    let mut before = Some(0);
    for index in indices {
        let own = part_of(&reach.scope, reach.prefix, index).own;
        findings.add_if(ranks_clash(before, own), FaultKind::RankClash, index.at);
        before = both_ranks(before, own);
    }
}

/// Tells what is wrong with a negation, whose operand is a boolean.
#[tactic(auto, using(crate::proofs::NodeLemmas::not_told))]
pub fn tell_not(
    findings: &mut Findings<'_>,
    reach: &Reach<'_>,
    rank: Rank,
    at: u32,
    operand: &Expr<'_>,
    part: Part,
)
    requires { part ≡ part_of (reach_of reach.now).scope (reach_of reach.now).prefix
        (expr_of operand.now) }
    ensures { Tells findings.old findings.new
        (AtExpr (reach_of reach.now) rank (plain.Not at (expr_of operand.now))) }
{
    findings.add_if(is_integer(part.base), FaultKind::TypeClash, operand.at);
}

/// Tells what is wrong with an operator and its two operands.
#[tactic(auto, using(crate::proofs::NodeLemmas::pair_told))]
pub fn tell_pair(
    findings: &mut Findings<'_>,
    reach: &Reach<'_>,
    rank: Rank,
    at: u32,
    op: Op,
    operands: (&Expr<'_>, &Expr<'_>),
    parts: (Part, Part),
)
    requires left { parts.0 ≡ part_of (reach_of reach.now).scope (reach_of reach.now).prefix
        (expr_of operands.0.now) }
    requires right { parts.1 ≡ part_of (reach_of reach.now).scope (reach_of reach.now).prefix
        (expr_of operands.1.now) }
    ensures { Tells findings.old findings.new (AtExpr (reach_of reach.now) rank
        (plain.Pair at op (expr_of operands.entry.0.now) (expr_of operands.entry.1.now))) }
{
    let takes = takes_booleans(op);
    let left = takes & is_integer(parts.0.base);
    findings.add_if(left, FaultKind::TypeClash, operands.0.at);
    let right = takes & is_integer(parts.1.base);
    findings.add_if(right, FaultKind::TypeClash, operands.1.at);
    let clashes = ranks_clash(parts.0.own, parts.1.own);
    findings.add_if(clashes, FaultKind::RankClash, operands.1.at);
}

/// Tells what is wrong with a full reduction.
#[tactic(auto, using(crate::proofs::NodeLemmas::reduce_told))]
pub fn tell_reduce(
    findings: &mut Findings<'_>,
    reach: &Reach<'_>,
    rank: Rank,
    at: u32,
    operator: Fold,
    operand: &Expr<'_>,
    part: Part,
)
    requires { part ≡ part_of (reach_of reach.now).scope (reach_of reach.now).prefix
        (expr_of operand.now) }
    ensures { Tells findings.old findings.new (AtExpr (reach_of reach.now) rank
        (plain.Reduce at operator plain.NoBracket (expr_of operand.now))) }
{
    let is_wrong = folds_booleans(operator) & is_integer(part.base);
    findings.add_if(is_wrong, FaultKind::TypeClash, operand.at);
    let over = placed_rank(true, reach.prefix, part.own);
    findings.add_if(reach.lacks_region(over), FaultKind::NoRegion, at);
    findings.add_if_reached(has_flood(reach.shape_at(over)), FaultKind::FloodClash, at);
}

/// Tells what is wrong with a reduction over a region of a rank.
#[tactic(auto, using(crate::proofs::NodeLemmas::partial_told))]
pub fn tell_partial(
    findings: &mut Findings<'_>,
    reach: &Reach<'_>,
    rank: Rank,
    at: u32,
    operator: Fold,
    source: (&Inner<'_>, Rank),
    operand: &Expr<'_>,
    part: Part,
)
    requires operand { part ≡ part_of (reach_of reach.now).scope (reach_of reach.now).prefix
        (expr_of operand.now) }
    requires source { source.1 ≡ ranks.inner_rank (reach_of reach.now).scope part.own
        (reach_of reach.now).prefix (inner_of source.0.now) }
    ensures { Tells findings.old findings.new (AtExpr (reach_of reach.now) rank
        (plain.Reduce at operator (plain.Bracketed (inner_of source.entry.0.now))
        (expr_of operand.now))) }
{
    let is_wrong = folds_booleans(operator) & is_integer(part.base);
    findings.add_if(is_wrong, FaultKind::TypeClash, operand.at);
    findings.add_if(
        ranks_clash(source.1, part.own),
        FaultKind::RankClash,
        operand.at,
    );
    findings.add_if(reach.lacks_region(source.1), FaultKind::NoRegion, at);
    let shape = inner_shape(&reach.scope, reach.shapes, source.1, source.0);
    findings.add_if_reached(has_flood(shape), FaultKind::FloodClash, at);
}

/// Tells what is wrong with a scan.
#[tactic(auto, using(crate::proofs::NodeLemmas::scan_told))]
pub fn tell_scan(
    findings: &mut Findings<'_>,
    reach: &Reach<'_>,
    rank: Rank,
    at: u32,
    operator: Fold,
    along: Option<i64>,
    operand: &Expr<'_>,
    part: Part,
)
    requires { part ≡ part_of (reach_of reach.now).scope (reach_of reach.now).prefix
        (expr_of operand.now) }
    ensures { Tells findings.old findings.new (AtExpr (reach_of reach.now) rank
        (plain.Scan at operator along (expr_of operand.now))) }
{
    let is_wrong = folds_booleans(operator) & is_integer(part.base);
    findings.add_if(is_wrong, FaultKind::TypeClash, operand.at);
    findings.add_if(
        lacks_dimension(rank, along),
        FaultKind::RankClash,
        operand.at,
    );
    findings.add_if(reach.lacks_region(rank), FaultKind::NoRegion, at);
    findings.add_if_reached(has_flood(reach.shape_at(rank)), FaultKind::FloodClash, at);
}

/// Tells what is wrong with a flood from a region of a rank.
#[tactic(auto, using(crate::proofs::NodeLemmas::flood_told))]
pub fn tell_flood(
    findings: &mut Findings<'_>,
    reach: &Reach<'_>,
    rank: Rank,
    at: u32,
    source: (&Inner<'_>, Rank),
    operand: &Expr<'_>,
    part: Part,
)
    requires operand { part ≡ part_of (reach_of reach.now).scope (reach_of reach.now).prefix
        (expr_of operand.now) }
    requires source { source.1 ≡ ranks.inner_rank (reach_of reach.now).scope part.own
        (reach_of reach.now).prefix (inner_of source.0.now) }
    ensures { Tells findings.old findings.new (AtExpr (reach_of reach.now) rank
        (plain.Flood at (inner_of source.entry.0.now) (expr_of operand.now))) }
{
    findings.add_if(
        ranks_clash(source.1, part.own),
        FaultKind::RankClash,
        operand.at,
    );
    findings.add_if(reach.lacks_region(source.1), FaultKind::NoRegion, at);
    let shape = inner_shape(&reach.scope, reach.shapes, source.1, source.0);
    findings.add_if_reached(has_flood(shape), FaultKind::FloodClash, at);
}
