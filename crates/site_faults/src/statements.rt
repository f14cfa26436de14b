//! Statements under their prefixes.
ghost use Rattle.std.specs.Prelude.{◌≡◌, [], if◌then◌else◌, ◌++◌, map};
ghost use Rattle.name_kinds.specs.of_zpl_names.Accepted as kind;
ghost use Rattle.name_kinds.specs.of_zpl_names.Faults as faults;
ghost use Rattle.name_kinds.specs.of_zpl_names.Faults.{at_if};
ghost use Rattle.name_kinds.specs.of_zpl_names.Ranks.{is_above_zero};
ghost use Rattle.name_kinds.specs.of_zpl_names.Sites as sites;
ghost use Rattle.name_kinds.specs.of_zpl_names.Sites.{AtStmt};
ghost use Rattle.zpl_tree.specs.Syntax as plain;
ghost use Rattle.zpl_tree.specs.View.{arms_of, expr_of, item_of, name_of, prefix_of, statement_of};
ghost use Rattle.name_kinds.specs.Seen.{known_of};
ghost use Rattle.site_faults.specs.Findings.{tells};
ghost use Rattle.site_faults.specs.Reach.{reach_of};
ghost use Rattle.site_faults.specs.Walk.{Tells, state_of};

use crate::findings::{FaultKind, Findings};
use crate::reach::{Reach, Role};
use crate::whole::{rank_at, takes_booleans};
use name_kinds::zpl_nums::Op;
use name_kinds::{
    BaseType, Kind, Rank, array_rank, first_rank, is_above_zero, is_fixed, is_scalar, is_value,
    kind_base, part_of, ranks_clash,
};
use zpl_tree::{Arm, Expr, Item, Name, Prefix};

/// The rank of a test.
pub fn test_rank(reach: &Reach<'_>, test: &Expr<'_>) -> Rank
    ensures { result ≡ sites.test_rank (reach_of reach.now) (expr_of test.now) }
{
    rank_at(reach, Role::Test, part_of(&reach.scope, reach.prefix, test))
}

/// The rank of an `if` by its tests.
pub fn arms_rank(reach: &Reach<'_>, arms: &[Arm<'_>]) -> Rank
    ensures { result ≡ sites.arms_rank (reach_of reach.now) (arms_of arms.now) }
{
    let mut rank = Some(0);
    for arm in arms {
        rank = first_rank(rank, test_rank(reach, arm.test));
    }
    rank
}

/// The rank of an item of a print.
pub fn item_rank(reach: &Reach<'_>, item: &Item<'_>) -> Rank
    ensures { result ≡ faults.item_rank (reach_of reach.now) (item_of item.now) }
{
    match item {
        Item::Str(_) => Some(0),
        Item::Value(value) => {
            rank_at(
                reach,
                Role::Printed,
                part_of(&reach.scope, reach.prefix, value),
            )
        }
    }
}

/// Tells a statement in a shattered one that has a prefix, or that none may have.
pub fn tell_broken(
    findings: &mut Findings<'_>,
    reach: &Reach<'_>,
    at: u32,
    prefixes: &[Prefix<'_>],
    breaks: bool,
)
    ensures told { state_of findings.new ≡ tells kind.ShatterBody
        (if is_above_zero reach.now.shattered
        then at_if (faults.has_prefix (map prefix_of prefixes.now)) at ++ at_if breaks at else [])
        (state_of findings.old) }
    ensures reached { (state_of findings.new).reached ≡ (state_of findings.old).reached }
{
    let is_inside = is_above_zero(reach.shattered);
    findings.add_if(is_inside & !prefixes.is_empty(), FaultKind::ShatterBody, at);
    findings.add_if(is_inside & breaks, FaultKind::ShatterBody, at);
}

/// Tells a test that a shattered statement of a rank can't have.
pub fn tell_broken_test(findings: &mut Findings<'_>, reach: &Reach<'_>, rank: Rank, test: &Expr<'_>)
    ensures told { state_of findings.new ≡ tells kind.ShatterBody
        (faults.broken_test (reach_of reach.now) rank (expr_of test.now)) (state_of findings.old) }
    ensures reached { (state_of findings.new).reached ≡ (state_of findings.old).reached }
{
    let part = part_of(&reach.scope, reach.prefix, test);
    let clashes = ranks_clash(rank, rank_at(reach, Role::Test, part));
    let is_broken = is_above_zero(rank) & (!part.is_elementwise | clashes);
    findings.add_if(is_broken, FaultKind::ShatterBody, test.at);
}

/// Tells each test of an `if` that a shattered statement of a rank can't have.
pub fn tell_broken_arms(
    findings: &mut Findings<'_>,
    reach: &Reach<'_>,
    rank: Rank,
    arms: &[Arm<'_>],
)
    ensures told { state_of findings.new ≡ tells kind.ShatterBody
        (faults.broken_arms (reach_of reach.now) rank (arms_of arms.now)) (state_of findings.old) }
    ensures reached { (state_of findings.new).reached ≡ (state_of findings.old).reached }
{
    for arm in arms {
        tell_broken_test(findings, reach, rank, arm.test);
    }
}
