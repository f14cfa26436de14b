//! The forms of statement.
ghost use Rattle.std.specs.Prelude.{◌≡◌, ℕ, Bool, map};
ghost use Rattle.name_kinds.specs.of_zpl_nums.declared.ends.Border.{Border};
ghost use Rattle.std.specs.List.{flat_map, list_any};
ghost use Rattle.name_kinds.specs.of_zpl_names.Accepted as kind;
ghost use Rattle.name_kinds.specs.of_zpl_names.Faults as faults;
ghost use Rattle.name_kinds.specs.of_zpl_names.Ranks.{array_rank, ranks_clash};
ghost use Rattle.name_kinds.specs.of_zpl_names.Scope.{is_array};
ghost use Rattle.name_kinds.specs.of_zpl_names.Sites as sites;
ghost use Rattle.name_kinds.specs.of_zpl_names.Sites.{AtStmt};
ghost use Rattle.zpl_tree.specs.Syntax as plain;
ghost use Rattle.zpl_tree.specs.View.{arms_of, expr_of, head_of, inner_of, item_of, name_of};
ghost use Rattle.zpl_tree.specs.View.{prefix_of};
ghost use Rattle.name_kinds.specs.Part.{part_of};
ghost use Rattle.name_kinds.specs.Seen.{known_of};
ghost use Rattle.site_faults.specs.Findings.{tells};
ghost use Rattle.site_faults.specs.Reach.{reach_of};
ghost use Rattle.site_faults.specs.Walk.{Tells, state_of};
ghost use Rattle.site_faults.specs.Whole.{is_integer_operand};

use crate::findings::{FaultKind, Findings};
use crate::reach::Reach;
use crate::shapes::{has_flood, is_written_beyond};
use crate::statements::{item_rank, tell_broken, tell_broken_arms, tell_broken_test};
use crate::whole::{is_boolean_type, is_integer, takes_booleans};
use name_kinds::zpl_nums::Op;
use name_kinds::{
    Kind, Part, Rank, array_rank, first_rank, is_above_zero, is_array, is_fixed, is_scalar,
    is_value, kind_base, ranks_clash,
};
use zpl_tree::{Arm, Expr, ForHead, Inner, Item, Name, Prefix};

// Whether a shattered statement of a rank can't assign to it.
fn is_other_target(kind: Option<Kind<'_>>, reach: &Reach<'_>) -> bool
    ensures { result ≡ faults.is_other_target (known_of kind.entry) reach.now.shattered }
{
    match kind {
        Some(Kind::Array(_, _)) => ranks_clash(array_rank(kind), reach.shattered),
        _ => is_scalar(kind),
    }
}

// Whether an integer stands before `&=` or `|=`.
#[tactic(auto, using(crate::proofs::WholeLemmas::types_seen))]
fn is_wrong_operand(kind: Option<Kind<'_>>, op: Option<Op>) -> bool
    ensures { result ≡ is_integer_operand (known_of kind.entry) op }
{
    match op {
        None => false,
        Some(op) => takes_booleans(op) & is_integer(kind_base(kind)),
    }
}

/// Tells what is wrong with an assignment.
#[tactic(auto, using(crate::proofs::FormTold::assign_rules))]
pub fn tell_assign(
    findings: &mut Findings<'_>,
    reach: &Reach<'_>,
    at: u32,
    prefixes: &[Prefix<'_>],
    name: &Name<'_>,
    op: Option<Op>,
    value: &Expr<'_>,
    part: Part,
)
    requires { part ≡ part_of (reach_of reach.now).scope (reach_of reach.now).prefix
        (expr_of value.now) }
    ensures { Tells findings.old findings.new
        (AtStmt (reach_of reach.now) at (map prefix_of prefixes.now)
        (plain.Assign (name_of name.now) op (expr_of value.now))) }
{
    let kind = reach.kind(name);
    findings.add_if(!is_value(kind), FaultKind::UnknownName, name.at);
    findings.add_if(is_wrong_operand(kind, op), FaultKind::TypeClash, name.at);
    findings.add_if(
        reach.lacks_region(array_rank(kind)),
        FaultKind::NoRegion,
        at,
    );
    tell_broken(findings, reach, at, prefixes, is_other_target(kind, reach));
    let is_broken = is_above_zero(reach.shattered) & !part.is_elementwise;
    findings.add_if(is_broken, FaultKind::ShatterBody, value.at);
    findings.add_if(is_fixed(kind), FaultKind::NotAssignable, name.at);
    findings.add_if_reached(is_written_beyond(reach, kind), FaultKind::FloodClash, at);
}

/// Tells what is wrong with a `for`.
#[tactic(auto, using(crate::proofs::FormTold::for_rules))]
pub fn tell_for(
    findings: &mut Findings<'_>,
    reach: &Reach<'_>,
    at: u32,
    prefixes: &[Prefix<'_>],
    head: &ForHead<'_>,
)
    ensures { (body : plain.Stmts) → Tells findings.old findings.new
        (AtStmt (reach_of reach.now) at (map prefix_of prefixes.now)
        (plain.For (head_of head.now) body)) }
{
    let kind = reach.kind(&head.name);
    findings.add_if(!is_scalar(kind), FaultKind::UnknownName, head.name.at);
    let is_boolean = is_boolean_type(kind_base(kind));
    findings.add_if(
        is_scalar(kind) & is_boolean,
        FaultKind::TypeClash,
        head.name.at,
    );
    tell_broken(findings, reach, at, prefixes, true);
    findings.add_if(is_fixed(kind), FaultKind::NotAssignable, head.name.at);
}

/// Tells what is wrong with a call as a statement, its actuals and its name aside.
#[tactic(auto, using(crate::proofs::FormTold::invoke_told))]
pub fn tell_invoke(findings: &mut Findings<'_>, reach: &Reach<'_>, at: u32, prefixes: &[Prefix<'_>])
    ensures { (name : plain.Name) (actuals : plain.Exprs) → Tells findings.old findings.new
        (AtStmt (reach_of reach.now) at (map prefix_of prefixes.now) (plain.Invoke name actuals)) }
{
    tell_broken(findings, reach, at, prefixes, true);
}

/// Tells what is wrong with a block, its statements aside.
#[tactic(auto, using(crate::proofs::FormTold::block_told))]
pub fn tell_block(findings: &mut Findings<'_>, reach: &Reach<'_>, at: u32, prefixes: &[Prefix<'_>])
    ensures { (body : plain.Stmts) → Tells findings.old findings.new
        (AtStmt (reach_of reach.now) at (map prefix_of prefixes.now) (plain.Block body)) }
{
    tell_broken(findings, reach, at, prefixes, false);
}

/// Tells what is wrong with a `return`.
#[tactic(auto, using(crate::proofs::FormTold::return_told))]
pub fn tell_return(findings: &mut Findings<'_>, reach: &Reach<'_>, at: u32, prefixes: &[Prefix<'_>])
    ensures { (value : plain.Expr) → Tells findings.old findings.new
        (AtStmt (reach_of reach.now) at (map prefix_of prefixes.now) (plain.Return value)) }
{
    tell_broken(findings, reach, at, prefixes, true);
    findings.add_if(reach.result.is_none(), FaultKind::ReturnPlace, at);
}

/// Tells what is wrong with an `if` whose tests have a rank, its parts aside.
#[tactic(auto, using(crate::proofs::FormTold::if_rules))]
pub fn tell_if(
    findings: &mut Findings<'_>,
    reach: &Reach<'_>,
    at: u32,
    prefixes: &[Prefix<'_>],
    arms: &[Arm<'_>],
    tests: Rank,
)
    requires { tests ≡ sites.arms_rank (reach_of reach.now) (arms_of arms.now) }
    ensures { (otherwise : plain.Otherwise) → Tells findings.old findings.new
        (AtStmt (reach_of reach.now) at (map prefix_of prefixes.now)
        (plain.If (arms_of arms.now) otherwise)) }
{
    findings.add_if(reach.lacks_region(tests), FaultKind::NoRegion, at);
    tell_broken(findings, reach, at, prefixes, false);
    tell_broken_arms(findings, reach, first_rank(reach.shattered, tests), arms);
}

/// Tells what is wrong with a `while` or a `repeat` whose test has a rank, its parts aside.
#[tactic(auto, using(crate::proofs::FormTold::loop_rules))]
pub fn tell_loop(
    findings: &mut Findings<'_>,
    reach: &Reach<'_>,
    at: u32,
    prefixes: &[Prefix<'_>],
    test: &Expr<'_>,
    rank: Rank,
)
    requires { rank ≡ sites.test_rank (reach_of reach.now) (expr_of test.now) }
    ensures while_loop { (body : plain.Stmts) → Tells findings.old findings.new
        (AtStmt (reach_of reach.now) at (map prefix_of prefixes.now)
        (plain.While (expr_of test.now) body)) }
    ensures repeat_loop { (body : plain.Stmts) (until : ℕ) → Tells findings.old findings.new
        (AtStmt (reach_of reach.now) at (map prefix_of prefixes.now)
        (plain.Repeat body until (expr_of test.now))) }
{
    findings.add_if(reach.lacks_region(rank), FaultKind::NoRegion, at);
    tell_broken(findings, reach, at, prefixes, false);
    tell_broken_test(findings, reach, first_rank(reach.shattered, rank), test);
}

// Whether an item of a print has no region, one with a flood dimension, or one with a mask.
struct Printed {
    lacks: bool,
    floods: bool,
    masked: bool,
}

// What is wrong with the items of a print.
fn look_at_items(reach: &Reach<'_>, items: &[Item<'_>]) -> Printed
    ensures lacks { result.lacks ≡ list_any (faults.lacks_region (reach_of reach.now))
        (map (faults.item_rank (reach_of reach.now)) (map item_of items.now)) }
    ensures floods { result.floods ≡ list_any (λ item. faults.has_flood (faults.shape_at
        (reach_of reach.now) (faults.item_rank (reach_of reach.now) item)))
        (map item_of items.now) }
    ensures masked { result.masked ≡ list_any (faults.is_under_mask (reach_of reach.now))
        (map (faults.item_rank (reach_of reach.now)) (map item_of items.now)) }
{
    let mut lacks = false;
    let mut floods = false;
    let mut masked = false;
    for item in items {
        let rank = item_rank(reach, item);
        lacks = lacks | reach.lacks_region(rank);
        floods = floods | has_flood(reach.shape_at(rank));
        masked = masked | reach.is_under_mask(rank);
    }
    Printed {
        lacks,
        floods,
        masked,
    }
}

/// Tells what is wrong with a print.
#[tactic(auto, using(crate::proofs::FormTold::write_rules))]
pub fn tell_write(
    findings: &mut Findings<'_>,
    reach: &Reach<'_>,
    at: u32,
    prefixes: &[Prefix<'_>],
    items: &[Item<'_>],
)
    ensures { (line : Bool) → Tells findings.old findings.new
        (AtStmt (reach_of reach.now) at (map prefix_of prefixes.now)
        (plain.Write line (map item_of items.now))) }
{
    let Printed {
        lacks,
        floods,
        masked,
    } = look_at_items(reach, items);
    findings.add_if(lacks, FaultKind::NoRegion, at);
    tell_broken(findings, reach, at, prefixes, true);
    findings.add_if_reached(floods, FaultKind::FloodClash, at);
    findings.add_if_reached(masked, FaultKind::MaskPlace, at);
}

// Whether an array is written under a region with other flood dimensions.
fn any_written_beyond(reach: &Reach<'_>, names: &[Name<'_>]) -> bool
    ensures { result ≡ list_any (faults.is_flood_written (reach_of reach.now))
        (map name_of names.now) }
{
    let mut any = false;
    for name in names {
        any = any | is_written_beyond(reach, reach.kind(name));
    }
    any
}

// Tells each name that isn't an array's.
fn tell_targets(findings: &mut Findings<'_>, reach: &Reach<'_>, names: &[Name<'_>])
    ensures told { state_of findings.new ≡ tells kind.UnknownName
        (flat_map (faults.unless_taken (reach_of reach.now) is_array) (map name_of names.now))
        (state_of findings.old) }
    ensures reached { (state_of findings.new).reached ≡ (state_of findings.old).reached }
{
    for name in names {
        findings.add_if(!is_array(reach.kind(name)), FaultKind::UnknownName, name.at);
    }
}

// Tells each array whose rank isn't that of the prefix.
fn tell_target_ranks(findings: &mut Findings<'_>, reach: &Reach<'_>, names: &[Name<'_>])
    ensures told { state_of findings.new ≡ tells kind.RankClash
        (flat_map (λ name. faults.at_if (ranks_clash reach.now.prefix
        (array_rank (faults.kind_at (reach_of reach.now) name))) name.at) (map name_of names.now))
        (state_of findings.old) }
    ensures reached { (state_of findings.new).reached ≡ (state_of findings.old).reached }
{
    for name in names {
        let clashes = ranks_clash(reach.prefix, array_rank(reach.kind(name)));
        findings.add_if(clashes, FaultKind::RankClash, name.at);
    }
}

// Whether a region is `d of N` or `d of "`.
fn is_border_region(region: &Inner<'_>) -> bool
    ensures { result ≡ faults.is_border_region (inner_of region.now) }
{
    let Inner::Rexpr(rexpr) = region else {
        return false;
    };
    if rexpr.pre.len() != 1 || !rexpr.post.is_empty() {
        return false;
    }
    rexpr.pre[0].outside
}

// Whether the last prefix is `d of N` or `d of "`, without mask.
fn ends_in_border(prefixes: &[Prefix<'_>]) -> bool
    ensures { result ≡ faults.ends_in_border (map prefix_of prefixes.now) }
{
    match prefixes.last() {
        None => false,
        Some(last) => is_border_region(&last.region) & last.mask.is_none(),
    }
}

/// Tells what is wrong with a border statement.
#[tactic(auto, using(crate::proofs::FormTold::border_rules))]
pub fn tell_border(
    findings: &mut Findings<'_>,
    reach: &Reach<'_>,
    at: u32,
    prefixes: &[Prefix<'_>],
    names: &[Name<'_>],
)
    ensures { (border : Border) → Tells findings.old findings.new
        (AtStmt (reach_of reach.now) at (map prefix_of prefixes.now)
        (plain.Border border (map name_of names.now))) }
{
    tell_targets(findings, reach, names);
    tell_target_ranks(findings, reach, names);
    findings.add_if(reach.lacks_region(reach.prefix), FaultKind::NoRegion, at);
    tell_broken(findings, reach, at, prefixes, true);
    findings.add_if(!ends_in_border(prefixes), FaultKind::BorderForm, at);
    let floods = has_flood(reach.shape_at(reach.prefix)) | any_written_beyond(reach, names);
    findings.add_if_reached(floods, FaultKind::FloodClash, at);
    findings.add_if_reached(reach.is_under_mask(reach.prefix), FaultKind::MaskPlace, at);
}
