//! Expressions that stand by themselves.
ghost use Rattle.std.specs.Prelude.{◌≡◌};
ghost use Rattle.name_kinds.specs.of_zpl_names.Faults as faults;
ghost use Rattle.name_kinds.specs.of_zpl_names.Sites as sites;
ghost use Rattle.name_kinds.specs.of_zpl_names.Sites.{AtWhole};
ghost use Rattle.name_kinds.specs.of_zpl_names.Types as types;
ghost use Rattle.zpl_tree.specs.View.{base_type_of, expr_of};
ghost use Rattle.name_kinds.specs.Part.{part_of};
ghost use Rattle.name_kinds.specs.Reach.{scope_of};
ghost use Rattle.name_kinds.specs.Seen.{known_of};
ghost use Rattle.site_faults.specs.Reach.{reach_of, role_of};
ghost use Rattle.site_faults.specs.Walk.{Tells};
ghost use Rattle.site_faults.specs.Whole as whole;

use crate::findings::{FaultKind, Findings};
use crate::reach::{Reach, Role};
use name_kinds::zpl_nums::Op;
use name_kinds::{
    BaseType, Kind, Part, Rank, array_rank, is_above_zero, is_scalar, kind_base, lacks_rank,
    placed_rank, ranks_clash,
};
use zpl_tree::{Base, Expr};

/// Whether a type is `integer`.
pub fn is_integer(base: Option<BaseType>) -> bool
    ensures { result ≡ whole.is_integer_type base }
{
    match base {
        Some(BaseType::Integer) => true,
        _ => false,
    }
}

/// Whether a type is `boolean`.
pub fn is_boolean_type(base: Option<BaseType>) -> bool
    ensures { result ≡ whole.is_boolean_type base }
{
    match base {
        Some(BaseType::Boolean) => true,
        _ => false,
    }
}

/// Whether a declared type is `boolean`.
pub fn is_boolean(base: &Base<'_>) -> bool
    ensures { result ≡ types.is_boolean (base_type_of base.now) }
{
    match base {
        Base::Boolean => true,
        _ => false,
    }
}

/// Whether `&` and `|` are meant, which take booleans.
pub fn takes_booleans(op: Op) -> bool
    ensures { result ≡ types.takes_booleans op }
{
    match op {
        Op::And | Op::Or => true,
        _ => false,
    }
}

/// The rank that a place hands in: that of the assigned array, else that of the innermost prefix.
pub fn handed(reach: &Reach<'_>, role: Role<'_>) -> Rank
    ensures { result ≡ sites.handed (reach_of reach.now) (role_of role.entry) }
{
    let Role::Assigned(name, _) = role else {
        return reach.prefix;
    };
    let kind = reach.kind(&name);
    match kind {
        Some(Kind::Array(_, _)) => array_rank(kind),
        _ => { if is_scalar(kind) { reach.prefix } else { None } }
    }
}

/// The rank of an expression at its place.
pub fn rank_at(reach: &Reach<'_>, role: Role<'_>, part: Part) -> Rank
    ensures { result ≡ whole.rank_at (reach_of reach.now) (role_of role.entry) part }
{
    match role {
        Role::Operand => placed_rank(true, reach.prefix, part.own),
        _ => placed_rank(part.is_open, handed(reach, role), part.own),
    }
}

// Whether an assignment puts an integer into a boolean, or takes one for it.
fn assigns_integer(target: Option<BaseType>, op: Option<Op>, integer: bool) -> bool
    ensures { result ≡ whole.assigns_integer_type target op integer }
{
    let is_boolean = match target {
        Some(BaseType::Boolean) => true,
        _ => false,
    };
    match op {
        None => is_boolean && integer,
        Some(op) => {
            if takes_booleans(op) {
                integer
            } else {
                is_boolean
            }
        }
    }
}

// Whether an expression has a type that its place doesn't take.
fn is_wrong_type(reach: &Reach<'_>, role: Role<'_>, part: Part) -> bool
    ensures { result ≡ whole.wrong_type_at (reach_of reach.now) (role_of role.entry) part }
{
    match role {
        Role::Bound => part.has_parallel,
        Role::Test => is_integer(part.base),
        Role::Initial(base) | Role::Result(Some(base)) => {
            BaseType::of(&base) == BaseType::Boolean && is_integer(part.base)
        }
        Role::Assigned(name, op) => {
            assigns_integer(kind_base(reach.kind(&name)), op, is_integer(part.base))
        }
        _ => false,
    }
}

// Whether an expression has a rank that its place doesn't take.
fn is_wrong_rank(reach: &Reach<'_>, role: Role<'_>, rank: Rank) -> bool
    ensures { result ≡ whole.wrong_rank_for (reach_of reach.now) (role_of role.entry) rank }
{
    match role {
        Role::Assigned(name, _) => cannot_hold(reach.kind(&name), rank),
        Role::Bound | Role::Component | Role::Limit | Role::Initial(_) | Role::Result(_) => {
            is_above_zero(rank)
        }
        _ => false,
    }
}

// Whether a variable can't hold a value of a rank. A scalar goes into every array.
fn cannot_hold(kind: Option<Kind<'_>>, rank: Rank) -> bool
    ensures { result ≡ faults.cannot_hold (known_of kind.entry) rank }
{
    match kind {
        Some(Kind::Array(_, _)) => ranks_clash(array_rank(kind), rank),
        _ => is_scalar(kind) && is_above_zero(rank),
    }
}

// Whether no rule gives an expression a rank.
fn is_rankless(reach: &Reach<'_>, role: Role<'_>, part: Part) -> bool
    ensures { result ≡ whole.rankless_at (reach_of reach.now) (role_of role.entry) part }
{
    match role {
        Role::Operand => lacks_rank(true, reach.prefix, part.own),
        _ => lacks_rank(part.is_open, handed(reach, role), part.own),
    }
}

/// Tells what is wrong with an expression that stands by itself.
pub fn tell_whole(
    findings: &mut Findings<'_>,
    reach: &Reach<'_>,
    role: Role<'_>,
    expr: &Expr<'_>,
    part: Part,
)
    requires { part ≡ part_of (reach_of reach.now).scope (reach_of reach.now).prefix
        (expr_of expr.now) }
    ensures { Tells findings.old findings.new
        (AtWhole (reach_of reach.now) (role_of role.entry) (expr_of expr.now)) }
{
    let rank = rank_at(reach, role, part);
    findings.add_if(
        is_wrong_type(reach, role, part),
        FaultKind::TypeClash,
        expr.at,
    );
    findings.add_if(
        is_wrong_rank(reach, role, rank),
        FaultKind::RankClash,
        expr.at,
    );
    findings.add_if(
        is_rankless(reach, role, part),
        FaultKind::RankUnknown,
        expr.at,
    );
}
