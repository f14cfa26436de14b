//! What the place of an expression has to know of it.
ghost use Rattle.std.specs.Prelude.{◌≡◌};
ghost use Rattle.zpl_tree.specs.View.{bracket_of, expr_of, exprs_of};
ghost use Rattle.name_kinds.specs.Part as spec;
ghost use Rattle.name_kinds.specs.Reach.{scope_of};
ghost use Rattle.name_kinds.specs.Seen.{known_of};

use crate::kinds::{BaseType, Kind};
use crate::places::{array_rank, kind_base, result_base, value_rank};
use crate::ranks::{Rank, both_ranks};
use crate::regions::inner_rank;
use crate::scope::Scope;
use zpl_nums::{Fold, Op};
use zpl_tree::{Expr, ExprForm, Inner};

/// What the place of an expression has to know of it.
#[derive(Clone, Copy)]
pub struct Part {
    /// The rank that its arrays and regions give it, or 0.
    pub own: Rank,
    /// Whether it takes the rank of its place where they give none.
    pub is_open: bool,
    /// Its base type, or none where a fault leaves it open.
    pub base: Option<BaseType>,
    /// Whether a reduction, a scan, a flood or a remap read stands in it.
    pub has_parallel: bool,
    /// Whether it has no `@`, no parallel operator, no remap read and no call.
    pub is_elementwise: bool,
}

/// What is known of several expressions.
#[derive(Clone, Copy)]
pub struct Parts {
    /// Their rank, or 0.
    pub own: Rank,
    /// Whether a parallel operator or a remap read stands in one of them.
    pub has_parallel: bool,
}

impl Part {
    /// That of a number, a truth value or a coordinate.
    pub fn leaf(is_open: bool, base: BaseType) -> Part
        ensures { result ≡ spec.leaf_part is_open base }
    {
        Part {
            own: Some(0),
            is_open,
            base: Some(base),
            has_parallel: false,
            is_elementwise: true,
        }
    }

    /// That of a name.
    pub fn named(kind: Option<Kind<'_>>) -> Part
        ensures { result ≡ spec.named_part (known_of kind.entry) }
    {
        Part {
            own: value_rank(kind),
            is_open: false,
            base: kind_base(kind),
            has_parallel: false,
            is_elementwise: true,
        }
    }

    /// That of an array read by `@` or `@^`.
    pub fn shifted(kind: Option<Kind<'_>>) -> Part
        ensures { result ≡ spec.shifted_part (known_of kind.entry) }
    {
        Part {
            own: array_rank(kind),
            is_open: false,
            base: kind_base(kind),
            has_parallel: false,
            is_elementwise: false,
        }
    }

    /// That of an array read at computed indices.
    pub fn remap(kind: Option<Kind<'_>>, indices: Parts) -> Part
        ensures { result ≡ spec.remap_part (known_of kind.entry) indices }
    {
        Part {
            own: indices.own,
            is_open: true,
            base: kind_base(kind),
            has_parallel: true,
            is_elementwise: false,
        }
    }

    /// That of a call.
    pub fn call(kind: Option<Kind<'_>>, actuals: Parts) -> Part
        ensures { result ≡ spec.call_part (known_of kind.entry) actuals }
    {
        Part {
            own: Some(0),
            is_open: false,
            base: result_base(kind),
            has_parallel: actuals.has_parallel,
            is_elementwise: false,
        }
    }

    /// That of an operator on this operand, with its base type.
    pub fn with_base(self, base: BaseType) -> Part
        ensures { result ≡ spec.unary_part base self }
    {
        Part {
            base: Some(base),
            ..self
        }
    }

    /// That of an operator on two operands.
    pub fn pair(op: Op, left: Part, right: Part) -> Part
        ensures { result ≡ spec.pair_part op left right }
    {
        Part {
            own: both_ranks(left.own, right.own),
            is_open: left.is_open | right.is_open,
            base: Some(BaseType::of_operator(op)),
            has_parallel: left.has_parallel | right.has_parallel,
            is_elementwise: left.is_elementwise & right.is_elementwise,
        }
    }

    /// That of a reduction with a rank.
    pub fn reduce(operator: Fold, rank: Rank) -> Part
        ensures { result ≡ spec.reduce_part operator rank }
    {
        Part {
            own: rank,
            is_open: false,
            base: Some(BaseType::of_fold(operator)),
            has_parallel: true,
            is_elementwise: false,
        }
    }

    /// That of a scan.
    pub fn scan(operator: Fold, operand: Part) -> Part
        ensures { result ≡ spec.scan_part operator operand }
    {
        Part {
            own: operand.own,
            is_open: true,
            base: Some(BaseType::of_fold(operator)),
            has_parallel: true,
            is_elementwise: false,
        }
    }

    /// That of a flood from a region of a rank.
    pub fn flood(source: Rank, operand: Part) -> Part
        ensures { result ≡ spec.flood_part source operand }
    {
        Part {
            own: both_ranks(source, operand.own),
            is_open: false,
            base: operand.base,
            has_parallel: true,
            is_elementwise: false,
        }
    }
}

/// What the place of an expression has to know of it, where the innermost prefix has this rank.
#[cycle(part)]
pub fn part_of(scope: &Scope<'_>, prefix: Rank, expr: &Expr<'_>) -> Part
    ensures { result ≡ spec.part_of (scope_of scope.now) prefix (expr_of expr.now) }
{
    match &expr.form {
        ExprForm::Number(_) => Part::leaf(false, BaseType::Integer),
        ExprForm::Truth(_) => Part::leaf(false, BaseType::Boolean),
        ExprForm::Coord(_) => Part::leaf(true, BaseType::Integer),
        ExprForm::Named(name) => Part::named(scope.find(name)),
        ExprForm::Shifted(name, _) => Part::shifted(scope.find(name)),
        ExprForm::Around(name, _) => Part::shifted(scope.find(name)),
        ExprForm::Remap(name, indices) => {
            Part::remap(scope.find(name), parts_of(scope, prefix, indices))
        }
        ExprForm::Call(name, actuals) => {
            Part::call(scope.find(name), parts_of(scope, prefix, actuals))
        }
        ExprForm::Paren(inside) => part_of(scope, prefix, inside),
        ExprForm::Neg(operand) => part_of(scope, prefix, operand).with_base(BaseType::Integer),
        ExprForm::Not(operand) => part_of(scope, prefix, operand).with_base(BaseType::Boolean),
        ExprForm::Abs(operand) => part_of(scope, prefix, operand).with_base(BaseType::Integer),
        ExprForm::Pair(op, left, right) => {
            Part::pair(
                *op,
                part_of(scope, prefix, left),
                part_of(scope, prefix, right),
            )
        }
        ExprForm::Reduce(operator, over, operand) => {
            let operand = part_of(scope, prefix, operand);
            Part::reduce(*operator, reduced_rank(scope, prefix, over, operand.own))
        }
        ExprForm::Scan(operator, _, operand) => {
            Part::scan(*operator, part_of(scope, prefix, operand))
        }
        ExprForm::Flood(source, operand) => {
            let operand = part_of(scope, prefix, operand);
            Part::flood(inner_rank(scope, operand.own, prefix, source), operand)
        }
    }
}

/// What is known of several expressions.
#[cycle(part)]
#[tactic(auto, using(crate::proofs::PartLemmas::more_parts_known))]
pub fn parts_of(scope: &Scope<'_>, prefix: Rank, exprs: &[Expr<'_>]) -> Parts
    ensures { result ≡ spec.parts_of (scope_of scope.now) prefix (exprs_of exprs.now) }
{
    let mut parts = Parts {
        own: Some(0),
        has_parallel: false,
    };
    for expr in exprs {
        let part = part_of(scope, prefix, expr);
        parts = Parts {
            own: both_ranks(parts.own, part.own),
            has_parallel: parts.has_parallel | part.has_parallel,
        };
    }
    parts
}

/// The rank of a reduction over a region, or of a full one, whose operand has a rank.
pub fn reduced_rank(scope: &Scope<'_>, prefix: Rank, over: &Option<Inner<'_>>, own: Rank) -> Rank
    ensures { result ≡ spec.reduced_rank (scope_of scope.now) prefix (bracket_of over.now) own }
{
    match over {
        None => Some(0),
        Some(source) => both_ranks(inner_rank(scope, own, prefix, source), own),
    }
}
