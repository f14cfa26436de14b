//! Calls and their actuals.
ghost use Rattle.std.specs.Prelude.{◌≡◌, OnOk, Some, map};
ghost use Rattle.name_kinds.specs.of_zpl_names.Accepted as kind;
ghost use Rattle.name_kinds.specs.of_zpl_names.Faults as faults;
ghost use Rattle.name_kinds.specs.of_zpl_names.Sites.{AtCall, AtNamed};
ghost use Rattle.name_kinds.specs.of_zpl_names.Types as types;
ghost use Rattle.zpl_tree.specs.View.{base_type_of, expr_of, exprs_of, name_of};
ghost use Rattle.name_kinds.specs.Seen.{formal_of, known_of, shape_of};
ghost use Rattle.site_faults.specs.Findings.{tells};
ghost use Rattle.site_faults.specs.Misplaced.{is_fitting_value, is_misplaced};
ghost use Rattle.site_faults.specs.Reach.{call_role_of, reach_of};
ghost use Rattle.site_faults.specs.Walk.{Tells, state_of};

use crate::findings::{Called, FaultKind, Findings};
use crate::reach::{CallRole, Reach, Role};
use crate::whole::{is_boolean, is_integer, rank_at};
use name_kinds::{
    Formal, Kind, Shape, is_above_zero, is_array, is_fixed, is_procedure, is_scalar, is_value,
    part_of, result_base,
};
use std::alloc::AllocError;
use zpl_tree::{Base, Expr, ExprForm, Name};

// The parameters of a procedure.
fn formals_in<'a>(kind: Option<Kind<'a>>) -> &'a [Formal<'a>]
    ensures { map formal_of result.now ≡ faults.formals_in (known_of kind.entry) }
{
    let Some(Kind::Procedure(signature)) = kind else {
        return &[];
    };
    signature.formals
}

// Whether one of two types is `integer` and the other `boolean`.
fn types_differ(base: &Base<'_>, other: &Base<'_>) -> bool
    ensures { result ≡ types.types_differ (base_type_of base.now) (Some (base_type_of other.now)) }
{
    match (base, other) {
        (Base::Integer, Base::Boolean) | (Base::Boolean, Base::Integer) => true,
        _ => false,
    }
}

// Whether a shape differs from another in its rank or a flood dimension.
fn shapes_differ(shape: Option<Shape>, other: Option<Shape>) -> bool
    ensures { result ≡ faults.both_known faults.is_other_shape (shape_of shape) (shape_of other) }
{
    match (shape, other) {
        (Some(shape), Some(other)) => shape.differs(other),
        _ => false,
    }
}

// Whether what a name stands for fits a `var` parameter. A config or a constant there is told
// apart.
fn fits_reference(base: &Base<'_>, kind: Option<Kind<'_>>) -> bool
    ensures { result ≡ faults.fits_reference (base_type_of base.now) (known_of kind.entry) }
{
    match kind {
        Some(Kind::Scalar(other)) => !types_differ(base, &other),
        _ => !is_array(kind),
    }
}

// Whether what a name stands for fits an array.
fn fits_array(base: &Base<'_>, shape: Option<Shape>, kind: Option<Kind<'_>>) -> bool
    ensures { result ≡ faults.fits_array (base_type_of base.now) (shape_of shape)
        (known_of kind.entry) }
{
    match kind {
        Some(Kind::Array(other, own)) => !types_differ(base, &other) & !shapes_differ(shape, own),
        _ => !is_scalar(kind),
    }
}

// Whether an actual fits a value parameter. An integer parameter takes a boolean.
fn fits_value(reach: &Reach<'_>, base: &Base<'_>, actual: &Expr<'_>) -> bool
    ensures { result ≡ is_fitting_value (reach_of reach.now) (base_type_of base.now)
        (expr_of actual.now) }
{
    let part = part_of(&reach.scope, reach.prefix, actual);
    let is_wrong = is_boolean(base) & is_integer(part.base);
    !is_above_zero(rank_at(reach, Role::Actual, part)) & !is_wrong
}

// Whether an actual fits a parameter.
fn fits(reach: &Reach<'_>, formal: &Formal<'_>, actual: &Expr<'_>) -> bool
    ensures { result ≡ faults.fits (reach_of reach.now) (formal_of formal.now)
        (expr_of actual.now) }
{
    match (formal.shape, &actual.form) {
        (Some(shape), ExprForm::Named(name)) => fits_array(&formal.base, shape, reach.kind(name)),
        (Some(_), _) => false,
        (None, ExprForm::Named(name)) if formal.by_ref => {
            fits_reference(&formal.base, reach.kind(name))
        }
        (None, _) => !formal.by_ref && fits_value(reach, &formal.base, actual),
    }
}

// Whether all actuals fit, and are as many as there are parameters.
fn all_fit(reach: &Reach<'_>, formals: &[Formal<'_>], actuals: &[Expr<'_>]) -> bool
    ensures { result ≡ faults.all_fit (reach_of reach.now) (map formal_of formals.now)
        (exprs_of actuals.now) }
{
    if formals.len() != actuals.len() {
        return false;
    }
    for (place, actual) in actuals.iter().enumerate() {
        if !fits(reach, &formals[place], actual) {
            return false;
        }
    }
    true
}

// Tells each config or constant that is handed to a `var` parameter.
fn tell_fixed(
    findings: &mut Findings<'_>,
    reach: &Reach<'_>,
    formals: &[Formal<'_>],
    actuals: &[Expr<'_>],
)
    ensures told { state_of findings.new ≡ tells kind.NotAssignable
        (faults.fixed_actuals (reach_of reach.now) (map formal_of formals.now)
        (exprs_of actuals.now)) (state_of findings.old) }
    ensures reached { (state_of findings.new).reached ≡ (state_of findings.old).reached }
{
    for (place, actual) in actuals.iter().enumerate() {
        if place >= formals.len() {
            return;
        }
        tell_fixed_actual(findings, reach, &formals[place], actual);
    }
}

// Tells a config or a constant that is handed to a `var` parameter.
fn tell_fixed_actual(
    findings: &mut Findings<'_>,
    reach: &Reach<'_>,
    formal: &Formal<'_>,
    actual: &Expr<'_>,
)
    ensures told { state_of findings.new ≡ tells kind.NotAssignable
        (faults.fixed_actual (reach_of reach.now) (formal_of formal.now) (expr_of actual.now))
        (state_of findings.old) }
    ensures reached { (state_of findings.new).reached ≡ (state_of findings.old).reached }
{
    if let ExprForm::Named(name) = &actual.form {
        let is_changed = formal.by_ref & is_fixed(reach.kind(name));
        findings.add_if(is_changed, FaultKind::NotAssignable, name.at);
    }
}

// Whether a call stands elsewhere than it may.
fn is_call_misplaced(place: CallRole, kind: Option<Kind<'_>>) -> bool
    ensures { result ≡ is_misplaced (call_role_of place) (known_of kind.entry) }
{
    let answers = result_base(kind).is_some();
    match place {
        CallRole::AsStatement => answers,
        CallRole::AsValue => is_procedure(kind) & !answers,
        CallRole::Elsewhere => true,
    }
}

/// Tells what is wrong with a call, and keeps it where it names a procedure.
#[tactic(auto, using(crate::proofs::CallLemmas::call_told))]
pub fn tell_call<'a>(
    findings: &mut Findings<'a>,
    reach: &Reach<'a>,
    place: CallRole,
    name: &Name<'a>,
    actuals: &'a [Expr<'a>],
) -> Result<(), AllocError>
    ensures { OnOk result (Tells findings.old findings.new (AtCall (reach_of reach.now)
        (call_role_of place) (name_of name.now) (exprs_of actuals.entry.now))) }
{
    let kind = reach.kind(name);
    let formals = formals_in(kind);
    findings.add_if(!is_procedure(kind), FaultKind::UnknownName, name.at);
    tell_fixed(findings, reach, formals, actuals);
    let is_wrong = is_procedure(kind) & !all_fit(reach, formals, actuals);
    findings.add_if(is_wrong, FaultKind::Arguments, name.at);
    findings.add_if(
        is_call_misplaced(place, kind),
        FaultKind::CallPlace,
        name.at,
    );
    if is_procedure(kind) {
        findings.add_call(Called {
            name: *name,
            actuals,
            shapes: reach.shapes,
        })?;
    }
    Ok(())
}

/// Tells what is wrong with an actual that is a name alone.
#[tactic(auto, using(crate::proofs::CallLemmas::actual_told))]
pub fn tell_actual_name(findings: &mut Findings<'_>, reach: &Reach<'_>, name: &Name<'_>)
    ensures { Tells findings.old findings.new
        (AtNamed (reach_of reach.now) (name_of name.now)) }
{
    findings.add_if(!is_value(reach.kind(name)), FaultKind::UnknownName, name.at);
}
