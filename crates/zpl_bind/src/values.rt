//! The values of expressions in declarations, and vectors.
ghost use Rattle.std.specs.Prelude.{◌≡◌};
ghost use Rattle.zpl_nums.specs.Op.{applied};
ghost use Rattle.zpl_parts.specs.of_zpl_binding.Constants.{given, value_of};
ghost use Rattle.zpl_tree.specs.View.{expr_of};
ghost use Rattle.zpl_bind.specs.Fault.{Computes};
ghost use Rattle.zpl_bind.specs.Tables.{IsTable, computed, listed};

use crate::faults::BindFault;
use crate::tables::Table;
use zpl_nums::{Op, UnaryOp, apply, apply_unary};
use zpl_tree::{Expr, ExprForm};

/// The value of an expression over those of configs and constants. What no declaration and no
/// vector of a program without faults has counts as 0.
pub fn value_of(values: &Table<'_, i64>, expr: &Expr<'_>) -> Result<i64, BindFault>
    requires { IsTable values.now }
    ensures { Computes result (value_of (computed (listed values.now)) (expr_of expr.now)) }
{
    match &expr.form {
        ExprForm::Number(value) => Ok(*value),
        ExprForm::Truth(value) => Ok(i64::from(*value)),
        ExprForm::Named(name) => Ok(values.find(name.text).unwrap_or(0)),
        ExprForm::Paren(inside) => value_of(values, inside),
        ExprForm::Neg(operand) => {
            let value = value_of(values, operand)?;
            Ok(apply_unary(UnaryOp::Neg, value))
        }
        ExprForm::Not(operand) => {
            let value = value_of(values, operand)?;
            Ok(apply_unary(UnaryOp::Not, value))
        }
        ExprForm::Abs(operand) => {
            let value = value_of(values, operand)?;
            Ok(apply_unary(UnaryOp::Abs, value))
        }
        ExprForm::Pair(op, left, right) => {
            let first = value_of(values, left)?;
            let second = value_of(values, right)?;
            applied(*op, first, second)
        }
        ExprForm::Coord(_)
        | ExprForm::Shifted(_, _)
        | ExprForm::Around(_, _)
        | ExprForm::Remap(_, _)
        | ExprForm::Call(_, _)
        | ExprForm::Reduce(_, _, _)
        | ExprForm::Scan(_, _, _)
        | ExprForm::Flood(_, _) => Ok(0),
    }
}

/// The value of an operator, unless a divisor is 0.
fn applied(op: Op, first: i64, second: i64) -> Result<i64, BindFault>
    ensures { Computes result (given (applied op first second)) }
{
    match apply(op, first, second) {
        Some(value) => Ok(value),
        None => Err(BindFault::BadConstant),
    }
}
