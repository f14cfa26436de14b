//! The operators of the language on two operands and on one.
ghost use Rattle.std.specs.Prelude.{◌≡◌, ◌↔◌, IsNone, pos};
ghost use Rattle.zpl_nums.specs.Op.{applied, Divides};
ghost use Rattle.zpl_nums.specs.UnaryOp.{applied_unary};

/// A binary operator on integers. Comparisons and `And`, `Or` answer a truth value, 0 or 1.
#[derive(Clone, Copy, Debug, PartialEq, Eq)]
pub enum Op {
    /// The sum, wrapped into 64 bits.
    Add,
    /// The difference, wrapped into 64 bits.
    Sub,
    /// The product, wrapped into 64 bits.
    Mul,
    /// The quotient, truncated toward zero; `i64::MIN / -1` is `i64::MIN`.
    Div,
    /// The remainder of `Div`, with the dividend's sign; `i64::MIN % -1` is 0.
    Rem,
    /// Whether the operands are equal.
    Eq,
    /// Whether the operands differ.
    Ne,
    /// Whether the first operand is below the second.
    Lt,
    /// Whether the first operand is at most the second.
    Le,
    /// Whether the first operand is above the second.
    Gt,
    /// Whether the first operand is at least the second.
    Ge,
    /// Whether both operands are true, which is any number but 0.
    And,
    /// Whether one of the operands is true, which is any number but 0.
    Or,
    /// The greater operand.
    Max,
    /// The lesser operand.
    Min,
}

/// The value of `a op b`, or `None` where a divisor is 0.
pub fn apply(op: Op, a: i64, b: i64) -> Option<i64>
    ensures value { result ≡ applied op a b }
    ensures none { IsNone result ↔ (Divides op × (b ≡ pos 0)) }
{
    let value = match op {
        Op::Add => a.wrapping_add(b),
        Op::Sub => a.wrapping_sub(b),
        Op::Mul => a.wrapping_mul(b),
        Op::Div if b == 0 => return None,
        Op::Div => a.wrapping_div(b),
        Op::Rem if b == 0 => return None,
        Op::Rem => a.wrapping_rem(b),
        Op::Eq => i64::from(a == b),
        Op::Ne => i64::from(a != b),
        Op::Lt => i64::from(a < b),
        Op::Le => i64::from(a <= b),
        Op::Gt => i64::from(a > b),
        Op::Ge => i64::from(a >= b),
        Op::And => i64::from(a != 0 && b != 0),
        Op::Or => i64::from(a != 0 || b != 0),
        Op::Max => a.max(b),
        Op::Min => a.min(b),
    };
    Some(value)
}

/// An operator on one integer.
#[derive(Clone, Copy, Debug, PartialEq, Eq)]
pub enum UnaryOp {
    /// The negation, wrapped into 64 bits: `-i64::MIN` is `i64::MIN`.
    Neg,
    /// Whether the operand is false, which is 0 alone; a truth value, 0 or 1.
    Not,
    /// The greater of the operand and its negation, for `i64::MIN` that number itself.
    Abs,
}

/// The value of the operator on `value`.
pub fn apply_unary(op: UnaryOp, value: i64) -> i64
    ensures { result ≡ applied_unary op value }
{
    match op {
        UnaryOp::Neg => value.wrapping_neg(),
        UnaryOp::Not => i64::from(value == 0),
        UnaryOp::Abs => value.wrapping_abs(),
    }
}

#[cfg(test)]
mod tests {
    use super::{Op, UnaryOp, apply, apply_unary};

    const LEAST: i64 = i64::MIN;

    const GREATEST: i64 = i64::MAX;

    #[test]
    fn operators_at_their_edges(rt: HostRuntime) {
        for (op, a, b, want) in [
            (Op::Add, GREATEST, 1, Some(LEAST)),
            (Op::Add, -3, 5, Some(2)),
            (Op::Sub, LEAST, 1, Some(GREATEST)),
            (Op::Sub, 0, LEAST, Some(LEAST)),
            (Op::Mul, LEAST, -1, Some(LEAST)),
            (Op::Mul, 4_294_967_296, 4_294_967_296, Some(0)),
            (Op::Div, 7, -2, Some(-3)),
            (Op::Div, -7, 2, Some(-3)),
            (Op::Div, LEAST, -1, Some(LEAST)),
            (Op::Div, LEAST, 0, None),
            (Op::Rem, 7, -2, Some(1)),
            (Op::Rem, -7, 2, Some(-1)),
            (Op::Rem, LEAST, -1, Some(0)),
            (Op::Rem, 0, 0, None),
            (Op::Eq, LEAST, LEAST, Some(1)),
            (Op::Eq, 1, -1, Some(0)),
            (Op::Ne, 1, -1, Some(1)),
            (Op::Ne, 0, 0, Some(0)),
            (Op::Lt, LEAST, GREATEST, Some(1)),
            (Op::Lt, 4, 4, Some(0)),
            (Op::Le, 4, 4, Some(1)),
            (Op::Le, 0, -1, Some(0)),
            (Op::Gt, GREATEST, LEAST, Some(1)),
            (Op::Gt, 4, 4, Some(0)),
            (Op::Ge, 4, 4, Some(1)),
            (Op::Ge, LEAST, 0, Some(0)),
            (Op::And, 2, 4, Some(1)),
            (Op::And, LEAST, 0, Some(0)),
            (Op::Or, 0, -8, Some(1)),
            (Op::Or, 0, 0, Some(0)),
            (Op::Max, LEAST, -1, Some(-1)),
            (Op::Min, GREATEST, 1, Some(1)),
        ] {
            assert_eq!(rt; apply(op, a, b), want, "{op:?} of {a} and {b}");
        }
    }

    #[test]
    fn operators_on_one_operand_at_their_edges(rt: HostRuntime) {
        for (op, value, want) in [
            (UnaryOp::Neg, 7, -7),
            (UnaryOp::Neg, LEAST, LEAST),
            (UnaryOp::Neg, GREATEST, LEAST + 1),
            (UnaryOp::Not, 0, 1),
            (UnaryOp::Not, 1, 0),
            (UnaryOp::Not, LEAST, 0),
            (UnaryOp::Abs, -7, 7),
            (UnaryOp::Abs, 7, 7),
            (UnaryOp::Abs, LEAST, LEAST),
        ] {
            assert_eq!(rt; apply_unary(op, value), want, "{op:?} of {value}");
        }
    }
}
