//! The value of an expression at an index, on a stack that is made beforehand.
ghost use Rattle.std.specs.Prelude.{◌≡◌, ◌+◌, ◌-◌, ◌≤◌, ◌∷◌, length, drop, slice_get, IfOk};
ghost use Rattle.grid_meaning.specs.of_node_form.Value.{pushed, read, stepped, value_of};
ghost use Rattle.node_local.specs.Computing.{computed_by, operands_in, stack_from};
ghost use Rattle.node_local.specs.Computing.{with_unary};

use crate::memories::Memory;
use grid_meaning::node_form::ExprOp;
use grid_meaning::zpl_nums::{UnaryOp, apply, apply_unary};
use grid_meaning::zpl_region::Vec3;

/// Why an expression has no value.
#[derive(Clone, Copy, Debug, PartialEq, Eq)]
pub enum NoValue {
    /// A divisor is 0.
    Divides,
    /// Something that it reads isn't there, as a place that isn't held.
    Lacks,
}

/// The value of an expression at an index. It takes no memory: the stack, of any values, is as deep
/// as the expression is long.
pub(crate) fn evaluate(
    words: &[ExprOp],
    memory: &Memory,
    index: &Vec3,
    stack: &mut [i64],
) -> Result<i64, NoValue>
    requires { length words.now ≤ length stack.old }
    ensures { value_of (operands_in memory.now index.now) words.now ≡ computed_by result }
{
    let count = stack.len();
    let mut top = count;
    for word in words {
        top = step(word, memory, index, stack, top)?;
    }
    if top + 1 == count {
        Ok(stack[top])
    } else {
        Err(NoValue::Lacks)
    }
}

/// What a word makes of the stack: its values stand from `top` on, the last one pushed in front.
/// Answers where the top is then.
fn step(
    word: &ExprOp,
    memory: &Memory,
    index: &Vec3,
    stack: &mut [i64],
    top: usize,
) -> Result<usize, NoValue>
    requires room { 1 ≤ top }
    requires inside { top ≤ length stack.old }
    ensures stack { stepped (operands_in memory.now index.now) word.now (drop top stack.old)
        ≡ stack_from stack.new result }
    ensures inside { IfOk result (λ after. after ≤ length stack.old) }
    ensures room { IfOk result (λ after. top ≤ after + 1) }
{
    match *word {
        ExprOp::Const(value) => Ok(push(stack, top, value)),
        ExprOp::Scalar(scalar) => found(stack, top, memory.scalar(scalar)),
        ExprOp::Here(array) => found(stack, top, memory.value_at(array, index)),
        ExprOp::Shifted(array, shift) => {
            found(stack, top, memory.value_beside(array, index, shift))
        }
        ExprOp::Cell(cell) => found(stack, top, memory.cell(cell)),
        ExprOp::Coord(dimension) => found(stack, top, coordinate(index, dimension)),
        ExprOp::Pair(op) => {
            if stack.len() - top < 2 {
                return Err(NoValue::Lacks);
            }
            match apply(op, stack[top + 1], stack[top]) {
                Some(value) => Ok(push(stack, top + 2, value)),
                None => Err(NoValue::Divides),
            }
        }
        ExprOp::Neg => unary(UnaryOp::Neg, stack, top),
        ExprOp::Not => unary(UnaryOp::Not, stack, top),
        ExprOp::Abs => unary(UnaryOp::Abs, stack, top),
    }
}

/// A coordinate of an index, counted from 1; `None` where it has no such one.
fn coordinate(index: &Vec3, dimension: u8) -> Option<i64>
    ensures { result ≡ slice_get index.now (dimension - 1) }
{
    index.get(usize::from(dimension).saturating_sub(1)).copied()
}

/// The stack with a value on top.
fn push(stack: &mut [i64], top: usize, value: i64) -> usize
    requires room { 1 ≤ top }
    requires inside { top ≤ length stack.old }
    ensures top { result + 1 ≡ top }
    ensures stack { drop result stack.new ≡ value ∷ drop top stack.old }
{
    let after = top - 1;
    stack[after] = value;
    after
}

/// The stack with a value on top, if it is there.
fn found(stack: &mut [i64], top: usize, value: Option<i64>) -> Result<usize, NoValue>
    requires room { 1 ≤ top }
    requires inside { top ≤ length stack.old }
    ensures stack { pushed (drop top stack.old) (read value) ≡ stack_from stack.new result }
    ensures inside { IfOk result (λ after. after ≤ length stack.old) }
    ensures room { IfOk result (λ after. top ≤ after + 1) }
{
    match value {
        Some(value) => Ok(push(stack, top, value)),
        None => Err(NoValue::Lacks),
    }
}

/// The stack with the value of an operator in the place of its operand.
fn unary(op: UnaryOp, stack: &mut [i64], top: usize) -> Result<usize, NoValue>
    requires room { 1 ≤ top }
    requires inside { top ≤ length stack.old }
    ensures stack { with_unary op (drop top stack.old) ≡ stack_from stack.new result }
    ensures inside { IfOk result (λ after. after ≤ length stack.old) }
    ensures room { IfOk result (λ after. top ≤ after + 1) }
{
    if stack.len() == top {
        return Err(NoValue::Lacks);
    }
    let value = apply_unary(op, stack[top]);
    Ok(push(stack, top + 1, value))
}
