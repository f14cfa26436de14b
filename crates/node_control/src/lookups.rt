//! Rows of a program's tables by their numbers.
ghost use Rattle.std.specs.Prelude.{◌≡◌, ◌<◌, length, Some, slice_get};

use node_form::{ArrayRow, ExprOp, Tables};

/// The words of an expression.
pub(crate) fn words_at(code: &Tables, expr: u32) -> &[ExprOp]
    requires { expr < length code.now.exprs }
    ensures { slice_get code.now.exprs expr ≡ Some result.now }
{
    code.exprs.get(u64::from(expr)).unwrap().as_slice()
}

/// The rank of a slot.
pub(crate) fn rank_at(code: &Tables, slot: u32) -> u8
    requires { slot < length code.now.slots }
    ensures { slice_get code.now.slots slot ≡ Some result }
{
    *code.slots.get(u64::from(slot)).unwrap()
}

/// An array.
pub(crate) fn array_at(code: &Tables, array: u32) -> &ArrayRow
    requires { array < length code.now.arrays }
    ensures { slice_get code.now.arrays array ≡ Some result.now }
{
    code.arrays.get(u64::from(array)).unwrap()
}

/// A text.
pub(crate) fn text_at(code: &Tables, text: u32) -> &[u8]
    requires { text < length code.now.texts }
    ensures { slice_get code.now.texts text ≡ Some result.now }
{
    code.texts.get(u64::from(text)).unwrap().as_slice()
}
