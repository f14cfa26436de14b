//! What a name stands for.
ghost use Rattle.std.specs.Prelude.{◌≡◌};
ghost use Rattle.name_kinds.specs.Seen.{type_of_base};
ghost use Rattle.zpl_names.specs.Types.{fold_base, op_base};
ghost use Rattle.zpl_tree.specs.View.{base_type_of};

use crate::ranks::Rank;
use crate::shapes::Shape;
use zpl_nums::{Fold, Op};
use zpl_tree::Base;

/// A base type.
#[derive(Clone, Copy, PartialEq, Eq)]
pub enum BaseType {
    /// `integer`.
    Integer,
    /// `boolean`.
    Boolean,
    /// No type of the language.
    Other,
}

impl BaseType {
    /// That of a text.
    pub fn of(base: &Base<'_>) -> BaseType
        ensures { result ≡ type_of_base (base_type_of base.now) }
    {
        match base {
            Base::Integer => BaseType::Integer,
            Base::Boolean => BaseType::Boolean,
            Base::Other(_) => BaseType::Other,
        }
    }

    /// What an operator answers: comparisons, `&` and `|` a boolean.
    pub fn of_operator(op: Op) -> BaseType
        ensures { result ≡ type_of_base (op_base op) }
    {
        match op {
            Op::Add | Op::Sub | Op::Mul | Op::Div | Op::Rem | Op::Max | Op::Min => {
                BaseType::Integer
            }
            _ => BaseType::Boolean,
        }
    }

    /// What a reduction or a scan answers: `&` and `|` a boolean.
    pub fn of_fold(operator: Fold) -> BaseType
        ensures { result ≡ type_of_base (fold_base operator) }
    {
        match operator {
            Fold::All | Fold::Any => BaseType::Boolean,
            _ => BaseType::Integer,
        }
    }
}

/// A parameter of a procedure.
#[derive(Clone, Copy)]
pub struct Formal<'a> {
    /// Whether it refers to its actual.
    pub by_ref: bool,
    /// Its base type.
    pub base: Base<'a>,
    /// The shape of an array, none where a fault leaves it open; nothing for a scalar.
    pub shape: Option<Option<Shape>>,
}

/// What a call has to know of a procedure.
#[derive(Clone, Copy)]
pub struct Signature<'a> {
    /// Its parameters, one for each name.
    pub formals: &'a [Formal<'a>],
    /// The base type of its answer, if it gives one.
    pub result: Option<Base<'a>>,
}

/// What a name stands for. A shape or a rank is none where a fault leaves it open.
#[derive(Clone, Copy)]
pub enum Kind<'a> {
    /// A configuration variable.
    Config(Base<'a>),
    /// A constant.
    Constant(Base<'a>),
    /// A region.
    Region(Option<Shape>),
    /// A direction.
    Direction(Rank),
    /// A variable that is no array.
    Scalar(Base<'a>),
    /// An array.
    Array(Base<'a>, Option<Shape>),
    /// A procedure.
    Procedure(Signature<'a>),
}
