//! Programs and their declarations.
use crate::expressions::Expr;
use crate::names::Name;
use crate::regions::{Inner, Post};
use crate::statements::Stmt;

/// A whole program.
#[derive(Clone, Copy)]
pub struct Program<'a> {
    /// The program's name, which is that of its entry procedure.
    pub name: Name<'a>,
    /// The declarations, in the order of the text.
    pub decls: &'a [Decl<'a>],
    /// The text that the tree was read from; offsets count its bytes.
    pub source: &'a [u8],
}

/// A declaration, or a group of them behind one keyword.
#[derive(Clone, Copy)]
pub enum Decl<'a> {
    /// `config var`, with at least one definition.
    Config(&'a [Define<'a>]),
    /// `constant`, with at least one definition.
    Constant(&'a [Define<'a>]),
    /// `region`, with at least one definition.
    Regions(&'a [RegionDef<'a>]),
    /// `direction`, with at least one definition.
    Directions(&'a [DirDef<'a>]),
    /// `var`, with at least one definition.
    Vars(&'a [VarDef<'a>]),
    /// A procedure.
    Procedure(&'a Procedure<'a>),
}

/// A configuration variable with its default, or a constant with its value.
#[derive(Clone, Copy)]
pub struct Define<'a> {
    /// Its name.
    pub name: Name<'a>,
    /// Its type.
    pub base: Base<'a>,
    /// The default or the value.
    pub value: &'a Expr<'a>,
}

/// The definition of a region.
#[derive(Clone, Copy)]
pub struct RegionDef<'a> {
    /// Its name.
    pub name: Name<'a>,
    /// What stands between its brackets.
    pub body: Inner<'a>,
    /// What stands behind the closing bracket.
    pub posts: &'a [Post<'a>],
}

/// The definition of a direction.
#[derive(Clone, Copy)]
pub struct DirDef<'a> {
    /// Its name.
    pub name: Name<'a>,
    /// Its components; there is at least one.
    pub parts: &'a [Expr<'a>],
}

/// Variables of one type and shape.
#[derive(Clone, Copy)]
pub struct VarDef<'a> {
    /// Their names; there is at least one.
    pub names: &'a [Name<'a>],
    /// The region of arrays, or nothing for scalars.
    pub shape: Option<Inner<'a>>,
    /// The type of a scalar or an element.
    pub base: Base<'a>,
}

/// A base type.
#[derive(Clone, Copy)]
pub enum Base<'a> {
    /// `integer`.
    Integer,
    /// `boolean`.
    Boolean,
    /// A name that is no type of the language.
    Other(Name<'a>),
}

/// A procedure.
#[derive(Clone, Copy)]
pub struct Procedure<'a> {
    /// Its name.
    pub name: Name<'a>,
    /// Its parameters, in the groups of the text.
    pub params: &'a [Param<'a>],
    /// The type of its result, if it has one.
    pub result: Option<Base<'a>>,
    /// Its local variables, those of all `var` groups in one list.
    pub locals: &'a [VarDef<'a>],
    /// Its body, a block with its prefixes.
    pub body: Stmt<'a>,
}

/// Parameters of one type and shape.
#[derive(Clone, Copy)]
pub struct Param<'a> {
    /// Whether they refer to their actuals, by `var`.
    pub by_ref: bool,
    /// Their names; there is at least one.
    pub names: &'a [Name<'a>],
    /// The region of arrays, or nothing for scalars.
    pub shape: Option<Inner<'a>>,
    /// The type of a scalar or an element.
    pub base: Base<'a>,
}
