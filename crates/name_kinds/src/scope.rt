//! The names in reach of a place.
ghost use Rattle.std.specs.Prelude.{◌≡◌};
ghost use Rattle.zpl_names.specs.Scope as names;
ghost use Rattle.zpl_tree.specs.View.{name_of};
ghost use Rattle.name_kinds.specs.Seen.{known_of};
ghost use Rattle.name_kinds.specs.Reach.{scope_of};

use crate::kinds::Kind;
use crate::names::Names;
use zpl_tree::Name;

/// The parameters and local variables of a procedure, which hide global names; the global names;
/// and whether variables are out of reach.
#[derive(Clone, Copy)]
pub struct Scope<'a> {
    /// The names of the procedure.
    pub own: &'a Names<'a>,
    /// The global names.
    pub globals: &'a Names<'a>,
    /// Whether variables are out of reach, as they are in declarations and vectors.
    pub constants: bool,
}

impl<'a> Scope<'a> {
    /// What a name stands for, or nothing where it isn't declared in reach.
    pub fn find(&self, name: &Name<'_>) -> Option<Kind<'a>>
        ensures { known_of result ≡ names.kind_of (scope_of self.now) (name_of name.now) }
    {
        let kind = match self.own.find(name.text) {
            Some(kind) => Some(kind),
            None => self.globals.find(name.text),
        };
        match kind {
            Some(Kind::Scalar(_) | Kind::Array(_, _)) if self.constants => None,
            _ => kind,
        }
    }

    /// The same names, without variables.
    pub fn without_variables(self) -> Scope<'a>
        ensures { scope_of result ≡ names.constants_of (scope_of self.entry) }
    {
        Scope {
            constants: true,
            ..self
        }
    }
}
