//! What is in reach of a place.
ghost use Rattle.std.specs.Prelude.{◌≡◌};
ghost use Rattle.std.specs.Option.{option_map};
ghost use Rattle.zpl_tree.specs.View.{inner_of, mask_of, name_of, prefix_of};
ghost use Rattle.name_kinds.specs.of_zpl_names.Faults as faults;
ghost use Rattle.name_kinds.specs.of_zpl_names.Ranks as ranks;
ghost use Rattle.name_kinds.specs.of_zpl_names.Shapes as spec;
ghost use Rattle.name_kinds.specs.of_zpl_names.Sites as sites;
ghost use Rattle.name_kinds.specs.Reach.{scope_of};
ghost use Rattle.name_kinds.specs.Region.{HasFewDims};
ghost use Rattle.name_kinds.specs.Seen.{known_of, shape_of, shapes_of};
ghost use Rattle.site_faults.specs.Reach.{reach_of};

use name_kinds::zpl_nums::Op;
use name_kinds::{
    Current, Kind, Rank, Scope, Shape, Shapes, array_rank, first_rank, inner_rank, inner_shape,
};
use zpl_tree::{Base, Inner, Mask, Name, Prefix};

/// What is in reach of a place.
#[derive(Clone, Copy)]
pub struct Reach<'a> {
    /// The names.
    pub scope: Scope<'a>,
    /// The rank of the innermost prefix that encloses it in its procedure's text, or 0.
    pub prefix: Rank,
    /// The current regions.
    pub shapes: Shapes,
    /// The rank of the shattered statement that encloses it, or 0.
    pub shattered: Rank,
    /// What the procedure answers, at the last statement of its body alone.
    pub result: Option<Base<'a>>,
    /// Whether it stands in a declaration.
    pub declared: bool,
}

/// Where an expression stands that stands by itself.
#[derive(Clone, Copy)]
pub enum Role<'a> {
    /// A bound of a dimension.
    Bound,
    /// A component of a vector.
    Component,
    /// A limit or the step of a `for`.
    Limit,
    /// The value of a config or a constant of a type.
    Initial(Base<'a>),
    /// The result of a procedure that answers a type, or nothing.
    Result(Option<Base<'a>>),
    /// A condition.
    Test,
    /// An item of a print.
    Printed,
    /// An actual.
    Actual,
    /// The operand of a full reduction.
    Operand,
    /// The right side of an assignment to a name.
    Assigned(Name<'a>, Option<Op>),
}

/// Where a call stands.
#[derive(Clone, Copy)]
pub enum CallRole {
    /// It is a statement.
    AsStatement,
    /// It is the whole right side of a `:=` to a scalar.
    AsValue,
    /// Elsewhere.
    Elsewhere,
}

impl<'a> Reach<'a> {
    /// What is in reach in a declaration.
    pub fn in_declaration(scope: Scope<'a>) -> Reach<'a>
        ensures { reach_of result ≡ sites.in_declaration (scope_of scope.entry) }
    {
        Reach {
            scope,
            prefix: Some(0),
            shapes: Shapes::all(Current::Absent),
            shattered: Some(0),
            result: None,
            declared: true,
        }
    }

    /// What is in reach in a procedure's text, under these current regions.
    pub fn in_body(scope: Scope<'a>, shapes: Shapes) -> Reach<'a>
        ensures { reach_of result ≡ sites.in_body (scope_of scope.entry) (shapes_of shapes) }
    {
        Reach {
            scope,
            prefix: Some(0),
            shapes,
            shattered: Some(0),
            result: None,
            declared: false,
        }
    }

    /// What is in reach in a vector: no variables and no current region.
    pub fn in_vector(&self) -> Reach<'a>
        ensures { reach_of result ≡ sites.in_vector (reach_of self.now) }
    {
        Reach {
            scope: self.scope.without_variables(),
            shapes: Shapes::all(Current::Absent),
            ..*self
        }
    }

    /// What is in reach in the operand of an operator over a region of a rank.
    pub fn over_source(&self, rank: Rank, source: &Inner<'_>) -> Reach<'a>
        requires { HasFewDims rank (inner_of source.now) }
        ensures { reach_of result ≡ sites.over_source (reach_of self.now) rank
            (inner_of source.now) }
    {
        let shape = inner_shape(&self.scope, self.shapes, rank, source);
        Reach {
            shapes: self.shapes.with(rank, Current::over(shape, false)),
            ..*self
        }
    }

    /// What is in reach under one more prefix.
    pub fn under_prefix(&self, prefix: &Prefix<'_>) -> Reach<'a>
        ensures { reach_of result ≡ sites.under_prefix (reach_of self.now)
            (prefix_of prefix.now) }
    {
        let rank = self.prefix_rank(prefix);
        let shape = inner_shape(&self.scope, self.shapes, rank, &prefix.region);
        Reach {
            prefix: rank,
            shapes: self
                .shapes
                .with(rank, Current::over(shape, prefix.mask.is_some())),
            ..*self
        }
    }

    /// What is in reach in the body of a statement whose tests have a rank.
    pub fn inside(&self, rank: Rank) -> Reach<'a>
        ensures { reach_of result ≡ sites.inside (reach_of self.now) rank }
    {
        Reach {
            shattered: first_rank(self.shattered, rank),
            result: None,
            ..*self
        }
    }

    /// What a name stands for.
    pub fn kind(&self, name: &Name<'_>) -> Option<Kind<'a>>
        ensures { known_of result ≡ faults.kind_at (reach_of self.now) (name_of name.now) }
    {
        self.scope.find(name)
    }

    /// The rank of a prefix.
    pub fn prefix_rank(&self, prefix: &Prefix<'_>) -> Rank
        ensures { result ≡ spec.prefix_rank (reach_of self.now).scope (reach_of self.now).prefix
            (prefix_of prefix.now) }
    {
        inner_rank(
            &self.scope,
            self.mask_rank(&prefix.mask),
            self.prefix,
            &prefix.region,
        )
    }

    /// The rank of a mask, or 0 where there is none.
    pub fn mask_rank(&self, mask: &Option<Mask<'_>>) -> Rank
        ensures { result ≡ ranks.mask_rank (reach_of self.now).scope
            (option_map mask_of mask.now) }
    {
        match mask {
            None => Some(0),
            Some(mask) => array_rank(self.kind(&mask.name)),
        }
    }

    /// The shape of the current region of a rank, where it is known.
    pub fn shape_at(&self, rank: Rank) -> Option<Shape>
        ensures { shape_of result ≡ faults.shape_at (reach_of self.now) rank }
    {
        self.shapes.at(rank).shape()
    }

    /// Whether there is no current region of a rank.
    pub fn lacks_region(&self, rank: Rank) -> bool
        ensures { result ≡ faults.lacks_region (reach_of self.now) rank }
    {
        self.shapes.at(rank).is_absent()
    }

    /// Whether the current region of a rank has a mask.
    pub fn is_under_mask(&self, rank: Rank) -> bool
        ensures { result ≡ faults.is_under_mask (reach_of self.now) rank }
    {
        self.shapes.at(rank).is_masked()
    }
}
