//! The law of loops of one put.
//!
//! The law is the contract of a function that does nothing: a call brings the law into a proof.
ghost use Rattle.std.specs.Prelude.{◌≡◌, ℕ, Bool, ℤ, List, Option, Some};
ghost use Rattle.zpl_region.specs.declared.regions.Region.{Region as Places};
ghost use Rattle.zpl_arrays.specs.Array.{Array};
ghost use Rattle.zpl_meaning.specs.Fields.{Field, array_over};
ghost use Rattle.node_form.specs.declared.tables.Tables.{Tables as Code};
ghost use Rattle.normal_runs.specs.of_flat_form.Row.{Words};
ghost use Rattle.normal_runs.specs.of_flat_form.Loop.{looped};
ghost use Rattle.normal_runs.specs.of_flat_form.Whole.{Whole};
ghost use Rattle.array_puts.specs.Put.{IsPutting, assigned, put_group};

/// A loop of one put does what an assignment writes: it computes a field at all tuples of a region
/// that aren't masked out, in any order, and writes all values afterwards; or it traps at its line,
/// where some value divides by zero.
pub fn one_put_is_an_assignment()
    ensures { (tables : Code) (n : ℕ) (whole : Whole) (number : ℕ) (array : Array)
        (region : Places) (is_in : List ℤ → Bool) (field : Field) (expr : Words)
        (mask : Option Words) (line : ℕ) →
        IsPutting tables whole number array region is_in field expr mask line →
        looped tables n (put_group number expr mask line) whole (Some region)
        ≡ assigned whole number array region is_in line (array_over region is_in field) }
{}
