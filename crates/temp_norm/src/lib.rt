//! Loops that read with a shift what they put go through a temporary.
#![tactic(auto)]

mod loops;
mod reads;
mod temporaries;

ghost use Rattle.std.specs.Prelude.{◌≡◌, ◌+◌, ◌*◌, ◌≤◌, All, false, length, sum_by};
ghost use Rattle.flat_passes.specs.of_node_form.Fits.{Fits};
ghost use Rattle.flat_passes.specs.of_node_form.declared.tables.Tables.{Tables as Code};
ghost use Rattle.flat_passes.specs.of_code_parts.Counts.{code_size, count_of, is_vote};
ghost use Rattle.flat_passes.specs.Grouped.{loop_members};
ghost use Rattle.flat_passes.specs.Rewritten.{has_goal};
ghost use Rattle.temp_norm.specs.Normalised.{IsNormal, ReadThemselvesAlone, loops_on_themselves};
ghost use Rattle.temp_norm.specs.Normalised.{normalised, temporaries};

pub use flat_passes;
pub use flat_passes::node_form;
pub use loops::normalise;

/// No group reads with a shift what it puts, where each that did had one member, with a mask that
/// doesn't. There are at most two rows more for each loop whose group did. Where no group is run by
/// two loops, the code is larger by at most three for each of these loops, and two for each
/// temporary. It has as many jumps and tests, and nothing but its rows, groups, arrays and
/// expressions changes.
pub fn values_go_through_temporaries()
    ensures normal { (code : Code) → Fits code → ReadThemselvesAlone code →
        IsNormal (normalised code) }
    ensures rows { (code : Code) →
        length (normalised code).code ≤ length code.code + 2 * loops_on_themselves code }
    ensures size { (code : Code) → loop_members code ≤ sum_by (λ group. length group) code.groups →
        code_size (normalised code)
        ≤ code_size code + 3 * loops_on_themselves code + 2 * length (temporaries code) }
    ensures jumps { (code : Code) → count_of has_goal (normalised code) ≡ count_of has_goal code }
    ensures rest { (code : Code) →
        record (normalised code) {
          arrays = code.arrays;
          exprs = code.exprs;
          groups = code.groups;
          code = code.code;
        } ≡ code }
{}

/// Tables that fit, and whose code has no vote, fit when they are normalised.
pub fn normal_tables_fit()
    ensures { (code : Code) → Fits code → All (λ row. is_vote row ≡ false) code.code →
        Fits (normalised code) }
{}
