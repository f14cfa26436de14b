//! The laws of compiled code.
ghost use Rattle.std.specs.Prelude.{◌≡◌, ℕ, ◌+◌, ◌*◌, ◌≤◌, true};
ghost use Rattle.zpl_tree.specs.Syntax.{Program};
ghost use Rattle.zpl_names.specs.Expansion.{other_size, plain_assignments, source_size};
ghost use Rattle.grid_meaning.specs.Stored.{arrangement_of};
ghost use Rattle.code_parts.specs.Counts.{GoesByTrees, code_size, count_of, is_counted, is_loop};
ghost use Rattle.code_parts.specs.Counts.{is_vote};
ghost use Rattle.code_parts.specs.Needs.{IsUndecided};
ghost use Rattle.temp_norm.specs.Normalised.{normalised};
ghost use Rattle.zpl_lowering.specs.Tables.{flat_tables};
ghost use Rattle.lowering_sizes.specs.Sizes.{HasTokens};
ghost use Rattle.zpl_claims.specs.Build.{Build};
ghost use Rattle.zpl_compile.specs.Compile.{compiled};
ghost use Rattle.compiled_sizes.specs.Lowered.{IsLowered};

/// The code of a program is at most nine times as large as its lowered tables, and so at most 512
/// times as large as the program with its calls expanded. Where values go through temporaries, it
/// is at most twice as large as the lowered tables. Of its rows, those that statements are made of
/// are at most one for each plain assignment, and 32 for each token, parameter and local name that
/// stands in none, where there are at least as many tokens as words that the tree is written as. It
/// has no more votes than loops.
pub fn compiled_code_is_small()
    ensures factor { (build : Build) (program : Program) → IsLowered build program →
        code_size (compiled build program) ≤ 9 * code_size (flat_tables program build.settings) }
    ensures small { (build : Build) (program : Program) → IsLowered build program →
        code_size (compiled build program) ≤ 512 * (source_size program + 1) }
    ensures normal { (build : Build) (program : Program) → IsLowered build program →
        code_size (normalised (flat_tables program build.settings)) ≤
        2 * code_size (flat_tables program build.settings) }
    ensures counted { (build : Build) (program : Program) (tokens : ℕ) → IsLowered build program →
        HasTokens program tokens → count_of is_counted (compiled build program) ≤
        plain_assignments program + 32 * (other_size program tokens + 1) }
    ensures votes { (build : Build) (program : Program) → IsLowered build program →
        count_of is_vote (compiled build program) ≤ count_of is_loop (compiled build program) }
{}

/// The code is for the grid that is asked for, and has the stored arrays of the lowered program. No
/// check of places is left that always passes. Where that is asked for, no vote and no fold goes by
/// the first processor.
pub fn compiled_code_is_laid_out()
    ensures laid_out { (build : Build) (program : Program) →
        arrangement_of (compiled build program) ≡ record {
          grid = build.grid;
          boxes = (arrangement_of (flat_tables program build.settings)).boxes;
        } }
    ensures undecided { (build : Build) (program : Program) →
        IsUndecided (compiled build program) }
    ensures by_trees { (build : Build) (program : Program) → build.options.tree ≡ true →
        GoesByTrees (compiled build program) }
{}
