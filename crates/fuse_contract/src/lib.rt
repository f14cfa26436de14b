//! Neighbouring loops become one, and arrays that one loop alone names become cells.
#![tactic(auto)]

mod cells;
mod grown;
mod joins;
mod known;
mod states;
mod uses;

ghost use Rattle.std.specs.Prelude.{◌≡◌, ℕ, ◌+◌, ◌≤◌, All, count_by, false, length, sum_by};
ghost use Rattle.temp_norm.specs.of_node_form.Fits.{Fits};
ghost use Rattle.temp_norm.specs.of_node_form.declared.tables.Tables.{Tables as Code};
ghost use Rattle.temp_norm.specs.of_code_parts.Counts.{code_size, count_of, is_vote};
ghost use Rattle.temp_norm.specs.of_code_parts.Uses.{is_turning};
ghost use Rattle.temp_norm.specs.of_flat_passes.Grouped.{loop_members};
ghost use Rattle.temp_norm.specs.of_flat_passes.Rewritten.{has_goal};
ghost use Rattle.fuse_contract.specs.Contracting.{contracted};
ghost use Rattle.fuse_contract.specs.Fusing.{fused};

pub use cells::contract;
pub use joins::fuse;

/// Where loops are joined, the code gets no longer, its groups have no more members than its loops
/// ran before, and it has as many jumps and tests. Where no group is run by two loops, it gets no
/// larger. Nothing but rows and groups changes.
pub fn loops_are_joined()
    ensures rows { (code : Code) → length (fused code).code ≤ length code.code }
    ensures members { (code : Code) →
        sum_by (λ group. length group) (fused code).groups ≤ loop_members code }
    ensures size { (code : Code) → loop_members code ≤ sum_by (λ group. length group) code.groups →
        code_size (fused code) ≤ code_size code }
    ensures jumps { (code : Code) → count_of has_goal (fused code) ≡ count_of has_goal code }
    ensures rest { (code : Code) →
        record (fused code) { groups = code.groups; code = code.code } ≡ code }
{}

/// Where arrays become cells, every row of the code and every array stays, and nothing but cells,
/// groups and expressions changes. There is at most one cell more for each array, and nothing else
/// gets larger.
pub fn arrays_become_cells()
    ensures cells { (code : Code) → (contracted code).cells ≤ code.cells + length code.arrays }
    ensures size { (code : Code) →
        code_size (contracted code) ≤ code_size code + length code.arrays }
    ensures rest { (code : Code) →
        record (contracted code) { cells = code.cells; groups = code.groups; exprs = code.exprs }
        ≡ code }
{}

/// Tables that fit do so with their loops joined, where their code has no vote, and with cells in
/// the place of arrays.
pub fn fused_and_contracted_fit()
    ensures fused { (code : Code) → Fits code → All (λ row. is_vote row ≡ false) code.code →
        Fits (fused code) }
    ensures contracted { (code : Code) → Fits code → Fits (contracted code) }
{}

/// No group gets more `while` and `repeat` than groups had: where each had at most so many, each
/// has.
pub fn groups_turn_no_more()
    ensures fused { (code : Code) (most : ℕ) →
        All (λ group. count_by is_turning group ≤ most) code.groups →
        All (λ group. count_by is_turning group ≤ most) (fused code).groups }
    ensures contracted { (code : Code) (most : ℕ) →
        All (λ group. count_by is_turning group ≤ most) code.groups →
        All (λ group. count_by is_turning group ≤ most) (contracted code).groups }
{}
