//! The laws of how large passes make code.
ghost use Rattle.std.specs.Prelude.{◌≡◌, ℕ, ◌+◌, ◌*◌, ◌≤◌, Bool, List, false, length, sum_by};
ghost use Rattle.node_form.specs.declared.instructions.Instr.{Instr};
ghost use Rattle.node_form.specs.declared.instructions.Instr.TheVariants.{Loop, Vote};
ghost use Rattle.node_form.specs.declared.tables.Tables.{Tables};
ghost use Rattle.code_parts.specs.Counts.{code_size, count_of, is_counted, is_loop, is_vote};
ghost use Rattle.comm_needs.specs.of_flat_passes.Grouped.{loop_members};
ghost use Rattle.fuse_contract.specs.of_temp_norm.Normalised.{loops_on_themselves, normalised, temporaries};
ghost use Rattle.fuse_contract.specs.of_bound_check.Checked.{checked};
ghost use Rattle.fuse_contract.specs.Contracting.{contracted};
ghost use Rattle.fuse_contract.specs.Fusing.{fused};
ghost use Rattle.comm_needs.specs.Needs.{planned};
ghost use Rattle.comm_combine.specs.Merge.{neighbours_merged};
ghost use Rattle.comm_combine.specs.Repeats.{repeats_dropped};
ghost use Rattle.pass_sizes.specs.Sizes.{IsBlind, PassesNoExchange, RunsOnce};
ghost use Rattle.pass_sizes.specs.Sizes.{is_preparing, is_unflat};
ghost use Rattle.pass_sizes.specs.Sizes.{loop_shifts, pair_size, plan_size};

/// The plan of a flat program is larger by at most one for each loop, three for each word that a
/// loop reads with a shift, and two for each row that no flat program has. So it is at most four
/// times as large where expressions that are read with a shift stand in one loop each. It has as
/// many loops and counted rows, and at most one vote more for each loop. Each start has its finish
/// and an exchange of its own.
pub fn needs_are_few()
    ensures size { (grid : List ℕ) (code : Tables) → code_size (planned grid code) ≤
        code_size code + (count_of is_loop code
        + (2 * count_of is_unflat code + 3 * loop_shifts code)) }
    ensures factor { (grid : List ℕ) (code : Tables) → count_of is_unflat code ≡ 0 →
        loop_shifts code ≤ sum_by length code.exprs →
        code_size (planned grid code) ≤ 4 * code_size code }
    ensures pairs { (grid : List ℕ) (code : Tables) → pair_size (planned grid code) ≤
        length code.code + (count_of is_loop code
        + (2 * count_of is_unflat code + 3 * loop_shifts code)) }
    ensures paired { (grid : List ℕ) (code : Tables) →
        pair_size (planned grid code) ≡ plan_size (planned grid code) }
    ensures votes { (grid : List ℕ) (code : Tables) →
        count_of is_vote (planned grid code) ≤ count_of is_vote code + count_of is_loop code }
    ensures rows { (grid : List ℕ) (code : Tables) (test : Instr → Bool) → PassesNoExchange test →
        IsBlind test → ((group : ℕ) → test (Vote group) ≡ false) →
        count_of test (planned grid code) ≡ count_of test code }
{}

/// A plan whose exchanges are left out or merged gets no larger, by pairs; what it has of rows and
/// exchanges is no more than it had by pairs. So its code is no larger where each start has its
/// finish and an exchange of its own. It has as many rows that pass a test, but for starts and
/// finishes.
pub fn exchanges_get_fewer()
    ensures dropped { (plan : Tables) → plan_size (repeats_dropped plan) ≤ pair_size plan }
    ensures dropped_pairs { (plan : Tables) → pair_size (repeats_dropped plan) ≤ pair_size plan }
    ensures dropped_factor { (plan : Tables) → pair_size plan ≤ plan_size plan →
        code_size (repeats_dropped plan) ≤ code_size plan }
    ensures dropped_rows { (plan : Tables) (test : Instr → Bool) → PassesNoExchange test →
        IsBlind test → count_of test (repeats_dropped plan) ≡ count_of test plan }
    ensures merged { (plan : Tables) → plan_size (neighbours_merged plan) ≤ pair_size plan }
    ensures merged_pairs { (plan : Tables) → pair_size (neighbours_merged plan) ≤ pair_size plan }
    ensures merged_factor { (plan : Tables) → pair_size plan ≤ plan_size plan →
        code_size (neighbours_merged plan) ≤ code_size plan }
    ensures merged_rows { (plan : Tables) (test : Instr → Bool) → PassesNoExchange test →
        IsBlind test → count_of test (neighbours_merged plan) ≡ count_of test plan }
{}

/// In a program whose loops go through temporaries no two loops run one group. Its loops read at
/// most twice as many words with a shift as before. There are no more temporaries than loops that
/// read what they put, nor than arrays, and for each of these loops at most one `room` and one loop
/// more. So the code is at most twice as large, where no two loops run one group, where loops read
/// with a shift no more words than the expressions have, and where at least as many rows prepare
/// for loops as loops read what they put.
pub fn temporaries_are_few()
    ensures once { (code : Tables) → RunsOnce (normalised code) }
    ensures shifts { (code : Tables) → loop_shifts (normalised code) ≤ 2 * loop_shifts code }
    ensures temporaries { (code : Tables) →
        length (temporaries code) ≤ loops_on_themselves code }
    ensures arrays { (code : Tables) → length (temporaries code) ≤ length code.arrays }
    ensures factor { (code : Tables) → loop_members code ≤ sum_by length code.groups →
        loop_shifts code ≤ sum_by length code.exprs →
        loops_on_themselves code ≤ count_of is_preparing code →
        code_size (normalised code) ≤ 2 * code_size code }
    ensures loops { (code : Tables) → loops_on_themselves code ≤ count_of is_loop code }
    ensures counted { (code : Tables) → count_of is_counted (normalised code) ≤
        count_of is_counted code + 2 * loops_on_themselves code }
    ensures more_loops { (code : Tables) → count_of is_loop (normalised code) ≤
        count_of is_loop code + loops_on_themselves code }
    ensures unflat { (code : Tables) →
        count_of is_unflat (normalised code) ≤ count_of is_unflat code }
{}

/// Where checks are left out, loops are joined and arrays become cells, loops read no more words
/// with a shift than before, and still no two loops run one group. No row comes that passes a test
/// that didn't.
pub fn settled_programs_are_small()
    ensures checked_once { (code : Tables) → RunsOnce code → RunsOnce (checked code) }
    ensures checked_shifts { (code : Tables) → loop_shifts (checked code) ≤ loop_shifts code }
    ensures checked_rows { (code : Tables) (test : Instr → Bool) → IsBlind test →
        count_of test (checked code) ≤ count_of test code }
    ensures fused_once { (code : Tables) → RunsOnce (fused code) }
    ensures fused_shifts { (code : Tables) → loop_shifts (fused code) ≤ loop_shifts code }
    ensures fused_rows { (code : Tables) (test : Instr → Bool) → IsBlind test →
        ((slot group : ℕ) → test (Loop slot group) ≡ false) →
        count_of test (fused code) ≡ count_of test code }
    ensures fused_counted { (code : Tables) →
        count_of is_counted (fused code) ≤ count_of is_counted code }
    ensures fused_loops { (code : Tables) →
        count_of is_loop (fused code) ≤ count_of is_loop code }
    ensures contracted_shifts { (code : Tables) →
        loop_shifts (contracted code) ≡ loop_shifts code }
{}
