//! The laws of tables that lowered code comes to.
ghost use Rattle.std.specs.Prelude.{◌≡◌, ◌++◌, All, Bool, IsTrue, List, Option, length, map, take};
ghost use Rattle.std.specs.Prelude.{ℕ, ℤ};
ghost use Rattle.lower_numbers.specs.of_row_runs.Straight.{Every};
ghost use Rattle.meaning_ranks.specs.of_zpl_tree.Grammar.{IsBody, IsProgram};
ghost use Rattle.meaning_ranks.specs.of_zpl_tree.Syntax.{Inner, Program, Stmt};
ghost use Rattle.meaning_ranks.specs.of_zpl_names.Accepted.{IsFaultless};
ghost use Rattle.meaning_ranks.specs.of_zpl_names.Kinds.{Shape};
ghost use Rattle.meaning_ranks.specs.of_zpl_names.Declared.{Routine, routine_named, scope_of};
ghost use Rattle.meaning_ranks.specs.of_zpl_names.Reached.{IsReached};
ghost use Rattle.meaning_ranks.specs.of_zpl_names.Shapes.{Shapes};
ghost use Rattle.meaning_ranks.specs.of_zpl_binding.Bound.{IsAcceptedWith};
ghost use Rattle.meaning_ranks.specs.of_zpl_binding.Declarations.{known_of};
ghost use Rattle.meaning_ranks.specs.of_zpl_binding.Outcome.{Gives};
ghost use Rattle.meaning_ranks.specs.of_zpl_binding.Regions.{inner_of};
ghost use Rattle.meaning_ranks.specs.of_zpl_binding.Settings.{Setting};
ghost use Rattle.meaning_ranks.specs.of_zpl_binding.Storages.{borders_of, storage_of};
ghost use Rattle.zpl_region.specs.Tests.{is_within_limit};
ghost use Rattle.zpl_region.specs.declared.regions.Region.{Region};
ghost use Rattle.stored_shifts.specs.of_zpl_arrays.Around.{copy_storage};
ghost use Rattle.meaning_ranks.specs.Shaped.{AreFloods};
ghost use Rattle.meaning_ranks.specs.of_zpl_meaning.Context.{Currents, Edge};
ghost use Rattle.meaning_ranks.specs.of_zpl_meaning.Visited.{first_setup, IsVisited};
ghost use Rattle.stored_shifts.specs.of_node_form.Fits.{FitsArray, IsRank};
ghost use Rattle.stored_shifts.specs.of_node_form.Grid.{IsGrid};
ghost use Rattle.stored_shifts.specs.of_node_form.declared.tables.Tables.{Tables as Code};
ghost use Rattle.lower_numbers.specs.of_flat_form.Flat.{IsFlat};
ghost use Rattle.lower_numbers.specs.of_flat_form.Laws.{IsInline};
ghost use Rattle.lower_numbers.specs.of_flat_form.Row.{Row, with_rows};
ghost use Rattle.lower_numbers.specs.of_flat_form.Static.{HasFringes};
ghost use Rattle.stored_shifts.specs.Stored.{ShiftsAreStored};
ghost use Rattle.typed_tables.specs.Typed.{AreTyped};
ghost use Rattle.lower_numbers.specs.of_zpl_lowering.Hoist.{Free, hoisted};
ghost use Rattle.lower_numbers.specs.of_zpl_lowering.Lowered.{Lowered};
ghost use Rattle.lower_numbers.specs.of_zpl_lowering.Program.{Entry, body_code, first_next, lowered_program};
ghost use Rattle.lower_numbers.specs.of_zpl_lowering.Program.{call_code, where_in};
ghost use Rattle.lower_numbers.specs.of_zpl_lowering.Slate.{Slate};
ghost use Rattle.lower_numbers.specs.of_zpl_lowering.Statement.{Calling, lowered};
ghost use Rattle.lower_numbers.specs.of_zpl_lowering.Tables.{empty_tables, rows_of, tables_of};
ghost use Rattle.lower_numbers.specs.of_zpl_lowering.Where.{Next, Numbers, Where};
ghost use Rattle.lowering_fits.specs.Inline.{FitRows, FitsPiece, IsGround};
ghost use Rattle.lowering_fits.specs.Lowerings.{FitsLowered, IsLaidOut, IsSoundStmt, answering};
ghost use Rattle.lowering_fits.specs.Lowerings.{region_rank};
ghost use Rattle.lowering_fits.specs.Reach.{FitsKnown, IsBox, place_at};
ghost use Rattle.lowering_fits.specs.Slates.{AllCovered, AllRanges, FitNumbers, FitsHoist};
ghost use Rattle.lowering_fits.specs.Slates.{FitsSlate, FitsTree, IsPlaced};
ghost use Rattle.lowering_fits.specs.Slates.{SlotsAt};
ghost use Rattle.lowering_fits.specs.Standing.{CallsFit, IsStanding};
ghost use Rattle.lowering_fits.specs.Declarations.{FitsProgram};
ghost use Rattle.lowering_fits.specs.Storages.{AllKept, AllStorages, IsStorage};
ghost use Rattle.lowering_fits.specs.Whole.{AllVars, FitsGivens, IsNumbered};
ghost use Rattle.lowering_fits.specs.Whole.{body_frames};

use meaning_ranks::ranks_agree;
use meaning_ranks::zpl_meaning::{no_stand_in_is_met, what_is_computed_has_a_value};
use meaning_ranks::zpl_names::{
    counts_add_up, declared_ranks_are_at_most_three, faultless_programs_have_faultless_sites,
    faultless_programs_leave_nothing_open, procedures_are_there, ranks_are_at_most_three,
};
use zpl_region::tests_tell_the_facts;

/// Rows that fit, laid out in tables that have only scalars, slots and arrays, make the tables of a
/// flat program, where slots and arrays fit; and so does code whose rows and tests fit: each jump
/// in it has a goal in the code.
pub fn rows_that_fit_make_flat_programs()
    ensures rows { (tables : Code) (rows : List Row) → IsGround tables → IsGrid tables.grid →
        All IsRank tables.slots → All FitsArray tables.arrays →
        FitRows tables (length rows) rows → IsFlat (with_rows tables rows) }
    ensures code { (grid : List ℕ) (lowered : Lowered) → IsGrid grid →
        All IsRank lowered.slots → All FitsArray (empty_tables grid lowered).arrays →
        FitsPiece (empty_tables grid lowered) lowered.code → IsFlat (tables_of grid lowered) }
{}

/// Where an expression with slots fits, and its shifts are within the fringes, the rows of its
/// operators fit, and what is left of it is an expression of its rank.
pub fn operators_fit()
    ensures rows { (tables : Code) (numbers : Numbers) (line : ℕ) (free : Free) (rank : ℕ)
        (one : Slate) → FitNumbers tables numbers → FitsSlate tables numbers rank one →
        IsPlaced tables free (hoisted numbers line free one).scalars
        (hoisted numbers line free one).temps →
        AllCovered tables (hoisted numbers line free one).shifts →
        FitsHoist tables (hoisted numbers line free one) }
    ensures left { (tables : Code) (numbers : Numbers) (line : ℕ) (free : Free) (rank : ℕ)
        (one : Slate) → FitNumbers tables numbers → FitsSlate tables numbers rank one →
        IsPlaced tables free (hoisted numbers line free one).scalars
        (hoisted numbers line free one).temps →
        AllCovered tables (hoisted numbers line free one).shifts →
        FitsTree tables rank (hoisted numbers line free one).left }
{}

/// The body of a procedure that a program without faults reaches is sound: no array that is read at
/// computed tuples has a flood dimension, and a `return` stands only where there is an answer.
pub fn bodies_are_sound()
    ensures { (program : Program) → IsFaultless program → (text : List ℕ) (shapes : Shapes)
        (routine : Routine) → IsReached program text shapes →
        routine_named program text ≡ Some routine → IsBody routine.procedure.body →
        IsSoundStmt (scope_of program routine) (answering routine.procedure.result)
        routine.procedure.body }
{
    faultless_programs_have_faultless_sites();
}

/// In a program of the grammar without faults, under settings that it accepts, what was computed
/// before the run fits the names in reach of a procedure: directions have vectors of their ranks,
/// and declared regions may stand in rows, and have slots of their ranks where these are laid out
/// first.
pub fn declared_names_fit()
    ensures { (program : Program) (settings : List Setting) → IsProgram program →
        IsFaultless program → IsAcceptedWith program settings → (tables : Code) (text : List ℕ)
        (routine : Routine) → routine_named program text ≡ Some routine →
        SlotsAt tables 0 (map region_rank (known_of program settings).regions) →
        FitsKnown tables (known_of program settings) (scope_of program routine) }
{
    what_is_computed_has_a_value();
}

/// In a program of the grammar without faults the code of each statement that a run visits fits,
/// where what is in reach of it does, where what it calls does, and where what the code has of its
/// own is laid out in the tables.
pub fn statements_fit()
    ensures { (program : Program) (settings : List Setting) → IsProgram program →
        IsFaultless program → (tables : Code) (call : Calling → Next → Lowered) →
        CallsFit tables (first_setup program settings) call →
        (answers : Bool) (w : Where) (result : ℕ) (currents : Currents) (edge : Option Edge) →
        IsStanding tables (first_setup program settings) answers w currents →
        (next : Next) (stmt : Stmt) →
        IsVisited (first_setup program settings) (place_at w result currents edge) stmt →
        IsSoundStmt w.scope answers stmt →
        IsLaidOut tables next (lowered (record { place = w; call = call }) next stmt) →
        FitsLowered tables (lowered (record { place = w; call = call }) next stmt) }
{
    ranks_agree();
    no_stand_in_is_met();
    tests_tell_the_facts();
}

/// In such a program the code of a procedure that is called fits: the rows of its parameters and of
/// its local variables, and its body, where the body stands as it must behind these.
pub fn bodies_fit()
    ensures { (program : Program) (settings : List Setting) → IsProgram program →
        IsFaultless program → (tables : Code) (call : Calling → Next → Lowered) →
        CallsFit tables (first_setup program settings) call →
        (answers : Bool) (entry : Entry) (routine : Routine) (calling : Calling) (next : Next)
        (result : ℕ) (currents : Currents) (edge : Option Edge) →
        FitsGivens tables calling.actuals → FitNumbers tables calling.numbers →
        AllKept calling.numbers.arrays →
        AllVars (first_setup program settings) routine.procedure.locals →
        (let setup = first_setup program settings in
        let last = body_frames setup entry routine calling next in
        let w = where_in setup routine calling last.frame in
        (FitNumbers tables last.frame.numbers → AllKept last.frame.numbers.arrays →
        IsStanding tables setup answers w currents) →
        IsVisited setup (place_at w result currents edge) routine.procedure.body →
        IsSoundStmt w.scope answers routine.procedure.body →
        IsLaidOut tables next (body_code setup entry call routine calling next) →
        FitsLowered tables (body_code setup entry call routine calling next)) }
{
    ranks_agree();
    no_stand_in_is_met();
    tests_tell_the_facts();
}

/// Code that is numbered as it is laid out has what is its own in its tables; and if it fits them
/// then, and its storages are boxes within the limit, they are a flat program's, and are as a
/// program's types give them. What their expressions read with a shift is stored, and is within the
/// fringe of its array.
pub fn numbered_code_makes_a_flat_program()
    ensures laid { (grid : List ℕ) (next : Next) (lowered : Lowered) → IsNumbered next lowered →
        IsLaidOut (empty_tables grid lowered) next lowered }
    ensures flat { (grid : List ℕ) (lowered : Lowered) → IsGrid grid →
        AllStorages (lowered.arrays ++ (lowered.copies ++ lowered.later)) →
        FitsLowered (empty_tables grid lowered) lowered → IsFlat (tables_of grid lowered) }
    ensures stored { (grid : List ℕ) (lowered : Lowered) →
        FitsLowered (empty_tables grid lowered) lowered → ShiftsAreStored (tables_of grid lowered) }
    ensures typed { (grid : List ℕ) (lowered : Lowered) →
        AllStorages (lowered.arrays ++ (lowered.copies ++ lowered.later)) →
        FitsLowered (empty_tables grid lowered) lowered → AreTyped (tables_of grid lowered) }
    ensures fringes { (grid : List ℕ) (lowered : Lowered) →
        FitsLowered (empty_tables grid lowered) lowered → HasFringes (tables_of grid lowered) }
{}

/// All code of a program of the grammar without faults is numbered as it is laid out: the program
/// has as many arrays and copies as the expanded program, and behind each call those that the
/// procedure's text asks for.
pub fn all_code_is_numbered()
    ensures { (program : Program) (settings : List Setting) → IsProgram program →
        IsFaultless program → IsNumbered (first_next program) (lowered_program program settings) }
{
    ranks_agree();
    no_stand_in_is_met();
    counts_add_up();
}

/// In a program of the grammar without faults, under settings that it accepts, calls fit, down any
/// chain of procedures, where what is declared is as the text says.
pub fn calls_fit()
    ensures { (program : Program) (settings : List Setting) → IsProgram program →
        IsFaultless program → IsAcceptedWith program settings → FitsProgram program settings →
        (tables : Code) → SlotsAt tables 0 (map region_rank (known_of program settings).regions) →
        (depth : ℕ) → CallsFit tables (first_setup program settings)
        (call_code (first_setup program settings) depth) }
{
    ranks_agree();
    no_stand_in_is_met();
    tests_tell_the_facts();
    what_is_computed_has_a_value();
    counts_add_up();
    ranks_are_at_most_three();
    declared_ranks_are_at_most_three();
    faultless_programs_have_faultless_sites();
    faultless_programs_leave_nothing_open();
    procedures_are_there();
}

/// And so does all code of the program: it makes a flat program's tables, if its storages are boxes
/// within the limit. What their expressions read with a shift is stored, and each row has its
/// expressions and its group in its place.
pub fn lowered_programs_fit()
    ensures fit { (program : Program) (settings : List Setting) → IsProgram program →
        IsFaultless program → IsAcceptedWith program settings → FitsProgram program settings →
        (grid : List ℕ) → FitsLowered (empty_tables grid (lowered_program program settings))
        (lowered_program program settings) }
    ensures flat { (program : Program) (settings : List Setting) → IsProgram program →
        IsFaultless program → IsAcceptedWith program settings → FitsProgram program settings →
        (let lowered = lowered_program program settings in
        AllStorages (lowered.arrays ++ (lowered.copies ++ lowered.later)) →
        (grid : List ℕ) → IsGrid grid → IsFlat (tables_of grid lowered)) }
    ensures stored { (program : Program) (settings : List Setting) → IsProgram program →
        IsFaultless program → IsAcceptedWith program settings → FitsProgram program settings →
        (grid : List ℕ) → ShiftsAreStored (tables_of grid (lowered_program program settings)) }
    ensures inline { (program : Program) (settings : List Setting) → IsProgram program →
        IsFaultless program → IsAcceptedWith program settings → FitsProgram program settings →
        Every IsInline (rows_of (lowered_program program settings)) }
{
    ranks_agree();
    no_stand_in_is_met();
    tests_tell_the_facts();
    what_is_computed_has_a_value();
    counts_add_up();
    ranks_are_at_most_three();
    declared_ranks_are_at_most_three();
    faultless_programs_have_faultless_sites();
    faultless_programs_leave_nothing_open();
    procedures_are_there();
}

/// The storage of a declared array, where it has one, is a box within the limit, if its rank is one
/// from 1 to 3; and so is that of a copy that is read round a home box, if it is within the limit.
/// The storage has the rank of the array's region, and no flood dimension where that has none.
pub fn storages_are_boxes()
    ensures like { (program : Program) (settings : List Setting) (inner : Inner)
        (region storage : Region) → inner_of (known_of program settings) inner ≡ Gives region →
        storage_of (known_of program settings) (borders_of program) inner ≡ Gives storage →
        (storage.rank ≡ region.rank)
        × (AllRanges (take region.rank region.dims) → AllRanges (take storage.rank storage.dims))
        × ((shape : Shape) → AreFloods shape region.dims → AreFloods shape storage.dims) }
    ensures declared { (program : Program) (settings : List Setting) (inner : Inner)
        (storage : Region) →
        storage_of (known_of program settings) (borders_of program) inner ≡ Gives storage →
        IsRank storage.rank → IsStorage storage }
    ensures copies { (rank : ℕ) (home : Region) (shift : List ℤ) → IsRank rank →
        IsBox rank home → IsTrue (is_within_limit (copy_storage home shift)) →
        IsStorage (copy_storage home shift) }
{
    tests_tell_the_facts();
}
