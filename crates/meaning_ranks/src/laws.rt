//! The laws of ranks, and of what follows from them.
ghost use Rattle.std.specs.Prelude.{◌≡◌, ℕ, List, None};
ghost use Rattle.zpl_nums.specs.declared.ends.Border.{Border as BorderKind};
ghost use Rattle.zpl_nums.specs.declared.ends.End.TheVariants.{Done};
ghost use Rattle.meaning_runs.specs.of_zpl_tree.Syntax.{Assign, Border, Call, Exprs, Form, Name, Prefix, Prefixed};
ghost use Rattle.meaning_runs.specs.of_zpl_tree.Syntax.{Program, Stmt};
ghost use Rattle.meaning_runs.specs.of_zpl_tree.Grammar.{IsProgram};
ghost use Rattle.meaning_runs.specs.of_zpl_names.Accepted.{IsFaultless};
ghost use Rattle.meaning_runs.specs.of_zpl_binding.Settings.{Setting};
ghost use Rattle.meaning_runs.specs.of_zpl_meaning.Store.{Store};
ghost use Rattle.meaning_runs.specs.of_zpl_meaning.Context.{Place};
ghost use Rattle.meaning_runs.specs.of_zpl_meaning.Calls.{Called};
ghost use Rattle.meaning_runs.specs.of_zpl_meaning.Program.{call_at};
ghost use Rattle.meaning_runs.specs.of_zpl_meaning.Visited.{first_setup, IsVisited};
ghost use Rattle.meaning_runs.specs.Met.{ComesUnder, IsMet, MakesCall, opening_of};
ghost use Rattle.meaning_ranks.specs.Ranked.{IsRankedStmt};
ghost use Rattle.meaning_ranks.specs.Answered.{HasAnswered};
ghost use Rattle.meaning_ranks.specs.Bordered.{ComesToName, IsBordered};
ghost use Rattle.meaning_ranks.specs.Flat.{IsFlatForm};
ghost use Rattle.meaning_ranks.specs.Shaped.{HaveTheirRanks};
ghost use Rattle.meaning_ranks.specs.Unmasked.{IsUnmasked};

use meaning_runs::zpl_names::{
    declared_ranks_are_at_most_three, faultless_programs_have_faultless_sites,
    faultless_programs_leave_nothing_open, procedures_are_there, ranks_are_at_most_three,
};
use meaning_runs::{
    answers_have_places, no_run_comes_to_the_end_of_calls, stores_have_what_names_stand_for,
};

/// At each place that a run of a program of the grammar without faults visits, ranks agree: a
/// scalar is assigned a scalar, an array a scalar or what is of its rank; what stands in an
/// expression has the rank of the expression, or is a scalar; and a shattered statement is
/// elementwise and of one rank.
pub fn ranks_agree()
    ensures { (program : Program) (settings : List Setting) → IsProgram program →
        IsFaultless program → (place : Place) (stmt : Stmt) →
        IsVisited (first_setup program settings) place stmt → IsRankedStmt place stmt }
{
    faultless_programs_have_faultless_sites();
    faultless_programs_leave_nothing_open();
    declared_ranks_are_at_most_three();
    procedures_are_there();
    ranks_are_at_most_three();
}

/// Where a run of such a program comes to, each current region has the rank whose current region it
/// is.
pub fn current_regions_have_their_ranks()
    ensures { (program : Program) (settings : List Setting) (n : ℕ) → IsProgram program →
        IsFaultless program → (deeper : ℕ) (place inner : Place) (at : ℕ)
        (prefixes : List Prefix) (form : Form) (store : Store) →
        IsMet (opening_of program settings n) deeper place (Prefixed at prefixes form) store →
        ComesUnder store prefixes place inner → HaveTheirRanks inner.currents }
{
    faultless_programs_have_faultless_sites();
    faultless_programs_leave_nothing_open();
    declared_ranks_are_at_most_three();
    procedures_are_there();
    ranks_are_at_most_three();
}

/// In such a program no region over which a run reduces, scans, floods, reads at computed tuples,
/// prints or writes a border has a flood dimension, and no coordinate is one of a flood dimension.
pub fn no_flood_dimension_is_walked()
    ensures { (program : Program) (settings : List Setting) (n : ℕ) → IsProgram program →
        IsFaultless program → (deeper : ℕ) (place inner : Place) (at : ℕ)
        (prefixes : List Prefix) (form : Form) (store : Store) →
        IsMet (opening_of program settings n) deeper place (Prefixed at prefixes form) store →
        ComesUnder store prefixes place inner → IsFlatForm inner form }
{
    faultless_programs_have_faultless_sites();
    faultless_programs_leave_nothing_open();
    declared_ranks_are_at_most_three();
    procedures_are_there();
    ranks_are_at_most_three();
}

/// In such a program no print of an array and no border statement that a run comes to stands under
/// a mask of its rank.
pub fn prints_and_borders_have_no_mask()
    ensures { (program : Program) (settings : List Setting) (n : ℕ) → IsProgram program →
        IsFaultless program → (deeper : ℕ) (place inner : Place) (at : ℕ)
        (prefixes : List Prefix) (form : Form) (store : Store) →
        IsMet (opening_of program settings n) deeper place (Prefixed at prefixes form) store →
        ComesUnder store prefixes place inner → IsUnmasked inner form }
{
    faultless_programs_have_faultless_sites();
    faultless_programs_leave_nothing_open();
    declared_ranks_are_at_most_three();
    procedures_are_there();
    ranks_are_at_most_three();
}

/// In such a program each name of a border statement that a run comes to, the later ones too, is an
/// array's of the rank of the nearest prefix, which is a border; and the store there has the array.
pub fn borders_are_of_arrays()
    ensures { (program : Program) (settings : List Setting) (n : ℕ) → IsProgram program →
        IsFaultless program → (deeper : ℕ) (place inner : Place) (at : ℕ)
        (prefixes : List Prefix) (kind : BorderKind) (names : List Name) (store : Store) →
        IsMet (opening_of program settings n) deeper place
        (Prefixed at prefixes (Border kind names)) store →
        ComesUnder store prefixes place inner → (line : ℕ) (name : Name) (later : Store) →
        ComesToName inner kind line names store name later → IsBordered inner later name }
{
    faultless_programs_have_faultless_sites();
    faultless_programs_leave_nothing_open();
    declared_ranks_are_at_most_three();
    procedures_are_there();
    ranks_are_at_most_three();
    stores_have_what_names_stand_for();
}

/// In such a program a procedure that is called for an answer, and ends normally, has come to its
/// `return`: the answer that is taken is the value there.
pub fn answers_come_of_returns()
    ensures { (program : Program) (settings : List Setting) (n : ℕ) → IsProgram program →
        IsFaultless program → (deeper : ℕ) (place inner : Place) (at : ℕ)
        (prefixes : List Prefix) (target name : Name) (offset : ℕ) (actuals : Exprs)
        (store : Store) (called : Called) (before : Store) →
        IsMet (opening_of program settings n) deeper place
        (Prefixed at prefixes (Assign target None (Call offset name actuals))) store →
        ComesUnder store prefixes place inner →
        MakesCall inner store (Assign target None (Call offset name actuals)) called before →
        (call_at (first_setup program settings) n deeper called before).ending ≡ Done →
        HasAnswered (opening_of program settings n) called
        (call_at (first_setup program settings) n deeper called before).store }
{
    faultless_programs_have_faultless_sites();
    faultless_programs_leave_nothing_open();
    declared_ranks_are_at_most_three();
    procedures_are_there();
    ranks_are_at_most_three();
    answers_have_places();
    no_run_comes_to_the_end_of_calls();
}
