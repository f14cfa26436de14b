//! The laws of flat programs.
//!
//! Each law is the contract of a function that does nothing: a call brings the law into a proof.
//! The statements stand in `specs/Laws`, `specs/States` and `specs/Touches`.
ghost use Rattle.flat_form.specs.Laws.{AreInline, ControlInline, GroupsInline, Grow};
ghost use Rattle.flat_form.specs.Laws.{Patch, ReadAgain};
ghost use Rattle.flat_form.specs.States.{BeginWhole, StayWhole};
ghost use Rattle.flat_form.specs.Touches.{ChangeWritten, GoByNames};

/// A run that may make more jumps, and more turns of each loop within a group, goes on from a
/// shorter one: the bytes of the shorter one begin its own, and where the shorter one didn't want
/// more, it is the same.
pub fn longer_flat_runs_go_on()
    ensures { Grow }
{}

/// Rows of two tables that are the same inline do the same in states that have the same of all
/// that is named, and leave what was the same the same.
pub fn rows_go_by_names()
    ensures { GoByNames }
{}

/// Rows that need scalars and slots alone do inline what they do in their tables.
pub fn inline_rows_are_controlled_alike()
    ensures { ControlInline }
{}

/// The tree of a group that is seen inline is the tree of its members in the tables, with the same
/// words in the place of each expression.
pub fn inline_groups_have_the_same_trees()
    ensures { GroupsInline }
{}

/// What a row doesn't write stays as it was.
pub fn rows_change_what_they_write()
    ensures { ChangeWritten }
{}

/// A run has at each row as many scalars and slots as its tables say, and for each array a value at
/// each of its places; those of a stored array are its storage.
pub fn states_stay_whole()
    ensures begin { BeginWhole }
    ensures stay { StayWhole }
{}

/// Rows that are added to tables are read again behind those that were there; and rows that are
/// read from tables may be added to others.
pub fn added_rows_are_read_again()
    ensures again { ReadAgain }
    ensures inline { AreInline }
{}

/// A goal that is filled in later is as one that was there at once.
pub fn goals_may_be_patched()
    ensures { Patch }
{}
