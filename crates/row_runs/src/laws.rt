//! The laws of bounded runs.
//!
//! Each law is the contract of a function that does nothing: a call brings the law into a proof,
//! for rows and states of any types, whatever the rows do. The statements stand in `specs/Laws`.
ghost use Rattle.row_runs.specs.Code.{Decision};
ghost use Rattle.row_runs.specs.Counter.{TellTheirEnd};
ghost use Rattle.row_runs.specs.Growth.{AreFurther};
ghost use Rattle.row_runs.specs.Laws.{FlowOn, Follow, FollowWhole, GoalsAreStarts, Grow};
ghost use Rattle.row_runs.specs.Laws.{GrowByTurns};
ghost use Rattle.row_runs.specs.Laws.{KeepRuns, KeepsThrough, PassesKeepRuns, RewrittenAreTied};
ghost use Rattle.row_runs.specs.Laws.{RowsKeepRuns, StopForGood, WantBehindTurns, WantElse};
ghost use Rattle.row_runs.specs.Run.{Effect, Step};

use crate::likeness::{Knowledge, Likeness};

/// A run that may make more jumps goes on from a shorter one: the bytes of the shorter one begin
/// its own, and where the shorter one didn't want more, it is the same. So it is where the rows go
/// further too.
pub fn longer_runs_go_on<Row, State>()
    ensures jumps { (act : Row → State → Effect State) → Grow act act }
    ensures rows { (act further : Row → State → Effect State) → AreFurther act further →
        Grow act further }
    // One that comes to its end, or to a row that stops it, is the same from there on; else it
    // wanted more jumps.
    ensures for_good { (act : Row → State → Effect State) → StopForGood act }
    ensures wants { (act : Row → State → Effect State) → WantElse act }
{}

/// Rows that only go on or stop are run as one flow.
pub fn straight_rows_are_flows<Row, State>()
    ensures { (act : Row → State → Effect State) → FlowOn act }
{}

/// What two passes keep, one after the other, is kept.
pub fn passes_compose()
    ensures { KeepsThrough }
{}

/// Code of as many rows, each of which does as the old one from like states to like states, has
/// the same runs, unless an old one is wrong.
pub fn like_rows_keep_runs<Old, New, L: Likeness>()
    ensures { (old : Old → L.Old → Effect L.Old) (new : New → L.New → Effect L.New) →
        RowsKeepRuns old new L.IsLike }
{}

/// So has code whose segments do alike, from each place where a segment starts, and for every
/// number of jumps.
pub fn like_segments_keep_runs<Old, New, L: Likeness>()
    ensures { (old : Old → L.Old → Effect L.Old) (new : New → L.New → Effect L.New) →
        KeepRuns old new L.IsLike }
{}

/// So has code that is cut into stretches, each of which is rewritten, with the goals of its last
/// row moved to where the new rows stand.
pub fn passes_keep_runs<Old, New, L: Likeness>()
    ensures runs { (old : Old → L.Old → Effect L.Old) (new : New → L.New → Effect L.New) →
        PassesKeepRuns old new L.IsLike }
    ensures goals { GoalsAreStarts Old New }
{}

/// Straight rows that are rewritten one by one, by the facts that are known in front of each, do
/// alike.
pub fn rewritten_rows_are_tied<Old, New, K: Knowledge>()
    ensures { (old : Old → K.Old → Effect K.Old) (new : New → K.New → Effect K.New) →
        RewrittenAreTied old new K.IsLike K.Knows }
{}

/// Where structured code is laid out, the run does what it does, for every number of jumps that
/// are left behind it: wherever it stands in code, and as a whole program.
pub fn laid_out_code_does_the_same<Row, Test, State>()
    ensures anywhere { (step : Row → State → Step State) (decide : Test → State → Decision) →
        Follow step decide }
    ensures whole { (step : Row → State → Step State) (decide : Test → State → Decision) →
        FollowWhole step decide }
{}

/// Structured code that wants a turn more than each loop may make has made at least as many jumps;
/// and where loops may make more turns, all else stays, and bytes that were printed are printed.
pub fn wanting_takes_jumps<Row, Test, State>()
    ensures jumps { (step : Row → State → Step State) (decide : Test → State → Decision) →
        WantBehindTurns step decide }
    ensures turns { (step : Row → State → Step State) (decide : Test → State → Decision) →
        GrowByTurns step decide }
{}

/// Whether the next value of a counter is behind the last one is told in integers that wrap: for a
/// step of at least 1, upward exactly where the value that wraps is greater than the one before and
/// not beyond the last, and likewise downward.
pub fn counters_tell_their_end()
    ensures { TellTheirEnd }
{}
