//! The laws of groups as trees.
//!
//! Each law is the contract of a function that does nothing: a call brings the law into a proof.
//! The statements stand in `specs/Laws`.
ghost use Rattle.nest_meaning.specs.Laws.{ComeToTheSame, DoAlike, DoBoth, DoUnits, DoesAlike, Grow};
ghost use Rattle.nest_meaning.specs.Laws.{HaveLikeUnits, JoinMembers, JoinUnits, ReadsAgain};
ghost use Rattle.nest_meaning.specs.Laws.{ReadsOnly, UnitsAreSpelled, WantNothing};
ghost use Rattle.nest_meaning.specs.Nested.{Ways};

use row_runs::Likeness;

/// Where each loop may make more turns, what didn't want more stays as it was. Without loops a tree
/// never wants more.
pub fn more_turns_go_on<State>()
    ensures turns { (ways : Ways State) → Grow ways }
    ensures loops { (ways : Ways State) → WantNothing ways }
{}

/// Two trees whose expressions have the same values, and whose members without others in them do
/// alike, come from like states to the same end, in like states: two trees of one shape, where a
/// cell may be kept in the one where an array is put in the other; and one tree, by two ways. The
/// units of two such trees are such trees.
pub fn like_trees_do_alike<L: Likeness>()
    ensures pairs { DoAlike L.IsLike }
    ensures units { HaveLikeUnits L.IsLike }
    ensures same { DoesAlike L.IsLike }
{}

/// A tree does what its outermost members do, each with all that it encloses, one after another.
pub fn trees_do_their_units<State>()
    ensures { (ways : Ways State) → DoUnits ways }
{}

/// A tree with another one behind it does what the two do, one after the other, and has the members
/// and the units of both.
pub fn trees_do_both<State>()
    ensures both { (ways : Ways State) → DoBoth ways }
    ensures members { JoinMembers }
    ensures units { JoinUnits }
{}

/// A tree is read again from its members, and what is read from members is a tree with just these;
/// and its units have the members that the units of its members have.
pub fn members_are_read_as_trees()
    ensures again { ReadsAgain }
    ensures only { ReadsOnly }
    ensures units { UnitsAreSpelled }
{}

/// Members that are run turn by turn come to what their tree does where each loop may make n turns:
/// all is done, or the same unit met a zero divisor, behind fewer than `(n + 1) ^ g` turns that go
/// back, where the tree holds g loops; and where the tree wants more, at least n turns go back.
pub fn members_come_to_the_same<Store>()
    ensures { ComeToTheSame Store }
{}
