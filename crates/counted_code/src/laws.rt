//! The laws of counted code.
ghost use Rattle.std.specs.Prelude.{
  ◌≡◌,
  ◌≢◌,
  ◌↔◌,
  ℕ,
  ◌+◌,
  ◌<◌,
  ◌≤◌,
  List,
  Option,
  Some,
  length,
  slice_get,
};
ghost use Rattle.node_form.specs.declared.instructions.Instr.{Instr};
ghost use Rattle.node_form.specs.declared.members.Member.{Member};
ghost use Rattle.node_form.specs.declared.tables.Tables.{Tables as Code};
ghost use Rattle.node_form.specs.Fits.{Fits};
ghost use Rattle.node_form.specs.Nest.{Nest};
ghost use Rattle.nest_meaning.specs.Tree.{nest_of};
ghost use Rattle.nest_meaning.specs.Units.{units_of};
ghost use Rattle.grid_meaning.specs.Grid.{IsIdle, IsStuck, after, next_turn};
ghost use Rattle.grid_meaning.specs.Local.{processors};
ghost use Rattle.row_runs.specs.Run.{Does, Goes};
ghost use Rattle.plan_meaning.specs.Abreast.{Abreast, start_abreast};
ghost use Rattle.plan_meaning.specs.Act.{row_does};
ghost use Rattle.plan_meaning.specs.Loops.{WantsTurn, shared};
ghost use Rattle.typed_tables.specs.Typed.{AreTyped};
ghost use Rattle.node_check.specs.Path.{Comes};
ghost use Rattle.node_check.specs.Sound.{IsLinksNeeded, IsSound};
ghost use Rattle.counted_code.specs.Alike.{AreAlike, AreTurns, most_counted};
ghost use Rattle.counted_code.specs.Counted.{counted};
ghost use Rattle.counted_code.specs.Within.{AreWithin};

/// Counted code fits and is sound where its code is, with the same paths, the same open exchanges
/// and the same number of messages that links have to hold.
pub fn counted_code_is_sound()
    ensures sound { (n : ℕ) (code : Code) → Fits code → IsSound code → IsSound (counted n code) }
    ensures links { (n links : ℕ) (code : Code) →
        IsLinksNeeded code links → IsLinksNeeded (counted n code) links }
    ensures paths { (n at : ℕ) (opened : List ℕ) (code : Code) →
        Comes code at opened ↔ Comes (counted n code) at opened }
    ensures fits { (n : ℕ) (code : Code) → Fits code → Fits (counted n code) }
    ensures typed { (n : ℕ) (code : Code) → AreTyped code → AreTyped (counted n code) }
{}

/// In lock step no loop of counted code wants a turn where more turns of each loop may be made than
/// are counted, and the cell is a number up to n: so it is at the start, and so it is behind each
/// row.
pub fn counted_loops_end()
    ensures start { (n : ℕ) (code : Code) → AreWithin n code (start_abreast (counted n code)) }
    ensures behind { (n m : ℕ) (code : Code) (links : Option ℕ) (row : Instr) (next : Option Instr)
        (all after : Abreast) (bytes : List ℕ) → n < m → Fits code → AreWithin n code all →
        row_does (counted n code) links m row next all ≡ Does (Goes bytes after) →
        AreWithin n code after }
    ensures ends { (n m group slot p : ℕ) (code : Code) (members : List Member) (nest : Nest)
        (all : Abreast) → n < m → Fits code → AreWithin n code all → p < processors code →
        slice_get (counted n code).groups group ≡ Some members → nest_of members ≡ Some nest →
        shared (counted n code) m (units_of nest) slot all p ≢ WantsTurn }
{}

/// Over links of any capacity, code and its counted code go alike in every order of turns in which
/// no more than n turns of loops can be counted: but for the counting cell and the numbers of
/// members their grids are the same (`grids`), and so is what each processor does next (`turns`).
/// So where the code is stuck (`stuck`) or idle (`idle`) after the order, its counted code is.
pub fn counted_code_goes_alike()
    ensures grids { (n : ℕ) (code : Code) (links : Option ℕ) (order : List ℕ) → Fits code →
        most_counted code (length order) ≤ n →
        AreAlike code n (most_counted code (length order)) (after code links order)
        (after (counted n code) links order) }
    ensures turns { (n : ℕ) (code : Code) (links : Option ℕ) (order : List ℕ) (p : ℕ) →
        Fits code → most_counted code (length order + 1) ≤ n →
        AreTurns code n (most_counted code (length order + 1))
        (next_turn code links (after code links order) p)
        (next_turn (counted n code) links (after (counted n code) links order) p) }
    ensures stuck { (n : ℕ) (code : Code) (links : Option ℕ) (order : List ℕ) → Fits code →
        most_counted code (length order + 1) ≤ n → IsStuck code links (after code links order) →
        IsStuck (counted n code) links (after (counted n code) links order) }
    ensures idle { (n : ℕ) (code : Code) (links : Option ℕ) (order : List ℕ) → Fits code →
        most_counted code (length order + 1) ≤ n → IsIdle code links (after code links order) →
        IsIdle (counted n code) links (after (counted n code) links order) }
{}
