//! The laws.
ghost use Rattle.std.specs.Prelude.{
  ◌≡◌,
  ◌≢◌,
  ℕ,
  true,
  false,
  List,
  Option,
  Some,
  slice_get,
};
ghost use Rattle.node_form.specs.declared.instructions.Instr.{Instr};
ghost use Rattle.node_form.specs.declared.tables.Tables.{Tables as Code};
ghost use Rattle.node_form.specs.Fits.{FitsInstr};
ghost use Rattle.code_parts.specs.Stretch.{ends_stretch};
ghost use Rattle.row_runs.specs.Run.{Does, Goes};
ghost use Rattle.plan_meaning.specs.Abreast.{Abreast, start_abreast};
ghost use Rattle.plan_meaning.specs.Act.{row_does};
ghost use Rattle.node_check.specs.declared.faults.CheckFault.{CheckFault as Fault};
ghost use Rattle.node_check.specs.declared.faults.CheckFault.TheVariants.{NoMemory, TooLarge};
ghost use Rattle.node_check.specs.Along.{Learns};
ghost use Rattle.node_check.specs.Demand.{is_met};
ghost use Rattle.node_check.specs.Fact.{Fact};
ghost use Rattle.node_check.specs.Learn.{learnt, start_facts};
ghost use Rattle.node_check.specs.Told.{AreTold};
ghost use Rattle.node_check.specs.Sound.{HaveOneList, IsChecked, IsFaulty, IsLarge, IsMet};

/// What is said of code is said alone: of checked code no fault but want of memory, with one number
/// of messages that links have to hold; of large code no other fault; and of code in front of whose
/// instructions the same exchanges are open on all paths one fault alone.
pub fn answers_are_exact()
    ensures faults { (code : Code) (links : ℕ) (fault : Fault) →
        IsChecked code links → IsFaulty code fault → fault ≡ NoMemory }
    ensures links { (code : Code) (one other : ℕ) →
        IsChecked code one → IsChecked code other → one ≡ other }
    ensures large { (code : Code) (fault : Fault) → fault ≢ NoMemory → IsLarge code →
        IsFaulty code fault → fault ≡ TooLarge }
    ensures one { (code : Code) (one other : Fault) → HaveOneList code → one ≢ NoMemory →
        other ≢ NoMemory → IsFaulty code one → IsFaulty code other → one ≡ other }
{}

/// Where the demand of an instruction isn't met by what is learnt along some path to it, it isn't
/// met.
pub fn paths_tell_what_is_unmet()
    ensures { (code : Code) (at : ℕ) (opened : List ℕ) (known : List Fact) (row : Instr) →
        Learns code at opened known → slice_get code.code at ≡ Some row →
        is_met code known opened row ≡ false → ¬ IsMet code at }
{}

/// What facts say of slots, and of the places of arrays in them, holds along the run in lock step:
/// at the start, behind each row that goes on, and behind jumps and tests.
pub fn facts_of_slots_hold_along()
    ensures start { (code : Code) → AreTold code (start_abreast code) (start_facts code) }
    ensures behind { (code : Code) (links : Option ℕ) (n : ℕ) (row : Instr) (next : Option Instr)
        (all after : Abreast) (bytes : List ℕ) (facts : List Fact) →
        FitsInstr code row → ends_stretch row ≡ false → AreTold code all facts →
        row_does code links n row next all ≡ Does (Goes bytes after) →
        AreTold code after (learnt code facts row) }
    ensures unchanged { (code : Code) (row : Instr) (all : Abreast) (facts : List Fact) →
        ends_stretch row ≡ true → AreTold code all facts →
        AreTold code all (learnt code facts row) }
{}
