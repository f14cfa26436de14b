//! The laws.
ghost use Rattle.std.specs.Prelude.{◌≡◌, ℕ, true, false, List, Contains, Option};
ghost use Rattle.node_form.specs.declared.instructions.Instr.{Instr};
ghost use Rattle.node_form.specs.declared.tables.Tables.{Tables as Code};
ghost use Rattle.code_parts.specs.Exchanged.{is_exchange_row};
ghost use Rattle.code_parts.specs.Stretch.{ends_stretch};
ghost use Rattle.row_runs.specs.Run.{Does, Goes};
ghost use Rattle.plan_meaning.specs.Abreast.{Abreast};
ghost use Rattle.plan_meaning.specs.Act.{row_does};
ghost use Rattle.node_check.specs.declared.facts.Fact.{Fact};
ghost use Rattle.node_check.specs.declared.facts.Fact.TheVariants.{Uniform};
ghost use Rattle.node_check.specs.Learn.{learnt};
ghost use Rattle.node_check.specs.Told.{Says};
ghost use Rattle.checked_rows.specs.Faced.{AreTables};
ghost use Rattle.checked_rows.specs.Right.{Faces, KeepsFlights, RowFares, is_alone};

/// A row that each processor does by itself isn't wrong where its demand is met and no loop wants a
/// further turn, or all processors end at it; and what is on its way stays that of the exchanges
/// that are open, behind each row that starts and finishes none.
pub fn rows_fare_well()
    ensures fares { (code : Code) (links : Option ℕ) (n : ℕ) (row : Instr) →
        AreTables code → is_alone row ≡ true → RowFares code links n row }
    ensures flights { (code : Code) (links : Option ℕ) (n : ℕ) (row : Instr) →
        ends_stretch row ≡ false → is_exchange_row row ≡ false → KeepsFlights code links n row }
{}

/// Scalars of which facts tell that they are uniform have one value on all processors behind each
/// row that goes on.
pub fn uniform_scalars_stay()
    ensures { (code : Code) (links : Option ℕ) (n : ℕ) (row : Instr) (next : Option Instr)
        (opened bytes : List ℕ) (facts : List Fact) (all after : Abreast) (scalar : ℕ) →
        AreTables code → Faces code row opened facts all →
        row_does code links n row next all ≡ Does (Goes bytes after) →
        Contains (learnt code facts row) (Uniform scalar) → Says code after (Uniform scalar) }
{}
