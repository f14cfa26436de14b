//! The laws of tables and their lines.
//!
//! A law is the contract of a function that does nothing: a call brings the law into a proof.
ghost use Rattle.std.specs.Prelude.{◌≡◌, List};
ghost use Rattle.node_form.specs.declared.tables.Tables.{Tables};
ghost use Rattle.node_form.specs.Fits.{Fits};
ghost use Rattle.listing_rows.specs.of_listing_lines.declared.lines.Line.{Line};
ghost use Rattle.listing_rows.specs.Listing.{lines_of};
ghost use Rattle.listing_rules.specs.Room.{HasRoom};
ghost use Rattle.listing_rules.specs.Stages.{AreTables, Breaks};

/// The tables that lines tell are written as these lines, they fit, and their held boxes have room.
pub fn told_tables_fit()
    ensures written { (lines : List Line) (tables : Tables) →
        AreTables lines tables → lines ≡ lines_of tables }
    ensures fits { (lines : List Line) (tables : Tables) → AreTables lines tables → Fits tables }
    ensures room { (lines : List Line) (tables : Tables) → AreTables lines tables → HasRoom tables }
{}

/// Lines tell at most one program's tables; if they tell some, none of them breaks a rule.
pub fn lines_have_one_reading()
    ensures tables { (lines : List Line) (one other : Tables) →
        AreTables lines one → AreTables lines other → one ≡ other }
    ensures apart { (lines left : List Line) (tables : Tables) →
        AreTables lines tables → Breaks lines left → ⊥ }
{}
