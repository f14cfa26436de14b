//! The laws of rows: where all processors stand before one, some order leads them through it, over
//! links of every capacity (`None`: of any number of messages). Each is the contract of a function
//! that does nothing. The statements stand in `specs/`.
ghost use Rattle.std.specs.Prelude.{Option, ℕ};
ghost use Rattle.grid_meaning.specs.Grid.{IsCapacity};
ghost use Rattle.grid_meaning.specs.of_node_form.declared.tables.Tables.{Tables as Code};
ghost use Rattle.row_orders.specs.Agreement.{Agree, AgreeAsStar, AgreeAsTree, AreTrees, Halt};
ghost use Rattle.row_orders.specs.Halves.{Remap};
ghost use Rattle.row_orders.specs.Rows.{AreBlind, Deliver, Exchange, GoAlone, Meet};

/// Every row in which processors work together, but `remap`, looks at the turns made in its stages
/// alone.
pub fn rows_are_blind()
    ensures { (code : Code) → AreBlind code }
{}

/// Where each processor goes along by itself, some order leads all of them, whatever is on the
/// links.
pub fn rows_go_alone()
    ensures { (code : Code) (links : Option ℕ) → GoAlone code links }
{}

/// A row in which each acts alone, sends, takes and goes on, whatever else is on the links, as long
/// as these balance.
pub fn rows_meet()
    ensures { (code : Code) (links : Option ℕ) → Meet code links }
{}

/// A row whose words are taken in the row itself, from empty links to empty links.
pub fn rows_deliver()
    ensures { (code : Code) (links : Option ℕ) → IsCapacity links → Deliver code links }
{}

/// A row that starts an exchange, and one that finishes the oldest exchange that is open: no link
/// has to hold more messages than exchanges are open.
pub fn rows_exchange()
    ensures { (code : Code) (links : Option ℕ) → Exchange code links }
{}

/// A row in which all come to one value, over any tree.
pub fn rows_agree()
    ensures { (code : Code) (links : Option ℕ) → IsCapacity links → Agree code links }
{}

/// Over a star all come to the values of all processors, joined in ascending order.
pub fn rows_agree_as_stars()
    ensures { (code : Code) (links : Option ℕ) → IsCapacity links → AgreeAsStar code links }
{}

/// Over the tree of halves they come to that too, for values that may be joined in any order.
pub fn rows_agree_as_trees()
    ensures { (code : Code) (links : Option ℕ) → IsCapacity links → AgreeAsTree code links }
{}

/// The star and the tree of halves, over which votes and folds go, are trees.
pub fn kin_are_trees()
    ensures { (code : Code) (links : Option ℕ) → AreTrees code links }
{}

/// Where some stay away from a row in which all come to one value, and go on by themselves, all
/// others come to wait.
pub fn rows_halt()
    ensures { (code : Code) (links : Option ℕ) → IsCapacity links → Halt code links }
{}

/// A remap read: requests to and from the others, and then answers.
pub fn rows_remap()
    ensures { (code : Code) (links : Option ℕ) → IsCapacity links → Remap code links }
{}
