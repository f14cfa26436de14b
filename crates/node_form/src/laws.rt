//! The laws of expressions, of groups and of tables that fit.
//!
//! Each law is the contract of a function that does nothing: a call brings the law into a proof.
ghost use Rattle.std.specs.Prelude.{◌≡◌, ℕ, ◌+◌, ◌≤◌, ◌↔◌, ℤ, List, [], ◌∷◌, ◌++◌, length};
ghost use Rattle.std.specs.Prelude.{slice_get, All};
ghost use Rattle.zpl_arrays.specs.of_zpl_nums.Integer.{IsInteger};
ghost use Rattle.node_form.specs.declared.arrays.ArrayRow.{ArrayRow};
ghost use Rattle.node_form.specs.declared.arrays.Item.{Item};
ghost use Rattle.node_form.specs.declared.instructions.Instr.{Instr};
ghost use Rattle.node_form.specs.declared.members.Member.{Member};
ghost use Rattle.node_form.specs.declared.tables.Tables.{Tables};
ghost use Rattle.node_form.specs.declared.words.ExprOp.{ExprOp};
ghost use Rattle.node_form.specs.Expression.{Expression, words_of, IsExpression, depth_from};
ghost use Rattle.node_form.specs.Fits.{
  Fits,
  FitsArray,
  FitsExchange,
  FitsExpr,
  FitsGroup,
  FitsInstr,
  FitsWord,
  Grows,
  IsRank,
  IsScalarWord,
};
ghost use Rattle.node_form.specs.Nest.{IsNest, opened};
ghost use Rattle.node_form.specs.Value.{
  Operands,
  Gives,
  Divides,
  Lacks,
  and_then,
  pushed,
  evaluated,
  value_of,
  tree_value,
  scalar_operands,
  DividesByZero,
  HasInteger,
  HasIntegers,
  HasOperands,
  ReadsUnheld,
};

use zpl_arrays::zpl_nums::operators_stay_in_range;

/// Words are those of an expression exactly where each operator finds its operands on the stack,
/// which is empty before, and one value is left on it.
pub fn expressions_leave_one_value()
    ensures { (words : List ExprOp) → IsExpression words ↔ (depth_from 0 words ≡ Some 1) }
{}

/// Words evaluate one after another, and make the stack longer by at most one value each.
pub fn words_evaluate_in_turn()
    ensures joined { (operands : Operands) (front rest : List ExprOp) (stack : List ℤ) →
        evaluated operands (front ++ rest) stack
        ≡ and_then (evaluated operands rest) (evaluated operands front stack) }
    ensures short { (operands : Operands) (words : List ExprOp) (stack after : List ℤ) →
        evaluated operands words stack ≡ Gives after → length after ≤ length stack + length words }
{}

/// The words of an expression push its value on any stack, and their value is that of the
/// expression.
pub fn words_push_their_value()
    ensures pushes { (operands : Operands) (tree : Expression) (stack : List ℤ) →
        evaluated operands (words_of tree) stack ≡ pushed stack (tree_value operands tree) }
    ensures value { (operands : Operands) (tree : Expression) →
        value_of operands (words_of tree) ≡ tree_value operands tree }
{}

/// An expression that fits has a value, or divides by 0, or reads a place that isn't held,
/// whichever its words come to first: each of the two is the outcome exactly where it happens.
pub fn expressions_have_three_outcomes()
    ensures divides { (tables : Tables) (rank : ℕ) (operands : Operands) (words : List ExprOp) →
        IsExpression words → All (FitsWord tables rank) words → HasOperands tables rank operands →
        (value_of operands words ≡ Divides) ↔ DividesByZero operands words [] }
    ensures lacks { (tables : Tables) (rank : ℕ) (operands : Operands) (words : List ExprOp) →
        IsExpression words → All (FitsWord tables rank) words → HasOperands tables rank operands →
        (value_of operands words ≡ Lacks) ↔ ReadsUnheld operands words [] }
{}

/// An expression that fits and needs no index has a value or divides by 0, wherever there are the
/// scalars.
pub fn scalar_expressions_lack_nothing()
    ensures { (tables : Tables) (scalars : List ℤ) (words : List ExprOp) →
        FitsExpr tables words → All IsScalarWord words → tables.scalars ≤ length scalars →
        value_of (scalar_operands scalars) words ≡ Lacks → ⊥ }
{}

/// The value of an expression is an integer of 64 bits where what it reads and its constants are.
pub fn values_stay_in_range()
    ensures { (operands : Operands) (words : List ExprOp) (value : ℤ) →
        HasIntegers operands → All HasInteger words → value_of operands words ≡ Gives value →
        IsInteger value }
{
    operators_stay_in_range();
}

/// Members open and close as they must exactly where each that closes finds its opening innermost,
/// and nothing is open behind the last one.
pub fn members_nest()
    ensures { (members : List Member) → IsNest members ↔ (opened [] members ≡ Some []) }
{}

/// A row of tables that fit fits them.
pub fn rows_fit()
    ensures slot { (tables : Tables) (i rank : ℕ) →
        Fits tables → slice_get tables.slots i ≡ Some rank → IsRank rank }
    ensures array { (tables : Tables) (i : ℕ) (row : ArrayRow) →
        Fits tables → slice_get tables.arrays i ≡ Some row → FitsArray row }
    ensures expr { (tables : Tables) (i : ℕ) (words : List ExprOp) →
        Fits tables → slice_get tables.exprs i ≡ Some words → FitsExpr tables words }
    ensures group { (tables : Tables) (i : ℕ) (members : List Member) →
        Fits tables → slice_get tables.groups i ≡ Some members → FitsGroup tables members }
    ensures exchange { (tables : Tables) (i : ℕ) (items : List Item) →
        Fits tables → slice_get tables.exchanges i ≡ Some items → FitsExchange tables items }
    ensures instr { (tables : Tables) (i : ℕ) (instr : Instr) →
        Fits tables → slice_get tables.code i ≡ Some instr → FitsInstr tables instr }
{}

/// What fits tables fits them where they grow.
pub fn growth_keeps_numbers()
    ensures word { (old new : Tables) → Grows old new →
        (rank : ℕ) (word : ExprOp) → FitsWord old rank word → FitsWord new rank word }
    ensures expr { (old new : Tables) → Grows old new →
        (words : List ExprOp) → FitsExpr old words → FitsExpr new words }
    ensures group { (old new : Tables) → Grows old new →
        (members : List Member) → FitsGroup old members → FitsGroup new members }
    ensures exchange { (old new : Tables) → Grows old new →
        (items : List Item) → FitsExchange old items → FitsExchange new items }
    ensures instr { (old new : Tables) → Grows old new →
        (instr : Instr) → FitsInstr old instr → FitsInstr new instr }
{}

/// Tables that fit do so with one more row that fits, and with more scalars or cells.
pub fn growth_keeps_fit()
    ensures slot { (tables : Tables) (rank : ℕ) →
        Fits tables → IsRank rank → Fits (record tables { slots = tables.slots ++ rank ∷ [] }) }
    ensures array { (tables : Tables) (row : ArrayRow) →
        Fits tables → FitsArray row → Fits (record tables { arrays = tables.arrays ++ row ∷ [] }) }
    ensures text { (tables : Tables) (text : List ℕ) →
        Fits tables → Fits (record tables { texts = tables.texts ++ text ∷ [] }) }
    ensures expr { (tables : Tables) (words : List ExprOp) →
        Fits tables → FitsExpr tables words →
        Fits (record tables { exprs = tables.exprs ++ words ∷ [] }) }
    ensures group { (tables : Tables) (members : List Member) →
        Fits tables → FitsGroup tables members →
        Fits (record tables { groups = tables.groups ++ members ∷ [] }) }
    ensures exchange { (tables : Tables) (items : List Item) →
        Fits tables → FitsExchange tables items →
        Fits (record tables { exchanges = tables.exchanges ++ items ∷ [] }) }
    ensures instr { (tables : Tables) (instr : Instr) →
        let longer = record tables { code = tables.code ++ instr ∷ [] } in
        Fits tables → FitsInstr longer instr → Fits longer }
    ensures scalars { (tables : Tables) (scalars : ℕ) →
        Fits tables → tables.scalars ≤ scalars → Fits (record tables { scalars = scalars }) }
    ensures cells { (tables : Tables) (cells : ℕ) →
        Fits tables → tables.cells ≤ cells → Fits (record tables { cells = cells }) }
{}
