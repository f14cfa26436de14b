//! The laws of spellings, and of how nodes are seen.
//!
//! Each law is the contract of a function that does nothing: a call brings the law into a proof.
ghost use Rattle.std.specs.Prelude.{◌≡◌, ℕ, List, Option};
ghost use Rattle.std.specs.Borrow.{Bor};
ghost use Rattle.zpl_tree.specs.declared.expressions.Expr.{Expr};
ghost use Rattle.zpl_tree.specs.declared.expressions.ExprForm.{ExprForm};
ghost use Rattle.zpl_tree.specs.declared.expressions.ExprForm.TheVariants.{Call, Remap};
ghost use Rattle.zpl_tree.specs.declared.names.Name.{Name};
ghost use Rattle.zpl_tree.specs.declared.regions.DimText.{DimText};
ghost use Rattle.zpl_tree.specs.declared.regions.Dir.TheVariants.{Vector};
ghost use Rattle.zpl_tree.specs.declared.regions.Inner.TheVariants.{Dims};
ghost use Rattle.zpl_tree.specs.declared.statements.Arm.{Arm};
ghost use Rattle.zpl_tree.specs.declared.statements.ForHead.{ForHead};
ghost use Rattle.zpl_tree.specs.declared.statements.Form.TheVariants.{Block, For, If, Repeat};
ghost use Rattle.zpl_tree.specs.declared.statements.Form.TheVariants.{While};
ghost use Rattle.zpl_tree.specs.declared.statements.Stmt.{Stmt};
ghost use Rattle.zpl_tree.specs.Grammar.{IsProgram, Spells};
ghost use Rattle.zpl_tree.specs.Spelling.{program_words};
ghost use Rattle.zpl_tree.specs.Syntax as plain;
ghost use Rattle.zpl_tree.specs.Syntax.{Program};
ghost use Rattle.zpl_tree.specs.View.{arms_of, dims_of, dir_of, else_of, expr_of, exprs_of};
ghost use Rattle.zpl_tree.specs.View.{form_of, head_of, inner_of, name_of, statement_of, stmts_of};
ghost use Rattle.zpl_tree.specs.Word.{Word};

/// The words that are printed are a spelling of each program of the grammar, and so of each that
/// has any.
pub fn printed_words_are_a_spelling()
    ensures program { (program : Program) → IsProgram program
        → Spells program (program_words program) }
    ensures any { (program : Program) (words : List Word) → Spells program words
        → Spells program (program_words program) }
{}

/// A node with a slice is seen as the plain node with the slice's list. Of the other nodes what
/// they are seen as computes.
pub fn nodes_are_seen_with_their_lists()
    ensures call { (at : ℕ) (name : Name) (actuals : Bor (List Expr))
        → form_of at (Call name actuals) ≡ plain.Call at (name_of name) (exprs_of actuals.now) }
    ensures remap { (at : ℕ) (name : Name) (indices : Bor (List Expr))
        → form_of at (Remap name indices) ≡ plain.Remap at (name_of name) (exprs_of indices.now) }
    ensures vector { (parts : Bor (List Expr))
        → dir_of (Vector parts) ≡ plain.Vector (exprs_of parts.now) }
    ensures dims { (dims : Bor (List DimText))
        → inner_of (Dims dims) ≡ plain.Dims (dims_of dims.now) }
    ensures block { (body : Bor (List Stmt))
        → statement_of (Block body) ≡ plain.Block (stmts_of body.now) }
    ensures while_loop { (test : Bor Expr) (body : Bor (List Stmt))
        → statement_of (While test body) ≡ plain.While (expr_of test.now) (stmts_of body.now) }
    ensures repeat_loop { (body : Bor (List Stmt)) (until : ℕ) (test : Bor Expr)
        → statement_of (Repeat body until test)
        ≡ plain.Repeat (stmts_of body.now) until (expr_of test.now) }
    ensures for_loop { (head : Bor ForHead) (body : Bor (List Stmt))
        → statement_of (For head body) ≡ plain.For (head_of head.now) (stmts_of body.now) }
    ensures choice { (arms : Bor (List Arm)) (otherwise : Option (Bor (List Stmt)))
        → statement_of (If arms otherwise) ≡ plain.If (arms_of arms.now) (else_of otherwise) }
    ensures offset { (at : ℕ) (form : ExprForm) → plain.at_of (form_of at form) ≡ at }
{}
