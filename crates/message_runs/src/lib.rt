//! Rows in which processors work together, and prints, do what they do on whole arrays.
//!
//! The functions here do nothing: each has a law of the definitions of `needs_runs` as its
//! contract, and a call brings the law into a proof.
#![tactic(auto)]

ghost use Rattle.std.specs.Prelude.{Bool, List, Option, ℕ, ℤ};
ghost use Rattle.zpl_nums.specs.declared.ends.Border.{Border as Kind};
ghost use Rattle.zpl_nums.specs.declared.folds.Fold.{Fold as Operator};
ghost use Rattle.node_form.specs.declared.instructions.Instr.TheVariants as instr;
ghost use Rattle.node_form.specs.declared.tables.Tables.{Tables as Code};
ghost use Rattle.needs_runs.specs.Agree.{FitRowAgrees, HasLayout};

/// Prints of texts, of numbers and of truth values agree.
pub fn prints_agree()
    ensures texts { (code : Code) (links : Option ℕ) (n text : ℕ) →
        FitRowAgrees code links n (instr.Print text) }
    ensures numbers { (code : Code) (links : Option ℕ) (n expr : ℕ) →
        FitRowAgrees code links n (instr.Number expr) }
    ensures truths { (code : Code) (links : Option ℕ) (n expr : ℕ) →
        FitRowAgrees code links n (instr.Truth expr) }
{}

/// A fold agrees: all processors come to the value that the whole state has.
pub fn folds_agree()
    ensures { (code : Code) (links : Option ℕ) (n scalar : ℕ) (operator : Operator) →
        FitRowAgrees code links n (instr.Fold scalar operator) }
{}

/// A gather agrees: processor 0 prints each value of the whole array from its owner's words.
pub fn gathers_agree()
    ensures { (code : Code) → HasLayout code → (links : Option ℕ) (n : ℕ) (truth : Bool)
        (array slot : ℕ) → FitRowAgrees code links n (instr.Gather truth array slot) }
{}

/// A flood agrees: each processor sets its tuples of the target from the owners of their sources.
pub fn floods_agree()
    ensures { (code : Code) → HasLayout code → (links : Option ℕ) (n : ℕ)
        (array target from source : ℕ) →
        FitRowAgrees code links n (instr.Flood array target from source) }
{}

/// `wrap` and `reflect` agree: each processor sets its tuples beside the region from the owners of
/// their sources.
pub fn edges_agree()
    ensures { (code : Code) → HasLayout code → (links : Option ℕ) (n : ℕ) (kind : Kind)
        (array slot : ℕ) (shift : List ℤ) →
        FitRowAgrees code links n (instr.Edge kind array slot shift) }
{}

/// A partial fold agrees: what all processors have folded comes to the fold of the whole array.
pub fn parts_agree()
    ensures { (code : Code) → HasLayout code → (links : Option ℕ) (n : ℕ) (array target : ℕ)
        (operator : Operator) (from source : ℕ) →
        FitRowAgrees code links n (instr.Part array target operator from source) }
{}

/// A scan agrees: each processor makes it on its part from its own values and all line totals.
pub fn scans_agree()
    ensures { (code : Code) → HasLayout code → (links : Option ℕ) (n : ℕ) (array slot : ℕ)
        (operator : Operator) (along from : ℕ) (mask : Option ℕ) →
        FitRowAgrees code links n (instr.Scan array slot operator along from mask) }
{}

/// A remap read agrees: each processor has a tuple's value itself, or its owner answers it.
pub fn remaps_agree()
    ensures { (code : Code) → HasLayout code → (links : Option ℕ) (n array slot from : ℕ)
        (index : List (Option ℕ)) →
        FitRowAgrees code links n (instr.Remap array slot from index) }
{}
