//! The laws of arithmetic, of `join` and `unit`, and of folds over lists.
//!
//! Each law is the contract of a function that does nothing: a call brings the law into a proof.
ghost use Rattle.std.specs.Prelude.{◌≡◌, ◌^◌, ℤ, ◌+ℤ◌, ◌*ℤ◌, pos, List, [], ◌∷◌, ◌++◌, map};
ghost use Rattle.std.specs.Prelude.{flat_map};
ghost use Rattle.std.specs.Prelude.{IfSome, IsPermutation, All};
ghost use Rattle.zpl_nums.specs.declared.folds.Fold.{Fold as Operator};
ghost use Rattle.zpl_nums.specs.declared.operators.Op.{Op as Binary};
ghost use Rattle.zpl_nums.specs.declared.operators.UnaryOp.{UnaryOp as Unary};
ghost use Rattle.zpl_nums.specs.Fold.{joined, unit_of, IsValueOf, folded};
ghost use Rattle.zpl_nums.specs.Integer.{IsInteger, IsTruth, wrapped, negated, absolute, denied};
ghost use Rattle.zpl_nums.specs.Op.{applied, Tests};
ghost use Rattle.zpl_nums.specs.UnaryOp.{applied_unary};

/// Wrapping gives the one integer of 64 bits that differs by a multiple of 2^64.
pub fn wrapping_is_modular()
    ensures fits { (z : ℤ) → IsInteger (wrapped z) }
    ensures differs { (z : ℤ) → (k : ℤ) × (z ≡ wrapped z +ℤ (k *ℤ pos (2 ^ 64))) }
    ensures only { (z y k : ℤ) → IsInteger y → z ≡ y +ℤ (k *ℤ pos (2 ^ 64)) → y ≡ wrapped z }
{}

/// Operators on integers of 64 bits give integers of 64 bits, and comparisons, `And`, `Or` and
/// `Not` truth values.
pub fn operators_stay_in_range()
    ensures binary { (op : Binary) (a b : ℤ) →
        IsInteger a → IsInteger b → IfSome (applied op a b) IsInteger }
    ensures tests { (op : Binary) (a b : ℤ) → Tests op → IfSome (applied op a b) IsTruth }
    ensures unary { (op : Unary) (a : ℤ) → IsInteger a → IsInteger (applied_unary op a) }
    ensures negation { (a : ℤ) → IsInteger (negated a) }
    ensures absolute_value { (a : ℤ) → IsInteger a → IsInteger (absolute a) }
    ensures denial { (a : ℤ) → IsTruth (denied a) }
{}

/// Joining is associative.
pub fn join_is_associative()
    ensures { (o : Operator) (a b c : ℤ) →
        joined o (joined o a b) c ≡ joined o a (joined o b c) }
{}

/// Joining is commutative.
pub fn join_is_commutative()
    ensures { (o : Operator) (a b : ℤ) → joined o a b ≡ joined o b a }
{}

/// The unit is neutral on the values that the operator is for.
pub fn unit_is_neutral()
    ensures left { (o : Operator) (a : ℤ) → IsValueOf o a → joined o (unit_of o) a ≡ a }
    ensures right { (o : Operator) (a : ℤ) → IsValueOf o a → joined o a (unit_of o) ≡ a }
{}

/// What is joined or folded of the values that the operator is for is one of them, the unit
/// included.
pub fn folds_stay_values()
    ensures one { (o : Operator) → IsValueOf o (unit_of o) }
    ensures two { (o : Operator) (a b : ℤ) →
        IsValueOf o a → IsValueOf o b → IsValueOf o (joined o a b) }
    ensures list { (o : Operator) (xs : List ℤ) →
        All (IsValueOf o) xs → IsValueOf o (folded o xs) }
{}

/// A fold joins its first value with the fold of the others.
pub fn fold_of_first_and_rest()
    ensures many { (o : Operator) (x : ℤ) (xs : List ℤ) →
        folded o (x ∷ xs) ≡ joined o x (folded o xs) }
    ensures single { (o : Operator) (x : ℤ) → IsValueOf o x → folded o (x ∷ []) ≡ x }
{}

/// The fold over a concatenation is the join of the folds.
pub fn fold_of_concatenation()
    ensures { (o : Operator) (xs ys : List ℤ) →
        folded o (xs ++ ys) ≡ joined o (folded o xs) (folded o ys) }
{}

/// The fold over a list in parts is the fold over the folds of the parts.
pub fn fold_of_parts()
    ensures { (o : Operator) (parts : List (List ℤ)) →
        folded o (flat_map (λ part. part) parts) ≡ folded o (map (folded o) parts) }
{}

/// The fold over a list in another order is the same.
pub fn fold_of_permutation()
    ensures { (o : Operator) (xs ys : List ℤ) →
        IsPermutation xs ys → folded o ys ≡ folded o xs }
{}
