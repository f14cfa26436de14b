//! Words on lists that several crates speak of, and their laws.
//!
//! Each law is the contract of a function that does nothing: a call brings the law into a proof.
#![tactic(auto)]

ghost use Rattle.std.specs.Prelude.{List, [], ◌++◌};
ghost use Rattle.zpl_lists.specs.Front.{IsFrontOf};

/// A front of a front is a front, and so is a front behind the same list; a list has its empty
/// front, itself and what it is appended to.
pub fn fronts_join<T>()
    ensures empty { (a : List T) → IsFrontOf [] a }
    ensures whole { (a : List T) → IsFrontOf a a }
    ensures appended { (a b : List T) → IsFrontOf a (a ++ b) }
    ensures through { (a b c : List T) → IsFrontOf a b → IsFrontOf b c → IsFrontOf a c }
    ensures behind { (a b c : List T) → IsFrontOf b c → IsFrontOf (a ++ b) (a ++ c) }
{}
