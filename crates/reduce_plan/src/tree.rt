//! The tree over the processors.
ghost use Rattle.std.specs.Prelude.{◌≡◌, ◌↔◌, ◌+◌, ◌*◌, ◌<◌, ℕ, Contains};
ghost use Rattle.reduce_plan.specs.Tree.{IsInTree, children_of, parent_of, processor_below};

/// The processor above `p` in the tree, to which it sends. None is above 0.
pub fn parent(p: u32) -> Option<u32>
    ensures { result ≡ parent_of p }
{
    if p == 0 { None } else { Some((p - 1) / 2) }
}

/// The processors below `p` in the tree, of so many.
pub fn children(p: u32, count: u32) -> [Option<u32>; 2]
    ensures { result ≡ children_of p count }
{
    [below(count, 1, p), below(count, 2, p)]
}

/// The child of `p` with this number, which is 1 or 2, where there are that many processors.
fn below(count: u32, number: u32, p: u32) -> Option<u32>
    requires { number < 3 }
    ensures { result ≡ processor_below count (2 * p + number) }
{
    let child = 2 * u64::from(p) + u64::from(number);
    if child < u64::from(count) {
        Some(child as u32)
    } else {
        None
    }
}

/// The processors from 0 on make a tree: each but 0 is a child of its parent and of no other
/// processor, the parent has a smaller number, and all are reached from 0.
pub fn processors_are_a_tree()
    ensures one_parent { (count p c : ℕ) → Contains (children_of p count) (Some c)
        ↔ ((c < count) × (parent_of c ≡ Some p)) }
    ensures upwards { (p q : ℕ) → parent_of p ≡ Some q → q < p }
    ensures root { (p : ℕ) → (parent_of p ≡ None) ↔ (p ≡ 0) }
    ensures whole { (count p : ℕ) → p < count → IsInTree count p }
{}
