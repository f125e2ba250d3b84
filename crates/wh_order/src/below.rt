//! The test for a meta-variable below abstractions over all its arguments, which the letter `z` asks.

ghost use Rattle.std.specs.Prelude.{ℕ, ◌≡◌, ◌+◌};
ghost use Rattle.wh_terms.specs.Tree.{bound, tms_of};
ghost use Rattle.wh_order_path.specs.Heads.{nearest};
ghost use Rattle.wh_order_path.specs.SameTrees.{all_same, same};
ghost use Rattle.wh_order_path.specs.Verdict.{is_abstracted};
ghost use Rattle.wh_order_trees.specs.TreeParts.{AllOver, Over, World};
ghost use Rattle.wh_order_trees.specs.Trees.{tree, trees};

use wh_order_trees::Tree;

/// Whether the tree is the meta-variable below `left` abstractions, and has `count` arguments, which are the variables
/// of the `count` nearest binders.
pub fn is_meta_below(t: &Tree, meta: u32, count: usize, left: usize) -> bool
    ensures { (n k : ℕ) (w : World) → k + left ≡ count → Over n w t.now → result ≡ is_abstracted meta count k (tree n t.now) }
{
    match t {
        Tree::Lam(_, body) => left > 0 && is_meta_below(body, meta, count, left - 1),
        Tree::Meta(number, _, items) => {
            if *number != meta {
                return false;
            }
            if left != 0 {
                return false;
            }
            are_nearest(items.as_slice(), count)
        }
        Tree::Sym(_, _) => false,
        Tree::Mark(_, _) => false,
        Tree::Apply(_, _) => false,
        Tree::Bound(_) | Tree::Free(_, _) => false,
    }
}

// Whether these are the variables of the `count` nearest binders, the outermost first.
fn are_nearest(items: &[Tree], count: usize) -> bool
    ensures { (n : ℕ) (w : World) → AllOver n w items.now → result ≡ all_same (tms_of (trees n items.now)) (nearest count) }
{
    let mut left = count;
    for item in items {
        if left == 0 {
            return false;
        }
        if !is_variable(item, left - 1) {
            return false;
        }
        left -= 1;
    }
    left == 0
}

// Whether the tree is the variable of that number.
fn is_variable(t: &Tree, number: usize) -> bool
    ensures { (n : ℕ) (w : World) → Over n w t.now → result ≡ same (tree n t.now) (bound number) }
{
    match t {
        Tree::Bound(own) => *own as usize == number,
        _ => false,
    }
}
