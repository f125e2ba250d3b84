//! Equality of filtered trees, and of lists of them.

ghost use Rattle.std.specs.Prelude.{ℕ, ◌≡◌, ◌↔◌, ◌<◌, ◌≤◌, ◌+◌, ◌-◌, IsTrue, length, take};
ghost use Rattle.wh_types.specs.Erase.{ty};
ghost use Rattle.wh_terms.specs.Tree.{bound, free, fun, head};
ghost use Rattle.wh_order_trees.specs.Trees.{tree, trees};
ghost use Rattle.wh_order_trees.specs.TreeParts.{AllOver, Over, World};

use crate::parts::{application_of, arguments_of, body_of, meta_of};
use crate::tree::Tree;
use wh_types::{SimpleType, same_type};

/// Whether the two trees stand for the same tree.
#[cycle(same)]
pub fn same_tree(a: &Tree, b: &Tree) -> bool
    ensures { (n : ℕ) (w : World) → Over n w a.now → Over n w b.now → IsTrue result ↔ (tree n a.now ≡ tree n b.now) }
{
    match a {
        Tree::Bound(number) => is_bound(b, *number),
        Tree::Free(number, kind) => is_free(b, *number, kind),
        Tree::Lam(kind, body) => match body_of(b) {
            Some((other, other_body)) => same_type(kind, other) && same_tree(body, other_body),
            None => false,
        },
        Tree::Meta(meta, _, items) => match meta_of(b) {
            Some((other, others)) => *meta == other && same_trees(items.as_slice(), others),
            None => false,
        },
        Tree::Sym(symbol, items) => {
            is_symbol(b, *symbol) && same_trees(items.as_slice(), arguments_of(b))
        }
        Tree::Mark(symbol, items) => {
            is_marked(b, *symbol) && same_trees(items.as_slice(), arguments_of(b))
        }
        Tree::Apply(head, items) => match application_of(b) {
            Some((other, others)) => same_tree(head, other) && same_trees(items.as_slice(), others),
            None => false,
        },
    }
}

// Whether the tree is the bound variable of that number.
fn is_bound(t: &Tree, number: u32) -> bool
    ensures { (n : ℕ) (w : World) → Over n w t.now → IsTrue result ↔ (bound number ≡ tree n t.now) }
{
    match t {
        Tree::Bound(own) => *own == number,
        _ => false,
    }
}

// Whether the tree is the free variable of that number and type.
fn is_free(t: &Tree, number: u32, kind: &SimpleType) -> bool
    ensures { (n : ℕ) (w : World) → Over n w t.now → IsTrue result ↔ (free number (ty kind.now) ≡ tree n t.now) }
{
    match t {
        Tree::Free(own, other) => *own == number && same_type(kind, other),
        _ => false,
    }
}

// Whether the symbol heads the tree.
fn is_symbol(t: &Tree, symbol: u32) -> bool
    ensures { (n : ℕ) (w : World) → symbol < n → Over n w t.now → IsTrue result ↔ (fun symbol ≡ head (tree n t.now)) }
{
    match t {
        Tree::Sym(own, _) => *own == symbol,
        Tree::Mark(_, _) => false,
        Tree::Apply(_, _) => false,
        Tree::Meta(_, _, _) => false,
        Tree::Lam(_, _) => false,
        Tree::Bound(_) => false,
        Tree::Free(_, _) => false,
    }
}

// Whether the marked symbol of the symbol heads the tree.
fn is_marked(t: &Tree, symbol: u32) -> bool
    ensures { (n : ℕ) (w : World) → Over n w t.now → IsTrue result ↔ (fun (n + symbol) ≡ head (tree n t.now)) }
{
    match t {
        Tree::Mark(own, _) => *own == symbol,
        Tree::Sym(_, _) => false,
        Tree::Apply(_, _) => false,
        Tree::Meta(_, _, _) => false,
        Tree::Lam(_, _) => false,
        Tree::Bound(_) => false,
        Tree::Free(_, _) => false,
    }
}

/// Whether the two lists stand for the same trees, one by one.
#[cycle(same)]
pub fn same_trees(items: &[Tree], others: &[Tree]) -> bool
    ensures { (n : ℕ) (w : World) → AllOver n w items.now → AllOver n w others.now
        → IsTrue result ↔ (trees n items.now ≡ trees n others.now) }
{
    if items.len() != others.len() {
        return false;
    }
    for (i, item) in items.iter().enumerate() {
        if !same_tree(item, &others[i]) {
            return false;
        }
    }
    true
}

/// Whether the trees before the place, which is counted from 1 and lies in both lists, stand for the same trees.
pub fn same_before(items: &[Tree], others: &[Tree], place: usize) -> bool
    requires counted { 0 < place }
    requires in_items { place ≤ length items.now }
    requires in_others { place ≤ length others.now }
    ensures { (n : ℕ) (w : World) → AllOver n w items.now → AllOver n w others.now
        → IsTrue result ↔ (trees n (take (place - 1) items.now) ≡ trees n (take (place - 1) others.now)) }
{
    same_trees(&items[..place - 1], &others[..place - 1])
}
