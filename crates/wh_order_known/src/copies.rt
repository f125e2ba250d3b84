//! Copies of filtered trees, and whether two trees are alike: nothing tells them apart.

ghost use Rattle.std.specs.Prelude.{◌≡◌, IfOk, IsTrue};
ghost use Rattle.wh_types.specs.Erase.{ty};
ghost use Rattle.wh_order_known.specs.Plain.{a_bound, a_free, plain, plains};

use std::alloc::{AllocError, Global};
use wh_order_trees::{Tree, Trees};
use wh_types::{SimpleType, same_type};

/// A copy of the tree.
#[cycle(copying)]
pub fn copy_tree(alloc: Global, t: &Tree) -> Result<Tree, AllocError>
    ensures { IfOk result (λ r. plain r ≡ plain t.now) }
{
    match t {
        Tree::Bound(number) => Ok(Tree::Bound(*number)),
        Tree::Free(number, kind) => Ok(Tree::Free(*number, kind.copy(alloc)?)),
        Tree::Meta(meta, kind, items) => {
            let kind = kind.copy(alloc)?;
            Ok(Tree::Meta(*meta, kind, copy_each(alloc, items)?))
        }
        Tree::Sym(symbol, items) => Ok(Tree::Sym(*symbol, copy_each(alloc, items)?)),
        Tree::Mark(symbol, items) => Ok(Tree::Mark(*symbol, copy_each(alloc, items)?)),
        Tree::Lam(kind, body) => {
            let kind = kind.copy(alloc)?;
            let body = copy_tree(alloc, body)?;
            Ok(Tree::Lam(kind, Box::new(alloc, body)?))
        }
        Tree::Apply(head, items) => {
            let head = copy_tree(alloc, head)?;
            let items = copy_each(alloc, items)?;
            Ok(Tree::Apply(Box::new(alloc, head)?, items))
        }
    }
}

// A copy of each tree of a list.
#[cycle(copying)]
fn copy_each(alloc: Global, items: &Trees) -> Result<Trees, AllocError>
    ensures { IfOk result (λ r. plains r ≡ plains items.now) }
{
    let mut results = Trees::new(alloc);
    for item in items.as_slice() {
        results.push(copy_tree(alloc, item)?)?;
    }
    Ok(results)
}

/// Whether nothing tells the two trees apart.
#[cycle(comparing)]
pub fn are_alike(a: &Tree, b: &Tree) -> bool
    ensures { IsTrue result → plain a.now ≡ plain b.now }
{
    match a {
        Tree::Bound(number) => is_bound(b, *number),
        Tree::Free(number, kind) => is_free(b, *number, kind),
        Tree::Meta(meta, kind, items) => match b {
            Tree::Meta(other, other_kind, others) => {
                *meta == *other
                    && same_type(kind, other_kind)
                    && are_all_alike(items.as_slice(), others.as_slice())
            }
            _ => false,
        },
        Tree::Sym(symbol, items) => match b {
            Tree::Sym(other, others) => {
                *symbol == *other && are_all_alike(items.as_slice(), others.as_slice())
            }
            _ => false,
        },
        Tree::Mark(symbol, items) => match b {
            Tree::Mark(other, others) => {
                *symbol == *other && are_all_alike(items.as_slice(), others.as_slice())
            }
            _ => false,
        },
        Tree::Lam(kind, body) => match b {
            Tree::Lam(other_kind, other) => same_type(kind, other_kind) && are_alike(body, other),
            _ => false,
        },
        Tree::Apply(head, items) => match b {
            Tree::Apply(other, others) => {
                are_alike(head, other) && are_all_alike(items.as_slice(), others.as_slice())
            }
            _ => false,
        },
    }
}

// Whether nothing tells the trees of two lists apart, one by one.
#[cycle(comparing)]
fn are_all_alike(items: &[Tree], others: &[Tree]) -> bool
    ensures { IsTrue result → plains items.now ≡ plains others.now }
{
    if items.len() != others.len() {
        return false;
    }
    for (i, item) in items.iter().enumerate() {
        if !are_alike(item, &others[i]) {
            return false;
        }
    }
    true
}

// Whether the tree is the bound variable of that number.
fn is_bound(t: &Tree, number: u32) -> bool
    ensures { IsTrue result → a_bound number ≡ plain t.now }
{
    match t {
        Tree::Bound(own) => *own == number,
        _ => false,
    }
}

// Whether the tree is the free variable of that number and type.
fn is_free(t: &Tree, number: u32, kind: &SimpleType) -> bool
    ensures { IsTrue result → a_free number (ty kind.now) ≡ plain t.now }
{
    match t {
        Tree::Free(own, other) => *own == number && same_type(kind, other),
        _ => false,
    }
}
