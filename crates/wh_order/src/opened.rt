//! Opening the body of an abstraction with a free variable, where abstractions are compared.

ghost use Rattle.std.specs.Prelude.{ℕ, ◌≡◌, IfOk, map};
ghost use Rattle.wh_types.specs.Erase.{ty};
ghost use Rattle.wh_terms.specs.Substitution.{act, cons, opened};
ghost use Rattle.wh_terms.specs.Tree.{bound, free};
ghost use Rattle.wh_terms.specs.Under.{ups, ups_free};
ghost use Rattle.wh_order_trees.specs.Trees.{IsHeadTree, tree, trees};
ghost use Rattle.wh_order_trees.specs.TreeParts.{AllOver, Over, World};

use std::alloc::{AllocError, Global};
use wh_order_trees::{Tree, Trees};
use wh_types::{SimpleType, sum};

/// The body of an abstraction with a free variable for the abstraction's variable. It is a copy.
pub fn open_tree(
    alloc: Global,
    body: &Tree,
    number: u32,
    kind: &SimpleType,
) -> Result<Tree, AllocError>
    ensures same { IfOk result (λ r. (n : ℕ) → tree n r ≡ opened (free number (ty kind.now)) (tree n body.now)) }
    ensures over { IfOk result (λ r. (n : ℕ) (w : World) → Over n w body.now → Over n w r) }
{
    open_under(alloc, body, number, kind, 0)
}

// Opens a tree that stands below `depth` further binders.
#[cycle(opening)]
fn open_under(
    alloc: Global,
    t: &Tree,
    number: u32,
    kind: &SimpleType,
    depth: u32,
) -> Result<Tree, AllocError>
    ensures same { IfOk result (λ r. (n : ℕ) → tree n r ≡ act (ups depth (cons (free number (ty kind.now)) bound)) (ups_free depth free)
        (tree n t.now)) }
    ensures over { IfOk result (λ r. (n : ℕ) (w : World) → Over n w t.now → Over n w r) }
    ensures head { IfOk result (λ r. IsHeadTree t.now → IsHeadTree r) }
{
    match t {
        Tree::Bound(inner) => open_variable(alloc, *inner, number, kind, depth),
        Tree::Free(x, own) => Ok(Tree::Free(*x, own.copy(alloc)?)),
        Tree::Meta(meta, own, items) => {
            let own = own.copy(alloc)?;
            Ok(Tree::Meta(*meta, own, open_each(alloc, items, number, kind, depth)?))
        }
        Tree::Sym(symbol, items) => {
            Ok(Tree::Sym(*symbol, open_each(alloc, items, number, kind, depth)?))
        }
        Tree::Mark(symbol, items) => {
            Ok(Tree::Mark(*symbol, open_each(alloc, items, number, kind, depth)?))
        }
        Tree::Lam(own, body) => {
            let own = own.copy(alloc)?;
            let body = open_under(alloc, body, number, kind, sum(depth, 1)?)?;
            Ok(Tree::Lam(own, Box::new(alloc, body)?))
        }
        Tree::Apply(head, items) => {
            let head = open_under(alloc, head, number, kind, depth)?;
            let items = open_each(alloc, items, number, kind, depth)?;
            Ok(Tree::Apply(Box::new(alloc, head)?, items))
        }
    }
}

// Opens each tree of a list.
#[cycle(opening)]
fn open_each(
    alloc: Global,
    items: &Trees,
    number: u32,
    kind: &SimpleType,
    depth: u32,
) -> Result<Trees, AllocError>
    ensures same { IfOk result (λ r. (n : ℕ) → trees n r
        ≡ map (act (ups depth (cons (free number (ty kind.now)) bound)) (ups_free depth free)) (trees n items.now)) }
    ensures over { IfOk result (λ r. (n : ℕ) (w : World) → AllOver n w items.now → AllOver n w r) }
{
    let mut results = Trees::new(alloc);
    for item in items.as_slice() {
        results.push(open_under(alloc, item, number, kind, depth)?)?;
    }
    Ok(results)
}

// The free variable for the variable of the binder that is opened; loose variables beyond it come one nearer.
fn open_variable(
    alloc: Global,
    inner: u32,
    number: u32,
    kind: &SimpleType,
    depth: u32,
) -> Result<Tree, AllocError>
    ensures same { IfOk result (λ r. (n : ℕ) → tree n r ≡ ups depth (cons (free number (ty kind.now)) bound) inner) }
    ensures over { IfOk result (λ r. (n : ℕ) (w : World) → Over n w r) }
    ensures head { IfOk result (λ r. IsHeadTree r) }
{
    if inner < depth {
        Ok(Tree::Bound(inner))
    } else if inner == depth {
        Ok(Tree::Free(number, kind.copy(alloc)?))
    } else {
        Ok(Tree::Bound(inner - 1))
    }
}
