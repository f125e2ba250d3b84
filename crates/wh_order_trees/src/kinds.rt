//! The types of filtered trees. `have_one_type` is the test that the check of the path order needs. Most trees have the
//! sort that all sorts have collapsed to, which is found without their types. Else both types are made.

ghost use Rattle.std.specs.Prelude.{ℕ, ◌≡◌, ◌↔◌, [], IfOk, IsTrue, OnOk, length};
ghost use Rattle.wh_types.specs.Erase.{ty};
ghost use Rattle.wh_types.specs.Ty.{◌⇒◌, sort};
ghost use Rattle.wh_terms.specs.Scope.{scope};
ghost use Rattle.wh_order_extended.specs.Kinds.{kind, type_at};
ghost use Rattle.wh_order_trees.specs.Trees.{spine_type, tree};
ghost use Rattle.wh_order_trees.specs.TreeParts.{Over, World};

use crate::tree::Tree;
use std::alloc::{AllocError, Global};
use wh_types::{SimpleType, same_type};

/// Whether two trees without loose variables have one type.
pub fn have_one_type(alloc: Global, left: &Tree, right: &Tree) -> Result<bool, AllocError>
    ensures { IfOk result (λ b. (n : ℕ) (w : World) → Over n w left.now → Over n w right.now
        → IsTrue b ↔ (kind w.symbols w.metas [] (tree n left.now) ≡ kind w.symbols w.metas [] (tree n right.now))) }
{
    // sorts have collapsed to one, so most trees are of that, and no type has to be made to tell it
    if are_of_the_sort(left, right) {
        return Ok(true);
    }
    let own = kind_of(alloc, left)?;
    let other = kind_of(alloc, right)?;
    Ok(same_type(&own, &other))
}

// Says true only of two trees of the sort that all sorts have collapsed to.
fn are_of_the_sort(left: &Tree, right: &Tree) -> bool
    ensures { IsTrue result → (n : ℕ) (w : World) → Over n w left.now → Over n w right.now
        → kind w.symbols w.metas [] (tree n left.now) ≡ kind w.symbols w.metas [] (tree n right.now) }
{
    is_of_the_sort(left) && is_of_the_sort(right)
}

// Says true only of a tree of that sort.
fn is_of_the_sort(t: &Tree) -> bool
    ensures { IsTrue result → (n : ℕ) (w : World) → Over n w t.now → sort 0 ≡ kind w.symbols w.metas [] (tree n t.now) }
{
    match t {
        Tree::Sym(_, _) => true,
        Tree::Mark(_, _) => true,
        Tree::Meta(_, kind, _) => is_the_sort(kind),
        _ => false,
    }
}

// Whether the type is that sort.
fn is_the_sort(kind: &SimpleType) -> bool
    ensures { IsTrue result → sort 0 ≡ ty kind.now }
{
    match kind {
        SimpleType::Sort(sort) => *sort == 0,
        SimpleType::Arrow(_, _) => false,
    }
}

// The type of a tree without loose variables.
fn kind_of(alloc: Global, t: &Tree) -> Result<SimpleType, AllocError>
    ensures { IfOk result (λ a. (n : ℕ) (w : World) → Over n w t.now → ty a ≡ kind w.symbols w.metas [] (tree n t.now)) }
{
    let mut binders = Vec::new(alloc);
    kind_under(alloc, &mut binders, t)
}

// The type of a tree below binders of the types `binders`, the outermost first.
fn kind_under<'a>(
    alloc: Global,
    binders: &mut Vec<&'a SimpleType>,
    t: &'a Tree,
) -> Result<SimpleType, AllocError>
    ensures typed { IfOk result (λ a. (n : ℕ) (w : World) → Over n w t.now
        → ty a ≡ kind w.symbols w.metas (scope binders.old.items) (tree n t.now)) }
    ensures kept { OnOk result (binders.new.items ≡ binders.old.items) }
{
    match t {
        Tree::Bound(number) => kind_of_binder(alloc, binders, *number),
        Tree::Free(_, kind) => kind.copy(alloc),
        Tree::Meta(_, kind, _) => kind.copy(alloc),
        Tree::Sym(_, _) => Ok(SimpleType::Sort(0)),
        Tree::Mark(_, _) => Ok(SimpleType::Sort(0)),
        Tree::Lam(kind, body) => {
            binders.push(kind)?;
            let rest = kind_under(alloc, binders, body)?;
            let _ = binders.pop();
            let kind = kind.copy(alloc)?;
            Ok(SimpleType::Arrow(Box::new(alloc, kind)?, Box::new(alloc, rest)?))
        }
        Tree::Apply(head, items) => {
            let whole = kind_under(alloc, binders, head)?;
            Ok(kind_behind(whole, items.as_slice().len()))
        }
    }
}

// The type of the binder that the number counts to, from the nearest outward, and a sort where there is none.
fn kind_of_binder(
    alloc: Global,
    binders: &[&SimpleType],
    number: u32,
) -> Result<SimpleType, AllocError>
    ensures { IfOk result (λ a. ty a ≡ type_at (scope binders.now) number) }
{
    let outward = number as usize;
    if outward < binders.len() {
        binders[binders.len() - 1 - outward].copy(alloc)
    } else {
        Ok(SimpleType::Sort(0))
    }
}

// The type that a function of the type `kind` has behind `count` arguments.
fn kind_behind(kind: SimpleType, count: usize) -> SimpleType
    ensures { ty result ≡ spine_type (ty kind) count }
{
    if count == 0 {
        return kind;
    }
    match kind {
        SimpleType::Arrow(_, rest) => kind_behind(Box::into_inner(rest), count - 1),
        SimpleType::Sort(sort) => SimpleType::Sort(sort),
    }
}
