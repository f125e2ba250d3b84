//! Filtering: terms become trees behind argument filters. `sift` is the main function.

ghost use Rattle.std.specs.Prelude.{◌≡◌, [], IfOk, map, reverse};
ghost use Rattle.wh_types.specs.Erase.{ty};
ghost use Rattle.wh_terms.specs.Erase.{declared_metas, tm};
ghost use Rattle.wh_order_extended.specs.Filtered.{collapse, collapsed};
ghost use Rattle.wh_order_extended.specs.Kinds.{out_at};
ghost use Rattle.wh_order_node.specs.FilteringView.{filtering_data};
ghost use Rattle.wh_order.specs.Sifted.{AreSifted, IsSifted};

use crate::kept::{applied, filtered_symbol};
use std::alloc::{AllocError, Global};
use wh_order_node::Filters;
use wh_order_trees::{Tree, Trees};
use wh_terms::{MetaDecl, Term, Terms};
use wh_types::SimpleType;

/// The term behind the filters (Kop 2012).
pub fn sift(
    alloc: Global,
    filters: &Filters,
    metas: &[MetaDecl],
    term: &Term,
) -> Result<Tree, AllocError>
    ensures { IfOk result (IsSifted (filtering_data filters.now) (declared_metas metas.now) (tm term.now) []) }
{
    sift_before(alloc, filters, metas, term, Vec::new(alloc))
}

/// The terms behind the filters, the first of them last: so they stand as arguments behind a symbol.
pub fn sift_list(
    alloc: Global,
    filters: &Filters,
    metas: &[MetaDecl],
    items: &[Term],
) -> Result<Vec<Tree>, AllocError>
    ensures { IfOk result (λ us. AreSifted (filtering_data filters.now) (declared_metas metas.now) (map tm items.now) (reverse us.items)) }
{
    let mut results = Vec::new(alloc);
    let mut left = items.len();
    while left > 0 {
        left -= 1;
        results.push(sift(alloc, filters, metas, &items[left])?)?;
    }
    Ok(results)
}

// The term behind the filters, applied to the filtered trees that stand behind it, the nearest of them last.
#[cycle(sifting)]
fn sift_before(
    alloc: Global,
    filters: &Filters,
    metas: &[MetaDecl],
    term: &Term,
    behind: Vec<Tree>,
) -> Result<Tree, AllocError>
    ensures { IfOk result (IsSifted (filtering_data filters.now) (declared_metas metas.now) (tm term.now) (reverse behind.items)) }
{
    match term {
        Term::Bound(number) => applied(alloc, Tree::Bound(*number), behind),
        Term::Free(number, kind) => {
            let kind = collapse(alloc, kind)?;
            applied(alloc, Tree::Free(*number, kind), behind)
        }
        Term::Fun(symbol) => filtered_symbol(alloc, filters, *symbol, behind),
        Term::Meta(meta, items) => {
            let kind = collapsed_kind(alloc, metas, *meta)?;
            let items = sift_each(alloc, filters, metas, items)?;
            applied(alloc, Tree::Meta(*meta, kind, items), behind)
        }
        Term::Lam(kind, body) => {
            let kind = collapse(alloc, kind)?;
            let body = sift_before(alloc, filters, metas, body, Vec::new(alloc))?;
            applied(alloc, Tree::Lam(kind, Box::new(alloc, body)?), behind)
        }
        Term::App(function, argument) => {
            let last = sift_before(alloc, filters, metas, argument, Vec::new(alloc))?;
            let mut behind = behind;
            behind.push(last)?;
            sift_before(alloc, filters, metas, function, behind)
        }
    }
}

// The arguments of a meta-variable behind the filters.
#[cycle(sifting)]
fn sift_each(
    alloc: Global,
    filters: &Filters,
    metas: &[MetaDecl],
    items: &Terms,
) -> Result<Trees, AllocError>
    ensures { IfOk result (AreSifted (filtering_data filters.now) (declared_metas metas.now) (map tm items.now)) }
{
    let mut results = Trees::new(alloc);
    for item in items.as_slice() {
        results.push(sift_before(alloc, filters, metas, item, Vec::new(alloc))?)?;
    }
    Ok(results)
}

// The type with each sort read as one and the same.
fn collapse(alloc: Global, kind: &SimpleType) -> Result<SimpleType, AllocError>
    ensures { IfOk result (λ a. ty a ≡ collapse (ty kind.now)) }
{
    match kind {
        SimpleType::Sort(_) => Ok(SimpleType::Sort(0)),
        SimpleType::Arrow(argument, rest) => {
            let argument = collapse(alloc, argument)?;
            let rest = collapse(alloc, rest)?;
            Ok(SimpleType::Arrow(Box::new(alloc, argument)?, Box::new(alloc, rest)?))
        }
    }
}

// The type of the applications of that meta-variable, with all sorts read as one; where there is no such meta-variable,
// a sort.
fn collapsed_kind(alloc: Global, metas: &[MetaDecl], meta: u32) -> Result<SimpleType, AllocError>
    ensures { IfOk result (λ a. ty a ≡ out_at (collapsed (declared_metas metas.now)) meta) }
{
    let number = meta as usize;
    if number < metas.len() {
        collapse(alloc, &metas[number].result)
    } else {
        Ok(SimpleType::Sort(0))
    }
}
