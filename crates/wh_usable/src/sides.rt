//! The test that a side is first-order, as usable rules ask.

ghost use Rattle.std.specs.Prelude.{◌↔◌, IsTrue, map};
ghost use Rattle.wh_terms.specs.Erase.{declared_metas, symbols, tm};
ghost use Rattle.wh_usable_first_order.specs.FirstOrder.{AreFlatTrees, IsFlatTree};

use wh_terms::{MetaDecl, Signature, Term};
use wh_usable_first_order::{is_first_order, is_nullary};

/// Whether the tree is first-order.
pub fn is_flat(signature: &Signature, metas: &[MetaDecl], term: &Term) -> bool
    ensures { IsTrue result ↔ IsFlatTree (symbols signature.now) (declared_metas metas.now) (tm term.now) }
{
    match term {
        Term::Fun(symbol) => is_first_order(signature, *symbol),
        Term::Meta(meta, items) => items.as_slice().is_empty() && is_nullary(metas, *meta),
        Term::App(function, argument) => {
            is_flat(signature, metas, function) && is_flat(signature, metas, argument)
        }
        _ => false,
    }
}

/// Whether each tree of the list is first-order.
pub fn are_flat(signature: &Signature, metas: &[MetaDecl], items: &[Term]) -> bool
    ensures { IsTrue result ↔ AreFlatTrees (symbols signature.now) (declared_metas metas.now) (map tm items.now) }
{
    for item in items {
        if !is_flat(signature, metas, item) {
            return false;
        }
    }
    true
}
