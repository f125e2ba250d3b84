//! Subsumption: when one candidate makes another one of its rule needless.

ghost use Rattle.std.specs.Prelude.{◌≡◌, ◌↔◌, ℕ, IsTrue, map, slice_get, option_map};
ghost use Rattle.wh_types.specs.Erase.{ty, tys};
ghost use Rattle.wh_terms.specs.Tree.{tms_of};
ghost use Rattle.wh_terms.specs.Erase.{tm, tms, declared_meta, declared_metas};
ghost use Rattle.wh_terms.specs.Sight.{Occurs, OccursIn};
ghost use Rattle.wh_pairs.specs.PairData.{pair_data};
ghost use Rattle.wh_pairs.specs.Subsumption.{IsSubsumed};

use crate::conditions::are_among;
use wh_pairs::Pair;
use wh_terms::{MetaDecl, Metas, Term, Terms, same};
use wh_types::{SimpleType, same_type};

// Whether two lists of terms are equal, term by term.
fn same_terms(a: &Terms, b: &Terms) -> bool
    ensures { IsTrue result ↔ (map tm a.now ≡ map tm b.now) }
{
    let (items, others) = (a.as_slice(), b.as_slice());
    if items.len() != others.len() {
        return false;
    }
    for (i, item) in items.iter().enumerate() {
        if !same(item, &others[i]) {
            return false;
        }
    }
    true
}

// Whether two lists of types are equal, type by type.
fn same_types(a: &[SimpleType], b: &[SimpleType]) -> bool
    ensures { IsTrue result ↔ (tys a.now ≡ tys b.now) }
{
    if a.len() != b.len() {
        return false;
    }
    for (i, kind) in a.iter().enumerate() {
        if !same_type(kind, &b[i]) {
            return false;
        }
    }
    true
}

// Whether two meta-variables are declared with the same types.
fn same_declaration(a: &MetaDecl, b: &MetaDecl) -> bool
    ensures { IsTrue result ↔ (declared_meta a.now ≡ declared_meta b.now) }
{
    same_types(a.args.as_slice(), b.args.as_slice()) && same_type(&a.result, &b.result)
}

// Whether a meta-variable has the same types in both lists, or is in neither.
fn is_declared_alike(a: &Metas, b: &Metas, meta: u32) -> bool
    ensures { IsTrue result ↔ (slice_get (declared_metas a.now) meta ≡ slice_get (declared_metas b.now) meta) }
{
    match (
        a.as_slice().get(meta as usize),
        b.as_slice().get(meta as usize),
    ) {
        (Some(one), Some(other)) => same_declaration(one, other),
        (None, None) => true,
        _ => false,
    }
}

// Whether each meta-variable that occurs in the term is declared alike.
#[cycle(alike)]
fn are_declared_alike(a: &Metas, b: &Metas, term: &Term) -> bool
    ensures { IsTrue result ↔ ((z : ℕ) → Occurs z (tm term.now) → slice_get (declared_metas a.now) z ≡ slice_get (declared_metas b.now) z) }
{
    match term {
        Term::Bound(_) | Term::Free(_, _) | Term::Fun(_) => true,
        Term::Meta(meta, items) => is_declared_alike(a, b, *meta)
            && all_declared_alike(a, b, items),
        Term::Lam(_, body) => are_declared_alike(a, b, body),
        Term::App(function, argument) => {
            are_declared_alike(a, b, function) && are_declared_alike(a, b, argument)
        }
    }
}

// Whether each meta-variable that occurs in one of the terms is declared alike.
#[cycle(alike)]
fn all_declared_alike(a: &Metas, b: &Metas, items: &Terms) -> bool
    ensures { IsTrue result ↔ ((z : ℕ) → OccursIn z (tms items.now)
        → slice_get (declared_metas a.now) z ≡ slice_get (declared_metas b.now) z) }
{
    for item in items.as_slice() {
        if !are_declared_alike(a, b, item) {
            return false;
        }
    }
    true
}

/// Whether a pair is subsumed by another one of its rule: their right sides are equal, the meta-variables that occur in
/// these have equal types in both, and the conditions of `b` are among those of `a`.
pub fn subsumed(a: &Pair, b: &Pair) -> bool
    ensures { IsTrue result ↔ IsSubsumed (pair_data a.now) (pair_data b.now) }
{
    if a.rule != b.rule || a.right_fun != b.right_fun {
        return false;
    }
    if !same_terms(&a.right, &b.right) {
        return false;
    }
    if !are_among(b.conditions.as_slice(), a.conditions.as_slice()) {
        return false;
    }
    all_declared_alike(&a.metas, &b.metas, &a.right)
}
