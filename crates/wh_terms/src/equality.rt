//! Equality of terms, as trees. Bound variables are numbers, so terms that differ in bound names alone are equal.

ghost use Rattle.std.specs.Prelude.{◌≡◌, ◌↔◌, IsTrue};
ghost use Rattle.wh_terms.specs.Erase.{tm, tms};

use crate::term::{Term, Terms};
use wh_types::same_type;

/// Whether two terms are equal: the same tree, with equal numbers and equal types in the same places.
#[cycle(same)]
pub fn same(a: &Term, b: &Term) -> bool
    ensures { IsTrue result ↔ (tm a.now ≡ tm b.now) }
{
    match (a, b) {
        (Term::Bound(i), Term::Bound(j)) => *i == *j,
        (Term::Free(i, kind), Term::Free(j, other)) => *i == *j && same_type(kind, other),
        (Term::Fun(f), Term::Fun(g)) => *f == *g,
        (Term::Meta(y, items), Term::Meta(z, others)) => *y == *z && same_terms(items, others),
        (Term::Lam(kind, body), Term::Lam(other_kind, other_body)) => {
            same_type(kind, other_kind) && same(body, other_body)
        }
        (Term::App(f, x), Term::App(g, y)) => same(f, g) && same(x, y),
        _ => false,
    }
}

// Whether two lists of terms are equal, term by term.
#[cycle(same)]
fn same_terms(a: &Terms, b: &Terms) -> bool
    ensures { IsTrue result ↔ (tms a.now ≡ tms b.now) }
{
    let (items, others) = (a.as_slice(), b.as_slice());
    if items.len() != others.len() {
        return false;
    }
    for (i, item) in items.iter().enumerate() {
        if !same(item, &others[i]) {
            return false;
        }
    }
    true
}
