//! Whether a meta-variable occurs in a term, which the tests of ranks ask of right sides.

ghost use Rattle.std.specs.Prelude.{◌↔◌, IsTrue};
ghost use Rattle.wh_terms.specs.Erase.{tm, tms};
ghost use Rattle.wh_terms.specs.Sight.{Occurs, OccursIn};

use wh_terms::{Term, Terms};

/// Whether the meta-variable of that number occurs in the term.
#[cycle(occurrence)]
pub fn occurs(meta: u32, term: &Term) -> bool
    ensures { IsTrue result ↔ Occurs meta (tm term.now) }
{
    match term {
        Term::Bound(_) | Term::Free(..) | Term::Fun(_) => false,
        Term::Meta(number, items) => *number == meta || occurs_in(meta, items),
        Term::Lam(_, body) => occurs(meta, body),
        Term::App(function, argument) => occurs(meta, function) || occurs(meta, argument),
    }
}

// Whether the meta-variable of that number occurs in one of the terms of the list.
#[cycle(occurrence)]
fn occurs_in(meta: u32, items: &Terms) -> bool
    ensures { IsTrue result ↔ OccursIn meta (tms items.now) }
{
    for item in items.as_slice() {
        if occurs(meta, item) {
            return true;
        }
    }
    false
}
