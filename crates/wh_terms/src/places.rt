//! The part of a term at a position, as it stands.

ghost use Rattle.std.specs.Prelude.{◌≡◌, option_map};
ghost use Rattle.wh_terms.specs.Erase.{tm};
ghost use Rattle.wh_terms.specs.Places.{child, part_at};

use crate::path::Path;
use crate::term::Term;

/// The part of `term` at `path`, as it stands; `None` if the path leads out of the term.
pub fn subterm_at<'a>(term: &'a Term, path: &Path) -> Option<&'a Term>
    ensures { option_map (λ r. tm r.now) result ≡ part_at path.now (tm term.now) }
{
    let mut here = term;
    for step in path.as_slice() {
        let next = child(here, *step)?;
        here = next;
    }
    Some(here)
}

// The part of `term` one step below it: 0 leads to the function of an application or the body of an abstraction, 1
// to the argument of an application.
fn child(term: &Term, step: u8) -> Option<&Term>
    ensures { option_map (λ r. tm r.now) result ≡ child step (tm term.now) }
{
    match (term, step) {
        (Term::App(function, _), 0) => Some(function),
        (Term::App(_, argument), 1) => Some(argument),
        (Term::Lam(_, body), 0) => Some(body),
        _ => None,
    }
}
