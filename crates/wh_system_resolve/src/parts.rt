//! The parts of the terms that sides stand for.

ghost use Rattle.std.specs.Prelude.{◌≡◌, option_map};
ghost use Rattle.wh_terms.specs.Erase.{tm, tms};
ghost use Rattle.wh_system_resolve.specs.Form.{arguments_in};

use wh_terms::Term;

/// The arguments of a meta-variable; `None` where the term is no meta-variable.
pub fn meta_arguments(term: &Term) -> Option<&[Term]>
    ensures { option_map (λ items. tms items.now) result ≡ arguments_in (tm term.now) }
{
    match term {
        Term::Meta(_, items) => Some(items.as_slice()),
        Term::Bound(_) | Term::Free(_, _) | Term::Fun(_) | Term::Lam(_, _) | Term::App(_, _) => {
            None
        }
    }
}
