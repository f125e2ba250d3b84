//! Whether a meta-variable stands in a term.

ghost use Rattle.std.specs.Prelude.{◌≡◌};
ghost use Rattle.wh_terms.specs.Erase.{tm};
ghost use Rattle.wh_find_flat.specs.Plain.{IsPlain, stands_in};

use wh_terms::Term;

/// Whether the meta-variable stands in the term.
pub fn stands(meta: usize, term: &Term) -> bool
    requires { IsPlain (tm term.now) }
    ensures { result ≡ stands_in meta (tm term.now) }
{
    match term {
        Term::Meta(number, _) => *number as usize == meta,
        Term::App(function, argument) => stands(meta, function) || stands(meta, argument),
        _ => false,
    }
}
