//! Numbers above those of a term's free variables, for variables that open binders.

ghost use Rattle.std.specs.Prelude.{◌≡◌};
ghost use Rattle.wh_terms.specs.Erase.{tm};
ghost use Rattle.wh_terms.specs.Sight.{IsTerm};
ghost use Rattle.wh_no.specs.Unused.{first_unused};

use wh_terms::Term;

/// One more than the greatest number of a free variable in the term, or 0 where it has none.
#[cycle(unused)]
pub fn first_unused(term: &Term) -> u64
    requires { IsTerm (tm term.now) }
    ensures { result ≡ first_unused (tm term.now) }
{
    match term {
        Term::Free(number, _) => u64::from(*number) + 1,
        Term::Lam(_, body) => first_unused(body),
        Term::App(function, argument) => {
            let (left, right) = (first_unused(function), first_unused(argument));
            if left < right { right } else { left }
        }
        Term::Bound(_) | Term::Fun(_) | Term::Meta(_, _) => 0,
    }
}
