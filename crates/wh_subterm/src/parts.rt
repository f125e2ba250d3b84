//! Proper parts of a term that are reached through arguments of symbols alone.

ghost use Rattle.std.specs.Prelude.{◌↔◌, IsTrue};
ghost use Rattle.wh_terms.specs.Erase.{tm};
ghost use Rattle.wh_subterm.specs.ProperParts.{IsHeadedBySymbol, Part, SomeArgumentHas};

use wh_terms::{Term, same};

/// Whether `part` is a proper part of the term that is reached through arguments of spines headed by symbols.
#[cycle(parts)]
pub fn has_part(term: &Term, part: &Term) -> bool
    ensures { IsTrue result ↔ Part (tm part.now) (tm term.now) }
{
    is_headed_by_symbol(term) && some_argument_has(term, part)
}

// Whether some argument of the spine is `part` or has it.
#[cycle(parts)]
fn some_argument_has(term: &Term, part: &Term) -> bool
    ensures { IsTrue result ↔ SomeArgumentHas (tm part.now) (tm term.now) }
{
    match term {
        Term::App(function, argument) => {
            same(argument, part) || has_part(argument, part) || some_argument_has(function, part)
        }
        _ => false,
    }
}

// Whether the head of the spine is a symbol.
fn is_headed_by_symbol(term: &Term) -> bool
    ensures { IsTrue result ↔ IsHeadedBySymbol (tm term.now) }
{
    match term {
        Term::App(function, _) => is_headed_by_symbol(function),
        Term::Fun(_) => true,
        _ => false,
    }
}
