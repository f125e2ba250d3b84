//! The symbols that stand in terms, gathered in a list.

ghost use Rattle.std.specs.Prelude.{OnOk};
ghost use Rattle.wh_terms.specs.Erase.{tms as trees, tm};
ghost use Rattle.wh_poly_guesses.specs.Conditions.{HasSymbol, SomeHasSymbol};
ghost use Rattle.wh_poly_guesses.specs.Uses.{Joins};

use std::alloc::AllocError;
use wh_terms::{Term, Terms};

/// The symbols of the term join the list, each as often as it stands there.
#[cycle(symbols)]
pub fn add_symbols(term: &Term, symbols: &mut Vec<u32>) -> Result<(), AllocError>
    ensures { OnOk result (Joins (λ n. HasSymbol n (tm term.now)) symbols.old.items symbols.new.items) }
{
    match term {
        Term::Bound(_) | Term::Free(_, _) => Ok(()),
        Term::Fun(symbol) => {
            symbols.push(*symbol)?;
            Ok(())
        }
        Term::Meta(_, terms) => add_symbols_of_all(terms, symbols),
        Term::Lam(_, body) => add_symbols(body, symbols),
        Term::App(function, argument) => {
            add_symbols(function, symbols)?;
            add_symbols(argument, symbols)
        }
    }
}

/// The symbols that occur in some term of the list join the list of symbols, each once.
#[cycle(symbols)]
pub fn add_symbols_of_all(terms: &Terms, symbols: &mut Vec<u32>) -> Result<(), AllocError>
    ensures { OnOk result (Joins (λ n. SomeHasSymbol n (trees terms.now)) symbols.old.items symbols.new.items) }
{
    for term in terms.as_slice() {
        add_symbols(term, symbols)?;
    }
    Ok(())
}
