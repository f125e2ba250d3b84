//! The symbols that terms call, entered into a table that has a place for each symbol.

ghost use Rattle.std.specs.Prelude.{◌≡◌, ◌↔◌, ℕ, IsTrue};
ghost use Rattle.wh_terms.specs.Erase.{tm, tms};
ghost use Rattle.wh_usable.specs.Closed.{HasSymbol, HaveSymbol};
ghost use Rattle.wh_terms.specs.Tree.{fun, head};
ghost use Rattle.wh_usable_rules.specs.Tables.{Enters, Says};

use wh_terms::{Term, Terms};

/// The symbols in the term are called.
#[cycle(calls)]
pub fn call_symbols(called: &mut [bool], term: &Term)
    ensures { Enters (λ f. HasSymbol f (tm term.now)) called.old called.new }
{
    match term {
        Term::Bound(_) | Term::Free(_, _) => {}
        Term::Fun(symbol) => enter(called, *symbol as usize),
        Term::Meta(_, terms) => call_symbols_of_all(called, terms),
        Term::Lam(_, body) => call_symbols(called, body),
        Term::App(function, argument) => {
            call_symbols(called, function);
            call_symbols(called, argument);
        }
    }
}

/// The symbols in all terms of a list are called.
#[cycle(calls)]
pub fn call_symbols_of_all(called: &mut [bool], terms: &Terms)
    ensures { Enters (λ f. HaveSymbol f (tms terms.now)) called.old called.new }
{
    for term in terms.as_slice() {
        call_symbols(called, term);
    }
}

/// The table says yes of the place, if it has it.
pub fn enter(table: &mut [bool], place: usize)
    ensures { Enters (λ f. f ≡ place) table.old table.new }
{
    if place < table.len() {
        table[place] = true;
    }
}

/// Whether the table says yes of the symbol that heads the term.
pub fn calls_head(called: &[bool], term: &Term) -> bool
    ensures { IsTrue result ↔ ((f : ℕ) × (head (tm term.now) ≡ fun f) × Says called.now f) }
{
    match term {
        Term::Fun(symbol) => says(called, *symbol as usize),
        Term::App(function, _) => calls_head(called, function),
        _ => false,
    }
}

/// Whether the table says yes of the place; it says no of a place that it does not have.
pub fn says(table: &[bool], place: usize) -> bool
    ensures { IsTrue result ↔ Says table.now place }
{
    match table.get(place) {
        Some(said) => *said,
        None => false,
    }
}
