//! Patterns, the left sides of rules: a meta-variable stands on distinct bound variables, and a spine has a symbol or a
//! bound variable as its head.

ghost use Rattle.std.specs.Prelude.{◌≡◌, ◌↔◌, ◌+◌, ◌<◌, ◌^◌, IsTrue};
ghost use Rattle.wh_terms.specs.Erase.{tm, tms};
ghost use Rattle.wh_terms.specs.Measures.{Manageable, nesting};
ghost use Rattle.wh_terms.specs.Pattern.{
  AllBoundBelow,
  Distinct,
  IsPattern,
  IsPatternSpine,
  IsPatternUnder,
  Misses,
};

use wh_terms::Term;

/// Whether the term is a pattern: a meta-variable applied to distinct bound variables, an abstraction over a pattern,
/// or a symbol or bound variable with patterns as its arguments.
///
/// The bound variables of one argument list are compared two by two. Where a term fits, there are at most 32 of them in
/// a list of a declared meta-variable; longer lists get a true answer too, in time quadratic in their length.
pub fn is_pattern(term: &Term) -> bool
    requires { Manageable (tm term.now) }
    ensures { IsTrue result ↔ IsPattern (tm term.now) }
{
    is_pattern_under(term, 0)
}

// Whether the term is a pattern under as many binders.
#[cycle(pattern)]
fn is_pattern_under(term: &Term, binders: u32) -> bool
    requires { binders + nesting (tm term.now) < 2 ^ 30 }
    ensures { IsTrue result ↔ IsPatternUnder binders (tm term.now) }
{
    match term {
        Term::Bound(number) => *number < binders,
        Term::Free(..) => false,
        Term::Fun(_) => true,
        Term::Meta(_, items) => {
            all_bound_below(items.as_slice(), binders) && are_distinct(items.as_slice())
        }
        Term::Lam(_, body) => is_pattern_under(body, binders + 1),
        Term::App(function, argument) => {
            is_pattern_spine(function, binders) && is_pattern_under(argument, binders)
        }
    }
}

// Whether the term is a symbol or bound variable with patterns as its arguments, under as many binders.
#[cycle(pattern)]
fn is_pattern_spine(term: &Term, binders: u32) -> bool
    requires { binders + nesting (tm term.now) < 2 ^ 30 }
    ensures { IsTrue result ↔ IsPatternSpine binders (tm term.now) }
{
    match term {
        Term::Bound(number) => *number < binders,
        Term::Fun(_) => true,
        Term::App(function, argument) => {
            is_pattern_spine(function, binders) && is_pattern_under(argument, binders)
        }
        Term::Free(..) | Term::Meta(..) | Term::Lam(..) => false,
    }
}

// Whether each term is a variable of the nearest binders, as many as `binders`.
fn all_bound_below(items: &[Term], binders: u32) -> bool
    ensures { IsTrue result ↔ AllBoundBelow binders (tms items.now) }
{
    for item in items {
        match item {
            Term::Bound(number) => {
                if *number >= binders {
                    return false;
                }
            }
            _ => return false,
        }
    }
    true
}

// Whether the bound variables among the terms are distinct.
fn are_distinct(items: &[Term]) -> bool
    ensures { IsTrue result ↔ Distinct (tms items.now) }
{
    for (i, item) in items.iter().enumerate() {
        match item {
            Term::Bound(number) => {
                if !misses(*number, &items[i + 1..]) {
                    return false;
                }
            }
            _ => {}
        }
    }
    true
}

// Whether the bound variable of that number is not among the terms.
fn misses(number: u32, items: &[Term]) -> bool
    ensures { IsTrue result ↔ Misses number (tms items.now) }
{
    for item in items {
        match item {
            Term::Bound(other) => {
                if *other == number {
                    return false;
                }
            }
            _ => {}
        }
    }
    true
}
