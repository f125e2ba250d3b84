//! The root of a meta-term, and whether it is rigid: whether nothing can change its root.

ghost use Rattle.std.specs.Prelude.{◌≡◌, ◌↔◌, ◌<◌, IsTrue, IsSome};
ghost use Rattle.wh_terms.specs.Tree.{argument_count, head};
ghost use Rattle.wh_terms.specs.Erase.{tm};
ghost use Rattle.wh_system.specs.Needs.{need_of};
ghost use Rattle.wh_system.specs.SystemView.{system_data};
ghost use Rattle.wh_graph.specs.Rigid.{IsAbstraction, IsNamed, Rigid, SameNames, SameRoot, root};

use wh_system::System;
use wh_terms::Term;

/// The head of the spine that the term is.
pub fn head(term: &Term) -> &Term
    ensures { tm result.now ≡ head (tm term.now) }
{
    let mut here = term;
    while let Term::App(function, _) = here {
        here = function;
    }
    here
}

// Whether the term is an abstraction, one without arguments.
fn is_abstraction(term: &Term) -> bool
    ensures { IsTrue result ↔ IsAbstraction (tm term.now) }
{
    match term {
        Term::Lam(..) => true,
        _ => false,
    }
}

// Whether the term has fewer arguments than that.
fn has_fewer(term: &Term, need: u32) -> bool
    ensures { IsTrue result ↔ argument_count (tm term.now) < need }
{
    match term {
        Term::App(function, _) => need > 0 && has_fewer(function, need - 1),
        _ => need > 0,
    }
}

/// Whether the term is an abstraction without arguments, or a spine headed by a bound variable, by a symbol without
/// rules or by a symbol with fewer arguments than its rules need. A beta redex is none of these.
pub fn is_rigid(system: &System, term: &Term) -> bool
    ensures { IsTrue result ↔ Rigid (system_data system.now).rules (tm term.now) }
{
    if is_abstraction(term) {
        return true;
    }
    match head(term) {
        Term::Bound(_) => true,
        Term::Fun(symbol) => match system.need(*symbol) {
            Some(need) => has_fewer(term, need),
            None => true,
        },
        _ => false,
    }
}

// Whether the term is a bound variable or a symbol.
fn is_name(term: &Term) -> bool
    ensures { IsTrue result ↔ IsNamed (tm term.now) }
{
    match term {
        Term::Bound(_) | Term::Fun(_) => true,
        _ => false,
    }
}

/// Whether the term is an abstraction without arguments, or a spine headed by a bound variable or a symbol.
pub fn has_root(term: &Term) -> bool
    ensures { IsTrue result ↔ IsSome (root (tm term.now)) }
{
    is_abstraction(term) || is_name(head(term))
}

/// Whether the terms have one root.
pub fn same_root(a: &Term, b: &Term) -> bool
    ensures { IsTrue result ↔ SameRoot (tm a.now) (tm b.now) }
{
    (is_abstraction(a) && is_abstraction(b)) || same_names(a, b)
}

// Whether the terms are spines with as many arguments, headed by the same bound variable or the same symbol.
fn same_names(a: &Term, b: &Term) -> bool
    ensures { IsTrue result ↔ SameNames (tm a.now) (tm b.now) }
{
    match (a, b) {
        (Term::App(function, _), Term::App(other, _)) => same_names(function, other),
        (Term::Bound(number), Term::Bound(other)) => *number == *other,
        (Term::Fun(symbol), Term::Fun(other)) => *symbol == *other,
        _ => false,
    }
}
