//! Whether a meta-term clashes with a pattern: whether it can reduce to no instance of it.

ghost use Rattle.std.specs.Prelude.{◌↔◌, IsTrue};
ghost use Rattle.wh_terms.specs.Erase.{tm};
ghost use Rattle.wh_system.specs.SystemView.{system_data};
ghost use Rattle.wh_graph.specs.Clash.{Clash, PartsClash};

use crate::root::{has_root, is_rigid, same_root};
use wh_system::System;
use wh_terms::Term;

/// Whether the term is rigid, the pattern is no meta-application, and their roots differ or two matching parts clash.
#[cycle(clash)]
pub fn clashes(system: &System, term: &Term, pattern: &Term) -> bool
    ensures { IsTrue result ↔ Clash (system_data system.now).rules (tm term.now) (tm pattern.now) }
{
    if !is_rigid(system, term) || !has_root(pattern) {
        return false;
    }
    !same_root(term, pattern) || parts_clash(system, term, pattern)
}

// Whether the bodies of two abstractions clash, or two arguments at the same place of two spines.
#[cycle(clash)]
fn parts_clash(system: &System, term: &Term, pattern: &Term) -> bool
    ensures { IsTrue result ↔ PartsClash (system_data system.now).rules (tm term.now) (tm pattern.now) }
{
    match (term, pattern) {
        (Term::Lam(_, body), Term::Lam(_, other)) => clashes(system, body, other),
        (Term::App(function, argument), Term::App(other, against)) => {
            parts_clash(system, function, other) || clashes(system, argument, against)
        }
        _ => false,
    }
}
