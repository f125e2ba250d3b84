//! Whether the last term of a NO certificate holds the instance of its first term.

ghost use Rattle.std.specs.Prelude.{◌≡◌, ◌↔◌, ◌≤◌, ◌+◌, IsTrue, All, AllPairs};
ghost use Rattle.wh_types.specs.Limits.{greatest_number};
ghost use Rattle.wh_types.specs.Outcome.{MatchOr};
ghost use Rattle.wh_terms.specs.Tree.{bound};
ghost use Rattle.wh_terms.specs.Erase.{tm};
ghost use Rattle.wh_terms.specs.Measures.{Fits};
ghost use Rattle.wh_terms.specs.Sight.{IsTerm, LooseBelow};
ghost use Rattle.wh_terms.specs.Substitution.{act};
ghost use Rattle.wh_no.specs.Claim.{put_for};
ghost use Rattle.wh_no.specs.Entry.{entry_puts};
ghost use Rattle.wh_no.specs.Unused.{first_unused};
ghost use Rattle.wh_no.specs.Valid.{IsBelow, HoldsInstance};
ghost use Rattle.wh_no.specs.Faults.{IsPlaceFault};

use crate::fault::NoFault;
use crate::search::value_for;
use crate::unused::first_unused;
use std::alloc::Global;
use wh_terms::{Path, SubstEntry, Term, opened_at, same};
use wh_types::{Or, same_type};

// A term that fits is not larger, so no path to a part of it is longer.
const MOST_SIZE: usize = 65536;

// Whether `part` is `term` with these entries for its free variables. A value has no loose variable, so it is the same
// below a binder; nothing is built.
#[cycle(instance)]
#[tactic(auto, using(crate::proofs::InstanceLemmas::filled_bound, crate::proofs::InstanceLemmas::filled_free, crate::proofs::InstanceLemmas::filled_fun, crate::proofs::InstanceLemmas::filled_app, crate::proofs::InstanceLemmas::filled_lam))]
fn is_instance(term: &Term, part: &Term, entries: &[SubstEntry]) -> bool
    requires plain { IsTerm (tm term.now) }
    requires shut { All (λ e. LooseBelow 0 (tm e.value)) entries.now }
    requires increasing { AllPairs IsBelow (entry_puts entries.now) }
    ensures { IsTrue result ↔ (tm part.now ≡ act bound (put_for (entry_puts entries.now)) (tm term.now)) }
{
    match term {
        Term::Free(number, kind) => match value_for(entries, *number, kind) {
            Some(value) => same(part, value),
            None => same(part, term),
        },
        Term::Bound(_) | Term::Fun(_) => same(part, term),
        Term::Lam(kind, body) => match part {
            Term::Lam(other, other_body) => {
                same_type(other, kind) && is_instance(body, other_body, entries)
            }
            _ => false,
        },
        Term::App(f, x) => match part {
            Term::App(g, y) => is_instance(f, g, entries) && is_instance(x, y, entries),
            _ => false,
        },
        Term::Meta(_, _) => false,
    }
}

/// Whether the part at the position in the last term is the first term with these entries for its free variables. On
/// the way to the part, binders are opened by variables above those of the first term.
pub fn check_instance(
    alloc: Global,
    term: &Term,
    entries: &[SubstEntry],
    at: &Path,
    last: &Term,
) -> Result<(), Or<NoFault>>
    requires plain { IsTerm (tm term.now) }
    requires low { first_unused (tm term.now) ≤ greatest_number + 1 }
    requires shut { All (λ e. LooseBelow 0 (tm e.value)) entries.now }
    requires increasing { AllPairs IsBelow (entry_puts entries.now) }
    requires fits { Fits (tm last.now) }
    requires closed { LooseBelow 0 (tm last.now) }
    ensures { MatchOr result (λ _. HoldsInstance (tm term.now) (entry_puts entries.now) at.now (tm last.now))
        (IsPlaceFault (tm term.now) (entry_puts entries.now) at.now (tm last.now)) }
{
    if at.as_slice().len() > MOST_SIZE {
        return Err(Or::Because(NoFault::NoInstance));
    }
    let first = first_unused(term) as u32;
    match opened_at(alloc, last, at, first)? {
        Some(part) if is_instance(term, &part, entries) => Ok(()),
        _ => Err(Or::Because(NoFault::NoInstance)),
    }
}
