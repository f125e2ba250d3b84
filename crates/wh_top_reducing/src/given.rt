//! The term that a word of the command line spells.

ghost use Rattle.std.specs.Prelude.{◌≡◌, MatchOption, Some};
ghost use Rattle.wh_types.specs.Outcome.{MatchOr};
ghost use Rattle.wh_terms.specs.Measures.{Fits};
ghost use Rattle.wh_terms.specs.Erase.{tm};
ghost use Rattle.wh_terms.specs.declared.term.Term.{Term};
ghost use Rattle.wh_system.specs.SystemView.{system_data};
ghost use Rattle.wh_top_reducing.specs.Telling.{Gives, GivesNone};

use std::alloc::Global;
use wh_cert_term::read_term;
use wh_system::System;
use wh_system_making::NameTables;
use wh_terms::{Term, fits};
use wh_types::Or;

/// The bytes are the text of no well-typed term of the system that fits.
#[derive(Drop)]
pub struct NotATerm;

/// The term of the system whose text the bytes are.
pub fn given_term(alloc: Global, system: &System, text: &[u8]) -> Result<Term, Or<NotATerm>>
    ensures { MatchOr result (λ term. Gives (system_data system.now) text.now (tm term))
        (λ _. GivesNone (system_data system.now) text.now) }
{
    let Some(raw) = read_term(alloc, text)? else {
        return Err(Or::Because(NotATerm));
    };
    let names = NameTables::of(alloc, system)?;
    let meant = names.resolve(alloc, system, &raw)?;
    match fitting(meant) {
        Some(term) => Ok(term),
        None => Err(Or::Because(NotATerm)),
    }
}

// The term that names stand for, where it fits.
#[tactic(auto, using(crate::proofs::GivenTerms::unfit))]
fn fitting(meant: Option<Term>) -> Option<Term>
    ensures { MatchOption result ((t : Term) → meant ≡ Some t → Fits (tm t) → ⊥) (λ t. (meant ≡ Some t) × Fits (tm t)) }
{
    let term = meant?;
    if fits(&term) { Some(term) } else { None }
}
