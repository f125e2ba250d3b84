//! The three lines that `reduce` writes about a term.

ghost use Rattle.std.specs.Prelude.{◌≡◌, ℕ, IfOk};
ghost use Rattle.wh_types.specs.Outcome.{MatchOr};
ghost use Rattle.wh_terms.specs.Tree.{Tm};
ghost use Rattle.wh_terms.specs.Erase.{tm};
ghost use Rattle.wh_terms.specs.Measures.{Fits};
ghost use Rattle.wh_terms.specs.Typing.{WellTyped};
ghost use Rattle.wh_system.specs.SystemView.{system_data};
ghost use Rattle.wh_top_reducing.specs.Telling.{GivesNone, TellsOf, TellsReduced, end_word, reduced_text};

use crate::given::{NotATerm, given_term};
use std::alloc::{AllocError, Global};
use wh_step_outermost::{End, Reduced, reduce};
use wh_system::System;
use wh_system_making::raw_term;
use wh_terms::Term;
use wh_text::{print_number, print_term};
use wh_types::{Bytes, Or};

/// How the term that `text` spells in the system reduces by at most `steps` leftmost-outermost steps, in three lines:
/// how many steps are taken, the last term, and why no further step is taken.
pub fn reduced_text(
    alloc: Global,
    system: &System,
    term: &[u8],
    steps: u32,
) -> Result<Bytes, Or<NotATerm>>
    ensures { MatchOr result (TellsReduced (system_data system.now) term.now steps) (λ _. GivesNone (system_data system.now) term.now) }
{
    let given = given_term(alloc, system, term)?;
    Ok(told(alloc, system, &given, steps)?)
}

// The three lines about the term itself.
fn told(alloc: Global, system: &System, term: &Term, steps: u32) -> Result<Bytes, AllocError>
    requires typed { WellTyped (system_data system.now).symbols (tm term.now) }
    requires fits { Fits (tm term.now) }
    ensures { IfOk result (TellsOf (system_data system.now) (tm term.now) steps) }
{
    system.is_well_made();
    let reduced = reduce(alloc, system.rules(), term, steps)?;
    lines(alloc, system, &reduced)
}

// The lines of a reduction.
fn lines(alloc: Global, system: &System, reduced: &Reduced) -> Result<Bytes, AllocError>
    requires { WellTyped (system_data system.now).symbols (tm reduced.now.last) }
    ensures { IfOk result (λ text. text ≡ reduced_text (system_data system.now) reduced.now.steps (tm reduced.now.last) reduced.now.end) }
{
    let mut text = Bytes::new(alloc);
    text.append(b"REDUCED ")?;
    print_number(&mut text, reduced.steps)?;
    text.push(b'\n')?;
    let last = raw_term(alloc, system, &reduced.last)?;
    print_term(&mut text, &last)?;
    text.push(b'\n')?;
    text.append(word_of(reduced.end))?;
    text.push(b'\n')?;
    Ok(text)
}

// The word for an end.
fn word_of(end: End) -> &'static [u8]
    ensures { result.now ≡ end_word end }
{
    match end {
        End::Normal => b"normal",
        End::Spent => b"spent",
        End::TooBig => b"too-big",
    }
}
