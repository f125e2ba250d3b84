//! The reply to `reduce`: a term of the system in a file is reduced.

ghost use Rattle.std.specs.Prelude.{◌≡◌, ℕ, List, IfOk, codes};
ghost use Rattle.wh_types.specs.Outcome.{MatchOr};
ghost use Rattle.wh_system.specs.SystemView.{system_data};
ghost use Rattle.wh_top_reducing.specs.Telling.{TellsReduced};
ghost use Rattle.wh_top_judging.specs.Outcomes.{BeginsWith, ToldText, outside};
ghost use Rattle.wh_top_replies.specs.Reducing.{IsNotReduced, StandsForReduction};

use std::alloc::Global;
use wh_answer::{NamedRejection, Report};
use wh_io::Shelf;
use wh_system::System;
use wh_top_judging::system_in;
use wh_top_reducing::reduced_text;
use wh_types::{Bytes, Or};

/// The text that tells how the term reduces by the rules of the system in the file, by at most `steps`
/// leftmost-outermost steps, or why there is none. First the file decides, and then whether the word is the text of a
/// well-typed term of the system that fits.
pub fn reduce_file<S: Shelf>(
    alloc: Global,
    shelf: &mut S,
    file: &str,
    term: &str,
    steps: u32,
) -> Result<Bytes, Or<Report>>
    ensures reduced { MatchOr result (λ text. ToldText (S.held shelf.old file.now) (λ d. TellsReduced d term.now steps text))
        (StandsForReduction (outside (S.held shelf.old) (S.faults shelf.old) (S.faults shelf.new)) file.now term.now) }
    ensures begins { IfOk result (BeginsWith (codes "REDUCED ")) }
    ensures kept { (other : List ℕ) → S.held shelf.new other ≡ S.held shelf.old other }
{
    let system = system_in(alloc, shelf, file)?;
    reduced_in(alloc, &system, term.as_bytes(), steps)
}

// Tells how the term that the bytes spell reduces by the rules of the system.
fn reduced_in(alloc: Global, system: &System, term: &[u8], steps: u32) -> Result<Bytes, Or<Report>>
    ensures { MatchOr result (TellsReduced (system_data system.now) term.now steps) (IsNotReduced (system_data system.now) term.now) }
{
    match reduced_text(alloc, system, term, steps) {
        Ok(text) => Ok(text),
        Err(Or::NoMemory) => Err(Or::NoMemory),
        Err(Or::Because(_)) => Err(Or::Because(Report::Rejected(NamedRejection::NotATerm))),
    }
}
