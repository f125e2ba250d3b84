//! The hunt: loops in the graph of calls first, then what `prove` searches for. `hunt_file` is the main function.

ghost use Rattle.std.specs.Prelude.{◌≡◌, ℕ, List, IfOk, IfSome, IsTrue, codes};
ghost use Rattle.wh_types.specs.Outcome.{MatchOr};
ghost use Rattle.wh_system.specs.SystemView.{system_data};
ghost use Rattle.wh_pairs.specs.SystemPairs.{HasPairs};
ghost use Rattle.wh_pairs.specs.Views.{pairs_data};
ghost use Rattle.wh_top_judging.specs.Outcomes.{BeginsWith, ToldSystem, outside};
ghost use Rattle.wh_top_replies.specs.Proving.{StandsForSearch};
ghost use Rattle.wh_hunt.specs.Hunting.{IsHunted, IsLoopOf, usual_options};

use std::alloc::{AllocError, Global};
use wh_answer::Report;
use wh_cert::Certificate;
use wh_cert_print::print_certificate;
use wh_cert_text::read_certificate;
use wh_hunt_cycles::{Work, hunt_cycles};
use wh_io::Shelf;
use wh_prover::Options;
use wh_top_judging::{CERTIFICATE_LIMIT, Problem, problem_in, weigh};
use wh_top_replies::found_text;
use wh_types::{Bytes, Or};

/// What a hunt may still do, and what it did.
#[derive(Drop)]
pub struct Tally {
    /// The work that is left.
    pub work: Work,
    /// How many certificates were found that a check does not accept.
    pub refused: u32,
}

/// The text of a loop or of a proof for the system in the file, or why there is neither. What the hunt takes and does is
/// counted in `tally`.
pub fn hunt_file<S: Shelf>(
    alloc: Global,
    shelf: &mut S,
    file: &str,
    tally: &mut Tally,
) -> Result<Bytes, Or<Report>>
    ensures found { MatchOr result
        (λ text. ToldSystem (S.held shelf.old file.now) (λ d ps. IsHunted d ps text))
        (StandsForSearch (outside (S.held shelf.old) (S.faults shelf.old) (S.faults shelf.new)) file.now usual_options) }
    ensures kept { (other : List ℕ) → S.held shelf.new other ≡ S.held shelf.old other }
{
    let problem = problem_in(alloc, shelf, file)?;
    if let Some(text) = loop_text(alloc, &problem, tally)? {
        return Ok(text);
    }
    let options = Options {
        tries: 10_000,
        depth: 6,
        visited: 500,
    };
    found_text(alloc, &problem, &options)
}

// The text of a loop in the graph of calls that a check accepts. One that it does not accept is dropped.
fn loop_text(
    alloc: Global,
    problem: &Problem,
    tally: &mut Tally,
) -> Result<Option<Bytes>, AllocError>
    requires { HasPairs (system_data problem.now.system) (pairs_data problem.now.pairs) }
    ensures { IfOk result (λ found. IfSome found (λ text.
        IsLoopOf (system_data problem.now.system) (pairs_data problem.now.pairs) text × BeginsWith (codes "NO") text)) }
{
    let Some(certificate) = hunt_cycles(alloc, &problem.system, &mut tally.work)? else {
        return Ok(None);
    };
    let text = print_certificate(alloc, &Certificate::No(certificate))?;
    if is_accepted(alloc, problem, text.as_slice())? {
        Ok(Some(text))
    } else {
        tally.refused = tally.refused.saturating_add(1);
        Ok(None)
    }
}

// Whether these bytes are the text of a loop's certificate, within the limit, that a check accepts.
fn is_accepted(alloc: Global, problem: &Problem, text: &[u8]) -> Result<bool, AllocError>
    requires { HasPairs (system_data problem.now.system) (pairs_data problem.now.pairs) }
    ensures { IfOk result (λ is. IsTrue is → IsLoopOf (system_data problem.now.system) (pairs_data problem.now.pairs) text.now) }
{
    if text.len() as u64 > CERTIFICATE_LIMIT {
        return Ok(false);
    }
    match read_certificate(alloc, text) {
        Ok(certificate) => match weigh(alloc, problem, &certificate)? {
            Report::No => Ok(true),
            _ => Ok(false),
        },
        Err(Or::Because(_)) => Ok(false),
        Err(Or::NoMemory) => Err(AllocError),
    }
}
