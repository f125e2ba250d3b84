//! The reply to `refute`: projections are refuted for the set of pairs on which the search for a proof is stuck.

ghost use Rattle.std.specs.Prelude.{◌≡◌, ◌≤◌, ◌++◌, ℕ, List, IfOk};
ghost use Rattle.wh_types.specs.Outcome.{MatchOr};
ghost use Rattle.wh_system.specs.SystemView.{system_data};
ghost use Rattle.wh_pairs.specs.SystemPairs.{HasPairs};
ghost use Rattle.wh_pairs.specs.Views.{pairs_data};
ghost use Rattle.wh_answer.specs.Texts.{report_text};
ghost use Rattle.wh_top_judging.specs.Outcomes.{StandsBySystem, ToldSystem, outside};
ghost use Rattle.wh_top_replies.specs.Refuting.{AnswerIsThere, BeginsRefuted, TellsRefuted, VerdictIsThere, numbers_text, refuted_text, told_answer};

use crate::proving::name_cause;
use std::alloc::{AllocError, Global};
use wh_answer::{Report, print_answer};
use wh_io::Shelf;
use wh_prover::{Answer, Options};
use wh_prover_refuting::{Verdict, refute};
use wh_system::System;
use wh_text::print_number;
use wh_top_judging::{Problem, problem_in};
use wh_types::{Bytes, Or};

/// The text that tells whether the search for a proof of the system in the file is stuck on a set of pairs, and whether
/// it is refuted then that a projection lets a pair of the set go; or why there is no such system.
pub fn refute_file<S: Shelf>(
    alloc: Global,
    shelf: &mut S,
    file: &str,
    options: &Options,
) -> Result<Bytes, Or<Report>>
    requires tries { options.now.tries ≤ 1000000 }
    ensures refuted { MatchOr result (λ text. ToldSystem (S.held shelf.old file.now) (λ d ps. TellsRefuted d ps options.now text))
        (StandsBySystem (outside (S.held shelf.old) (S.faults shelf.old) (S.faults shelf.new)) file.now) }
    ensures begins { IfOk result BeginsRefuted }
    ensures kept { (other : List ℕ) → S.held shelf.new other ≡ S.held shelf.old other }
{
    let problem = problem_in(alloc, shelf, file)?;
    Ok(refuted_in(alloc, &problem, options)?)
}

// Makes the text: the outcome of the search for a proof of the system, and whether projections are refuted where it is
// stuck.
fn refuted_in(alloc: Global, problem: &Problem, options: &Options) -> Result<Bytes, AllocError>
    requires pairs { HasPairs (system_data problem.now.system) (pairs_data problem.now.pairs) }
    requires tries { options.now.tries ≤ 1000000 }
    ensures { IfOk result (TellsRefuted (system_data problem.now.system) (pairs_data problem.now.pairs) options.now) }
{
    problem.system.is_well_made();
    let verdict = refute(alloc, &problem.system, &problem.pairs, options)?;
    verdict_line(alloc, &problem.system, &verdict)
}

// The line of a verdict.
fn verdict_line(alloc: Global, system: &System, verdict: &Verdict) -> Result<Bytes, AllocError>
    requires { VerdictIsThere (system_data system.now) verdict.now }
    ensures { IfOk result (λ text. text ≡ refuted_text (system_data system.now) verdict.now) }
{
    match verdict {
        Verdict::Refuted(set) => numbers_line(alloc, b"REFUTED", set.as_slice()),
        Verdict::Unrefuted(set) => numbers_line(alloc, b"UNREFUTED", set.as_slice()),
        Verdict::Unstuck(answer) => {
            let mut text = Bytes::new(alloc);
            text.append(b"UNSTUCK ")?;
            let line = answer_line(alloc, system, answer)?;
            text.append(line.as_slice())?;
            Ok(text)
        }
    }
}

// The line of an answer of the search.
fn answer_line(alloc: Global, system: &System, answer: &Answer) -> Result<Bytes, AllocError>
    requires { AnswerIsThere (system_data system.now) answer.now }
    ensures { IfOk result (λ text. text ≡ report_text (told_answer (system_data system.now) answer.now)) }
{
    match answer {
        Answer::Yes(_) => print_answer(alloc, &Report::Yes),
        Answer::No(_) => print_answer(alloc, &Report::No),
        Answer::Maybe(cause) => {
            let named = name_cause(alloc, system, cause)?;
            print_answer(alloc, &Report::Maybe(named))
        }
    }
}

// A line of a word and numbers.
fn numbers_line(alloc: Global, word: &[u8], numbers: &[u32]) -> Result<Bytes, AllocError>
    ensures { IfOk result (λ text. text ≡ word.now ++ numbers_text numbers.now) }
{
    let mut text = Bytes::new(alloc);
    text.append(word)?;
    for number in numbers {
        text.push(b' ')?;
        print_number(&mut text, *number)?;
    }
    text.push(b'\n')?;
    Ok(text)
}
