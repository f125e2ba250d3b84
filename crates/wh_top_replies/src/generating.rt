//! The reply to `gen`: the search for a proof of a generated system.

ghost use Rattle.std.specs.Prelude.{◌≡◌, ◌≤◌, ◌++◌, IfOk, List, OnOk, length};
ghost use Rattle.wh_types.specs.Limits.{most_generated};
ghost use Rattle.wh_types.specs.Outcome.{MatchOr};
ghost use Rattle.wh_system.specs.SystemView.{system_data};
ghost use Rattle.wh_pairs.specs.PairData.{PairData};
ghost use Rattle.wh_pairs.specs.SystemPairs.{HasPairs};
ghost use Rattle.wh_pairs.specs.Views.{pairs_data};
ghost use Rattle.wh_gen.specs.Family.{gen_data};
ghost use Rattle.wh_cert.specs.Limits.{IsCert};
ghost use Rattle.wh_cert.specs.Said.{said};
ghost use Rattle.wh_prover.specs.Answers.{IsAnswer};
ghost use Rattle.wh_answer.specs.Texts.{report_text};
ghost use Rattle.wh_answer.specs.declared.report.Report.TheVariants.{Maybe};
ghost use Rattle.wh_top_replies.specs.Proving.{CauseIsThere};
ghost use Rattle.wh_top_replies.specs.Causes.{named_cause};
ghost use Rattle.wh_top_naming.specs.declared.status.Status.TheVariants.{Answered};
ghost use Rattle.wh_top_replies.specs.Generating.{Comes, ShowsGenerated, StandsForGenerated, counted_line, generated_text, nodes_of, usual_options};

use crate::proving::name_cause;
use std::alloc::{AllocError, Global};
use wh_answer::{Report, print_answer};
use wh_cert::Certificate;
use wh_gen::generate;
use wh_pairs::PairList;
use wh_prover::{Answer, Cause, Options, prove};
use wh_system::System;
use wh_text::print_number;
use wh_top_judging::pairs_of;
use wh_types::{Bytes, Or, counted};

/// The bounds of the search.
const USUAL: Options = Options {
    tries: 10_000,
    depth: 6,
    visited: 500,
};

/// The outcome of the search for a proof: how many nodes the certificate has, and the last line.
#[derive(Drop)]
struct Outcome {
    nodes: u32,
    answer: Bytes,
}

/// The text that `gen` writes: how many rules and pairs the generated system with the number has, and the outcome of
/// the search for a proof of it.
pub fn generated(alloc: Global, n: u32) -> Result<Bytes, Or<Report>>
    requires some { 1 ≤ n }
    requires few { n ≤ most_generated }
    ensures { MatchOr result (ShowsGenerated n Answered) (StandsForGenerated n) }
{
    let system = made(alloc, n)?;
    answered(alloc, n, &system)
}

// Finds the pairs of the generated system, and makes the text with the outcome of the search for a proof.
fn answered(alloc: Global, n: u32, system: &System) -> Result<Bytes, Or<Report>>
    requires { system_data system.now ≡ gen_data n }
    ensures { MatchOr result (ShowsGenerated n Answered) (StandsForGenerated n) }
{
    let pairs = pairs_of(alloc, system)?;
    Ok(shown(alloc, n, system, &pairs)?)
}

// The text: how many rules and pairs the generated system has, and the outcome of the search for a proof.
fn shown(alloc: Global, n: u32, system: &System, pairs: &PairList) -> Result<Bytes, AllocError>
    requires system { system_data system.now ≡ gen_data n }
    requires pairs { HasPairs (system_data system.now) (pairs_data pairs.now) }
    ensures { IfOk result (ShowsGenerated n Answered) }
{
    let rules = counted(system.rules().len())?;
    let count = counted(pairs.as_slice().len())?;
    let outcome = searched(alloc, system, pairs)?;
    lines(alloc, n, rules, count, &outcome)
}

// The generated system.
fn made(alloc: Global, n: u32) -> Result<System, AllocError>
    requires some { 1 ≤ n }
    requires few { n ≤ most_generated }
    ensures { IfOk result (λ system. system_data system ≡ gen_data n) }
{
    match generate(alloc, n) {
        Ok(system) => Ok(system),
        Err(_) => Err(AllocError),
    }
}

// Searches for a proof of the generated system.
fn searched(alloc: Global, system: &System, pairs: &PairList) -> Result<Outcome, AllocError>
    requires { HasPairs (system_data system.now) (pairs_data pairs.now) }
    ensures { IfOk result (λ outcome. Comes (system_data system.now) (pairs_data pairs.now) outcome.nodes outcome.answer) }
{
    let answer = prove(alloc, system, pairs, &USUAL)?;
    outcome_of(alloc, system, &answer)
}

// The outcome that the answer of the search stands for.
fn outcome_of(alloc: Global, system: &System, answer: &Answer) -> Result<Outcome, AllocError>
    requires { (ps : List PairData) × IsAnswer (system_data system.now) ps usual_options answer.now }
    ensures { (ps : List PairData) → IsAnswer (system_data system.now) ps usual_options answer.now
        → IfOk result (λ outcome. Comes (system_data system.now) ps outcome.nodes outcome.answer) }
{
    system.is_well_made();
    match answer {
        Answer::Yes(certificate) => Ok(Outcome {
            nodes: nodes_of(certificate),
            answer: text_of(alloc, b"answer YES\n")?,
        }),
        Answer::No(_) => Ok(Outcome {
            nodes: 0,
            answer: text_of(alloc, b"answer NO\n")?,
        }),
        Answer::Maybe(cause) => Ok(Outcome {
            nodes: 0,
            answer: reason_text(alloc, system, cause)?,
        }),
    }
}

// The line that says why nothing was found.
fn reason_text(alloc: Global, system: &System, cause: &Cause) -> Result<Bytes, AllocError>
    requires { CauseIsThere (system_data system.now) cause.now }
    ensures { IfOk result (λ text. text ≡ report_text (Maybe (named_cause (system_data system.now) cause.now))) }
{
    let named = name_cause(alloc, system, cause)?;
    print_answer(alloc, &Report::Maybe(named))
}

// How many nodes a certificate has.
fn nodes_of(certificate: &Certificate) -> u32
    requires { IsCert (said certificate.now) }
    ensures { result ≡ length (nodes_of (said certificate.now)) }
{
    match certificate {
        Certificate::Yes(yes) => yes.nodes.as_slice().len() as u32,
        Certificate::No(_) => 0,
    }
}

// The bytes as a text.
fn text_of(alloc: Global, bytes: &[u8]) -> Result<Bytes, AllocError>
    ensures { IfOk result (λ text. text ≡ bytes.now) }
{
    let mut text = Bytes::new(alloc);
    text.append(bytes)?;
    Ok(text)
}

// All lines.
fn lines(
    alloc: Global,
    n: u32,
    rules: u32,
    pairs: u32,
    outcome: &Outcome,
) -> Result<Bytes, AllocError>
    ensures { IfOk result (λ text. text ≡ generated_text n rules pairs outcome.now.nodes outcome.now.answer) }
{
    let mut text = Bytes::new(alloc);
    put_line(&mut text, b"GEN ", n)?;
    put_line(&mut text, b"rules ", rules)?;
    put_line(&mut text, b"pairs ", pairs)?;
    put_line(&mut text, b"nodes ", outcome.nodes)?;
    text.append(outcome.answer.as_slice())?;
    Ok(text)
}

// A line of a word and a number.
fn put_line(text: &mut Bytes, word: &[u8], number: u32) -> Result<(), AllocError>
    ensures { OnOk result (text.new ≡ text.old ++ counted_line word.now number) }
{
    text.append(word)?;
    print_number(text, number)?;
    text.push(b'\n')
}
