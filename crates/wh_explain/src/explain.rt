//! Explanations of a system: with a certificate that is given or found, or of why none was found.

ghost use Rattle.std.specs.Prelude.{◌≡◌, ◌≤◌, ◌++◌, IfOk, codes, length};
ghost use Rattle.std.specs.Option.{option_map};
ghost use Rattle.wh_types.specs.Limits.{certificate_limit};
ghost use Rattle.wh_types.specs.Outcome.{IfBecause, MatchOr};
ghost use Rattle.wh_system.specs.SystemView.{system_data};
ghost use Rattle.wh_pairs.specs.SystemPairs.{HasPairs};
ghost use Rattle.wh_pairs.specs.Views.{pairs_data};
ghost use Rattle.wh_cert.specs.Limits.{IsCert};
ghost use Rattle.wh_cert.specs.Said.{said};
ghost use Rattle.wh_explain_verdict.specs.FirstWords.{first_words};
ghost use Rattle.wh_top_judging.specs.Outcomes.{BeginsWith, Stands, StandsBySystem, Told, ToldSystem, outside};
ghost use Rattle.wh_explain.specs.Meaning.{Explains, Finds, IsUnexplained, IsUnweighed, Means, MeansLoop, MeansProof, SaysOf, SaysOfBytes, SaysOfFiles};

use crate::causes::put_cause;
use std::alloc::{AllocError, Global};
use wh_answer::{NamedRejection, Report, print_answer};
use wh_cert::Certificate;
use wh_cert_text::read_certificate;
use wh_checker::valid_certificates_mean_bounded;
use wh_explain_verdict::{Verdict, first_words, verdict_of};
use wh_io::Shelf;
use wh_no::valid_claims_are_unbounded;
use wh_prover::{Answer, Options, prove};
use wh_system::System;
use wh_tell::Piece::{Big, Count, Spell};
use wh_tell::{Text, number_of, put_graph, put_lints, put_pair_line, put_ranks, tell, tell_line};
use wh_tell_nodes::put_tree;
use wh_tell_parts::{put_attempt, put_loop};
use wh_top_judging::{Problem, certificate_in, problem_in, weigh};
use wh_types::{Bytes, Or};

/// The bounds of a search, which are those of `prove` where it is given none.
const USUAL: Options = Options {
    tries: 10_000,
    depth: 6,
    visited: 500,
};

// What stands above the nodes of a proof, and above those of a certificate that is not accepted.
const PROOF: &str =
    "\nThe proof. Each node shows of its pairs that no chain of calls uses them for ever.\n";

const CLAIM: &str =
    "\nThe nodes of the certificate. What it says of its pairs need not hold, since the check does not accept it.\n";

/// Explains why the system in the file terminates or not: by the certificate in the other file, or by a search
/// where there is none. The text begins with what `check` answers on the two files; without a certificate it begins
/// with what the check answers on one that was found, or says that none was. So it begins with `YES` only where every
/// well-typed term is bounded, and with `NO` only where some term has reductions of every length. The error is that of
/// `check` on the two files, where no certificate is weighed, or that of the system file alone.
pub fn explain_file<S: Shelf>(
    alloc: Global,
    shelf: &mut S,
    file: &str,
    cert: Option<&str>,
) -> Result<Bytes, Or<Report>>
    ensures says { MatchOr result
        (Explains (outside (S.held shelf.old) (S.faults shelf.old) (S.faults shelf.new))
        file.now (option_map (λ name. name.now) cert.entry))
        (IsUnexplained (outside (S.held shelf.old) (S.faults shelf.old) (S.faults shelf.new))
        file.now (option_map (λ name. name.now) cert.entry)) }
    ensures unweighed { IfBecause result IsUnweighed }
    ensures proof { IfOk result (λ text. BeginsWith (codes "YES") text → Told (S.held shelf.old file.now) MeansProof) }
    ensures endless { IfOk result (λ text. BeginsWith (codes "NO") text → Told (S.held shelf.old file.now) MeansLoop) }
{
    match cert {
        Some(cert) => by_certificate(alloc, shelf, file, cert),
        None => by_search(alloc, shelf, file),
    }
}

// The explanation by the certificate in the other file.
fn by_certificate<S: Shelf>(
    alloc: Global,
    shelf: &mut S,
    file: &str,
    cert: &str,
) -> Result<Bytes, Or<Report>>
    ensures says { MatchOr result
        (SaysOfFiles (outside (S.held shelf.old) (S.faults shelf.old) (S.faults shelf.new)) file.now cert.now)
        (Stands (outside (S.held shelf.old) (S.faults shelf.old) (S.faults shelf.new)) file.now cert.now) }
    ensures unweighed { IfBecause result IsUnweighed }
    ensures proof { IfOk result (λ text. BeginsWith (codes "YES") text → Told (S.held shelf.old file.now) MeansProof) }
    ensures endless { IfOk result (λ text. BeginsWith (codes "NO") text → Told (S.held shelf.old file.now) MeansLoop) }
{
    let problem = problem_in(alloc, shelf, file)?;
    let certificate = certificate_in(alloc, shelf, cert)?;
    Ok(explained(alloc, &problem, certificate.as_slice())?)
}

// The explanation by a search.
fn by_search<S: Shelf>(alloc: Global, shelf: &mut S, file: &str) -> Result<Bytes, Or<Report>>
    ensures says { MatchOr result (λ text. ToldSystem (S.held shelf.old file.now) (λ d ps. Finds d ps text))
        (StandsBySystem (outside (S.held shelf.old) (S.faults shelf.old) (S.faults shelf.new)) file.now) }
    ensures unweighed { IfBecause result IsUnweighed }
    ensures proof { IfOk result (λ text. BeginsWith (codes "YES") text → Told (S.held shelf.old file.now) MeansProof) }
    ensures endless { IfOk result (λ text. BeginsWith (codes "NO") text → Told (S.held shelf.old file.now) MeansLoop) }
{
    let problem = problem_in(alloc, shelf, file)?;
    Ok(searched(alloc, &problem)?)
}

/// What is likely not meant in the system in the file. The error is why there is no system with its pairs.
pub fn lint_file<S: Shelf>(alloc: Global, shelf: &mut S, file: &str) -> Result<Bytes, Or<Report>>
    ensures { IfBecause result (StandsBySystem (outside (S.held shelf.old) (S.faults shelf.old) (S.faults shelf.new)) file.now) }
{
    let problem = problem_in(alloc, shelf, file)?;
    let mut text = Text::new(alloc);
    text.say("What follows is no part of what is proved.\n");
    put_lints(alloc, &mut text, &problem.system)?;
    Ok(text.into_bytes()?)
}

/// The dependency graph of the system in the file. The error is why there is no system with its pairs.
pub fn graph_file<S: Shelf>(alloc: Global, shelf: &mut S, file: &str) -> Result<Bytes, Or<Report>>
    ensures { IfBecause result (StandsBySystem (outside (S.held shelf.old) (S.faults shelf.old) (S.faults shelf.new)) file.now) }
{
    let problem = problem_in(alloc, shelf, file)?;
    let mut text = Text::new(alloc);
    put_graph(alloc, &mut text, &problem.system, &problem.pairs)?;
    Ok(text.into_bytes()?)
}

// Searches for a certificate and explains what it finds, which is checked like a certificate from elsewhere.
fn searched(alloc: Global, problem: &Problem) -> Result<Bytes, AllocError>
    requires { HasPairs (system_data problem.now.system) (pairs_data problem.now.pairs) }
    ensures finds { IfOk result (Finds (system_data problem.now.system) (pairs_data problem.now.pairs)) }
    ensures means { IfOk result (Means (system_data problem.now.system)) }
{
    match prove(alloc, &problem.system, &problem.pairs, &USUAL)? {
        Answer::Yes(certificate) => weighed(alloc, problem, &certificate),
        Answer::No(certificate) => weighed(alloc, problem, &certificate),
        Answer::Maybe(cause) => {
            let mut text = opening(alloc)?;
            put_all_pairs(&mut text, problem);
            put_cause(alloc, &mut text, problem, &USUAL, &cause)?;
            headed(alloc, problem, Verdict::Open, text)
        }
    }
}

// The explanation of the text of a certificate.
fn explained(alloc: Global, problem: &Problem, bytes: &[u8]) -> Result<Bytes, AllocError>
    requires length { length bytes.now ≤ certificate_limit }
    requires pairs { HasPairs (system_data problem.now.system) (pairs_data problem.now.pairs) }
    ensures says { IfOk result (SaysOfBytes (system_data problem.now.system) (pairs_data problem.now.pairs) bytes.now) }
    ensures means { IfOk result (Means (system_data problem.now.system)) }
{
    match read_certificate(alloc, bytes) {
        Ok(certificate) => weighed(alloc, problem, &certificate),
        Err(Or::NoMemory) => Err(AllocError),
        Err(Or::Because(fault)) => {
            let report = Report::Rejected(NamedRejection::Syntax { at: fault.at });
            let mut text = opening(alloc)?;
            put_answer(alloc, &mut text, &report)?;
            put_all_pairs(&mut text, problem);
            headed(alloc, problem, verdict_of(&report), text)
        }
    }
}

// The explanation of a certificate by what the check says of it.
fn weighed(alloc: Global, problem: &Problem, certificate: &Certificate) -> Result<Bytes, AllocError>
    requires pairs { HasPairs (system_data problem.now.system) (pairs_data problem.now.pairs) }
    requires certificate { IsCert (said certificate.now) }
    ensures says { IfOk result (SaysOf (system_data problem.now.system) (pairs_data problem.now.pairs) (said certificate.now)) }
    ensures means { IfOk result (Means (system_data problem.now.system)) }
{
    problem.system.is_well_made();
    valid_certificates_mean_bounded();
    valid_claims_are_unbounded();
    let report = weigh(alloc, problem, certificate)?;
    let verdict = verdict_of(&report);
    let accepted = is_accepted(verdict);
    let mut text = opening(alloc)?;
    if !accepted {
        put_answer(alloc, &mut text, &report)?;
    }
    put_all_pairs(&mut text, problem);
    put_certificate(alloc, &mut text, problem, certificate, accepted)?;
    headed(alloc, problem, verdict, text)
}

// Whether it is that of a certificate that the check accepts.
fn is_accepted(verdict: Verdict) -> bool {
    matches!(verdict, Verdict::Proof | Verdict::Loop)
}

// Appends what a certificate says.
fn put_certificate(
    alloc: Global,
    text: &mut Text,
    problem: &Problem,
    certificate: &Certificate,
    accepted: bool,
) -> Result<(), AllocError>
    requires { HasPairs (system_data problem.now.system) (pairs_data problem.now.pairs) }
{
    match certificate {
        Certificate::Yes(certificate) => {
            put_ranks(alloc, text, &problem.system, certificate.ranks.as_slice())?;
            text.say(heading(accepted));
            put_tree(alloc, text, problem, certificate)
        }
        Certificate::No(certificate) => {
            if accepted {
                put_loop(alloc, text, &problem.system, certificate)
            } else {
                put_attempt(alloc, text, &problem.system, certificate)
            }
        }
    }
}

// What stands above the nodes of a certificate.
fn heading(accepted: bool) -> &'static str {
    if accepted { PROOF } else { CLAIM }
}

// The rest of the first line.
fn opening(alloc: Global) -> Result<Text, AllocError> {
    let mut text = Text::new(alloc);
    text.say(" What follows is no part of what is proved.\n");
    Ok(text)
}

// Appends the line that `check` writes.
fn put_answer(alloc: Global, text: &mut Text, report: &Report) -> Result<(), AllocError> {
    let line = print_answer(alloc, report)?;
    tell(text, "`./wanda check` says: @", &[Spell(line.as_slice())]);
    Ok(())
}

// Appends all pairs of the system.
fn put_all_pairs(text: &mut Text, problem: &Problem) {
    let pairs = problem.pairs.as_slice();
    tell(
        text,
        "\nWhich call leads to which (dependency pairs): @\n",
        &[Count(pairs.len())],
    );
    for (number, pair) in pairs.iter().enumerate() {
        put_pair_line(text, &problem.system, number_of(number), pair, 1);
    }
}

// The whole text: the word of the verdict, what was written behind it, and what is likely not meant.
fn headed(
    alloc: Global,
    problem: &Problem,
    verdict: Verdict,
    mut text: Text,
) -> Result<Bytes, AllocError>
    ensures { IfOk result (BeginsWith (first_words verdict)) }
{
    put_last(alloc, &mut text, &problem.system)?;
    let rest = text.into_bytes()?;
    joined(alloc, first_words(verdict), rest.as_slice())
}

// Appends what is likely not meant.
fn put_last(alloc: Global, text: &mut Text, system: &System) -> Result<(), AllocError> {
    text.say("\nWhat may not be meant:\n");
    put_lints(alloc, text, system)
}

// The two texts, one behind the other.
fn joined(alloc: Global, first: &[u8], second: &[u8]) -> Result<Bytes, AllocError>
    ensures { IfOk result (λ text. text ≡ first.now ++ second.now) }
{
    let mut text = Bytes::new(alloc);
    text.append(first)?;
    text.append(second)?;
    Ok(text)
}
