//! Judging a certificate for a system, and showing a system with its dependency pairs.

ghost use Rattle.std.specs.Prelude.{◌≡◌, ℕ, List, IfOk, codes};
ghost use Rattle.wh_types.specs.Outcome.{MatchOr};
ghost use Rattle.wh_system.specs.SystemView.{system_data};
ghost use Rattle.wh_pairs.specs.Views.{pairs_data};
ghost use Rattle.wh_pairs.specs.PairData.{PairData};
ghost use Rattle.wh_pairs.specs.SystemPairs.{HasPairs};
ghost use Rattle.wh_top_judging.specs.Outcomes.{BeginsWith, Stands, StandsBySystem, ToldSystem, Weighed, outside};
ghost use Rattle.wh_answer.specs.Texts.{line};
ghost use Rattle.wh_top_judging.specs.Texts.{IsShown, shown_text};
ghost use Rattle.wh_cert.specs.Limits.{IsCert};
ghost use Rattle.wh_cert.specs.Said.{said};
ghost use Rattle.wh_cert.specs.Written.{Cert};
ghost use Rattle.wh_checker_walk.specs.Walking.{Answers};

use crate::files::{Problem, problem_in};
use crate::streamed::judge_file;
use std::alloc::{AllocError, Global};
use wh_answer::Report;
use wh_cert::Certificate;
use wh_checker::{Accepted, CheckFault, check, rejections_name_what_is_there};
use wh_io::Shelf;
use wh_system::System;
use wh_system_print::{print_pairs, print_system, printed_systems_are_read_back};
use wh_top_naming::named_rejection;
use wh_types::{Bytes, Or};

/// Checks the certificate in the second file against the system in the first one. Both files are read, the second one
/// in pieces.
pub fn check_files<S: Shelf>(
    alloc: Global,
    shelf: &mut S,
    file: &str,
    cert: &str,
) -> Result<Report, Or<Report>>
    ensures stands { MatchOr result (Stands (outside (S.held shelf.old) (S.faults shelf.old) (S.faults shelf.new)) file.now cert.now)
        (Stands (outside (S.held shelf.old) (S.faults shelf.old) (S.faults shelf.new)) file.now cert.now) }
    ensures kept { (other : List ℕ) → S.held shelf.new other ≡ S.held shelf.old other }
{
    let problem = problem_in(alloc, shelf, file)?;
    judge_file(alloc, shelf, &problem, cert)
}

/// The text that shows the system in the file with its dependency pairs, or why there is none.
pub fn show_file<S: Shelf>(alloc: Global, shelf: &mut S, file: &str) -> Result<Bytes, Or<Report>>
    ensures shows { MatchOr result (λ text. ToldSystem (S.held shelf.old file.now) (IsShown text))
        (StandsBySystem (outside (S.held shelf.old) (S.faults shelf.old) (S.faults shelf.new)) file.now) }
    ensures begins { IfOk result (BeginsWith (line (codes "SYSTEM"))) }
    ensures kept { (other : List ℕ) → S.held shelf.new other ≡ S.held shelf.old other }
{
    let problem = problem_in(alloc, shelf, file)?;
    printed_systems_are_read_back(&problem.system);
    Ok(shown(alloc, &problem)?)
}

// The text that shows the system and its dependency pairs.
fn shown(alloc: Global, problem: &Problem) -> Result<Bytes, AllocError>
    requires { HasPairs (system_data problem.now.system) (pairs_data problem.now.pairs) }
    ensures { IfOk result (λ text. text ≡ shown_text (system_data problem.now.system) (pairs_data problem.now.pairs)) }
{
    let mut text = Bytes::new(alloc);
    text.append(b"SYSTEM\n")?;
    let system = print_system(alloc, &problem.system)?;
    text.append(system.as_slice())?;
    let pairs = print_pairs(alloc, &problem.system, &problem.pairs)?;
    text.append(pairs.as_slice())?;
    Ok(text)
}

/// The answer about a certificate that was read, for a system with its pairs: that it is accepted, or why it is not,
/// with names.
pub fn weigh(
    alloc: Global,
    problem: &Problem,
    certificate: &Certificate,
) -> Result<Report, AllocError>
    requires certificate { IsCert (said certificate.now) }
    requires pairs { HasPairs (system_data problem.now.system) (pairs_data problem.now.pairs) }
    ensures { IfOk result (Weighed (system_data problem.now.system) (pairs_data problem.now.pairs) (said certificate.now)) }
{
    match check(alloc, &problem.system, &problem.pairs, certificate) {
        Ok(accepted) => told_of_check(alloc, &problem.system, Ok(accepted)),
        Err(Or::Because(fault)) => told_of_check(alloc, &problem.system, Err(fault)),
        Err(Or::NoMemory) => Err(AllocError),
    }
}

/// The report of a check's answer about the system, with names in place of numbers.
pub fn told_of_check(
    alloc: Global,
    system: &System,
    checked: Result<Accepted, CheckFault>,
) -> Result<Report, AllocError>
    requires { (ps : List PairData) × (c : Cert) × Answers (system_data system.now) ps c checked }
    ensures { IfOk result (λ report. (ps : List PairData) (c : Cert) → Answers (system_data system.now) ps c checked
        → Weighed (system_data system.now) ps c report) }
{
    system.is_well_made();
    rejections_name_what_is_there();
    match checked {
        Ok(Accepted::Yes(_)) => Ok(Report::Yes),
        Ok(Accepted::No(_)) => Ok(Report::No),
        Err(CheckFault::Rejected(row)) => {
            Ok(Report::Rejected(named_rejection(alloc, system, &row)?))
        }
        Err(CheckFault::Overflow { node }) => Ok(Report::Overflow(node)),
        Err(CheckFault::TooLarge { node }) => Ok(Report::TooLarge(node)),
    }
}
