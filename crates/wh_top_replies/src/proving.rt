//! The reply to `prove`: a certificate of termination of the system in a file, or of a loop, or why there is neither.

ghost use Rattle.std.specs.Prelude.{◌≡◌, ◌≤◌, ◌<◌, ◌⊎◌, ℕ, All, List, IfOk, length, map, codes};
ghost use Rattle.wh_types.specs.Limits.{certificate_limit};
ghost use Rattle.wh_types.specs.Outcome.{MatchOr};
ghost use Rattle.wh_system.specs.SystemView.{system_data};
ghost use Rattle.wh_pairs.specs.SystemPairs.{HasPairs};
ghost use Rattle.wh_pairs.specs.Views.{pairs_data};
ghost use Rattle.wh_top_judging.specs.Outcomes.{BeginsWith, ToldSystem, outside};
ghost use Rattle.wh_top_replies.specs.Proving.{CauseIsThere, IsFoundText, IsNotFound, StandsForSearch};
ghost use Rattle.wh_top_naming.specs.Rows.{sort_name};
ghost use Rattle.wh_top_replies.specs.Causes.{finder_named, named_cause};

use std::alloc::{AllocError, Global};
use wh_access::NoRanks;
use wh_answer::{NamedCause, NamedFinder, Names, Report};
use wh_io::Shelf;
use wh_prover::{Answer, Cause, Finder, Options, prove};
use wh_system::System;
use wh_text::Name;
use wh_top_judging::{Problem, problem_in};
use wh_top_naming::meta_name;
use wh_top_upgrading::certificate_text;
use wh_types::{Bytes, Numbers, Or};

/// The text of a proof of termination of the system in the file, or of a loop, or why there is neither.
pub fn prove_file<S: Shelf>(
    alloc: Global,
    shelf: &mut S,
    file: &str,
    options: &Options,
) -> Result<Bytes, Or<Report>>
    ensures found { MatchOr result (λ text. ToldSystem (S.held shelf.old file.now) (λ d ps. IsFoundText d ps options.now text))
        (StandsForSearch (outside (S.held shelf.old) (S.faults shelf.old) (S.faults shelf.new)) file.now options.now) }
    ensures begins { IfOk result (λ text. BeginsWith (codes "YES ") text ⊎ BeginsWith (codes "NO 1") text) }
    ensures within { IfOk result (λ text. length text ≤ certificate_limit) }
    ensures kept { (other : List ℕ) → S.held shelf.new other ≡ S.held shelf.old other }
{
    let problem = problem_in(alloc, shelf, file)?;
    found_text(alloc, &problem, options)
}

/// The text of what the search finds for a problem that was read, or why it finds nothing.
pub fn found_text(alloc: Global, problem: &Problem, options: &Options) -> Result<Bytes, Or<Report>>
    requires pairs { HasPairs (system_data problem.now.system) (pairs_data problem.now.pairs) }
    ensures found { MatchOr result (IsFoundText (system_data problem.now.system) (pairs_data problem.now.pairs) options.now)
        (IsNotFound (system_data problem.now.system) (pairs_data problem.now.pairs) options.now) }
    ensures begins { IfOk result (λ text. BeginsWith (codes "YES ") text ⊎ BeginsWith (codes "NO 1") text) }
    ensures within { IfOk result (λ text. length text ≤ certificate_limit) }
{
    problem.system.is_well_made();
    match prove(alloc, &problem.system, &problem.pairs, options)? {
        Answer::Yes(certificate) => certificate_text(alloc, &certificate),
        Answer::No(certificate) => certificate_text(alloc, &certificate),
        Answer::Maybe(cause) => {
            let named = name_cause(alloc, &problem.system, &cause)?;
            Err(Or::Because(Report::Maybe(named)))
        }
    }
}

/// Why nothing was found, with names in place of numbers. A list of clauses or of terms is told by its length.
pub fn name_cause(alloc: Global, system: &System, cause: &Cause) -> Result<NamedCause, AllocError>
    requires { CauseIsThere (system_data system.now) cause.now }
    ensures { IfOk result (λ named. named ≡ named_cause (system_data system.now) cause.now) }
{
    match cause {
        Cause::NoRanks(NoRanks::Unread { rule, meta }) => Ok(NamedCause::Meta {
            rule: *rule,
            name: meta_name(alloc, system, *rule, *meta)?,
        }),
        Cause::NoRanks(NoRanks::Cycle(sorts)) => {
            Ok(NamedCause::Sorts(sort_names(alloc, system, sorts.as_slice())?))
        }
        Cause::Stuck(set) => Ok(NamedCause::Stuck(copied(alloc, set.as_slice())?)),
        Cause::Spent { finder, list, .. } => Ok(NamedCause::Spent {
            by: named_finder(*finder),
            count: list.as_slice().len() as u64,
        }),
        Cause::Full(visits) => Ok(NamedCause::Spent {
            by: NamedFinder::Loop,
            count: visits.as_slice().len() as u64,
        }),
    }
}

// The word for what searched.
fn named_finder(finder: Finder) -> NamedFinder
    ensures { result ≡ finder_named finder }
{
    match finder {
        Finder::Subterm => NamedFinder::Subterm,
        Finder::Poly => NamedFinder::Poly,
        Finder::Order => NamedFinder::Order,
    }
}

// The names of the sorts.
fn sort_names(alloc: Global, system: &System, sorts: &[u32]) -> Result<Names, AllocError>
    requires { All (λ s. s < length (system_data system.now).sort_names) sorts.now }
    ensures { IfOk result (λ names. names ≡ map (sort_name (system_data system.now)) sorts.now) }
{
    let mut names = Names::new(alloc);
    for sort in sorts {
        let name = system.sort_names()[*sort as usize].bytes();
        names.push(Name::new(alloc, name)?)?;
    }
    Ok(names)
}

// A list of its own with these numbers.
fn copied(alloc: Global, numbers: &[u32]) -> Result<Numbers, AllocError>
    ensures { IfOk result (λ list. list ≡ numbers.now) }
{
    let mut list = Numbers::new(alloc);
    for number in numbers {
        list.push(*number)?;
    }
    Ok(list)
}
