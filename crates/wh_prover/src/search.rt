//! The search: a short search for a loop first, then one for a proof, and then one for any loop. `prove` is the main
//! function.

ghost use Rattle.std.specs.Prelude.{◌≡◌, ◌≤◌, All, IfOk, MatchResult, length};
ghost use Rattle.wh_types.specs.Limits.{greatest_number};
ghost use Rattle.wh_access.specs.Passing.{IsPassing};
ghost use Rattle.wh_pairs.specs.SystemPairs.{HasPairs};
ghost use Rattle.wh_pairs.specs.Views.{pairs_data};
ghost use Rattle.wh_system.specs.SystemView.{system_data};
ghost use Rattle.wh_cert.specs.Said.{said};
ghost use Rattle.wh_prover.specs.Answers.{HasNoProof, IsAnswer, IsProof};

use crate::answer::{Answer, Cause, Options};
use crate::node::Setting;
use crate::numbers::numbers_of_ranks;
use crate::walk::walk;
use std::alloc::{AllocError, Global};
use wh_access::find_ranks;
use wh_cert::{Certificate, Nodes};
use wh_cert_versions::certificate_of;
use wh_find_loop::{LoopSearch, find_loop};
use wh_graph::Graph;
use wh_pairs::{PairList, numbers_below};
use wh_system::System;
use wh_types::{Or, Ranks};

// How many terms a first, short search for loops keeps at most. It comes before the search for a proof, which may take
// long where there is a loop.
const FIRST_VISITED: u32 = 50;

/// A proof that every well-typed term of the system is bounded, or a loop, or why the search gave up.
///
/// `Yes` is a certificate that is valid and within the limits of its format, and no value exceeds a limit where it is
/// checked. `No` is a certificate of a loop of at most `depth` steps from the left side of a rule. `Maybe` names a set
/// on which the search ended, or why there are no ranks; it comes only where no loop was found: there is none of at
/// most `depth` steps in the space and fewer terms are reached than `visited`, or the list of visited terms is full.
pub fn prove(
    alloc: Global,
    system: &System,
    pairs: &PairList,
    options: &Options,
) -> Result<Answer, AllocError>
    requires pairs { HasPairs (system_data system.now) (pairs_data pairs.now) }
    ensures { IfOk result (IsAnswer (system_data system.now) (pairs_data pairs.now) options.now) }
{
    let first = options.visited.min(FIRST_VISITED);
    match find_loop(alloc, system, options.depth, first)? {
        LoopSearch::Found(found) => Ok(Answer::No(Certificate::No(found))),
        LoopSearch::Nothing | LoopSearch::Full(_) => search(alloc, system, pairs, options),
    }
}

// Searches for a proof, and then for any loop, where the short search found no loop.
fn search(
    alloc: Global,
    system: &System,
    pairs: &PairList,
    options: &Options,
) -> Result<Answer, AllocError>
    requires pairs { HasPairs (system_data system.now) (pairs_data pairs.now) }
    ensures { IfOk result (IsAnswer (system_data system.now) (pairs_data pairs.now) options.now) }
{
    let found = match find_ranks(alloc, system) {
        Ok(ranks) => prove_under(alloc, system, pairs, options.tries, &ranks)?,
        Err(Or::Because(cause)) => Err(Cause::NoRanks(cause)),
        Err(Or::NoMemory) => return Err(AllocError),
    };
    match found {
        Ok(certificate) => Ok(Answer::Yes(certificate)),
        Err(cause) => disprove(alloc, system, pairs, options, cause),
    }
}

// A proof under ranks that were found, or why there is none.
fn prove_under(
    alloc: Global,
    system: &System,
    pairs: &PairList,
    tries: u64,
    ranks: &Ranks,
) -> Result<Result<Certificate, Cause>, AllocError>
    requires pairs { HasPairs (system_data system.now) (pairs_data pairs.now) }
    requires passing { IsPassing (system_data system.now) ranks.now }
    requires each { length ranks.now ≡ (system_data system.now).symbols.sorts }
    requires low { All (λ r. r ≤ greatest_number) ranks.now }
    ensures { IfOk result (λ found. MatchResult found (λ certificate. IsProof (system_data system.now) (pairs_data pairs.now)
        (said certificate)) (HasNoProof (system_data system.now) (pairs_data pairs.now) tries)) }
{
    system.is_well_made();
    let count = pairs.as_slice().len() as u32;
    let graph = Graph::new(alloc, system, pairs)?;
    let whole = numbers_below(alloc, count)?;
    let mut nodes = Nodes::new(alloc);
    let setting = Setting {
        system,
        pairs,
        tries,
    };
    if let Some(cause) = walk(alloc, &setting, &graph, whole, &mut nodes)? {
        return Ok(Err(cause));
    }
    let rules = system.rules().len() as u32;
    let listed = numbers_of_ranks(alloc, ranks)?;
    let certificate = certificate_of(alloc, listed, count, rules, nodes)?;
    Ok(Ok(Certificate::Yes(certificate)))
}

// A loop, or why there is neither a proof nor a loop. A search for loops that is full outweighs only that nothing lets
// a pair go.
fn disprove(
    alloc: Global,
    system: &System,
    pairs: &PairList,
    options: &Options,
    cause: Cause,
) -> Result<Answer, AllocError>
    requires no_proof { HasNoProof (system_data system.now) (pairs_data pairs.now) options.now.tries cause }
    ensures { IfOk result (IsAnswer (system_data system.now) (pairs_data pairs.now) options.now) }
{
    match find_loop(alloc, system, options.depth, options.visited)? {
        LoopSearch::Found(certificate) => Ok(Answer::No(Certificate::No(certificate))),
        LoopSearch::Nothing => Ok(Answer::Maybe(cause)),
        LoopSearch::Full(visits) => match cause {
            Cause::Stuck(_) => Ok(Answer::Maybe(Cause::Full(visits))),
            other => Ok(Answer::Maybe(other)),
        },
    }
}
