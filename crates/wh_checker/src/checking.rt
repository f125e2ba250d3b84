//! The check of a whole certificate over a system. `check` is the main function.

ghost use Rattle.std.specs.Prelude.{◌≡◌, ◌≤◌, IfErr, IfOk, List, OnOk, length, map};
ghost use Rattle.wh_types.specs.Outcome.{IfBecause, MatchOr};
ghost use Rattle.wh_system.specs.SystemView.{system_data};
ghost use Rattle.wh_access.specs.Passing.{IsPassing};
ghost use Rattle.wh_pairs.specs.SystemPairs.{HasPairs};
ghost use Rattle.wh_pairs.specs.Views.{pairs_data};
ghost use Rattle.wh_cert.specs.Limits.{IsCert};
ghost use Rattle.wh_cert.specs.Written as w;
ghost use Rattle.wh_cert.specs.Said.{said, said_node, said_no, said_yes};
ghost use Rattle.wh_checker.specs.Accepted.{AreBounded, IsAccepted, IsMeant};
ghost use Rattle.wh_polycheck.specs.Small.{with_limits};
ghost use Rattle.wh_checker.specs.Faults.{IsFirstFault, IsFirstYesFault};
ghost use Rattle.wh_proof.specs.Small.{IsSmallYes};
ghost use Rattle.wh_proof.specs.Valid.{IsSmallCert, IsValidYes};
ghost use Rattle.wh_checker.specs.Walk.{HasBegun, IsPassingUnder, IsRankFault};
ghost use Rattle.wh_checker.specs.declared.rejected.CheckFault.TheVariants.{Rejected as refusal};
ghost use Rattle.wh_checker.specs.declared.rejected.Rejected as row;

use crate::rejected::{CheckFault, Rejected, of_claim};
use crate::walk::check_nodes;
use std::alloc::Global;
use wh_access::{Inaccessible, check_ranks};
use wh_cert::{Certificate, NoCertificate, YesCertificate};
use wh_no::{AcceptedNo, check_no, valid_claims_are_unbounded};
use wh_pairs::{PairList, PairSet, numbers_below};
use wh_poly_meaning::pairs_have_marked_sides;
use wh_proof_nodes::proved_systems_are_bounded;
use wh_system::System;
use wh_types::{Or, Ranks};

/// An accepted certificate.
#[derive(Clone, Copy)]
pub enum Accepted {
    /// Every well-typed term is bounded: it has a number that no reduction from it exceeds in length.
    Yes(AcceptedYes),
    /// There are reductions of every length.
    No(AcceptedNo),
}

/// An accepted YES certificate.
#[derive(Clone, Copy)]
pub struct AcceptedYes {
    /// The number of the certificate's nodes.
    pub nodes: u32,
}

/// Checks a certificate over a system and its dependency pairs. It is accepted exactly where it is valid and no value
/// exceeds a limit in a side that a node of interpretations evaluates; else the first condition that is false is named,
/// or the first node in which a value exceeds a limit before that. The certificate is one that `read_certificate`
/// gives. Where the answer is YES, each well-typed term over the system is bounded: it has a number that no reduction
/// from it exceeds in length; where it is NO, the term of the certificate has reductions of every length (Kop 2012;
/// Fuhs and Kop 2019).
pub fn check(
    alloc: Global,
    system: &System,
    pairs: &PairList,
    certificate: &Certificate,
) -> Result<Accepted, Or<CheckFault>>
    requires pairs { HasPairs (system_data system.now) (pairs_data pairs.now) }
    requires certificate { IsCert (said certificate.now) }
    ensures accepted { IfOk result (IsAccepted (system_data system.now) (pairs_data pairs.now) (said certificate.now)) }
    ensures small { OnOk result (IsSmallCert (system_data system.now) (pairs_data pairs.now) (said certificate.now)) }
    ensures rejected { IfBecause result (IsFirstFault with_limits (system_data system.now) (pairs_data pairs.now) (said certificate.now)) }
    ensures meaning { IfOk result (IsMeant (system_data system.now) (said certificate.now)) }
{
    system.is_well_made();
    valid_claims_are_unbounded();
    match certificate {
        Certificate::Yes(certificate) => {
            check_yes(alloc, system, pairs, certificate)?;
            Ok(Accepted::Yes(AcceptedYes {
                nodes: certificate.nodes.as_slice().len() as u32,
            }))
        }
        Certificate::No(certificate) => match check_no(alloc, system, certificate) {
            Ok(accepted) => Ok(Accepted::No(accepted)),
            Err(Or::Because(fault)) => Err(Or::Because(CheckFault::Rejected(of_claim(fault)))),
            Err(Or::NoMemory) => Err(Or::NoMemory),
        },
    }
}

// Checks the parts of a YES certificate: its ranks, its count of the pairs, its nodes.
fn check_yes(
    alloc: Global,
    system: &System,
    pairs: &PairList,
    certificate: &YesCertificate,
) -> Result<(), Or<CheckFault>>
    requires pairs { HasPairs (system_data system.now) (pairs_data pairs.now) }
    requires certificate { IsCert (said_yes certificate.now) }
    ensures valid { OnOk result (IsValidYes (system_data system.now) (pairs_data pairs.now) certificate.now.ranks certificate.now.pairs
        (map said_node certificate.now.nodes)) }
    ensures small { OnOk result (IsSmallYes (system_data system.now) (pairs_data pairs.now) (map said_node certificate.now.nodes)) }
    ensures fault { IfBecause result (IsFirstYesFault with_limits (system_data system.now)
        (pairs_data pairs.now) certificate.now.ranks certificate.now.pairs (map said_node certificate.now.nodes)) }
    ensures bounded { OnOk result (AreBounded (system_data system.now)) }
{
    system.is_well_made();
    pairs_have_marked_sides();
    proved_systems_are_bounded();
    let ranks = certificate.ranks.as_slice();
    let whole = check_head(alloc, system, pairs, ranks, certificate.pairs)?;
    check_nodes(alloc, system, pairs, whole, certificate.nodes.as_slice())
}

/// The set of all pairs, which the nodes of a YES certificate with these ranks and this number of pairs have to prove.
/// The fault is that of the ranks, or that there is another number of pairs.
pub fn check_head(
    alloc: Global,
    system: &System,
    pairs: &PairList,
    ranks: &[u32],
    count: u32,
) -> Result<PairSet, Or<CheckFault>>
    requires { HasPairs (system_data system.now) (pairs_data pairs.now) }
    ensures { MatchOr result (HasBegun (system_data system.now) (pairs_data pairs.now) ranks.now count)
        (λ f. (lines : List w.Node) → IsFirstYesFault with_limits (system_data system.now) (pairs_data pairs.now) ranks.now count lines f) }
{
    check_passing(alloc, system, ranks)?;
    let number = pairs.as_slice().len() as u32;
    if count != number {
        return Err(Or::Because(CheckFault::Rejected(Rejected::PairCount { pairs: number })));
    }
    let whole = numbers_below(alloc, number)?;
    Ok(whole)
}

// Whether there is one rank for each sort, and the system is passing under the ranks.
fn check_passing(alloc: Global, system: &System, ranks: &[u32]) -> Result<(), Or<CheckFault>>
    ensures { MatchOr result (λ _. IsPassingUnder (system_data system.now) ranks.now)
        (λ f. (r : row.Rejected) × (f ≡ refusal r) × IsRankFault (system_data system.now) ranks.now r) }
{
    if ranks.len() != system.signature().sorts as usize {
        return Err(Or::Because(CheckFault::Rejected(Rejected::RankCount)));
    }
    let ranks = Ranks::new(alloc, ranks)?;
    if let Err(Inaccessible { rule, meta }) = check_ranks(system, &ranks) {
        let row = Rejected::Inaccessible { rule, meta };
        return Err(Or::Because(CheckFault::Rejected(row)));
    }
    Ok(())
}
