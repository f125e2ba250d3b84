//! Judging a certificate piece by piece: its file is never held whole.

ghost use Rattle.std.specs.Prelude.{◌≡◌, ◌∷◌, ◌++◌, ◌+◌, ◌-◌, ◌<◌, ◌≤◌, ◌^◌, [], ℕ, List, IfOk, OnOk, length, take, vec_len};
ghost use Rattle.wh_types.specs.Limits.{certificate_limit};
ghost use Rattle.wh_types.specs.Outcome.{MatchOr};
ghost use Rattle.wh_system.specs.SystemView.{system_data};
ghost use Rattle.wh_system.specs.Systems.{SystemData};
ghost use Rattle.wh_pairs.specs.PairData.{PairData};
ghost use Rattle.wh_pairs.specs.SystemPairs.{HasPairs};
ghost use Rattle.wh_pairs.specs.Views.{pairs_data};
ghost use Rattle.wh_top_judging.specs.Outcomes.{Judged};
ghost use Rattle.wh_top_judging.specs.Streamed.{HasComeTo, IsJudgedIn};
ghost use Rattle.wh_top_judging.specs.Unread.{CertificateFault};

use crate::files::{CERTIFICATE_LIMIT, Problem, unread};
use crate::judging::told_of_check;
use std::alloc::{AllocError, Global};
use wh_answer::{NamedRejection, Report, Role};
use wh_cert_text::{CertReader, Portion};
use wh_checker_walk::Walk;
use wh_io::{Next, Pieces, Shelf};
use wh_types::Or;

/// How many bytes are read at once.
const PIECE: usize = 4096;

/// A certificate that is judged as its bytes come. Each item is looked at once its lines are whole, and not kept.
#[derive(Drop)]
pub struct Judge {
    reader: CertReader,
    walk: Walk,
}

impl Judge {
    /// The judge before the first byte.
    pub fn new(alloc: Global) -> Judge
        ensures { (d : SystemData) (ps : List PairData) → HasComeTo d ps result [] }
    {
        Judge {
            reader: CertReader::new(alloc),
            walk: Walk::new(alloc),
        }
    }

    /// Takes all of these bytes.
    pub fn take_all(&mut self, problem: &Problem, piece: &[u8]) -> Result<(), AllocError>
        requires pairs { HasPairs (system_data problem.now.system) (pairs_data problem.now.pairs) }
        requires few { (bytes : List ℕ) × HasComeTo (system_data problem.now.system) (pairs_data problem.now.pairs) self.old bytes
            × (length bytes + length piece.now < 2 ^ 32) }
        ensures { OnOk result ((bytes : List ℕ) → HasComeTo (system_data problem.now.system) (pairs_data problem.now.pairs) self.old bytes
            → length bytes + length piece.now < 2 ^ 32
            → HasComeTo (system_data problem.now.system) (pairs_data problem.now.pairs) self.new (bytes ++ piece.now)) }
    {
        let mut at = 0;
        while at < piece.len() {
            at += self.take(problem, &piece[at..])?;
        }
        Ok(())
    }

    /// Takes bytes up to the last one of an item, or all of them; the answer is how many were taken.
    fn take(&mut self, problem: &Problem, bytes: &[u8]) -> Result<usize, AllocError>
        requires pairs { HasPairs (system_data problem.now.system) (pairs_data problem.now.pairs) }
        requires few { (before : List ℕ) × HasComeTo (system_data problem.now.system) (pairs_data problem.now.pairs) self.old before
            × (length before + length bytes.now < 2 ^ 32) }
        requires some { 0 < length bytes.now }
        ensures count { IfOk result (λ count. (0 < count) × (count ≤ length bytes.now)) }
        ensures come { IfOk result (λ count. (before : List ℕ)
            → HasComeTo (system_data problem.now.system) (pairs_data problem.now.pairs) self.old before
            → length before + length bytes.now < 2 ^ 32
            → HasComeTo (system_data problem.now.system) (pairs_data problem.now.pairs) self.new (before ++ take count bytes.now)) }
    {
        let portion = match self.reader.feed_some(bytes) {
            Ok(portion) => portion,
            Err(Or::Because(_)) => return Ok(bytes.len()),
            Err(Or::NoMemory) => return Err(AllocError),
        };
        let Portion { taken, item } = portion;
        match item {
            None => Ok(taken),
            Some(item) => {
                self.walk.take(&problem.system, &problem.pairs, item)?;
                Ok(taken)
            }
        }
    }

    /// The report on the certificate, where all its bytes were taken.
    pub fn finish(self, alloc: Global, problem: &Problem) -> Result<Report, AllocError>
        requires pairs { HasPairs (system_data problem.now.system) (pairs_data problem.now.pairs) }
        requires few { (bytes : List ℕ) × HasComeTo (system_data problem.now.system) (pairs_data problem.now.pairs) self bytes
            × (length bytes < 2 ^ 32) }
        ensures { IfOk result (λ report. (bytes : List ℕ)
            → HasComeTo (system_data problem.now.system) (pairs_data problem.now.pairs) self bytes → length bytes < 2 ^ 32
            → Judged (system_data problem.now.system) (pairs_data problem.now.pairs) bytes report) }
    {
        match self.reader.finish() {
            Ok(()) => told_of_check(alloc, &problem.system, self.walk.finish()),
            Err(fault) => Ok(Report::Rejected(NamedRejection::Syntax { at: fault.at })),
        }
    }
}

/// The report on the certificate in the file of that name, for the system, or why its file was not read. A fault of the
/// file comes before all faults of its bytes.
pub fn judge_file<S: Shelf>(
    alloc: Global,
    shelf: &mut S,
    problem: &Problem,
    cert: &str,
) -> Result<Report, Or<Report>>
    requires { HasPairs (system_data problem.now.system) (pairs_data problem.now.pairs) }
    ensures judged { MatchOr result
        (IsJudgedIn (S.held shelf.old cert.now) (system_data problem.now.system) (pairs_data problem.now.pairs))
        (CertificateFault (S.held shelf.old cert.now) (S.faults shelf.old cert.now) (S.faults shelf.new cert.now)) }
    ensures kept { (other : List ℕ) → S.held shelf.new other ≡ S.held shelf.old other }
{
    let mut judge = Judge::new(alloc);
    let mut buffer = zeros(alloc, PIECE)?;
    let mut pieces = Pieces::new(CERTIFICATE_LIMIT);
    loop {
        let piece = &mut buffer[..];
        match pieces.next(shelf, cert, piece) {
            Ok(Next::Bytes(count)) => judge.take_all(problem, &piece[..count])?,
            Ok(Next::End) => return Ok(judge.finish(alloc, problem)?),
            Err(fault) => return Err(unread(Or::Because(fault), Role::Certificate)),
        }
    }
}

/// A buffer of that size, on the heap.
fn zeros(alloc: Global, size: usize) -> Result<Vec<u8>, AllocError>
    ensures { IfOk result (λ buffer. vec_len buffer ≡ size) }
{
    vec![in alloc; 0u8; size]
}
