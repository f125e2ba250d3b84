//! Reading the two files: the system with its dependency pairs, and the bytes of the certificate.

ghost use Rattle.std.specs.Prelude.{◌≡◌, ◌≤◌, ℕ, List, IfOk, length};
ghost use Rattle.wh_types.specs.Limits.{certificate_limit};
ghost use Rattle.wh_types.specs.Outcome.{MatchOr};
ghost use Rattle.wh_io.specs.Outside.{Rose};
ghost use Rattle.wh_system.specs.SystemView.{system_data};
ghost use Rattle.wh_pairs.specs.SystemPairs.{HasPairs, HasTooManyPairs};
ghost use Rattle.wh_answer.specs.declared.report.ReasonWord.TheVariants as reason;
ghost use Rattle.wh_answer.specs.declared.report.Report.TheVariants.{Refused as refused_answer};
ghost use Rattle.wh_top_judging.specs.Outcomes.{AreWithin, IsProblemIn, IsSystemIn, StandsBySystem, StandsByText, Told, UnreadBy, outside};
ghost use Rattle.wh_top_judging.specs.Unread.{CertificateFault, RefusedBy};
ghost use Rattle.wh_pairs.specs.Views.{pairs_data};
ghost use Rattle.wh_types.specs.declared.want.Or.TheVariants.{NoMemory, Because};

use std::alloc::Global;
use wh_answer::{ReasonWord, Report, Role};
use wh_io::{ReadFault, Shelf, read_whole};
use wh_pairs::PairList;
use wh_pairs_making::pairs;
use wh_read::{Refused, read_system};
use wh_system::System;
use wh_top_naming::word_of;
use wh_types::{Bytes, Or};

/// How many bytes a system file may have.
const SYSTEM_LIMIT: u64 = 1_048_576;

/// How many bytes a certificate file may have.
pub const CERTIFICATE_LIMIT: u64 = 8_388_608;

/// A system and its dependency pairs, as a command needs them.
#[derive(Drop)]
pub struct Problem {
    /// The system.
    pub system: System,
    /// All its dependency pairs, in order.
    pub pairs: PairList,
}

/// The system whose text the file of that name is, with its dependency pairs, or why there is none.
pub fn problem_in<S: Shelf>(alloc: Global, shelf: &mut S, file: &str) -> Result<Problem, Or<Report>>
    ensures read { MatchOr result
        (λ problem. IsProblemIn (S.held shelf.old file.now) (system_data problem.system) (pairs_data problem.pairs))
        (StandsBySystem (outside (S.held shelf.old) (S.faults shelf.old) (S.faults shelf.new)) file.now) }
    ensures later { (other : List ℕ) → S.faults shelf.old other ≤ S.faults shelf.new other }
    ensures kept { (other : List ℕ) → S.held shelf.new other ≡ S.held shelf.old other }
{
    let system = system_in(alloc, shelf, file)?;
    let pairs = pairs_of(alloc, &system)?;
    Ok(Problem { system, pairs })
}

/// The dependency pairs of a system, or that they are too many.
pub fn pairs_of(alloc: Global, system: &System) -> Result<PairList, Or<Report>>
    ensures { MatchOr result (λ list. HasPairs (system_data system.now) (pairs_data list))
        (λ o. (o ≡ refused_answer reason.TooManyPairs 0) × HasTooManyPairs (system_data system.now)) }
{
    match pairs(alloc, system) {
        Ok(list) => Ok(list),
        Err(Or::NoMemory) => Err(Or::NoMemory),
        Err(Or::Because(_)) => Err(Or::Because(Report::Refused(ReasonWord::TooManyPairs, 0))),
    }
}

/// The system whose text the file of that name is, or why there is none. Its pairs are not looked at.
pub fn system_in<S: Shelf>(alloc: Global, shelf: &mut S, file: &str) -> Result<System, Or<Report>>
    ensures read { MatchOr result (λ system. IsSystemIn (S.held shelf.old file.now) (system_data system))
        (StandsByText (outside (S.held shelf.old) (S.faults shelf.old) (S.faults shelf.new)) file.now) }
    ensures later { (other : List ℕ) → S.faults shelf.old other ≤ S.faults shelf.new other }
    ensures kept { (other : List ℕ) → S.held shelf.new other ≡ S.held shelf.old other }
{
    match read_whole(alloc, shelf, file, SYSTEM_LIMIT) {
        Ok(bytes) => read_system(alloc, bytes.as_slice()).map_err(refused),
        Err(fault) => Err(unread(fault, Role::System)),
    }
}

/// The bytes of the certificate file of that name, or why there are none.
pub fn certificate_in<S: Shelf>(
    alloc: Global,
    shelf: &mut S,
    cert: &str,
) -> Result<Bytes, Or<Report>>
    ensures read { MatchOr result (λ bytes. Told (S.held shelf.old cert.now) (AreWithin certificate_limit bytes))
        (CertificateFault (S.held shelf.old cert.now) (S.faults shelf.old cert.now) (S.faults shelf.new cert.now)) }
    ensures short { IfOk result (λ bytes. length bytes ≤ certificate_limit) }
    ensures kept { (other : List ℕ) → S.held shelf.new other ≡ S.held shelf.old other }
{
    match read_whole(alloc, shelf, cert, CERTIFICATE_LIMIT) {
        Ok(bytes) => Ok(bytes),
        Err(fault) => Err(unread(fault, Role::Certificate)),
    }
}

/// The answer where that file was not read.
pub fn unread(fault: Or<ReadFault>, role: Role) -> Or<Report>
    ensures { UnreadBy fault role result }
{
    match fault {
        Or::NoMemory => Or::NoMemory,
        Or::Because(ReadFault::Failed) => Or::Because(Report::ReadFault(role)),
        Or::Because(ReadFault::TooLong) => Or::Because(Report::TooLong(role)),
    }
}

// The answer where a text is refused.
fn refused(fault: Or<Refused>) -> Or<Report>
    ensures { RefusedBy fault result }
{
    match fault {
        Or::NoMemory => Or::NoMemory,
        Or::Because(refused) => Or::Because(Report::Refused(word_of(&refused.reason), refused.at)),
    }
}
