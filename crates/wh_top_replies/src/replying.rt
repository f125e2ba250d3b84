//! The reply to each command: `reply_to` calls the function of the command.

ghost use Rattle.std.specs.Prelude.{◌≡◌, ℕ, List, IfOk};
ghost use Rattle.wh_top_words.specs.Asked.{bounds_of, request};
ghost use Rattle.wh_top_words.specs.Words.{Asks};
ghost use Rattle.wh_answer.specs.Texts.{report_text};
ghost use Rattle.wh_top_judging.specs.Outcomes.{outside};
ghost use Rattle.wh_top_replies.specs.Run.{Replies};
ghost use Rattle.wh_top_judging.specs.Texts.{TellsMade};
ghost use Rattle.wh_top_naming.specs.Status.{status_of};
ghost use Rattle.wh_top_replies.specs.Refuting.{options_with};
ghost use Rattle.wh_top_replies.specs.Words.{options_of};
ghost use Rattle.wh_top_naming.specs.declared.status.Status.TheVariants.{Answered};

use crate::generating::generated;
use crate::proving::prove_file;
use crate::reducing::reduce_file;
use crate::refuting::refute_file;
use std::alloc::{AllocError, Global};
use wh_answer::{Report, print_answer};
use wh_io::Shelf;
use wh_prover::Options;
use wh_top_judging::{check_files, show_file};
use wh_top_naming::{Status, status_of};
use wh_top_upgrading::upgrade_files;
use wh_top_words::{Command, Limits};
use wh_types::{Bytes, Or};

/// A status and the text that goes with it.
#[derive(Drop)]
pub struct Reply {
    /// How the run ends, where all of the text is written.
    pub status: Status,
    /// What is written.
    pub text: Bytes,
}

/// The reply to a command; want of memory is the only cause why there is none.
pub fn reply_to<S: Shelf>(
    alloc: Global,
    shelf: &mut S,
    command: &Command,
) -> Result<Reply, AllocError>
    requires { (words : List (List ℕ)) × Asks words (request command.now) }
    ensures served { IfOk result (λ reply.
        Replies (outside (S.held shelf.old) (S.faults shelf.old) (S.faults shelf.new)) (request command.now) reply.status reply.text) }
    ensures kept { (other : List ℕ) → S.held shelf.new other ≡ S.held shelf.old other }
{
    match command {
        Command::Check { file, cert } => match check_files(alloc, shelf, file, cert) {
            Ok(report) | Err(Or::Because(report)) => told(alloc, report),
            Err(Or::NoMemory) => Err(AllocError),
        },
        Command::Prove { file, limits } => {
            let options = options_of(limits);
            reply_with(alloc, prove_file(alloc, shelf, file, &options))
        }
        Command::Show { file } => reply_with(alloc, show_file(alloc, shelf, file)),
        Command::Gen { n } => reply_with(alloc, generated(alloc, *n)),
        Command::Reduce { file, term, steps } => {
            reply_with(alloc, reduce_file(alloc, shelf, file, term, *steps))
        }
        Command::Upgrade { file, cert } => {
            reply_with(alloc, upgrade_files(alloc, shelf, file, cert))
        }
        Command::Refute { file, tries } => {
            let options = options_with(*tries);
            reply_with(alloc, refute_file(alloc, shelf, file, &options))
        }
    }
}

// The reply with the text that was made, or with the answer why there is none.
fn reply_with(alloc: Global, made: Result<Bytes, Or<Report>>) -> Result<Reply, AllocError>
    ensures { IfOk result (λ reply. TellsMade made reply.status reply.text) }
{
    match made {
        Ok(text) => Ok(answered(text)),
        Err(Or::Because(report)) => told(alloc, report),
        Err(Or::NoMemory) => Err(AllocError),
    }
}

// The bounds of a search.
fn options_of(limits: &Limits) -> Options
    ensures { result ≡ options_of (bounds_of limits.now) }
{
    Options {
        tries: limits.tries,
        depth: limits.depth,
        visited: limits.visited,
    }
}

// The usual bounds of a search, with this number of tries.
fn options_with(tries: u64) -> Options
    ensures { result ≡ options_with tries }
{
    Options {
        tries,
        depth: 6,
        visited: 500,
    }
}

// The reply that is a text of its own.
fn answered(text: Bytes) -> Reply
    ensures status { result.status ≡ Answered }
    ensures text { result.text ≡ text }
{
    Reply {
        status: Status::Answered,
        text,
    }
}

// The reply that tells an answer. That is dropped in here alone, since its many kinds make that long.
fn told(alloc: Global, report: Report) -> Result<Reply, AllocError>
    ensures status { IfOk result (λ reply. reply.status ≡ status_of report) }
    ensures text { IfOk result (λ reply. reply.text ≡ report_text report) }
{
    reply_of(alloc, &report)
}

// The reply that tells an answer which is kept.
fn reply_of(alloc: Global, report: &Report) -> Result<Reply, AllocError>
    ensures status { IfOk result (λ reply. reply.status ≡ status_of report.now) }
    ensures text { IfOk result (λ reply. reply.text ≡ report_text report.now) }
{
    Ok(Reply {
        status: status_of(report),
        text: print_answer(alloc, report)?,
    })
}
