//! The one function that the program calls: `run` takes words, files and a sink, and writes one text.

ghost use Rattle.std.specs.Prelude.{◌≡◌, ◌++◌, ℕ, List, IfOk, Some, map, codes, string_bytes};
ghost use Rattle.wh_answer.specs.Texts.{report_text};
ghost use Rattle.wh_answer.specs.declared.report.Report.TheVariants.{OutOfMemory};
ghost use Rattle.wh_top_naming.specs.Status.{status_of};
ghost use Rattle.wh_top_judging.specs.Outcomes.{BeginsWith, outside};
ghost use Rattle.wh_top_replies.specs.Run.{EndsWith, MeansYes};
ghost use Rattle.wh_hunt.specs.Hunting.{Answers, Asked, Hunts, IsTold, SaysNo};

use crate::hunting::{Tally, hunt_file};
use crate::telling::{End, text_of};
use std::alloc::{AllocError, Global};
use wh_answer::{Report, bad_words_line, out_of_memory_line};
use wh_hunt_cycles::Work;
use wh_hunt_words::{Hunt, read_hunt};
use wh_io::{Shelf, Sink, write_all_of};
use wh_top_naming::{Status, status_of};
use wh_top_replies::Reply;
use wh_types::Or;

/// Does the hunt that the words ask for, reads the file from the shelf and writes one text to the sink.
///
/// The words are those after the program's own name. First comes a hunt for loops in the graph of calls, then the search
/// of `prove` with its usual bounds. What the hunt finds is checked before it is told. `answer` says which status and
/// text answer which words and files; `termination` and `non_termination` say what an output means that begins with
/// `YES` or with `NO`. Of what the hunt finds nothing is claimed: `MAYBE` has the cause of the search, and a second line
/// tells how much work the hunt did, and whether it had nothing left to do or no work left. Where statistics are asked for
/// a third line tells how many certificates of the hunt were refused by the check.
pub fn run<S: Shelf, K: Sink>(alloc: Global, words: &[String], shelf: &mut S, out: &mut K) -> Status
    ensures answer { (status : Status) × (text : List ℕ)
        × Answers (outside (S.held shelf.old) (S.faults shelf.old) (S.faults shelf.new)) (map string_bytes words.now) status text
        × EndsWith (K.written out.old) (K.written out.new) (K.faults out.old) (K.faults out.new) status text result }
    ensures termination { (before output : List ℕ) → K.written out.old ≡ Some before → K.written out.new ≡ Some (before ++ output)
        → BeginsWith (codes "YES") output
        → Asked (outside (S.held shelf.old) (S.faults shelf.old) (S.faults shelf.new)) (map string_bytes words.now) MeansYes }
    ensures non_termination { (before output : List ℕ) → K.written out.old ≡ Some before → K.written out.new ≡ Some (before ++ output)
        → BeginsWith (codes "NO") output
        → SaysNo (outside (S.held shelf.old) (S.faults shelf.old) (S.faults shelf.new)) (map string_bytes words.now) output }
    ensures kept { (other : List ℕ) → S.held shelf.new other ≡ S.held shelf.old other }
{
    let Some(hunt) = read_hunt(words) else {
        return tell(out, Status::BadWords, bad_words_line());
    };
    match reply_to(alloc, shelf, &hunt) {
        Ok(reply) => tell(out, reply.status, reply.text.as_slice()),
        Err(_) => report_no_memory(out),
    }
}

/// Ends a run for want of memory: writes `OUT OF MEMORY`, without taking any.
pub fn report_no_memory<K: Sink>(out: &mut K) -> Status
    ensures { EndsWith (K.written out.old) (K.written out.new) (K.faults out.old) (K.faults out.new) Status.NoMemory
        (report_text OutOfMemory) result }
{
    tell(out, Status::NoMemory, out_of_memory_line())
}

// The reply to a hunt; want of memory is the only cause why there is none.
fn reply_to<S: Shelf>(alloc: Global, shelf: &mut S, hunt: &Hunt<'_>) -> Result<Reply, AllocError>
    ensures served { IfOk result (λ reply. Hunts (outside (S.held shelf.old) (S.faults shelf.old) (S.faults shelf.new))
        hunt.now.file.now hunt.now.work hunt.now.counts reply.status reply.text) }
    ensures kept { (other : List ℕ) → S.held shelf.new other ≡ S.held shelf.old other }
{
    let mut tally = Tally {
        work: Work::new(u64::from(hunt.work)),
        refused: 0,
    };
    match hunt_file(alloc, shelf, hunt.file, &mut tally) {
        Ok(text) => Ok(Reply {
            status: Status::Answered,
            text,
        }),
        Err(Or::Because(report)) => {
            let end = End {
                given: hunt.work,
                left: tally.work.left(),
                refused: tally.refused,
                counts: hunt.counts,
            };
            told(alloc, report, end)
        }
        Err(Or::NoMemory) => Err(AllocError),
    }
}

// The reply that tells an answer. That is dropped in here alone, since its many kinds make that long.
fn told(alloc: Global, report: Report, end: End) -> Result<Reply, AllocError>
    ensures status { IfOk result (λ reply. reply.status ≡ status_of report) }
    ensures text { IfOk result (λ reply. IsTold end.given end.counts report reply.text) }
{
    reply_of(alloc, &report, end)
}

// The reply that tells an answer which is kept.
fn reply_of(alloc: Global, report: &Report, end: End) -> Result<Reply, AllocError>
    ensures status { IfOk result (λ reply. reply.status ≡ status_of report.now) }
    ensures text { IfOk result (λ reply. IsTold end.given end.counts report.now reply.text) }
{
    Ok(Reply {
        status: status_of(report),
        text: text_of(alloc, report, end)?,
    })
}

// Writes the text, and gives the status or that of a write fault.
fn tell<K: Sink>(out: &mut K, status: Status, text: &[u8]) -> Status
    ensures { EndsWith (K.written out.old) (K.written out.new) (K.faults out.old) (K.faults out.new) status text.now result }
{
    match write_all_of(out, text) {
        Ok(()) => status,
        Err(_) => Status::WriteFault,
    }
}
