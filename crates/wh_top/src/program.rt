//! The one function that the program calls: `run` takes words, files and a sink, and writes one text.

ghost use Rattle.std.specs.Prelude.{◌≡◌, ◌++◌, ℕ, List, Some, map, codes, string_bytes};
ghost use Rattle.wh_answer.specs.Texts.{report_text};
ghost use Rattle.wh_answer.specs.declared.report.Report.TheVariants.{OutOfMemory};
ghost use Rattle.wh_top_judging.specs.Outcomes.{BeginsWith, Told, outside};
ghost use Rattle.wh_top_replies.specs.Run.{Answers, EndsWith, MeansYes, SaysNo, TextSaysNo};
ghost use Rattle.wh_top_replies.specs.Words.{AsksWhether};

use std::alloc::Global;
use wh_answer::{bad_words_line, out_of_memory_line};
use wh_io::{Shelf, Sink, write_all_of};
use wh_top_naming::Status;
use wh_top_replies::reply_to;
use wh_top_words::read_words;

/// Does what the words ask, reads files from the shelf and writes one text to the sink.
///
/// The words are those after the program's own name. The text is built whole before it is written.
/// `answer` says which status and text answer which words and files, with the cause of each refusal; `termination` and
/// `non_termination` say what an output means that begins with `YES` or with `NO`.
pub fn run<S: Shelf, K: Sink>(alloc: Global, words: &[String], shelf: &mut S, out: &mut K) -> Status
    ensures answer { (status : Status) × (text : List ℕ)
        × Answers (outside (S.held shelf.old) (S.faults shelf.old) (S.faults shelf.new)) (map string_bytes words.now) status text
        × EndsWith (K.written out.old) (K.written out.new) (K.faults out.old) (K.faults out.new) status text result }
    ensures termination { (before output : List ℕ) → K.written out.old ≡ Some before → K.written out.new ≡ Some (before ++ output)
        → BeginsWith (codes "YES") output
        → (file : List ℕ) × AsksWhether (map string_bytes words.now) file × Told (S.held shelf.old file) MeansYes }
    ensures non_termination { (before output : List ℕ) → K.written out.old ≡ Some before → K.written out.new ≡ Some (before ++ output)
        → BeginsWith (codes "NO") output
        → SaysNo (outside (S.held shelf.old) (S.faults shelf.old) (S.faults shelf.new)) (map string_bytes words.now) output }
    ensures certificate { (status : Status) (text : List ℕ)
        → Answers (outside (S.held shelf.old) (S.faults shelf.old) (S.faults shelf.new)) (map string_bytes words.now) status text
        → BeginsWith (codes "NO") text
        → TextSaysNo (outside (S.held shelf.old) (S.faults shelf.old) (S.faults shelf.new)) (map string_bytes words.now) text }
    ensures kept { (other : List ℕ) → S.held shelf.new other ≡ S.held shelf.old other }
{
    let Some(command) = read_words(words) else {
        return tell(out, Status::BadWords, bad_words_line());
    };
    match reply_to(alloc, shelf, &command) {
        Ok(reply) => tell(out, reply.status, reply.text.as_slice()),
        Err(_) => report_no_memory(out),
    }
}

/// Ends a run for want of memory: writes `OUT OF MEMORY`, without taking any.
pub fn report_no_memory<K: Sink>(out: &mut K) -> Status
    ensures { EndsWith (K.written out.old) (K.written out.new) (K.faults out.old) (K.faults out.new) Status.NoMemory
        (report_text OutOfMemory) result }
{
    tell(out, Status::NoMemory, out_of_memory_line())
}

// Writes the text, and gives the status or that of a write fault.
fn tell<K: Sink>(out: &mut K, status: Status, text: &[u8]) -> Status
    ensures { EndsWith (K.written out.old) (K.written out.new) (K.faults out.old) (K.faults out.new) status text.now result }
{
    match write_all_of(out, text) {
        Ok(()) => status,
        Err(_) => Status::WriteFault,
    }
}
