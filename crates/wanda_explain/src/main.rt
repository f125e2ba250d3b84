//! A second program beside wanda: it says in words why a system terminates, why it runs for ever, or where a
//! search gave up.
#![tactic(auto)]

use std::alloc::{AllocError, Global};
use std::env;
use std::io::ErrorKind;
use std::process::ExitCode;
use std::rt::Env;
use wh_answer::{Report, out_of_memory_line, print_answer};
use wh_explain::{explain_file, graph_file, lint_file};
use wh_explain_words::{Request, read_request};
use wh_io::{FileShelf, Shelf, StdSink, write_all_of};
use wh_top_naming::{Status, status_of};
use wh_types::{Bytes, Or};

fn main(rt: HostRuntime) -> ExitCode {
    let mut shelf = FileShelf::new(&rt);
    let mut out = StdSink::new(rt.stdout());
    let reply = match words(&rt) {
        Ok(words) => reply_to(rt.alloc(), &mut shelf, words.as_slice()),
        Err(Or::Because(report)) => told(rt.alloc(), &report),
        Err(Or::NoMemory) => Err(AllocError),
    };
    let (status, written) = match &reply {
        Ok(reply) => (reply.status, write_all_of(&mut out, reply.text.as_slice())),
        Err(_) => (
            Status::NoMemory,
            write_all_of(&mut out, out_of_memory_line()),
        ),
    };
    let status = if written.is_ok() {
        status
    } else {
        Status::WriteFault
    };
    ExitCode::from(status.number())
}

/// A status and the text that goes with it.
#[derive(Drop)]
struct Reply {
    status: Status,
    text: Bytes,
}

/// The words after the program's own name, or that one of them is no text.
fn words<R: Env + AllocGlobal>(rt: &R) -> Result<Vec<String>, Or<Report>> {
    let mut words = Vec::new(rt.alloc());
    let args = match env::args(rt) {
        Ok(args) => args,
        Err(fault) if fault.kind() == ErrorKind::OutOfMemory => return Err(Or::NoMemory),
        Err(_) => return Err(Or::Because(Report::BadWords)),
    };
    for word in args.skip(1) {
        words.push(word)?;
    }
    Ok(words)
}

/// The reply to the words.
fn reply_to<S: Shelf>(alloc: Global, shelf: &mut S, words: &[String]) -> Result<Reply, AllocError> {
    let Some(request) = read_request(words) else {
        return told(alloc, &Report::BadWords);
    };
    let made = match request {
        Request::Explain { file, cert } => explain_file(alloc, shelf, file, cert),
        Request::Lint { file } => lint_file(alloc, shelf, file),
        Request::Graph { file } => graph_file(alloc, shelf, file),
    };
    match made {
        Ok(text) => Ok(Reply {
            status: Status::Answered,
            text,
        }),
        Err(Or::Because(report)) => told(alloc, &report),
        Err(Or::NoMemory) => Err(AllocError),
    }
}

/// The answer as a line, as wanda writes it.
fn told(alloc: Global, report: &Report) -> Result<Reply, AllocError> {
    Ok(Reply {
        status: status_of(report),
        text: print_answer(alloc, report)?,
    })
}
