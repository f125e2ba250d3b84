//! The program `wanda-hunt`: the real file and the real output around the one call of wh_hunt.
//!
//! What `YES` and `NO` mean: `MeansYes`, `MeansNo` of wh_top_replies/specs/Run. What is answered to which words:
//! wh_hunt/specs/Hunting.
#![tactic(auto)]

use std::env;
use std::io::ErrorKind;
use std::process::ExitCode;
use std::rt::Env;
use wh_hunt::{report_no_memory, run};
use wh_io::{FileShelf, StdSink};

/// Why the words of the command line could not be had.
#[derive(Drop)]
enum Unusable {
    /// One of the words is no text.
    NoText,
    /// There was no memory for them.
    NoMemory,
}

fn main(rt: HostRuntime) -> ExitCode {
    let mut shelf = FileShelf::new(&rt);
    let mut out = StdSink::new(rt.stdout());
    let status = match words(&rt) {
        Ok(words) => run(rt.alloc(), words.as_slice(), &mut shelf, &mut out),
        Err(Unusable::NoText) => run(rt.alloc(), &[], &mut shelf, &mut out),
        Err(Unusable::NoMemory) => report_no_memory(&mut out),
    };
    ExitCode::from(status.number())
}

/// The words after the program's own name.
fn words<R: Env + AllocGlobal>(rt: &R) -> Result<Vec<String>, Unusable> {
    let mut words = Vec::new(rt.alloc());
    let args = match env::args(rt) {
        Ok(args) => args,
        Err(fault) if fault.kind() == ErrorKind::OutOfMemory => return Err(Unusable::NoMemory),
        Err(_) => return Err(Unusable::NoText),
    };
    for word in args.skip(1) {
        if words.push(word).is_err() {
            return Err(Unusable::NoMemory);
        }
    }
    Ok(words)
}
