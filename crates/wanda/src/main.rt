//! The program: the real files and the real output around the one call of wh_top.
//!
//! Where the notions stand that its contract speaks of, in `crates/`:
//! - what `YES` and `NO` mean: `Bounded`, `Unbounded` of wh_step/specs/Reduction;
//! - the dependency pairs of a system: `HasPairs` of wh_pairs/specs/SystemPairs;
//! - which bytes are a certificate: `CertText` of wh_cert/specs/CertText, whose grammar stands at the head of
//!   wh_cert/specs/Text, and that of the lines of a path order in wh_order_inference/specs;
//! - which certificates are valid: `IsValidCert` of wh_proof/specs/Valid;
//! - the conditions of a node: `Leaves` of wh_proof/specs/Nodes; of a `poly` node `IsCovering` of
//!   wh_polycheck/specs/Covering, and of the rules that it lists `IsUsable` of wh_usable/specs/Closed; of an `order`
//!   node `IsOrdering` of wh_order_node/specs/Ordering;
//! - why `prove` answers `MAYBE`: `IsReason` of wh_prover/specs/Answers.
#![tactic(auto)]

use std::env;
use std::io::ErrorKind;
use std::process::ExitCode;
use std::rt::Env;
use wh_io::{FileShelf, StdSink};
use wh_top::{report_no_memory, run};

/// Why the words of the command line could not be had.
#[derive(Drop)]
enum Unusable {
    /// One of the words is no text.
    NoText,
    /// There was no memory for them.
    NoMemory,
}

fn main(rt: HostRuntime) -> ExitCode {
    let mut shelf = FileShelf::new(&rt);
    let mut out = StdSink::new(rt.stdout());
    let status = match words(&rt) {
        Ok(words) => run(rt.alloc(), words.as_slice(), &mut shelf, &mut out),
        Err(Unusable::NoText) => run(rt.alloc(), &[], &mut shelf, &mut out),
        Err(Unusable::NoMemory) => report_no_memory(&mut out),
    };
    ExitCode::from(status.number())
}

/// The words after the program's own name.
fn words<R: Env + AllocGlobal>(rt: &R) -> Result<Vec<String>, Unusable> {
    let mut words = Vec::new(rt.alloc());
    let args = match env::args(rt) {
        Ok(args) => args,
        Err(fault) if fault.kind() == ErrorKind::OutOfMemory => return Err(Unusable::NoMemory),
        Err(_) => return Err(Unusable::NoText),
    };
    for word in args.skip(1) {
        if words.push(word).is_err() {
            return Err(Unusable::NoMemory);
        }
    }
    Ok(words)
}
