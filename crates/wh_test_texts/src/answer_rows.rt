//! Rows of lines of answers: the line of one report of each variant is read, and the report printed again; other lines
//! are no answers.

use crate::comparing::expect_text;
use std::alloc::{AllocError, Global};
use std::process::Abort;
use std::test::Fail;
use wh_answer::print_answer;
use wh_answer_reader::read_answer;

/// A line of each variant of a report, of a rejection, and of a cause.
const LINES: [&str; 64] = [
    "YES",
    "NO",
    "BAD WORDS",
    "OUT OF MEMORY",
    "READ FAULT system",
    "READ FAULT certificate",
    "TOO LONG system",
    "TOO LONG certificate",
    "TOO LONG output",
    "OVERFLOW 1",
    "TOO LARGE 4294967295",
    "REFUSED bad-byte 10",
    "REFUSED syntax 60",
    "REFUSED too-many-pairs 0",
    "MAYBE no-ranks sorts ord",
    "MAYBE no-ranks sorts list nat",
    "MAYBE no-ranks rule 0 F",
    "MAYBE stuck 1",
    "MAYBE stuck 0 1 4095",
    "MAYBE spent subterm 0",
    "MAYBE spent poly 10000",
    "MAYBE spent order 10000",
    "MAYBE spent loop 500",
    "REJECTED syntax 35",
    "REJECTED rank-count",
    "REJECTED inaccessible 1 F",
    "REJECTED pair-count 1",
    "REJECTED node 0 not-empty",
    "REJECTED node 0 not-one",
    "REJECTED node 0 loops 0",
    "REJECTED node 0 few-blocks",
    "REJECTED node 0 not-partition 1",
    "REJECTED node 0 back-edge 1 0",
    "REJECTED node 0 bad-args",
    "REJECTED node 0 no-projection f",
    "REJECTED node 0 bad-argument f",
    "REJECTED node 0 bad-drop",
    "REJECTED node 0 not-decreasing 0",
    "REJECTED node 0 bad-usable",
    "REJECTED node 0 not-closed rule 4294967295",
    "REJECTED node 2 not-closed pair 0",
    "REJECTED node 0 bad-symbols",
    "REJECTED node 0 bad-polynomial f",
    "REJECTED node 0 bad-polynomial f#",
    "REJECTED node 0 bad-lines",
    "REJECTED node 0 bad-move rule 1 3",
    "REJECTED node 0 over-spent rule 1 0",
    "REJECTED node 0 not-covered rule 1 0",
    "REJECTED node 1 bad-move pair 0 0",
    "REJECTED node 1 over-spent pair 0 1",
    "REJECTED node 1 not-covered pair 0 0",
    "REJECTED node 0 bad-filter f",
    "REJECTED node 0 bad-filter f#",
    "REJECTED node 0 too-wide rule 1",
    "REJECTED node 0 too-wide pair 2",
    "REJECTED node 0 bad-inference rule 1 0",
    "REJECTED node 0 bad-inference pair 0 4294967295",
    "REJECTED node 1 not-strict pair 0",
    "REJECTED term",
    "REJECTED no-step",
    "REJECTED step 1",
    "REJECTED too-big 0",
    "REJECTED put 0",
    "REJECTED no-instance",
];

/// Lines that are no answer's: a word too few, one too many, a number with a leading zero, a name that is none.
const OTHERS: [&str; 6] = [
    "MAYBE",
    "YES NO",
    "REJECTED",
    "REJECTED step 01",
    "MAYBE no-ranks rule 0 0F",
    "READ FAULT file",
];

/// Adds the line and its line feed.
fn add_line(text: &mut String, line: &str) -> Result<(), AllocError> {
    text.push_str(line)?;
    text.push('\n')
}

/// Reads the line, and adds what is printed of it.
fn add_read(alloc: Global, out: &mut Vec<u8>, line: &str) -> Result<(), AllocError> {
    let mut text = String::new(alloc);
    add_line(&mut text, line)?;
    if let Some(report) = read_answer(alloc, text.as_bytes())? {
        let printed = print_answer(alloc, &report)?;
        out.extend_from_slice(printed.as_slice())?;
    }
    Ok(())
}

/// Reads lines, and compares what is printed of them.
fn expect_read(
    rt: &impl Abort,
    alloc: Global,
    lines: &[&str],
    expected: &str,
) -> Result<(), AllocError> {
    let mut out = Vec::new(alloc);
    for line in lines {
        add_read(alloc, &mut out, line)?;
    }
    expect_text(rt, out.as_slice(), expected.as_bytes());
    Ok(())
}

/// The lines, one below the other.
fn all_lines(alloc: Global, lines: &[&str]) -> Result<String, AllocError> {
    let mut text = String::new(alloc);
    for line in lines {
        add_line(&mut text, line)?;
    }
    Ok(text)
}

#[test]
fn reads_lines_of_answers(rt: HostRuntime) -> Result<(), Fail> {
    let alloc = rt.alloc();
    let expected = all_lines(alloc, &LINES)?;
    expect_read(&rt, alloc, &LINES, expected.as_str())?;
    expect_read(&rt, alloc, &OTHERS, "")?;
    Ok(())
}
