//! The questions of rows, and the comparison of an answer with the text that is expected.

use crate::calls::{Call, add_called};
use crate::rank_rows::add_found_ranks;
use crate::reading::read;
use crate::term_rows::{add_part, add_type_of};
use std::alloc::{AllocError, Global};
use std::process::Abort;
use wh_read::Refused;
use wh_system::System;
use wh_types::{Bytes, Or};

/// A question over texts.
#[derive(Clone, Copy)]
pub enum Asked<'a> {
    /// What stands in a term at the path of these digits.
    Part(&'a [u8], &'a [u8]),
    /// A question about a system.
    In(&'a [u8], Question<'a>),
}

/// A question about a system.
#[derive(Clone, Copy)]
pub enum Question<'a> {
    /// The ranks that are found for it, or why there are none.
    Ranks,
    /// The type of a term, over the symbols and the meta-variables of its one rule.
    Type(&'a [u8]),
    /// The answer to a call on the term of a certificate.
    Call(Call, &'a [u8]),
}

/// The text of the answer about a system.
fn add_answer_about(
    alloc: Global,
    out: &mut Bytes,
    system: &System,
    question: Question,
) -> Result<(), AllocError> {
    match question {
        Question::Ranks => add_found_ranks(alloc, out, system),
        Question::Type(text) => add_type_of(alloc, out, system, text),
        Question::Call(call, text) => add_called(alloc, out, call, system, text),
    }
}

/// Appends the answer to a question about the system that was read, or that none was.
fn add_answer_from(
    alloc: Global,
    out: &mut Bytes,
    outcome: &Result<System, Or<Refused>>,
    question: Question,
) -> Result<(), AllocError> {
    match outcome {
        Ok(system) => add_answer_about(alloc, out, system, question),
        Err(_) => Err(AllocError),
    }
}

/// Appends the answer to a question about the system that a text spells.
fn add_answer_in(
    alloc: Global,
    out: &mut Bytes,
    text: &[u8],
    question: Question,
) -> Result<(), AllocError> {
    let outcome = read(alloc, text);
    add_answer_from(alloc, out, &outcome, question)
}

/// The text of the answer.
fn add_answer(alloc: Global, out: &mut Bytes, asked: Asked) -> Result<(), AllocError> {
    match asked {
        Asked::Part(text, digits) => add_part(alloc, out, text, digits),
        Asked::In(system, question) => add_answer_in(alloc, out, system, question),
    }
}

/// Compares two texts.
fn expect_text(rt: &impl Abort, found: &[u8], expected: &[u8]) {
    assert_eq!(rt; found, expected);
}

/// Compares the answer with the one that is expected.
pub fn expect_answer(
    rt: &impl Abort,
    alloc: Global,
    asked: Asked,
    expected: &[u8],
) -> Result<(), AllocError> {
    let mut found = Bytes::new(alloc);
    add_answer(alloc, &mut found, asked)?;
    expect_text(rt, found.as_slice(), expected);
    Ok(())
}

/// Compares the answer of each row.
pub fn expect_answers(
    rt: &impl Abort,
    alloc: Global,
    rows: &[(Asked, &[u8])],
) -> Result<(), AllocError> {
    for (asked, expected) in rows {
        expect_answer(rt, alloc, *asked, *expected)?;
    }
    Ok(())
}
