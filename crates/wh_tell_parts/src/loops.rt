//! Loops: each term of the reduction with its redex, and the instance at its end.

use crate::stepping::term_after;
use std::alloc::{AllocError, Global};
use wh_cert::{NoCertificate, Put};
use wh_system::System;
use wh_system_making::NameTables;
use wh_tell::Piece::{Count, Number, Spell};
use wh_tell::{Names, Text, names_of_system, put_marked, put_rule_line, tell, tell_line};
use wh_terms::{Step, Term};
use wh_text::print_raw;

// How many steps are told.
const MOST_STEPS: usize = 100;

/// Appends the reduction of a loop, and the instance of the first term at its end.
pub fn put_loop(
    alloc: Global,
    text: &mut Text,
    system: &System,
    certificate: &NoCertificate,
) -> Result<(), AllocError> {
    let words = "The last term. Carets stand under an instance of the first one.";
    put_claim(alloc, text, system, certificate, words)?;
    text.say("So all steps can be made again there, as often as one likes.\n");
    Ok(())
}

/// Appends the reduction of a certificate that is no loop, as far as its steps can be taken.
pub fn put_attempt(
    alloc: Global,
    text: &mut Text,
    system: &System,
    certificate: &NoCertificate,
) -> Result<(), AllocError> {
    let words = "The last term. Carets stand under what is to be an instance of the first one.";
    put_claim(alloc, text, system, certificate, words)
}

// Appends the reduction of a certificate, its last term behind these words, and what is put for variables.
fn put_claim(
    alloc: Global,
    text: &mut Text,
    system: &System,
    certificate: &NoCertificate,
    words: &str,
) -> Result<(), AllocError> {
    if let Some(last) = put_reduction(alloc, text, system, certificate)? {
        let names = names_of_system(system);
        let path = certificate.at.as_slice();
        tell_line(text, 0, words, &[]);
        put_marked(text, &names, &last, path, 1);
        put_path(text, "  at ", path);
    }
    put_puts(alloc, text, certificate.puts.as_slice())
}

// Appends the terms before each step of a certificate, and gives the last one, if the steps lead there and are not
// too many to be told.
fn put_reduction(
    alloc: Global,
    text: &mut Text,
    system: &System,
    certificate: &NoCertificate,
) -> Result<Option<Term>, AllocError> {
    match first_term(alloc, system, certificate)? {
        Some(first) => {
            text.say("\nThe reduction. Carets stand under what each step replaces.\n");
            put_steps(alloc, text, system, first, certificate.steps.as_slice())
        }
        None => Ok(None),
    }
}

// The term of a certificate, if it is one of the system.
fn first_term(
    alloc: Global,
    system: &System,
    certificate: &NoCertificate,
) -> Result<Option<Term>, AllocError> {
    let tables = NameTables::of(alloc, system)?;
    tables.resolve(alloc, system, &certificate.term)
}

// Appends the terms before each step, and gives the last one; `None` where there are too many to be told, or where
// a step can't be taken.
fn put_steps(
    alloc: Global,
    text: &mut Text,
    system: &System,
    first: Term,
    steps: &[Step],
) -> Result<Option<Term>, AllocError> {
    let names = names_of_system(system);
    let mut here = first;
    for (number, step) in steps.iter().enumerate() {
        if number == MOST_STEPS {
            tell_line(text, 0, "and so on, @ steps in all.", &[Count(steps.len())]);
            return Ok(None);
        }
        put_step(text, system, &names, number, &here, step);
        match term_after(alloc, system, &here, step)? {
            Some(next) => here = next,
            None => {
                text.say("  which can't be.\n");
                return Ok(None);
            }
        }
    }
    Ok(Some(here))
}

// Appends a term and the step that it takes.
fn put_step(
    text: &mut Text,
    system: &System,
    names: &Names<'_>,
    number: usize,
    term: &Term,
    step: &Step,
) {
    tell_line(text, 0, "Term @:", &[Count(number)]);
    let path = step.path.as_slice();
    put_marked(text, names, term, path, 1);
    match step.rule {
        Some(rule) => {
            put_path(text, "  steps at ", path);
            put_rule_line(text, system, rule, 2);
        }
        None => put_path(text, "  steps by beta at ", path),
    }
}

// Appends a line with a path.
fn put_path(text: &mut Text, words: &str, path: &[u8]) {
    text.say(words);
    text.say("/");
    for way in path {
        text.number(*way as u128);
    }
    text.say("\n");
}

// Appends what is put for the variables of the first term in the instance.
fn put_puts(alloc: Global, text: &mut Text, puts: &[Put]) -> Result<(), AllocError> {
    for item in puts {
        let value = print_raw(alloc, &item.term)?;
        tell(
            text,
            "  with @ for %@\n",
            &[Spell(value.as_slice()), Number(item.number)],
        );
    }
    Ok(())
}
