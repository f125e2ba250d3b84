//! An answer read back from its line: without the line feed it is cut at spaces, and the words tell the answer. The
//! main function is `read_answer`.

ghost use Rattle.std.specs.Prelude.{◌≡◌, ◌≢◌, ◌∷◌, ◌++◌, [], List, ℕ, codes, IfOk, MatchOption};
ghost use Rattle.wh_answer.specs.Stands.{Reads, Stands};
ghost use Rattle.wh_answer.specs.Texts.{line, reason_word, report_text, role_word};
ghost use Rattle.wh_answer.specs.Words.{report_words};
ghost use Rattle.wh_answer_reader.specs.Seen.{seen};

use crate::causes::read_cause;
use crate::rows::read_row;
use crate::words::{short_number, words_of};
use std::alloc::{AllocError, Global};
use std::str;
use wh_answer::{ReasonWord, Report, Role};

/// The answer with this line; `None` where no answer has it whose numbers fit and whose names are spelled as names.
pub fn read_answer(alloc: Global, bytes: &[u8]) -> Result<Option<Report>, AllocError>
    ensures { IfOk result (Reads Stands report_text bytes.now) }
{
    let Some(text) = unended(bytes) else {
        return Ok(None);
    };
    match str::from_utf8(text) {
        Ok(text) => read_text(alloc, text),
        Err(_) => Ok(None),
    }
}

// What stands before the line feed at the end.
fn unended(bytes: &[u8]) -> Option<&[u8]>
    ensures { MatchOption result ((text : List ℕ) → line text ≡ bytes.now → ⊥) (λ text. line text.now ≡ bytes.now) }
{
    match bytes {
        [text @ .., last] => if *last == b'\n' { Some(text) } else { None },
        [] => None,
    }
}

// The answer whose line is the text and a line feed.
fn read_text(alloc: Global, text: &str) -> Result<Option<Report>, AllocError>
    ensures { IfOk result (Reads Stands report_text (line text.now)) }
{
    let words = words_of(alloc, text)?;
    read_words(alloc, words.as_slice())
}

// The answer with these words.
fn read_words(alloc: Global, words: &[&str]) -> Result<Option<Report>, AllocError>
    ensures { IfOk result (Reads Stands report_words (seen words.now)) }
{
    let [first, rest @ ..] = words else {
        return Ok(None);
    };
    match *first {
        "REJECTED" => rejected(alloc, rest),
        "MAYBE" => maybe(alloc, rest),
        _ => Ok(plain_report(first, rest)),
    }
}

// The certificate is rejected.
fn rejected(alloc: Global, words: &[&str]) -> Result<Option<Report>, AllocError>
    ensures { IfOk result (Reads Stands report_words (codes "REJECTED" ∷ seen words.now)) }
{
    match read_row(alloc, words)? {
        Some(row) => Ok(Some(Report::Rejected(row))),
        None => Ok(None),
    }
}

// No certificate was found.
fn maybe(alloc: Global, words: &[&str]) -> Result<Option<Report>, AllocError>
    ensures { IfOk result (Reads Stands report_words (codes "MAYBE" ∷ seen words.now)) }
{
    match read_cause(alloc, words)? {
        Some(cause) => Ok(Some(Report::Maybe(cause))),
        None => Ok(None),
    }
}

// The answer of a line that begins with another word than `REJECTED` and `MAYBE`.
fn plain_report(first: &str, rest: &[&str]) -> Option<Report>
    requires rejected { first.now ≢ codes "REJECTED" }
    requires maybe { first.now ≢ codes "MAYBE" }
    ensures { Reads Stands report_words (first.now ∷ seen rest.now) result }
{
    match rest {
        [] => one_word(first),
        [second] => two_words(first, second),
        [second, third] => three_words(first, second, third),
        _ => None,
    }
}

// One word.
fn one_word(first: &str) -> Option<Report>
    requires rejected { first.now ≢ codes "REJECTED" }
    requires maybe { first.now ≢ codes "MAYBE" }
    ensures { Reads Stands report_words (first.now ∷ []) result }
{
    match first {
        "YES" => Some(Report::Yes),
        "NO" => Some(Report::No),
        _ => None,
    }
}

// Two words.
fn two_words(first: &str, second: &str) -> Option<Report>
    requires rejected { first.now ≢ codes "REJECTED" }
    requires maybe { first.now ≢ codes "MAYBE" }
    ensures { Reads Stands report_words (first.now ∷ second.now ∷ []) result }
{
    match first {
        "BAD" => if second == "WORDS" {
            Some(Report::BadWords)
        } else {
            None
        },
        "OVERFLOW" => {
            let node = short_number(second)?;
            Some(Report::Overflow(node))
        }
        _ => None,
    }
}

// Three words.
fn three_words(first: &str, second: &str, third: &str) -> Option<Report>
    requires rejected { first.now ≢ codes "REJECTED" }
    requires maybe { first.now ≢ codes "MAYBE" }
    ensures { Reads Stands report_words (first.now ∷ second.now ∷ third.now ∷ []) result }
{
    match first {
        "REFUSED" => refused(second, third),
        "READ" => read_fault(second, third),
        "OUT" => out_of_memory(second, third),
        "TOO" => too(second, third),
        _ => None,
    }
}

// The system is refused.
fn refused(word: &str, number: &str) -> Option<Report>
    ensures { Reads Stands report_words (codes "REFUSED" ∷ word.now ∷ number.now ∷ []) result }
{
    let reason = reason_of(word)?;
    let at = short_number(number)?;
    Some(Report::Refused(reason, at))
}

// A file could not be read.
fn read_fault(fault: &str, word: &str) -> Option<Report>
    ensures { Reads Stands report_words (codes "READ" ∷ fault.now ∷ word.now ∷ []) result }
{
    if fault != "FAULT" {
        return None;
    }
    let role = role_of(word)?;
    Some(Report::ReadFault(role))
}

// There was no memory.
fn out_of_memory(of: &str, memory: &str) -> Option<Report>
    ensures { Reads Stands report_words (codes "OUT" ∷ of.now ∷ memory.now ∷ []) result }
{
    if of == "OF" && memory == "MEMORY" {
        Some(Report::OutOfMemory)
    } else {
        None
    }
}

// Too long a file, or too large a value.
fn too(what: &str, word: &str) -> Option<Report>
    ensures { Reads Stands report_words (codes "TOO" ∷ what.now ∷ word.now ∷ []) result }
{
    match what {
        "LONG" => {
            let role = role_of(word)?;
            Some(Report::TooLong(role))
        }
        "LARGE" => {
            let node = short_number(word)?;
            Some(Report::TooLarge(node))
        }
        _ => None,
    }
}

// The file with this word.
fn role_of(word: &str) -> Option<Role>
    ensures { MatchOption result ((r : Role) → role_word r ≡ word.now → ⊥) (λ r. role_word r ≡ word.now) }
{
    match word {
        "system" => Some(Role::System),
        "certificate" => Some(Role::Certificate),
        "output" => Some(Role::Output),
        _ => None,
    }
}

// The reason for refusing a system with this word.
fn reason_of(word: &str) -> Option<ReasonWord>
    ensures { MatchOption result ((r : ReasonWord) → reason_word r ≡ word.now → ⊥) (λ r. reason_word r ≡ word.now) }
{
    match word {
        "bad-byte" => Some(ReasonWord::BadByte),
        "bad-number" => Some(ReasonWord::BadNumber),
        "name-too-long" => Some(ReasonWord::NameTooLong),
        "syntax" => Some(ReasonWord::Syntax),
        "unknown-name" => Some(ReasonWord::UnknownName),
        "twice" => Some(ReasonWord::Twice),
        "ill-typed" => Some(ReasonWord::IllTyped),
        "not-pattern" => Some(ReasonWord::NotPattern),
        "open-side" => Some(ReasonWord::OpenSide),
        "new-meta" => Some(ReasonWord::NewMeta),
        "head-not-function" => Some(ReasonWord::HeadNotFun),
        "uneven-rules" => Some(ReasonWord::UnevenRules),
        "too-many" => Some(ReasonWord::TooMany),
        "too-many-pairs" => Some(ReasonWord::TooManyPairs),
        _ => None,
    }
}
