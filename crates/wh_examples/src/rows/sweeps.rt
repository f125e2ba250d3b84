//! Rows for each place of a certificate or of what is written, and rows of what a run reads of what another one wrote.

use crate::rows::running::{Faults, Given, SOUND, ended, words_of, writes};
use std::alloc::{AllocError, Global};
use wh_types::Bytes;

/// Whether each proper beginning of the certificate is rejected at its end.
pub fn rejects_cuts(alloc: Global, given: &Given, certificate: &[u8]) -> Result<bool, AllocError> {
    for length in 0..certificate.len() {
        let line = format!(in alloc; "REJECTED syntax {length}\n")?;
        if !writes(alloc, given, &certificate[..length], 1, line.as_bytes())? {
            return Ok(false);
        }
    }
    Ok(true)
}

// The bytes with another one at this place.
fn changed_at(alloc: Global, bytes: &[u8], place: usize, other: u8) -> Result<Bytes, AllocError> {
    let mut changed = Bytes::new(alloc);
    for (at, byte) in bytes.iter().enumerate() {
        changed.push(if at == place { other } else { *byte })?;
    }
    Ok(changed)
}

/// Whether the certificate is rejected at each place where a byte stands that no certificate has.
pub fn rejects_foreign(
    alloc: Global,
    given: &Given,
    certificate: &[u8],
) -> Result<bool, AllocError> {
    for place in 0..certificate.len() {
        let changed = changed_at(alloc, certificate, place, 0xff)?;
        let line = format!(in alloc; "REJECTED syntax {place}\n")?;
        if !writes(alloc, given, changed.as_slice(), 1, line.as_bytes())? {
            return Ok(false);
        }
    }
    Ok(true)
}

/// Whether the certificate is accepted or rejected, whichever of its bytes is changed to the one next to it: the other
/// digit of two, and a parenthesis that closes for one that opens.
pub fn decides_neighbours(
    alloc: Global,
    given: &Given,
    certificate: &[u8],
) -> Result<bool, AllocError> {
    for (place, byte) in certificate.iter().enumerate() {
        let changed = changed_at(alloc, certificate, place, *byte ^ 1)?;
        if !decides(alloc, given, changed.as_slice())? {
            return Ok(false);
        }
    }
    Ok(true)
}

// Whether a check ends with an answer.
fn decides(alloc: Global, given: &Given, certificate: &[u8]) -> Result<bool, AllocError> {
    let words = given.words.as_slice();
    let end = ended(
        alloc,
        words,
        given.system.as_slice(),
        certificate,
        given.faults,
    )?;
    Ok(is_answer(end.status, end.out.bytes()))
}

// Whether this is how a check ends that accepts or rejects.
fn is_answer(status: u8, text: &[u8]) -> bool {
    match status {
        0 => text == b"YES\n".as_slice() || text == b"NO\n".as_slice(),
        1 => text.starts_with(b"REJECTED ") && text.ends_with(b"\n"),
        _ => false,
    }
}

/// Whether the fault of each write leaves the bytes of the writes before it, where a write takes at most `piece` bytes
/// and `text` is written.
pub fn leaves_fronts(
    alloc: Global,
    given: &Given,
    certificate: &[u8],
    piece: u32,
    text: &[u8],
) -> Result<bool, AllocError> {
    let piece = piece.max(1) as usize;
    for write in 0..=text.len().div_ceil(piece) {
        let end = write.saturating_mul(piece).min(text.len());
        let status = if end < text.len() { 5 } else { 0 };
        let faults = Faults {
            read: None,
            write: Some(write as u64),
            piece: piece as u64,
        };
        if !leaves(alloc, given, certificate, faults, status, &text[..end])? {
            return Ok(false);
        }
    }
    Ok(true)
}

// Whether a run with these faults ends with the status and writes the text.
fn leaves(
    alloc: Global,
    given: &Given,
    certificate: &[u8],
    faults: Faults,
    status: u8,
    text: &[u8],
) -> Result<bool, AllocError> {
    let end = ended(
        alloc,
        given.words.as_slice(),
        given.system.as_slice(),
        certificate,
        faults,
    )?;
    Ok(end.status == status && end.out.bytes() == text)
}

/// Whether what is shown of the system is a system of which the same is shown.
pub fn reads_back(alloc: Global, given: &Given) -> Result<bool, AllocError> {
    let words = given.words.as_slice();
    let first = ended(alloc, words, given.system.as_slice(), b"", SOUND)?;
    match system_part(first.out.bytes()) {
        Some(text) => shows(alloc, words, text, first.out.bytes()),
        None => Ok(false),
    }
}

// What is written of a system that is shown, without the first line and without its pairs.
fn system_part(text: &[u8]) -> Option<&[u8]> {
    let end = text
        .windows(6)
        .position(|bytes| bytes == b"PAIRS ".as_slice())?;
    text.get(7..end)
}

// Whether this is shown of the system.
fn shows(alloc: Global, words: &[String], system: &[u8], text: &[u8]) -> Result<bool, AllocError> {
    let end = ended(alloc, words, system, b"", SOUND)?;
    Ok(end.status == 0 && end.out.bytes() == text)
}

/// Whether a check accepts what a search wrote, where it is a certificate, and where it is none, whether it begins with
/// `MAYBE`.
pub fn is_accepted(alloc: Global, system: &[u8], text: &[u8]) -> Result<bool, AllocError> {
    if text.starts_with(b"YES ") {
        return accepts(alloc, system, text, b"YES\n");
    }
    if text.starts_with(b"NO ") {
        return accepts(alloc, system, text, b"NO\n");
    }
    Ok(text.starts_with(b"MAYBE "))
}

// Whether a check of the certificate writes this.
fn accepts(
    alloc: Global,
    system: &[u8],
    certificate: &[u8],
    text: &[u8],
) -> Result<bool, AllocError> {
    let words = words_of(alloc, "check;system;certificate")?;
    let end = ended(alloc, words.as_slice(), system, certificate, SOUND)?;
    Ok(end.status == 0 && end.out.bytes() == text)
}
