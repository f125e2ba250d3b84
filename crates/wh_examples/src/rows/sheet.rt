//! The lines of a sheet of rows, obeyed one by one.

use crate::rows::running::{Faults, Given, SOUND, ended, words_of};
use crate::rows::spelling::{Named, name_text, number_of, spelled, spelled_each};
use crate::rows::sweeps::{
    decides_neighbours, is_accepted, leaves_fronts, reads_back, rejects_cuts, rejects_foreign,
};
use crate::rows::verbs::{Verb, verb_of};
use std::alloc::{AllocError, Global};
use wh_types::Bytes;

/// What the lines of a sheet have said so far, and how the last run ended.
#[derive(Drop)]
pub struct Sheet {
    texts: Vec<Named>,
    given: Given,
    certificate: Bytes,
    changed: Bytes,
    /// The exit status of the last run.
    pub status: u8,
    /// What it wrote.
    pub told: Bytes,
}

impl Sheet {
    /// An empty sheet.
    pub fn new(alloc: Global) -> Result<Sheet, AllocError> {
        Ok(Sheet {
            texts: Vec::new(alloc),
            given: empty(alloc)?,
            certificate: Bytes::new(alloc),
            changed: Bytes::new(alloc),
            status: 0,
            told: Bytes::new(alloc),
        })
    }

    // Runs the words over the system and the changed certificate, and keeps how that ended.
    fn run(&mut self, alloc: Global) -> Result<(), AllocError> {
        let end = ended(
            alloc,
            self.given.words.as_slice(),
            self.given.system.as_slice(),
            self.changed.as_slice(),
            self.given.faults,
        )?;
        self.status = end.status;
        self.told = copied(alloc, end.out.bytes())?;
        self.given.faults = SOUND;
        Ok(())
    }
}

fn empty(alloc: Global) -> Result<Given, AllocError> {
    Ok(Given {
        words: Vec::new(alloc),
        system: Bytes::new(alloc),
        faults: SOUND,
    })
}

fn copied(alloc: Global, bytes: &[u8]) -> Result<Bytes, AllocError> {
    let mut copy = Bytes::new(alloc);
    copy.append(bytes)?;
    Ok(copy)
}

/// Does what the line asks for; if it is a row, says whether the run ends as it is to.
pub fn obey(alloc: Global, sheet: &mut Sheet, line: &str) -> Result<Option<bool>, AllocError> {
    let (word, rest) = line.split_once(' ').unwrap_or((line, ""));
    let verb = verb_of(word);
    match verb {
        Verb::Remark => Ok(None),
        Verb::Let
        | Verb::Each
        | Verb::Words
        | Verb::System
        | Verb::Certificate
        | Verb::Change
        | Verb::Faults => prepare(alloc, sheet, verb, rest),
        Verb::Writes | Verb::Ends | Verb::Begins | Verb::Closes | Verb::Finds => {
            judge(alloc, sheet, verb, rest)
        }
        _ => sweep(alloc, sheet, verb, rest),
    }
}

// A line that says what the next runs are given, and is no row.
fn prepare(
    alloc: Global,
    sheet: &mut Sheet,
    verb: Verb,
    rest: &str,
) -> Result<Option<bool>, AllocError> {
    match verb {
        Verb::Let => name(alloc, sheet, rest)?,
        Verb::Each => name_each(alloc, sheet, rest)?,
        Verb::Words => give_words(alloc, sheet, rest)?,
        Verb::System => sheet.given.system = spelled(alloc, sheet.texts.as_slice(), rest)?,
        Verb::Certificate => give_certificate(alloc, sheet, rest)?,
        Verb::Change => change(alloc, sheet, rest)?,
        _ => sheet.given.faults = faults_of(rest),
    }
    Ok(None)
}

// `let NAME TEXT`.
fn name(alloc: Global, sheet: &mut Sheet, rest: &str) -> Result<(), AllocError> {
    let (name, raw) = rest.split_once(' ').unwrap_or((rest, ""));
    let text = spelled(alloc, sheet.texts.as_slice(), raw)?;
    name_text(alloc, &mut sheet.texts, name, text)
}

// `each NAME TIMES TEXT`.
fn name_each(alloc: Global, sheet: &mut Sheet, rest: &str) -> Result<(), AllocError> {
    let (name, raw) = rest.split_once(' ').unwrap_or((rest, ""));
    let (times, each) = raw.split_once(' ').unwrap_or((raw, ""));
    let text = spelled_each(alloc, sheet.texts.as_slice(), each, number_of(times))?;
    name_text(alloc, &mut sheet.texts, name, text)
}

// `words WORD;WORD;..`.
fn give_words(alloc: Global, sheet: &mut Sheet, rest: &str) -> Result<(), AllocError> {
    let line = spelled(alloc, sheet.texts.as_slice(), rest)?;
    let line = str::from_utf8(line.as_slice()).or(Err(AllocError))?;
    sheet.given.words = words_of(alloc, line)?;
    Ok(())
}

// `certificate TEXT`.
fn give_certificate(alloc: Global, sheet: &mut Sheet, rest: &str) -> Result<(), AllocError> {
    sheet.certificate = spelled(alloc, sheet.texts.as_slice(), rest)?;
    sheet.changed = copied(alloc, sheet.certificate.as_slice())?;
    Ok(())
}

// `change TEXT ~ TEXT`: the certificate with the second text in the place of the first one.
fn change(alloc: Global, sheet: &mut Sheet, rest: &str) -> Result<(), AllocError> {
    let (from, to) = rest.split_once(" ~ ").unwrap_or((rest, ""));
    let from = spelled(alloc, sheet.texts.as_slice(), from)?;
    let to = spelled(alloc, sheet.texts.as_slice(), to)?;
    let part = str::from_utf8(from.as_slice()).or(Err(AllocError))?;
    sheet.changed = replaced(alloc, sheet.certificate.as_slice(), part, to.as_slice())?;
    Ok(())
}

// The bytes with the second text in the place of the first one; nothing where that does not stand in them.
fn replaced(alloc: Global, bytes: &[u8], part: &str, to: &[u8]) -> Result<Bytes, AllocError> {
    let whole = str::from_utf8(bytes).or(Err(AllocError))?;
    match whole.split_once(part) {
        Some((front, back)) => joined(alloc, front.as_bytes(), to, back.as_bytes()),
        None => Ok(Bytes::new(alloc)),
    }
}

// Three texts, one behind the other.
fn joined(alloc: Global, front: &[u8], middle: &[u8], back: &[u8]) -> Result<Bytes, AllocError> {
    let mut made = Bytes::new(alloc);
    made.append(front)?;
    made.append(middle)?;
    made.append(back)?;
    Ok(made)
}

// `faults READ WRITE PIECE`, where `-` stands for a fault that is not there.
fn faults_of(rest: &str) -> Faults {
    let (read, more) = rest.split_once(' ').unwrap_or((rest, ""));
    let (write, piece) = more.split_once(' ').unwrap_or((more, ""));
    Faults {
        read: read.parse().ok(),
        write: write.parse().ok(),
        piece: u64::from(number_of(piece)),
    }
}

// A row of one run.
fn judge(
    alloc: Global,
    sheet: &mut Sheet,
    verb: Verb,
    rest: &str,
) -> Result<Option<bool>, AllocError> {
    sheet.run(alloc)?;
    let is_as_told = match verb {
        Verb::Finds => finds_front(alloc, sheet, rest)?,
        _ => ends_as(alloc, sheet, verb, rest)?,
    };
    Ok(Some(is_as_told))
}

// Whether the last run ended as a line `finds TEXT` says.
fn finds_front(alloc: Global, sheet: &Sheet, rest: &str) -> Result<bool, AllocError> {
    let front = spelled(alloc, sheet.texts.as_slice(), rest)?;
    let told = sheet.told.as_slice();
    if sheet.status != 0 || !told.starts_with(front.as_slice()) {
        return Ok(false);
    }
    is_accepted(alloc, sheet.given.system.as_slice(), told)
}

// Whether the last run ended as a line like `writes STATUS TEXT` says.
fn ends_as(alloc: Global, sheet: &Sheet, verb: Verb, rest: &str) -> Result<bool, AllocError> {
    let (status, raw) = rest.split_once(' ').unwrap_or((rest, ""));
    let text = spelled(alloc, sheet.texts.as_slice(), raw)?;
    let is_told = compares(verb, sheet.told.as_slice(), text.as_slice());
    Ok(is_told && u32::from(sheet.status) == number_of(status))
}

// Whether what was told is as the text asks.
fn compares(verb: Verb, told: &[u8], text: &[u8]) -> bool {
    match verb {
        Verb::Writes => told == text,
        Verb::Begins => told.starts_with(text),
        Verb::Closes => told.ends_with(text),
        _ => true,
    }
}

// A row of many runs.
fn sweep(
    alloc: Global,
    sheet: &mut Sheet,
    verb: Verb,
    rest: &str,
) -> Result<Option<bool>, AllocError> {
    let certificate = sheet.changed.as_slice();
    let given = &sheet.given;
    Ok(Some(match verb {
        Verb::Cuts => rejects_cuts(alloc, given, certificate)?,
        Verb::Foreign => rejects_foreign(alloc, given, certificate)?,
        Verb::Neighbours => decides_neighbours(alloc, given, certificate)?,
        Verb::Rereads => reads_back(alloc, given)?,
        Verb::Fronts => fronts(alloc, &*sheet, rest)?,
        _ => false,
    }))
}

// Whether runs whose writes fail end as a line `fronts PIECE TEXT` says.
fn fronts(alloc: Global, sheet: &Sheet, rest: &str) -> Result<bool, AllocError> {
    let (piece, raw) = rest.split_once(' ').unwrap_or((rest, ""));
    let text = spelled(alloc, sheet.texts.as_slice(), raw)?;
    let certificate = sheet.changed.as_slice();
    leaves_fronts(
        alloc,
        &sheet.given,
        certificate,
        number_of(piece),
        text.as_slice(),
    )
}
