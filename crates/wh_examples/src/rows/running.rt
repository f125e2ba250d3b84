//! Runs over two files and a sink in memory.

use std::alloc::{AllocError, Global};
use wh_io::{MemoryShelf, MemorySink};
use wh_top::run;
use wh_types::Bytes;

/// What a run is given beside its certificate.
#[derive(Drop)]
pub struct Given {
    /// The words of the run.
    pub words: Vec<String>,
    /// The bytes of the file `system`.
    pub system: Bytes,
    /// What fails.
    pub faults: Faults,
}

/// Which read and which write of a run fail, counted from 0, and how many bytes a write takes at most.
#[derive(Clone, Copy)]
pub struct Faults {
    /// The read that fails.
    pub read: Option<u64>,
    /// The write that fails.
    pub write: Option<u64>,
    /// How many bytes a write takes.
    pub piece: u64,
}

/// No read and no write fails.
pub const SOUND: Faults = Faults {
    read: None,
    write: None,
    piece: 10_000,
};

/// How a run ends: its exit status, and the sink with what it wrote.
#[derive(Drop)]
pub struct Ending {
    /// The exit status.
    pub status: u8,
    /// What was written.
    pub out: MemorySink,
}

/// The words of a line, between semicolons.
pub fn words_of(alloc: Global, line: &str) -> Result<Vec<String>, AllocError> {
    let mut words = Vec::new(alloc);
    if line.is_empty() {
        return Ok(words);
    }
    for word in line.split(';') {
        words.push(String::from_str(alloc, word)?)?;
    }
    Ok(words)
}

/// Runs with the words over the system and the certificate, and with the faults.
pub fn ended(
    alloc: Global,
    words: &[String],
    system: &[u8],
    certificate: &[u8],
    faults: Faults,
) -> Result<Ending, AllocError> {
    let mut shelf = shelf_of(alloc, system, certificate, faults.read)?;
    let mut out = sink_of(alloc, faults.piece, faults.write)?;
    let status = run(alloc, words, &mut shelf, &mut out).number();
    Ok(Ending { status, out })
}

fn shelf_of(
    alloc: Global,
    system: &[u8],
    certificate: &[u8],
    read: Option<u64>,
) -> Result<MemoryShelf, AllocError> {
    let mut shelf = match read {
        Some(number) => MemoryShelf::new(alloc, &[number])?,
        None => MemoryShelf::new(alloc, &[])?,
    };
    shelf.add_file("system", system)?;
    shelf.add_file("certificate", certificate)?;
    Ok(shelf)
}

fn sink_of(alloc: Global, piece: u64, write: Option<u64>) -> Result<MemorySink, AllocError> {
    match write {
        Some(number) => MemorySink::new(alloc, piece.max(1), 600_000, &[number]),
        None => MemorySink::new(alloc, piece.max(1), 600_000, &[]),
    }
}

/// Whether a run ends with the status and writes the text.
pub fn writes(
    alloc: Global,
    given: &Given,
    certificate: &[u8],
    status: u8,
    text: &[u8],
) -> Result<bool, AllocError> {
    let end = ended(
        alloc,
        given.words.as_slice(),
        given.system.as_slice(),
        certificate,
        given.faults,
    )?;
    Ok(end.status == status && end.out.bytes() == text)
}
