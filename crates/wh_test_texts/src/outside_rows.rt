//! What no clause of the outside says: that the calls succeed, what they ask for, and that the real files and standard
//! output are reached.

ghost use Rattle.std.specs.Prelude.{None};

use crate::comparing::expect_text;
use std::alloc::{AllocError, Global};
use std::fs;
use std::process::Abort;
use std::test::Fail;
use wh_io::{
    Failed, FileShelf, MemoryShelf, MemorySink, Next, Pieces, ReadFault, Shelf, Sink, StdSink,
    read_whole, write_all_of,
};
use wh_types::{Bytes, Or};

/// Longer than two pieces, and no two pieces alike.
fn long_text(alloc: Global) -> Result<Bytes, AllocError> {
    let mut text = Bytes::new(alloc);
    for i in 0..150_000u32 {
        text.push((i % 251) as u8)?;
    }
    Ok(text)
}

/// The number of bytes read, and why none were.
fn told(outcome: &Result<Bytes, Or<ReadFault>>) -> (usize, &'static str) {
    match outcome {
        Ok(bytes) => (bytes.as_slice().len(), ""),
        Err(Or::NoMemory) => (0, "no memory"),
        Err(Or::Because(ReadFault::Failed)) => (0, "failed"),
        Err(Or::Because(ReadFault::TooLong)) => (0, "too long"),
    }
}

/// The number of bytes that are read of a file, and why none were.
fn told_of<S: Shelf>(
    alloc: Global,
    shelf: &mut S,
    name: &str,
    limit: u64,
) -> (usize, &'static str) {
    let read = read_whole(alloc, shelf, name, limit);
    told(&read)
}

/// Whether these bytes are read.
fn reads<S: Shelf>(alloc: Global, shelf: &mut S, name: &str, limit: u64, text: &[u8]) -> bool {
    let read = read_whole(alloc, shelf, name, limit);
    matches!(&read, Ok(bytes) if bytes.as_slice() == text)
}

/// Three files, of which the last one takes the place of the first.
fn add_files(shelf: &mut MemoryShelf) -> Result<(), AllocError> {
    shelf.add_file("a", b"earlier")?;
    shelf.add_file("b", b"other")?;
    shelf.add_file("a", b"later")
}

/// Compares what is told; the name and the number say of which row.
fn expect_told(
    rt: &impl Abort,
    name: &str,
    number: u64,
    found: (usize, &str),
    want: (usize, &str),
) {
    assert!(rt; found == want, "{name} {number}");
}

/// Files and limits, with what is told of the reading.
const LIMITS: &[(&str, u64, (usize, &str))] = &[
    ("a", u64::MAX, (5, "")),
    ("b", 5, (5, "")),
    ("b", 4, (0, "too long")),
    ("b", 0, (0, "too long")),
    ("c", 5, (0, "failed")),
];

/// A shelf with these files.
fn full_shelf(alloc: Global) -> Result<MemoryShelf, AllocError> {
    let mut shelf = MemoryShelf::new(alloc, &[])?;
    add_files(&mut shelf)?;
    Ok(shelf)
}

/// Compares what is told of each reading.
fn expect_limits(rt: &impl Abort, alloc: Global, shelf: &mut MemoryShelf) {
    assert!(rt; reads(alloc, shelf, "a", 5, b"later"));
    for (name, limit, want) in LIMITS {
        let found = told_of(alloc, shelf, *name, *limit);
        expect_told(rt, *name, *limit, found, *want);
    }
}

#[test]
fn reads_up_to_the_limit(rt: HostRuntime) -> Result<(), Fail> {
    let mut shelf = full_shelf(rt.alloc())?;
    expect_limits(&rt, rt.alloc(), &mut shelf);
    Ok(())
}

/// A shelf with the text as its one file, which fails at that read.
fn failing_shelf(alloc: Global, text: &[u8], failing: u64) -> Result<MemoryShelf, AllocError> {
    let mut shelf = MemoryShelf::new(alloc, &[failing])?;
    shelf.add_file("a", text)?;
    Ok(shelf)
}

/// What is told of the text on a shelf that fails at that read.
fn told_of_failing(
    alloc: Global,
    text: &[u8],
    failing: u64,
) -> Result<(usize, &'static str), AllocError> {
    let mut shelf = failing_shelf(alloc, text, failing)?;
    Ok(told_of(alloc, &mut shelf, "a", 1_000_000))
}

/// Reads that fail, with what is told. A text of three pieces takes four reads: the last one gives none.
const FAILURES: &[(u64, (usize, &str))] = &[
    (0, (0, "failed")),
    (2, (0, "failed")),
    (3, (0, "failed")),
    (4, (150_000, "")),
];

#[test]
fn fails_at_the_stated_reads(rt: HostRuntime) -> Result<(), Fail> {
    let text = long_text(rt.alloc())?;
    for (failing, want) in FAILURES {
        let found = told_of_failing(rt.alloc(), text.as_slice(), *failing)?;
        expect_told(&rt, "failing", *failing, found, *want);
    }
    Ok(())
}

/// What is told of a piece: its length, and what it is.
fn told_of_piece(piece: &Result<Next, ReadFault>) -> (usize, &'static str) {
    match piece {
        Ok(Next::Bytes(count)) => (*count, "bytes"),
        Ok(Next::End) => (0, "end"),
        Err(ReadFault::Failed) => (0, "failed"),
        Err(ReadFault::TooLong) => (0, "too long"),
    }
}

/// Compares what is told of piece after piece of the file `a`, each with room for two bytes.
fn expect_pieces<S: Shelf>(rt: &impl Abort, shelf: &mut S, limit: u64, wanted: &[(usize, &str)]) {
    let mut pieces = Pieces::new(limit);
    let mut buffer = [0; 2];
    for (number, want) in wanted.iter().enumerate() {
        let piece = pieces.next(shelf, "a", &mut buffer);
        expect_told(rt, "piece", number as u64, told_of_piece(&piece), *want);
    }
}

/// Limits and failing reads, with what is told of a text of four bytes, piece after piece. The last answer comes again,
/// also where the next read would not fail.
const PIECES: &[(u64, u64, &[(usize, &str)])] = &[
    (
        3,
        9,
        &[(2, "bytes"), (1, "bytes"), (0, "too long"), (0, "too long")],
    ),
    (4, 9, &[(2, "bytes"), (2, "bytes"), (0, "end"), (0, "end")]),
    (0, 9, &[(0, "too long"), (0, "too long")]),
    (4, 1, &[(2, "bytes"), (0, "failed"), (0, "failed")]),
    (
        4,
        2,
        &[(2, "bytes"), (2, "bytes"), (0, "failed"), (0, "failed")],
    ),
];

#[test]
fn gives_pieces_up_to_the_limit(rt: HostRuntime) -> Result<(), Fail> {
    for (limit, failing, wanted) in PIECES {
        let mut shelf = failing_shelf(rt.alloc(), b"text", *failing)?;
        expect_pieces(&rt, &mut shelf, *limit, *wanted);
    }
    Ok(())
}

/// A file with no end, and the end of what was asked for.
#[derive(Drop)]
struct Endless {
    asked: u64,
}

impl Shelf for Endless {
    ghost held = { λ _ _. None };

    ghost faults = { λ _ _. 0 };

    fn read_at(&mut self, _name: &str, at: u64, into: &mut [u8]) -> Result<usize, Failed> {
        let end = at.saturating_add(into.len() as u64);
        self.asked = self.asked.max(end);
        Ok(into.len())
    }
}

/// What is told of a file with no end, and the end of what was asked for.
fn told_of_endless(alloc: Global, limit: u64) -> ((usize, &'static str), u64) {
    let mut shelf = Endless { asked: 0 };
    let found = told_of(alloc, &mut shelf, "a", limit);
    (found, shelf.asked)
}

/// Limits, with the end of what is asked for.
const ENDS: &[(u64, u64)] = &[
    (0, 1),
    (10, 11),
    (65_535, 65_536),
    (65_536, 65_537),
    (100_000, 100_001),
];

#[test]
fn asks_for_one_byte_past_the_limit(rt: HostRuntime) {
    for (limit, end) in ENDS {
        let (found, asked) = told_of_endless(rt.alloc(), *limit);
        expect_told(&rt, "limit", *limit, found, (0, "too long"));
        assert!(rt; asked == *end, "limit {limit}");
    }
}

/// Compares whether all is written, and what is.
fn expect_written(
    rt: &impl Abort,
    sink: &mut MemorySink,
    want: bool,
    written: &[u8],
    failing: u64,
) {
    let all = write_all_of(sink, b"yesterday").is_ok();
    assert!(rt; all == want, "failing {failing}");
    expect_text(rt, sink.bytes(), written);
}

/// Whether a sink with no room takes nothing.
fn full_takes_nothing(alloc: Global) -> Result<bool, AllocError> {
    let mut full = MemorySink::new(alloc, 1, 0, &[])?;
    Ok(matches!(full.put(b""), Ok(0)))
}

#[test]
fn writes_all_or_a_front_part(rt: HostRuntime) -> Result<(), Fail> {
    for (most, room, failing, want, written) in [
        (1, 20, 99, true, "yesterday"),
        (100, 9, 99, true, "yesterday"),
        (2, 20, 2, false, "yest"),
        (2, 20, 0, false, ""),
        (3, 4, 99, false, "yest"),
    ] {
        let mut sink = MemorySink::new(rt.alloc(), most, room, &[failing])?;
        expect_written(&rt, &mut sink, want, written.as_bytes(), failing);
    }
    assert!(rt; full_takes_nothing(rt.alloc())?);
    Ok(())
}

#[test]
fn reads_a_real_file(rt: HostRuntime) -> Result<(), Fail> {
    let text = long_text(rt.alloc())?;
    fs::write(&rt, "wh_test_texts.tmp", text.as_slice())?;
    let mut shelf = FileShelf::new(&rt);
    assert!(rt;
        reads(
            rt.alloc(),
            &mut shelf,
            "wh_test_texts.tmp",
            150_000,
            text.as_slice()
        )
    );
    let missing = told_of(rt.alloc(), &mut shelf, "wh_test_texts.none", 150_000);
    expect_told(&rt, "missing", 150_000, missing, (0, "failed"));
    fs::remove_file(&rt, "wh_test_texts.tmp")?;
    Ok(())
}

#[test]
fn writes_to_standard_output(rt: HostRuntime) {
    let mut sink = StdSink::new(rt.stdout());
    assert!(rt; write_all_of(&mut sink, b"a short text\n").is_ok());
}

#[test]
fn causes(rt: HostRuntime) {
    let late: Or<ReadFault> = ReadFault::TooLong.into();
    assert!(rt; matches!(late, Or::Because(ReadFault::TooLong)));
    let failed: Or<ReadFault> = ReadFault::Failed.into();
    assert!(rt; matches!(failed, Or::Because(ReadFault::Failed)));
}
