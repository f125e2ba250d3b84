//! Certificates that are read byte by byte: which items come, and where.

ghost use Rattle.std.specs.Prelude.{◌<◌, ◌-◌, ◌^◌, length};

use crate::certificates::{BLOCKS, LOOP, ORDER, POLY, PUT, SUBTERM, USABLE, add_place};
use crate::comparing::expect_text;
use std::alloc::{AllocError, Global};
use std::test::Fail;
use wh_cert::Item;
use wh_cert_text::CertReader;
use wh_text::print_number;
use wh_types::{Bytes, Or};

/// Texts with what comes while they are read: of each item a letter, and how many lines are whole then; `!` for a byte
/// that is refused; and behind all bytes the place of the fault, if they are no certificate text.
const FED: &[(&[u8], &[u8])] = &[
    (LOOP, b"h2s3s4a5e6"),
    (PUT, b"h2s3a4p5e6"),
    (SUBTERM, b"h3n6n7e8"),
    (BLOCKS, b"h3n6n7n8e9"),
    (POLY, b"h3n11n12e13"),
    (ORDER, b"h3n11n12e13"),
    (USABLE, b"h3n12n13e14"),
    (b"NO 1\nterm a\n", b"h212"),
    (b"NO 1\nterm a\nstap 0 /\n", b"h2!!!!!!!14"),
    (b"YES 1\nranks\npairs 0\ndone\nend\nend\n", b"h3n4e5!!!!29"),
    (
        b"YES 2\nranks\npairs 0\npoly\nusable 0\nusable\n",
        b"h3!!!!!!!34",
    ),
    (b"", b"0"),
];

/// The letter of an item.
fn letter(item: &Item) -> u8 {
    match item {
        Item::YesHead { .. } | Item::NoHead { .. } => b'h',
        Item::Node(_) => b'n',
        Item::Step(_) => b's',
        Item::At(_) => b'a',
        Item::Put(_) => b'p',
        Item::End => b'e',
    }
}

/// The letter of an item, if one came, and how many lines are whole.
fn add_item(out: &mut Bytes, item: Option<Item>, lines: u32) -> Result<(), AllocError> {
    match item {
        Some(item) => {
            out.push(letter(&item))?;
            print_number(out, lines)
        }
        None => Ok(()),
    }
}

/// Reads the bytes one by one, and appends the items that come.
fn add_fed(alloc: Global, out: &mut Bytes, bytes: &[u8]) -> Result<(), AllocError>
    requires { length bytes.now < 2 ^ 32 - 1 }
{
    let mut reader = CertReader::new(alloc);
    let mut lines = 0u32;
    for byte in bytes {
        if *byte == b'\n' {
            lines = lines.saturating_add(1);
        }
        match reader.feed(*byte) {
            Ok(item) => add_item(out, item, lines)?,
            Err(Or::Because(_)) => out.push(b'!')?,
            Err(Or::NoMemory) => return Err(AllocError),
        }
    }
    match reader.finish() {
        Ok(()) => Ok(()),
        Err(fault) => add_place(out, fault.at),
    }
}

/// The items that come while the bytes are read, as a text.
fn fed(alloc: Global, bytes: &[u8]) -> Result<Bytes, AllocError> {
    let mut out = Bytes::new(alloc);
    if bytes.len() < 1_000_000 {
        add_fed(alloc, &mut out, bytes)?;
    }
    Ok(out)
}

#[test]
fn items_come_with_their_last_line(rt: HostRuntime) -> Result<(), Fail> {
    for (bytes, expected) in FED {
        let found = fed(rt.alloc(), *bytes)?;
        expect_text(&rt, found.as_slice(), *expected);
    }
    Ok(())
}
