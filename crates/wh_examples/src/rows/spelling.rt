//! Texts as a sheet spells them, with names for those that come again.

use std::alloc::{AllocError, Global};
use wh_types::Bytes;

/// A text with a name.
#[derive(Drop)]
pub struct Named {
    name: String,
    text: Bytes,
}

/// The text gets the name.
pub fn name_text(
    alloc: Global,
    texts: &mut Vec<Named>,
    name: &str,
    text: Bytes,
) -> Result<(), AllocError> {
    let name = String::from_str(alloc, name)?;
    texts.push(Named { name, text })?;
    Ok(())
}

/// The text that is spelled like this: `|` stands for a line feed, and what is between `<` and `>` is filled in.
pub fn spelled(alloc: Global, texts: &[Named], raw: &str) -> Result<Bytes, AllocError> {
    let mut text = Bytes::new(alloc);
    spell(alloc, texts, raw, 0, &mut text)?;
    Ok(text)
}

/// The text is joined `times` times by what is spelled, in which `<#>` is how many times it was joined before.
pub fn spelled_each(
    alloc: Global,
    texts: &[Named],
    raw: &str,
    times: u32,
) -> Result<Bytes, AllocError> {
    let mut text = Bytes::new(alloc);
    for number in 0..times {
        spell(alloc, texts, raw, number, &mut text)?;
    }
    Ok(text)
}

fn spell(
    alloc: Global,
    texts: &[Named],
    raw: &str,
    number: u32,
    text: &mut Bytes,
) -> Result<(), AllocError> {
    for (at, piece) in raw.split('<').enumerate() {
        match piece.split_once('>') {
            Some((inside, rest)) if at > 0 => {
                fill_in(alloc, texts, inside, number, text)?;
                add_plain(rest, text)?;
            }
            _ => add_plain(piece, text)?,
        }
    }
    Ok(())
}

// What stands outside of `<` and `>`.
fn add_plain(piece: &str, text: &mut Bytes) -> Result<(), AllocError> {
    for byte in piece.as_bytes() {
        text.push(if *byte == b'|' { b'\n' } else { *byte })?;
    }
    Ok(())
}

// What is between them: `#`, `%` with the number of a byte, a name, or a name with `*` and how many times its text is
// filled in.
fn fill_in(
    alloc: Global,
    texts: &[Named],
    inside: &str,
    number: u32,
    text: &mut Bytes,
) -> Result<(), AllocError> {
    if inside == "#" {
        let digits = format!(in alloc; "{number}")?;
        return text.append(digits.as_bytes());
    }
    if let Some(byte) = inside.strip_prefix('%') {
        return text.push(number_of(byte).min(255) as u8);
    }
    match inside.split_once('*') {
        Some((name, times)) => add_named(texts, name, number_of(times), text),
        None => add_named(texts, inside, 1, text),
    }
}

/// The number of a word, or 0 where it is none.
pub fn number_of(word: &str) -> u32 {
    word.parse().unwrap_or(0)
}

// The text that got the name last, `times` times.
fn add_named(texts: &[Named], name: &str, times: u32, text: &mut Bytes) -> Result<(), AllocError> {
    let mut found = b"".as_slice();
    for named in texts {
        if named.name.as_str() == name {
            found = named.text.as_slice();
        }
    }
    for _ in 0..times {
        text.append(found)?;
    }
    Ok(())
}
