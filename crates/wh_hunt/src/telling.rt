//! The text of a hunt's answer: that of the report, and behind MAYBE how the hunt for loops ended.

ghost use Rattle.std.specs.Prelude.{◌≡◌, ◌<◌, ◌++◌, ℕ, List, IfOk, OnOk};
ghost use Rattle.wh_hunt.specs.Hunting.{IsEndOf, IsEndTold, IsTold, hunted_line, refused_line};

use std::alloc::{AllocError, Global};
use wh_answer::{Report, print_answer};
use wh_text::print_number;
use wh_types::Bytes;

/// How a hunt ended.
#[derive(Clone, Copy)]
pub struct End {
    /// The work that the hunt might do.
    pub given: u32,
    /// What is left of it.
    pub left: u64,
    /// How many of its certificates were refused.
    pub refused: u32,
    /// Whether that number is told.
    pub counts: bool,
}

/// The line of the report, and behind MAYBE a line that says how much of the work that was given was done, and whether
/// all of it was spent; behind that line how many certificates were refused, where this is asked for.
pub fn text_of(alloc: Global, report: &Report, end: End) -> Result<Bytes, AllocError>
    ensures { IfOk result (IsTold end.given end.counts report.now) }
{
    let mut text = print_answer(alloc, report)?;
    if let Report::Maybe(_) = report {
        append_all(&mut text, end)?;
    }
    Ok(text)
}

// Appends what stands behind MAYBE.
fn append_all(text: &mut Bytes, end: End) -> Result<(), AllocError>
    ensures { OnOk result ((more : List ℕ) × IsEndTold end.given end.counts more × (text.new ≡ text.old ++ more)) }
{
    append_end(text, end.given, end.left)?;
    if end.counts {
        append_count(text, end.refused)?;
    }
    Ok(())
}

// Appends the line that says how many certificates were refused.
fn append_count(text: &mut Bytes, refused: u32) -> Result<(), AllocError>
    ensures { OnOk result (text.new ≡ text.old ++ refused_line refused) }
{
    text.append(b"hunted refused ")?;
    print_number(text, refused)?;
    text.push(b'\n')?;
    Ok(())
}

// Appends the line that says how the hunt ended: with nothing left of its work, or with nothing left to do.
fn append_end(text: &mut Bytes, given: u32, left: u64) -> Result<(), AllocError>
    ensures { OnOk result ((more : List ℕ) × IsEndOf given more × (text.new ≡ text.old ++ more)) }
{
    if left == 0 || given == 0 {
        append_line(text, given, b"spent")
    } else {
        append_line(text, done(given, left), b"exhausted")
    }
}

// How much of the work was done, where some is left.
fn done(given: u32, left: u64) -> u32
    requires some { 0 < left }
    requires given { 0 < given }
    ensures { result < given }
{
    let rest = left.min(u64::from(given)) as u32;
    given - rest
}

// Appends the line with that number and that word.
fn append_line(text: &mut Bytes, done: u32, word: &[u8]) -> Result<(), AllocError>
    ensures { OnOk result (text.new ≡ text.old ++ hunted_line done word.now) }
{
    text.append(b"hunted loops ")?;
    print_number(text, done)?;
    text.push(b' ')?;
    text.append(word)?;
    text.push(b'\n')?;
    Ok(())
}
