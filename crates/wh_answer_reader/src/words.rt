//! Cutting a line into words, and the numbers and names among them.

ghost use Rattle.std.specs.Prelude.{◌≡◌, ◌↔◌, ◌++◌, List, ℕ, codes, IfOk, IsTrue, MatchOption};
ghost use Rattle.std.specs.Fmt.{decimal};
ghost use Rattle.wh_text.specs.Chars.{AllPass, is_part, is_start};
ghost use Rattle.wh_text.specs.Words.{IsWord};
ghost use Rattle.wh_answer.specs.Stands.{Reads, Short};
ghost use Rattle.wh_answer.specs.Words.{words_of};
ghost use Rattle.wh_answer_reader.specs.Seen.{seen};

use std::alloc::{AllocError, Global};
use wh_answer::long_number;
use wh_text::Name;

/// The parts of a text between spaces.
pub fn words_of(alloc: Global, text: &str) -> Result<Vec<&str>, AllocError>
    ensures { IfOk result (λ words. seen words.items ≡ words_of text.now) }
{
    text.split(' ').collect(alloc)
}

/// The number below 2^32 that the word spells.
pub fn short_number(word: &str) -> Option<u32>
    ensures { Reads Short decimal word.now result }
{
    match long_number(word) {
        Some(number) => {
            if number < 1 << 32 {
                Some(number as u32)
            } else {
                None
            }
        }
        None => None,
    }
}

/// The name that these bytes spell, if they spell one.
pub fn name_of(alloc: Global, word: &[u8]) -> Result<Option<Name>, AllocError>
    ensures { IfOk result (λ found. MatchOption found (IsWord word.now → ⊥) (λ name. IsWord name × (name ≡ word.now))) }
{
    if is_word(word) {
        Ok(Some(Name::new(alloc, word)?))
    } else {
        Ok(None)
    }
}

/// The bytes before the mark at the end of the word.
pub fn unmarked(word: &[u8]) -> Option<&[u8]>
    ensures { MatchOption result ((name : List ℕ) → name ++ codes "#" ≡ word.now → ⊥) (λ name. name.now ++ codes "#" ≡ word.now) }
{
    match word {
        [name @ .., last] => if *last == b'#' { Some(name) } else { None },
        [] => None,
    }
}

// Whether the bytes are spelled as a name.
fn is_word(word: &[u8]) -> bool
    ensures { IsTrue result ↔ IsWord word.now }
{
    match word {
        [] => false,
        [first, ..] => word.len() <= 64 && is_start(*first) && all_parts(word),
    }
}

// Whether a name may go on with each of the bytes.
fn all_parts(word: &[u8]) -> bool
    ensures { IsTrue result ↔ AllPass is_part word.now }
{
    word.iter().all(|byte| is_part(*byte))
}

// Whether a name may begin with the byte: a letter or an underscore.
fn is_start(byte: u8) -> bool
    ensures { result ≡ is_start byte }
{
    byte.is_ascii_uppercase() || byte.is_ascii_lowercase() || byte == b'_'
}

// Whether a name may go on with the byte: these, digits and the apostrophe.
fn is_part(byte: u8) -> bool
    ensures { result ≡ is_part byte }
{
    is_start(byte) || byte.is_ascii_digit() || byte == b'\''
}
