//! Reading a number from a word, where it is spelled as a printed one is.

ghost use Rattle.std.specs.Prelude.{◌↔◌, IsTrue};
ghost use Rattle.std.specs.Fmt.{decimal};
ghost use Rattle.wh_answer.specs.Stands.{Long, Reads};
ghost use Rattle.wh_answer.specs.Words.{BeginsNumber};

/// The number below 2^64 that the word spells.
pub fn long_number(word: &str) -> Option<u64>
    ensures { Reads Long decimal word.now result }
{
    if !begins_number(word.as_bytes()) {
        return None;
    }
    match word.parse::<u64>() {
        Ok(number) => Some(number),
        Err(_) => None,
    }
}

// Whether a number may be spelled with such a front: no `+`, and 0 only alone.
fn begins_number(word: &[u8]) -> bool
    ensures { IsTrue result ↔ BeginsNumber word.now }
{
    match word {
        [] => false,
        [first] => *first != b'+',
        [first, ..] => *first != b'+' && *first != b'0',
    }
}
