//! Sorting the words behind the command: words by themselves and options.

ghost use Rattle.std.specs.Prelude.{◌≡◌, ◌≢◌, ◌≤◌, [], ◌∷◌, MatchOption, codes, length, map, string_bytes};
ghost use Rattle.wh_top_words.specs.Kept.{Knows, LeadsNowhere, LeadsTo, SayNone};

use crate::kept::Kept;
use crate::options::{is_plain, read_option};

/// What is kept of the words; `None` where they say nothing that may be asked for.
pub fn read_items(words: &[String]) -> Option<Kept<'_>>
    ensures { MatchOption result (SayNone (map string_bytes words.now)) (Knows (map string_bytes words.now) []) }
{
    let mut kept = Kept::new();
    let mut rest = words;
    while let [word, behind @ ..] = rest {
        if word.as_str() == "--" {
            kept.add_all(behind)?;
            return Some(kept);
        }
        rest = read_item(&mut kept, word.as_str(), behind)?;
    }
    Some(kept)
}

// Keeps what the word says, which is an option's name where the next is its number; what stands behind is left.
fn read_item<'a>(kept: &mut Kept<'a>, word: &'a str, behind: &'a [String]) -> Option<&'a [String]>
    requires { word.now ≢ codes "--" }
    ensures read { MatchOption result (LeadsNowhere (word.now ∷ map string_bytes behind.now) kept.old)
        (λ rest. LeadsTo (word.now ∷ map string_bytes behind.now) kept.old (map string_bytes rest.now) kept.new) }
    ensures shorter { MatchOption result Unit (λ rest. length rest.now ≤ length behind.now) }
{
    if is_plain(word) {
        kept.add(word)?;
        return Some(behind);
    }
    let (setting, number) = read_option(word)?;
    match number {
        Some(number) => {
            kept.set(setting, number)?;
            Some(behind)
        }
        None => {
            let [number, rest @ ..] = behind else {
                return None;
            };
            kept.set(setting, number.as_str())?;
            Some(rest)
        }
    }
}
