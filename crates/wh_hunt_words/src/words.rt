//! The words of the command line: a file, how much work a hunt may do, and whether its statistics are asked for.
//! `read_hunt` is the main function.

ghost use Rattle.std.specs.Prelude.{ℕ, ◌≡◌, ◌↔◌, Bool, List, IsTrue, None, Some, MatchOption, codes, map, string_bytes};
ghost use Rattle.wh_hunt_words.specs.Words.{AsksHunt, AsksPlainly, AsksWithWork, SetsWork, usual_work};
ghost use Rattle.wh_top_words.specs.Words.{IsPlain};

use wh_answer::long_number;

/// How much work a hunt does where the words do not say.
const USUAL_WORK: u32 = 10_000_000;

/// The greatest amount of work that may be asked for.
const MOST_WORK: u64 = 4_294_967_295;

/// What the words ask for.
#[derive(Clone, Copy)]
pub struct Hunt<'a> {
    /// The name of the system file.
    pub file: &'a str,
    /// How much work the hunt may do: 0 to 2^32 - 1.
    pub work: u32,
    /// Whether statistics are told behind MAYBE.
    pub counts: bool,
}

/// The hunt that the words ask for; `None` exactly where they ask for none. It takes no memory.
///
/// The words are a file and, behind it or before it, `--work` and a number; `--stats` may stand behind all. A file's name
/// of two or more bytes does not begin with `-`, and it is not empty.
pub fn read_hunt(words: &[String]) -> Option<Hunt<'_>>
    ensures { MatchOption result ((file : List ℕ) (n : ℕ) (counts : Bool) → AsksHunt (map string_bytes words.now) file n counts → ⊥)
        (λ hunt. AsksHunt (map string_bytes words.now) hunt.file.now hunt.work hunt.counts) }
{
    match words {
        [file] => hunt_plainly(file.as_str(), false),
        [file, last] if last.as_str() == "--stats" => hunt_plainly(file.as_str(), true),
        [first, second, third] => hunt_by(first.as_str(), second.as_str(), third.as_str(), false),
        [first, second, third, last] if last.as_str() == "--stats" => {
            hunt_by(first.as_str(), second.as_str(), third.as_str(), true)
        }
        _ => None,
    }
}

// The hunt on the file with the usual work.
fn hunt_plainly(file: &str, counts: bool) -> Option<Hunt<'_>>
    ensures { MatchOption result ((name : List ℕ) (n : ℕ) → AsksPlainly file.now name n → ⊥)
        (λ hunt. AsksPlainly file.now hunt.file.now hunt.work × (hunt.counts ≡ counts)) }
{
    if is_plain(file) {
        Some(Hunt {
            file,
            work: USUAL_WORK,
            counts,
        })
    } else {
        None
    }
}

// The hunt that three words ask for.
fn hunt_by<'a>(first: &'a str, second: &'a str, third: &'a str, counts: bool) -> Option<Hunt<'a>>
    ensures { MatchOption result ((file : List ℕ) (n : ℕ) → AsksWithWork first.now second.now third.now file n → ⊥)
        (λ hunt. AsksWithWork first.now second.now third.now hunt.file.now hunt.work × (hunt.counts ≡ counts)) }
{
    if is_plain(first) {
        hunt_with(first, second, third, counts)
    } else {
        hunt_with(third, first, second, counts)
    }
}

// The hunt on the file with the work that an option says.
fn hunt_with<'a>(file: &'a str, option: &str, number: &str, counts: bool) -> Option<Hunt<'a>>
    ensures { MatchOption result ((n : ℕ) → IsPlain file.now → SetsWork option.now number.now n → ⊥)
        (λ hunt. (hunt.file.now ≡ file.now) × IsPlain file.now × SetsWork option.now number.now hunt.work × (hunt.counts ≡ counts)) }
{
    if !is_plain(file) || option != "--work" {
        return None;
    }
    let work = long_number(number)?;
    if work > MOST_WORK {
        return None;
    }
    Some(Hunt {
        file,
        work: work as u32,
        counts,
    })
}

// Whether a word can be a file.
fn is_plain(word: &str) -> bool
    ensures { IsTrue result ↔ IsPlain word.now }
{
    match word.as_bytes() {
        [] => false,
        [_] => true,
        [first, ..] => *first != b'-',
    }
}
