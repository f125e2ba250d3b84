//! Reading why no certificate was found from the words of a line.

ghost use Rattle.std.specs.Prelude.{◌≡◌, ◌∷◌, [], List, ℕ, codes, IfOk, MatchOption, map};
ghost use Rattle.std.specs.Fmt.{decimal};
ghost use Rattle.wh_answer.specs.Stands.{AllShort, AllWords, CauseStands, Reads};
ghost use Rattle.wh_answer.specs.Texts.{finder_word};
ghost use Rattle.wh_answer.specs.Words.{cause_words};
ghost use Rattle.wh_answer_reader.specs.Seen.{seen};

use crate::words::{name_of, short_number};
use std::alloc::{AllocError, Global};
use wh_answer::{NamedCause, NamedFinder, Names, long_number};
use wh_types::Numbers;

/// The cause with these words.
pub fn read_cause(alloc: Global, words: &[&str]) -> Result<Option<NamedCause>, AllocError>
    ensures { IfOk result (Reads CauseStands cause_words (seen words.now)) }
{
    let [front, rest @ ..] = words else {
        return Ok(None);
    };
    match *front {
        "no-ranks" => no_ranks(alloc, rest),
        "stuck" => stuck(alloc, rest),
        "spent" => Ok(spent(rest)),
        _ => Ok(None),
    }
}

// No ranks were found.
fn no_ranks(alloc: Global, words: &[&str]) -> Result<Option<NamedCause>, AllocError>
    ensures { IfOk result (Reads CauseStands cause_words (codes "no-ranks" ∷ seen words.now)) }
{
    let [what, rest @ ..] = words else {
        return Ok(None);
    };
    match *what {
        "sorts" => sorts(alloc, rest),
        "rule" => rule_meta(alloc, rest),
        _ => Ok(None),
    }
}

// The sorts on a cycle.
fn sorts(alloc: Global, words: &[&str]) -> Result<Option<NamedCause>, AllocError>
    ensures { IfOk result (Reads CauseStands cause_words (codes "no-ranks" ∷ codes "sorts" ∷ seen words.now)) }
{
    match names_of(alloc, words)? {
        Some(names) => Ok(Some(NamedCause::Sorts(names))),
        None => Ok(None),
    }
}

// A rule and one of its meta-variables.
fn rule_meta(alloc: Global, words: &[&str]) -> Result<Option<NamedCause>, AllocError>
    ensures { IfOk result (Reads CauseStands cause_words (codes "no-ranks" ∷ codes "rule" ∷ seen words.now)) }
{
    let [number, name] = words else {
        return Ok(None);
    };
    let Some(rule) = short_number(number) else {
        return Ok(None);
    };
    match name_of(alloc, name.as_bytes())? {
        Some(name) => Ok(Some(NamedCause::Meta { rule, name })),
        None => Ok(None),
    }
}

// The pairs that no finder lets go.
fn stuck(alloc: Global, words: &[&str]) -> Result<Option<NamedCause>, AllocError>
    ensures { IfOk result (Reads CauseStands cause_words (codes "stuck" ∷ seen words.now)) }
{
    match numbers_of(alloc, words)? {
        Some(pairs) => Ok(Some(NamedCause::Stuck(pairs))),
        None => Ok(None),
    }
}

// A finder that gave up.
fn spent(words: &[&str]) -> Option<NamedCause>
    ensures { Reads CauseStands cause_words (codes "spent" ∷ seen words.now) result }
{
    let [finder, number] = words else {
        return None;
    };
    let by = finder_of(finder)?;
    let count = long_number(number)?;
    Some(NamedCause::Spent { by, count })
}

// The finder with this word.
fn finder_of(word: &str) -> Option<NamedFinder>
    ensures { MatchOption result ((f : NamedFinder) → finder_word f ≡ word.now → ⊥) (λ f. finder_word f ≡ word.now) }
{
    match word {
        "subterm" => Some(NamedFinder::Subterm),
        "poly" => Some(NamedFinder::Poly),
        "order" => Some(NamedFinder::Order),
        "loop" => Some(NamedFinder::Loop),
        _ => None,
    }
}

// Each word as a name.
fn names_of(alloc: Global, words: &[&str]) -> Result<Option<Names>, AllocError>
    ensures { IfOk result (λ found. MatchOption found (AllWords (seen words.now) → ⊥) (λ all. AllWords all × (all ≡ seen words.now))) }
{
    let mut names = Names::new(alloc);
    for word in words {
        match name_of(alloc, word.as_bytes())? {
            Some(name) => names.push(name)?,
            None => return Ok(None),
        }
    }
    Ok(Some(names))
}

// Each word as a number below 2^32.
fn numbers_of(alloc: Global, words: &[&str]) -> Result<Option<Numbers>, AllocError>
    ensures { IfOk result (Reads AllShort (map decimal) (seen words.now)) }
{
    let mut numbers = Numbers::new(alloc);
    for word in words {
        match short_number(word) {
            Some(number) => numbers.push(number)?,
            None => return Ok(None),
        }
    }
    Ok(Some(numbers))
}
