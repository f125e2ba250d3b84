//! The command that the words of the command line ask for. `read_words` is the main function.

ghost use Rattle.std.specs.Prelude.{ℕ, ◌≡◌, ◌≤◌, MatchOption, codes, map, string_bytes, unwrap_or};
ghost use Rattle.std.specs.Fmt.{decimal};
ghost use Rattle.wh_types.specs.Limits.{most_generated};
ghost use Rattle.wh_top_words.specs.Answers.{Answers};
ghost use Rattle.wh_top_words.specs.Asked.{bounds_of, request};
ghost use Rattle.wh_top_words.specs.Kept.{AllWithin, SetsAll};
ghost use Rattle.wh_top_words.specs.Words.{Asks, Request, gen, steps, tries, usual};

use crate::items::read_items;
use crate::kept::{Alone, Kept};
use wh_answer::long_number;

/// What bounds a search for a proof or a loop.
#[derive(Clone, Copy)]
pub struct Limits {
    /// How many clauses a finder may learn for one set: 0 to 1,000,000.
    pub tries: u64,
    /// How many steps a loop may have: 0 to 100.
    pub depth: u32,
    /// How many terms the search for loops may keep: 1 to 10,000.
    pub visited: u32,
}

/// What the words ask for.
#[derive(Clone, Copy)]
pub enum Command<'a> {
    /// Check a certificate for a system.
    Check {
        /// The name of the system file.
        file: &'a str,
        /// The name of the certificate file.
        cert: &'a str,
    },
    /// Search for a proof of termination of a system, or for a loop.
    Prove {
        /// The name of the system file.
        file: &'a str,
        /// What bounds the search.
        limits: Limits,
    },
    /// Show a system.
    Show {
        /// The name of the system file.
        file: &'a str,
    },
    /// Prove the generated system with this number.
    Gen {
        /// The number: 1 to 200.
        n: u32,
    },
    /// Reduce a term of a system.
    Reduce {
        /// The name of the system file.
        file: &'a str,
        /// The text of the term.
        term: &'a str,
        /// How many steps are taken at most: 0 to 10,000.
        steps: u32,
    },
    /// Write a certificate in the second version of the format, where it is accepted.
    Upgrade {
        /// The name of the system file.
        file: &'a str,
        /// The name of the certificate file.
        cert: &'a str,
    },
    /// Refute that a projection drops a pair, where a search for a proof is stuck.
    Refute {
        /// The name of the system file.
        file: &'a str,
        /// How many clauses a finder, or the refutation, may learn for one set: 0 to 1,000,000.
        tries: u64,
    },
}

/// What the words ask for; `None` exactly where they are none of the program's. It takes no memory.
///
/// The first word is the command. No word is empty. The first word `--` behind it ends the options; all words behind
/// that stand by themselves. Before it a word that begins with `--` is an option: `--name=N`, or `--name` followed by
/// the word `N`; no other word of two or more bytes begins with `-`. Each option stands at most once, before or behind
/// other words. `N` is 0 or has digits without a leading zero.
pub fn read_words(words: &[String]) -> Option<Command<'_>>
    ensures { MatchOption result ((asked : Request) → Asks (map string_bytes words.now) asked → ⊥)
        (λ command. Asks (map string_bytes words.now) (request command)) }
{
    let [command, behind @ ..] = words else {
        return None;
    };
    let kept = read_items(behind)?;
    asked(command.as_str(), &kept)
}

// What the command asks for, with what is kept of the words behind it.
fn asked<'a>(command: &str, kept: &Kept<'a>) -> Option<Command<'a>>
    requires { AllWithin kept.now }
    ensures { Answers command.now kept.now result }
{
    match command {
        "check" => check(kept),
        "prove" => prove(kept),
        "show" => show(kept),
        "gen" => generate(kept),
        "reduce" => reduce(kept),
        "upgrade" => upgrade(kept),
        "refute" => refute(kept),
        _ => None,
    }
}

// `check FILE CERT`.
fn check<'a>(kept: &Kept<'a>) -> Option<Command<'a>>
    ensures { Answers (codes "check") kept.now result }
{
    match kept.alone {
        Alone::Two(file, cert) if kept.sets_none() => Some(Command::Check { file, cert }),
        _ => None,
    }
}

// `prove FILE`, with options.
fn prove<'a>(kept: &Kept<'a>) -> Option<Command<'a>>
    requires { AllWithin kept.now }
    ensures { Answers (codes "prove") kept.now result }
{
    match kept.alone {
        Alone::One(file) if kept.steps.is_none() => Some(Command::Prove {
            file,
            limits: bounds(kept),
        }),
        _ => None,
    }
}

// `show FILE`.
fn show<'a>(kept: &Kept<'a>) -> Option<Command<'a>>
    ensures { Answers (codes "show") kept.now result }
{
    match kept.alone {
        Alone::One(file) if kept.sets_none() => Some(Command::Show { file }),
        _ => None,
    }
}

// `gen N`.
fn generate<'a>(kept: &Kept<'a>) -> Option<Command<'a>>
    ensures { Answers (codes "gen") kept.now result }
{
    match kept.alone {
        Alone::One(number) if kept.sets_none() => generated(number),
        _ => None,
    }
}

// The generated system with the number that the word spells.
fn generated(word: &str) -> Option<Command<'static>>
    ensures { MatchOption result ((n : ℕ) → decimal n ≡ word.now → 1 ≤ n → n ≤ most_generated → ⊥)
        (λ command. (n : ℕ) × (request command ≡ gen n) × (decimal n ≡ word.now) × (1 ≤ n) × (n ≤ most_generated)) }
{
    let n = long_number(word)?;
    if 1 <= n && n <= 200 {
        Some(Command::Gen { n: n as u32 })
    } else {
        None
    }
}

// `reduce FILE TERM`, with `--steps N`.
fn reduce<'a>(kept: &Kept<'a>) -> Option<Command<'a>>
    requires { AllWithin kept.now }
    ensures { Answers (codes "reduce") kept.now result }
{
    match kept.alone {
        Alone::Two(file, term) if kept.sets_no_bounds() => Some(Command::Reduce {
            file,
            term,
            steps: steps(kept),
        }),
        _ => None,
    }
}

// `upgrade FILE CERT`.
fn upgrade<'a>(kept: &Kept<'a>) -> Option<Command<'a>>
    ensures { Answers (codes "upgrade") kept.now result }
{
    match kept.alone {
        Alone::Two(file, cert) if kept.sets_none() => Some(Command::Upgrade { file, cert }),
        _ => None,
    }
}

// `refute FILE`, with `--tries N`.
fn refute<'a>(kept: &Kept<'a>) -> Option<Command<'a>>
    requires { AllWithin kept.now }
    ensures { Answers (codes "refute") kept.now result }
{
    match kept.alone {
        Alone::One(file) if kept.sets_tries_alone() => Some(Command::Refute {
            file,
            tries: clauses(kept),
        }),
        _ => None,
    }
}

// How many clauses are set, or usual where none are.
fn clauses(kept: &Kept<'_>) -> u64
    ensures { result ≡ unwrap_or kept.now.tries (usual tries) }
{
    kept.tries.unwrap_or(10_000)
}

// How many steps are set, or usual where none are.
fn steps(kept: &Kept<'_>) -> u32
    requires { AllWithin kept.now }
    ensures { result ≡ unwrap_or kept.now.steps (usual steps) }
{
    kept.steps.unwrap_or(1_000) as u32
}

// What is set, or usual where nothing is.
fn bounds(kept: &Kept<'_>) -> Limits
    requires { AllWithin kept.now }
    ensures { SetsAll kept.now (bounds_of result) }
{
    Limits {
        tries: kept.tries.unwrap_or(10_000),
        depth: kept.depth.unwrap_or(6) as u32,
        visited: kept.visited.unwrap_or(500) as u32,
    }
}
