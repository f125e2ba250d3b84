//! The words behind the command, sorted into words by themselves and numbers of options.

ghost use Rattle.std.specs.Prelude.{ℕ, ◌≡◌, ◌↔◌, ◌++◌, List, [], ◌∷◌, All, IsTrue, MatchOption, Some, None, map, string_bytes};
ghost use Rattle.wh_top_words.specs.Kept.{Adds, AddsNone, Sets, SetsNo, SetsNoBounds, SetsNone, SetsTriesAlone, Sums};
ghost use Rattle.wh_top_words.specs.Options.{which};
ghost use Rattle.wh_top_words.specs.Words.{IsFilled, Item, alone};

use crate::options::Setting;
use wh_answer::long_number;

/// The words by themselves, at most two.
#[derive(Clone, Copy)]
pub enum Alone<'a> {
    /// There is none.
    Nothing,
    /// There is one.
    One(&'a str),
    /// There are two, in this order.
    Two(&'a str, &'a str),
}

/// What is kept of the words behind the command: the words by themselves, and the number of each option.
#[derive(Clone, Copy)]
pub struct Kept<'a> {
    /// The words by themselves.
    pub alone: Alone<'a>,
    /// The number that `--tries` sets.
    pub tries: Option<u64>,
    /// The number that `--depth` sets.
    pub depth: Option<u64>,
    /// The number that `--visited` sets.
    pub visited: Option<u64>,
    /// The number that `--steps` sets.
    pub steps: Option<u64>,
}

impl<'a> Kept<'a> {
    /// What is kept before the first word.
    pub fn new() -> Kept<'a>
        ensures { Sums result [] }
    {
        Kept {
            alone: Alone::Nothing,
            tries: None,
            depth: None,
            visited: None,
            steps: None,
        }
    }

    /// Whether no option stood.
    pub fn sets_none(&self) -> bool
        ensures { IsTrue result ↔ SetsNo self.now }
    {
        self.sets_no_bounds() && self.steps.is_none()
    }

    /// Whether no option stood that bounds a search.
    pub fn sets_no_bounds(&self) -> bool
        ensures { IsTrue result ↔ SetsNoBounds self.now }
    {
        self.tries.is_none() && self.depth.is_none() && self.visited.is_none()
    }

    /// Whether no option stood but `--tries`.
    pub fn sets_tries_alone(&self) -> bool
        ensures { IsTrue result ↔ SetsTriesAlone self.now }
    {
        self.depth.is_none() && self.visited.is_none() && self.steps.is_none()
    }

    /// Keeps one more word by itself; `None` where it is the third.
    pub fn add(&mut self, word: &'a str) -> Option<()>
        ensures { MatchOption result (AddsNone self.old (alone word.now ∷ [])) (λ _. Adds self.old (alone word.now ∷ []) self.new) }
    {
        self.alone = match self.alone {
            Alone::Nothing => Alone::One(word),
            Alone::One(first) => Alone::Two(first, word),
            Alone::Two(..) => return None,
        };
        Some(())
    }

    /// Keeps all the words by themselves; `None` where one is empty, or one is the third.
    pub fn add_all(&mut self, words: &'a [String]) -> Option<()>
        ensures { MatchOption result
            (All IsFilled (map string_bytes words.now) → AddsNone self.old (map alone (map string_bytes words.now)))
            (λ _. All IsFilled (map string_bytes words.now) × Adds self.old (map alone (map string_bytes words.now)) self.new) }
    {
        for word in words {
            let word = word.as_str();
            if word.is_empty() {
                return None;
            }
            self.add(word)?;
        }
        Some(())
    }

    /// Keeps the number that the word spells; `None` where it spells none that may be asked for, or the option stood
    /// before.
    pub fn set(&mut self, setting: Setting, word: &str) -> Option<()>
        ensures { MatchOption result (SetsNone self.old (which setting) word.now) (λ _. Sets self.old (which setting) word.now self.new) }
    {
        let number = long_number(word)?;
        if !setting.allows(number) {
            return None;
        }
        match setting {
            Setting::Tries => set_once(&mut self.tries, number),
            Setting::Depth => set_once(&mut self.depth, number),
            Setting::Visited => set_once(&mut self.visited, number),
            Setting::Steps => set_once(&mut self.steps, number),
        }
    }
}

// Keeps the number; `None` where there is one.
fn set_once(place: &mut Option<u64>, number: u64) -> Option<()>
    ensures { MatchOption result ((n : ℕ) × (place.old ≡ Some n)) (λ _. (place.old ≡ None) × (place.new ≡ Some number)) }
{
    if place.is_some() {
        return None;
    }
    *place = Some(number);
    Some(())
}
