//! Single words: one that stands by itself, or an option.

ghost use Rattle.std.specs.Prelude.{◌≡◌, ◌↔◌, IsTrue, MatchOption};
ghost use Rattle.wh_top_words.specs.Options.{IsNoOption, IsOption, NamesNone, which};
ghost use Rattle.wh_top_words.specs.Kept.{Within};
ghost use Rattle.wh_top_words.specs.Words.{IsPlain, option_of};

/// What an option sets.
#[derive(Clone, Copy)]
pub enum Setting {
    /// How many clauses a finder may learn for one set.
    Tries,
    /// How many steps a loop may have.
    Depth,
    /// How many terms the search for loops may keep.
    Visited,
    /// How many steps a reduction takes at most.
    Steps,
}

impl Setting {
    /// Whether the number may be asked for.
    pub fn allows(self, number: u64) -> bool
        ensures { IsTrue result ↔ Within (which self) number }
    {
        match self {
            Setting::Tries => number <= 1_000_000,
            Setting::Depth => number <= 100,
            Setting::Visited => 1 <= number && number <= 10_000,
            Setting::Steps => number <= 10_000,
        }
    }
}

/// Whether a word stands by itself before `--`.
pub fn is_plain(word: &str) -> bool
    ensures { IsTrue result ↔ IsPlain word.now }
{
    match word.as_bytes() {
        [] => false,
        [_] => true,
        [first, ..] => *first != b'-',
    }
}

/// The option that a word is, and the part behind its `=`.
pub fn read_option(word: &str) -> Option<(Setting, Option<&str>)>
    ensures { MatchOption result (IsNoOption word.now) (λ found. IsOption word.now (which found.0) found.1) }
{
    match word.split_once('=') {
        Some((name, number)) => Some((setting_of(name)?, Some(number))),
        None => Some((setting_of(word)?, None)),
    }
}

// The setting with this option.
fn setting_of(name: &str) -> Option<Setting>
    ensures { MatchOption result (NamesNone name.now) (λ found. name.now ≡ option_of (which found)) }
{
    match name {
        "--tries" => Some(Setting::Tries),
        "--depth" => Some(Setting::Depth),
        "--visited" => Some(Setting::Visited),
        "--steps" => Some(Setting::Steps),
        _ => None,
    }
}
