//! The first step of an inference, as a choice: the letter, the place, and how many entries the whole inference has.

ghost use Rattle.std.specs.Prelude.{◌≡◌};
ghost use Rattle.wh_order_known.specs.Counts.{IsLesser, count_of};

use wh_order_inference::Letter;

/// How a goal is shown: by which letter, at which place, and with how many entries in all.
#[derive(Clone, Copy)]
pub struct Choice {
    /// The letter.
    pub letter: Letter,
    /// The place, counted from 1; 0 for a letter without a place. For `m` it is that of an argument that gets smaller.
    pub place: u32,
    /// The number of entries of the inference, with its first one.
    pub count: u32,
}

/// The number of entries of the choice; `None` for no choice.
pub fn count_of(choice: Option<Choice>) -> Option<u32>
    ensures { result ≡ count_of choice }
{
    match choice {
        Some(choice) => Some(choice.count),
        None => None,
    }
}

/// The choice with fewer entries; the first one where both have equally many.
pub fn lesser(first: Option<Choice>, second: Option<Choice>) -> Option<Choice>
    ensures { IsLesser first second result }
{
    match (first, second) {
        (Some(a), Some(b)) => Some(if b.count < a.count { b } else { a }),
        (Some(a), None) => Some(a),
        (None, other) => other,
    }
}
