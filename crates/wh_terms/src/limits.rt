//! Whether a term fits: height at most 200, at most 32 arguments of each spine, size at most 65,536.
//!
//! The walk carries what is left of each bound and stops where one is spent, so it looks at no more than 65,537 nodes
//! of a term of any size.

ghost use Rattle.std.specs.Prelude.{◌≡◌, ◌↔◌, IsTrue};
ghost use Rattle.wh_terms.specs.Budget.{AllKeep, Keeps, KeepsAsFront, Left};
ghost use Rattle.wh_terms.specs.Erase.{tm, tms};
ghost use Rattle.wh_terms.specs.Measures.{Fits, size, sizes};

use crate::term::{Term, Terms};

/// The greatest height of a term that fits.
pub const MOST_HEIGHT: u32 = 200;

/// The greatest number of arguments of a spine in a term that fits.
pub const MOST_ARGUMENTS: u32 = 32;

/// The greatest size of a term that fits.
pub const MOST_SIZE: u32 = 65536;

/// Whether the height of the term is at most 200, each spine in it has at most 32 arguments, and its size is at most
/// 65,536.
pub fn fits(t: &Term) -> bool
    ensures { IsTrue result ↔ Fits (tm t.now) }
{
    spend(t, MOST_HEIGHT, MOST_SIZE).is_some()
}

// What is left of the size `room` behind the term, if the term's size is within `room` and its height within `low`.
#[cycle(limits)]
fn spend(t: &Term, low: u32, room: u32) -> Option<u32>
    ensures { Left room (size (tm t.now)) (Keeps low room (tm t.now)) result }
{
    let rest = room.checked_sub(1)?;
    match t {
        Term::Bound(_) | Term::Free(..) | Term::Fun(_) => Some(rest),
        Term::Meta(_, items) => spend_all(items, low, rest),
        Term::Lam(_, body) => spend(body, low.checked_sub(1)?, rest),
        Term::App(function, argument) => {
            let below = low.checked_sub(1)?;
            let after = spend_front(function, below, 1, rest)?;
            spend(argument, below, after)
        }
    }
}

// What is left of the size `room` behind a term that begins a spine with `more_arguments` further arguments, if its
// size is within `room`, its spine within the limit of arguments, and the height of its parts within `low`.
#[cycle(limits)]
fn spend_front(t: &Term, low: u32, more_arguments: u32, room: u32) -> Option<u32>
    ensures { Left room (size (tm t.now)) (KeepsAsFront low more_arguments room (tm t.now)) result }
{
    if more_arguments > MOST_ARGUMENTS {
        return None;
    }
    match t {
        Term::App(function, argument) => {
            let rest = room.checked_sub(1)?;
            let after = spend_front(function, low, more_arguments + 1, rest)?;
            spend(argument, low, after)
        }
        _ => spend(t, low, room),
    }
}

// What is left of the size `room` behind the arguments of a meta-variable, if each of them is less than `low` high and
// all of them together are within `room`.
#[cycle(limits)]
fn spend_all(items: &Terms, low: u32, room: u32) -> Option<u32>
    ensures { Left room (sizes (tms items.now)) (AllKeep low room (tms items.now)) result }
{
    let mut left = room;
    for item in items.as_slice() {
        left = spend(item, low.checked_sub(1)?, left)?;
    }
    Some(left)
}
