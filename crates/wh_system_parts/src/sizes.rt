//! How large and how high a side is, as far as its limits: the walks stop where a limit is passed.

ghost use Rattle.std.specs.Prelude.{◌≡◌, ◌+◌, ◌<◌, ◌≤◌, MatchBool, MatchOption};
ghost use Rattle.wh_text.specs.Erase.{rtm, rtms};
ghost use Rattle.wh_system_parts.specs.Tests.{raw_height, raw_heights, raw_size, raw_sizes, raw_spine_size};

use wh_text::{RawTerm, RawTerms};

/// What is left of the size `room` behind the side, if the side is within it.
#[cycle(sizes)]
#[tactic(auto, using(wh_text::proofs::RawLemmas::rtm_of_meta, wh_text::proofs::RawLemmas::rtm_of_spine))]
pub fn spend(side: &RawTerm, room: u32) -> Option<u32>
    ensures { MatchOption result (room < raw_size (rtm side.now)) (λ rest. rest + raw_size (rtm side.now) ≡ room) }
{
    match side {
        RawTerm::Named(_, _) | RawTerm::Numbered(_, _) | RawTerm::Free(_, _, _) => {
            room.checked_sub(1)
        }
        RawTerm::Meta(_, items, _) => spend_each(items, room.checked_sub(1)?),
        RawTerm::Lam(_, _, body, _) => spend(body, room.checked_sub(1)?),
        RawTerm::Spine(head, items, _) => spend_arguments(items, spend(head, room)?),
    }
}

// What is left of the size `room` behind the terms, if all of them together are within it.
#[cycle(sizes)]
#[tactic(auto, using(crate::proofs::RawTerms::left_next, crate::proofs::RawTerms::left_none))]
fn spend_each(items: &RawTerms, room: u32) -> Option<u32>
    ensures { MatchOption result (room < raw_sizes (rtms items.now)) (λ rest. rest + raw_sizes (rtms items.now) ≡ room) }
{
    let mut left = room;
    for item in items.as_slice() {
        left = spend(item, left)?;
    }
    Some(left)
}

// What is left of the size `room` behind the arguments of a spine, each with the application that it makes, if all of
// them together are within it.
#[cycle(sizes)]
#[tactic(auto, using(crate::proofs::RawTerms::left_next, crate::proofs::RawTerms::left_none))]
fn spend_arguments(items: &RawTerms, room: u32) -> Option<u32>
    ensures { MatchOption result (room < raw_spine_size (rtms items.now)) (λ rest. rest + raw_spine_size (rtms items.now) ≡ room) }
{
    let mut left = room;
    for item in items.as_slice() {
        left = spend(item, left.checked_sub(1)?)?;
    }
    Some(left)
}
