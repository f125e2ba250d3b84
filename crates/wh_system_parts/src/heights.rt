//! How high a side is, as far as its limit: the walk stops where that is passed.

ghost use Rattle.std.specs.Prelude.{◌<◌, ◌≤◌, MatchOption};
ghost use Rattle.wh_text.specs.Erase.{rtm, rtms};
ghost use Rattle.wh_system_parts.specs.Tests.{raw_height, raw_heights};

use wh_text::{RawTerm, RawTerms};

/// `Some(())` where the side is at most `low` high, else `None`.
#[cycle(heights)]
pub fn keep_low(side: &RawTerm, low: u32) -> Option<()>
    ensures { MatchOption result (low < raw_height (rtm side.now)) (λ _. raw_height (rtm side.now) ≤ low) }
{
    match side {
        RawTerm::Named(_, _) | RawTerm::Numbered(_, _) | RawTerm::Free(_, _, _) => Some(()),
        RawTerm::Meta(_, items, _) => {
            if items.as_slice().is_empty() {
                return Some(());
            }
            keep_all_low(items, low.checked_sub(1)?)
        }
        RawTerm::Lam(_, _, body, _) => keep_low(body, low.checked_sub(1)?),
        RawTerm::Spine(head, items, _) => {
            let below = low.checked_sub(1)?;
            keep_low(head, below)?;
            keep_all_low(items, below)
        }
    }
}

// `Some(())` where each of the terms is at most `low` high, else `None`.
#[cycle(heights)]
#[tactic(auto, using(crate::proofs::RawTerms::left_next, crate::proofs::RawTerms::left_none))]
fn keep_all_low(items: &RawTerms, low: u32) -> Option<()>
    ensures { MatchOption result (low < raw_heights (rtms items.now)) (λ _. raw_heights (rtms items.now) ≤ low) }
{
    for item in items.as_slice() {
        keep_low(item, low)?;
    }
    Some(())
}
