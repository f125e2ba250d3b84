//! How wide a side is: no spine, and no type in it, has more than 32 arguments.

ghost use Rattle.std.specs.Prelude.{◌≡◌, ◌+◌, ◌≤◌, MatchResult};
ghost use Rattle.wh_types.specs.Limits.{most_arguments};
ghost use Rattle.wh_text.specs.Erase.{rtm, rtms};
ghost use Rattle.wh_system_parts.specs.Widths.{HasSpare, LeavesRoom};
ghost use Rattle.wh_system_parts.specs.declared.fault.SystemFault.TheVariants.{TooMany};
ghost use Rattle.wh_system_parts.specs.Faults.{IsFirstFault};
ghost use Rattle.wh_system_parts.specs.Tests.{term_offset, width_of_term, widths_of_terms};

use crate::fault::SystemFault;
use crate::offsets::offset;
use crate::types::check_width;
use wh_terms::MOST_ARGUMENTS;
use wh_text::{RawTerm, RawTerms};

/// Whether no spine, and no type, has more than 32 arguments; the fault is at the first argument past them.
pub fn check_widths(side: &RawTerm) -> Result<(), SystemFault>
    ensures { IsFirstFault (width_of_term (rtm side.now)) result }
{
    let _left = spare(side)?;
    Ok(())
}

// How many arguments a spine that goes on from the term may take, after its own.
#[cycle(widths)]
fn spare(side: &RawTerm) -> Result<u32, SystemFault>
    ensures { HasSpare (rtm side.now) result }
{
    match side {
        RawTerm::Named(_, _) | RawTerm::Numbered(_, _) => Ok(MOST_ARGUMENTS),
        RawTerm::Free(_, kind, _) => {
            check_width(kind)?;
            Ok(MOST_ARGUMENTS)
        }
        RawTerm::Meta(_, items, _) => {
            check_each_width(items)?;
            Ok(MOST_ARGUMENTS)
        }
        RawTerm::Lam(_, kind, body, _) => {
            check_width(kind)?;
            let _left = spare(body)?;
            Ok(MOST_ARGUMENTS)
        }
        RawTerm::Spine(head, items, _) => {
            let room = spare(head)?;
            check_arguments(items, room)
        }
    }
}

// Whether no spine, and no type, in any of the terms has more than 32 arguments; the fault is at the first argument
// past them.
#[cycle(widths)]
#[tactic(auto, using(crate::proofs::FaultLemmas::first_fault_append, crate::proofs::RawTerms::left_next, crate::proofs::RawTerms::left_none))]
fn check_each_width(items: &RawTerms) -> Result<(), SystemFault>
    ensures { IsFirstFault (widths_of_terms (rtms items.now)) result }
{
    for item in items.as_slice() {
        let _left = spare(item)?;
    }
    Ok(())
}

// How many arguments more the spine may have behind these, of `room` before them; the fault is at the first argument
// past the limit.
#[cycle(widths)]
fn check_arguments(items: &RawTerms, room: u32) -> Result<u32, SystemFault>
    ensures { room ≤ most_arguments → LeavesRoom room (rtms items.now) result }
{
    let mut left = room;
    for item in items.as_slice() {
        left = take_place(item, left)?;
        let _left = spare(item)?;
    }
    Ok(left)
}

// One place less for arguments; the fault is at the argument, where there is none.
fn take_place(item: &RawTerm, left: u32) -> Result<u32, SystemFault>
    ensures { MatchResult result (λ rest. rest + 1 ≡ left) (λ fault. (left ≡ 0) × (fault ≡ TooMany (term_offset (rtm item.now)))) }
{
    match left.checked_sub(1) {
        Some(rest) => Ok(rest),
        None => Err(SystemFault::TooMany { at: offset(item) }),
    }
}
