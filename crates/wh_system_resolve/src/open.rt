//! The test that a side has no free variable.

ghost use Rattle.wh_text.specs.Erase.{rtm, rtms};
ghost use Rattle.wh_system_parts.specs.Faults.{IsFirstFault};
ghost use Rattle.wh_system_parts.specs.RuleTests.{open_tests, opens_tests};

use wh_system_parts::SystemFault;
use wh_text::{RawTerm, RawTerms};

/// Whether the side has no free variable: the fault is at the first one.
#[cycle(open)]
#[tactic(auto, using(wh_system_parts::proofs::FaultLemmas::first_fault_append, wh_text::proofs::RawLemmas::rtm_of_meta, wh_text::proofs::RawLemmas::rtm_of_spine))]
pub fn check_open(side: &RawTerm) -> Result<(), SystemFault>
    ensures { IsFirstFault (open_tests (rtm side.now)) result }
{
    match side {
        RawTerm::Free(_, _, at) => Err(SystemFault::OpenSide { at: *at }),
        RawTerm::Meta(_, items, _) => check_open_each(items),
        RawTerm::Lam(_, _, body, _) => check_open(body),
        RawTerm::Spine(head, items, _) => {
            check_open(head)?;
            check_open_each(items)
        }
        RawTerm::Named(_, _) | RawTerm::Numbered(_, _) => Ok(()),
    }
}

// Whether none of the terms has a free variable; the fault is at the first one.
#[cycle(open)]
#[tactic(auto, using(wh_system_parts::proofs::FaultLemmas::first_fault_append, wh_system_parts::proofs::RawTerms::left_next, wh_system_parts::proofs::RawTerms::left_none))]
fn check_open_each(items: &RawTerms) -> Result<(), SystemFault>
    ensures { IsFirstFault (opens_tests (rtms items.now)) result }
{
    for item in items.as_slice() {
        check_open(item)?;
    }
    Ok(())
}
