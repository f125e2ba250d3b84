//! The limits of a rule's side, tested in one call: width, height and size.

ghost use Rattle.wh_text.specs.Erase.{rtm};
ghost use Rattle.wh_system_parts.specs.Faults.{IsFirstFault};
ghost use Rattle.wh_system_parts.specs.Tests.{side_tests};

use crate::fault::SystemFault;
use crate::heights::keep_low;
use crate::offsets::offset;
use crate::sizes::spend;
use crate::widths::check_widths;
use wh_terms::{MOST_HEIGHT, MOST_SIZE};
use wh_text::RawTerm;

/// Whether the side is within the limits: spines and types have at most 32 arguments, it is at most 200 high and has at
/// most the size 65,536. The fault is at the first argument past its limit, or else at the side.
pub fn check_side(side: &RawTerm) -> Result<(), SystemFault>
    ensures { IsFirstFault (side_tests (rtm side.now)) result }
{
    check_widths(side)?;
    let Some(_) = keep_low(side, MOST_HEIGHT) else {
        return Err(SystemFault::TooMany { at: offset(side) });
    };
    let Some(_) = spend(side, MOST_SIZE) else {
        return Err(SystemFault::TooMany { at: offset(side) });
    };
    Ok(())
}
