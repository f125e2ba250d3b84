//! The reader of a term's text, as `reduce` gets it.
//!
//! It goes by the machine that reads the lines of a certificate, and hands it a line feed after the last byte.

ghost use Rattle.std.specs.Prelude.{ℕ, IfOk, MatchOption};
ghost use Rattle.wh_text.specs.RawTree.{RTm};
ghost use Rattle.wh_text.specs.Erase.{rtm};
ghost use Rattle.wh_cert_parts.specs.TermViews.{term_stack, term_place};
ghost use Rattle.wh_cert_term.specs.TermText.{IsTermText};
ghost use Rattle.wh_cert_term.specs.Ending.{EndsHere};

use std::alloc::{AllocError, Global};
use wh_cert_parts::{Frame, TermPlace, TermStep, term_step};
use wh_text::RawTerm;

// The term that has ended, if it has.
fn ended(alloc: Global, stack: Vec<Frame>, place: TermPlace) -> Result<Option<RawTerm>, AllocError>
    ensures { IfOk result (λ o. MatchOption o ((t : RTm) → EndsHere (term_stack stack.items) (term_place place) t → ⊥)
        (λ r. EndsHere (term_stack stack.items) (term_place place) (rtm r))) }
{
    let mut stack = stack;
    match term_step(alloc, &mut stack, place, b'\n')? {
        TermStep::Whole(term) => Ok(Some(Box::into_inner(term))),
        TermStep::Goes(_) | TermStep::Wrong => Ok(None),
    }
}

/// The term whose text the bytes are, within the limits of certificates; `None` exactly where they are the text of no
/// term.
pub fn read_term(alloc: Global, bytes: &[u8]) -> Result<Option<RawTerm>, AllocError>
    ensures { IfOk result (λ o. MatchOption o ((t : RTm) → IsTermText t bytes.now → ⊥) (λ r. IsTermText (rtm r) bytes.now)) }
{
    let mut stack = Vec::new(alloc);
    let mut place = TermPlace::Wanted;
    for byte in bytes {
        match term_step(alloc, &mut stack, place, *byte)? {
            TermStep::Goes(next) => place = next,
            TermStep::Whole(_) | TermStep::Wrong => return Ok(None),
        }
    }
    ended(alloc, stack, place)
}
