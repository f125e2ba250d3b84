//! The offset of a term in its text, by which a fault is placed.

ghost use Rattle.std.specs.Prelude.{◌≡◌};
ghost use Rattle.wh_system_parts.specs.Tests.{term_offset};
ghost use Rattle.wh_text.specs.Erase.{rtm};

use wh_text::RawTerm;

/// The offset of a term in its text, in bytes.
pub fn offset(term: &RawTerm) -> u32
    ensures { result ≡ term_offset (rtm term.now) }
{
    match term {
        RawTerm::Named(_, at)
        | RawTerm::Numbered(_, at)
        | RawTerm::Free(_, _, at)
        | RawTerm::Meta(_, _, at)
        | RawTerm::Lam(_, _, _, at)
        | RawTerm::Spine(_, _, at) => *at,
    }
}
