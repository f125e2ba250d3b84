//! The binders around a place of a side, looked up by name and by number.

ghost use Rattle.std.specs.Prelude.{◌≡◌, ◌<◌, ℕ, Some, None, [], length, map, slice_index_or};
ghost use Rattle.wh_terms.specs.Tree.{bound};
ghost use Rattle.wh_text.specs.Erase.{rbinder};
ghost use Rattle.wh_text.specs.RawTree.{named_binder, numbered_binder};
ghost use Rattle.wh_system_resolve.specs.Answers.{Resolves};
ghost use Rattle.wh_system_resolve.specs.InScope.{nearest, typed};
ghost use Rattle.wh_system_parts.specs.Naming.{same_binder};

use crate::around::{Around, Resolved};
use crate::kind::Kind;
use std::alloc::Global;
use wh_system_parts::SystemFault;
use wh_terms::Term;
use wh_text::RawBinder;
use wh_types::Or;

/// The number of the innermost binder of the name.
pub fn nearest_named(passed: &[Around], name: &[u8]) -> Option<usize>
    ensures { result ≡ nearest passed.now (named_binder name.now) }
{
    passed
        .iter()
        .rev()
        .position(|entry| is_named(entry.binder, name))
}

/// The number of the innermost binder `$number`.
pub fn nearest_numbered(passed: &[Around], number: u32) -> Option<usize>
    ensures { result ≡ nearest passed.now (numbered_binder number) }
{
    passed
        .iter()
        .rev()
        .position(|entry| is_numbered(entry.binder, number))
}

/// Whether the binder has the name.
pub fn is_named(binder: &RawBinder, name: &[u8]) -> bool
    ensures { result ≡ same_binder (rbinder binder.now) (named_binder name.now) }
{
    match binder {
        RawBinder::Named(own) => own.bytes() == name,
        RawBinder::Numbered(_) => false,
    }
}

/// Whether the binder is `$number`.
pub fn is_numbered(binder: &RawBinder, number: u32) -> bool
    ensures { result ≡ same_binder (rbinder binder.now) (numbered_binder number) }
{
    match binder {
        RawBinder::Named(_) => false,
        RawBinder::Numbered(own) => *own == number,
    }
}

/// The variable of the binder of that number, counted from the innermost. Where the number does not fit the numbers of
/// terms there are more binders than memory holds.
pub fn variable_of<'a>(
    alloc: Global,
    passed: &[Around],
    number: usize,
) -> Result<Resolved<'a>, Or<SystemFault>>
    requires { number < length passed.now }
    ensures { Resolves [] (Some (bound number)) (slice_index_or (map (λ b. b.kind) (typed passed.now)) number None) result }
{
    let Ok(outward) = u32::try_from(number) else {
        return Err(Or::NoMemory);
    };
    let nearest = &passed[passed.len() - 1 - number];
    Ok(Resolved {
        term: Term::Bound(outward),
        kind: Kind::Own(nearest.kind.copy(alloc)?),
    })
}
