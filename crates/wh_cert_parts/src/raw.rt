//! Raw trees as a certificate has them: all offsets in them are 0.

ghost use Rattle.std.specs.Prelude.{◌≡◌, IfOk};
ghost use Rattle.wh_text.specs.RawTree.{raw_type, no_types, numbered_binder, lam, spine};
ghost use Rattle.wh_text.specs.Erase.{rty, rtys, rtm, rtms};

use std::alloc::{AllocError, Global};
use wh_text::{Name, RawBinder, RawTerm, RawTerms, RawType, RawTypes};

/// The type of functions from the arguments to the sort.
pub fn functional(args: RawTypes, sort: Name) -> RawType
    ensures { rty result ≡ raw_type (rtys args) sort 0 }
{
    RawType { args, sort, at: 0 }
}

/// The sort as a type.
pub fn sort(alloc: Global, name: Name) -> Result<RawType, AllocError>
    ensures { IfOk result (λ kind. rty kind ≡ raw_type no_types name 0) }
{
    Ok(functional(RawTypes::new(alloc), name))
}

/// The abstraction with this binder, the type of its variable, and its body.
pub fn abstraction(
    alloc: Global,
    number: u32,
    kind: Box<RawType>,
    body: RawTerm,
) -> Result<RawTerm, AllocError>
    ensures { IfOk result (λ term. rtm term ≡ lam (numbered_binder number) (rty kind.value) (rtm body) 0) }
{
    Ok(RawTerm::Lam(RawBinder::Numbered(number), kind, Box::new(alloc, body)?, 0))
}

/// The head with these arguments.
pub fn applied(head: Box<RawTerm>, args: RawTerms) -> RawTerm
    ensures { rtm result ≡ spine (rtm head.value) (rtms args) 0 }
{
    RawTerm::Spine(head, args, 0)
}
