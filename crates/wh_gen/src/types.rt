//! The types of a generated system, as a text has them.

ghost use Rattle.std.specs.Prelude.{◌≡◌, IfOk};
ghost use Rattle.wh_text.specs.Erase.{rty, rtys};
ghost use Rattle.wh_text.specs.RawTree.{raw_type, no_types};
ghost use Rattle.wh_text.specs.Words.{IsWord};
ghost use Rattle.wh_gen.specs.RawFamily.{raw_nat, raw_list, raw_step, raw_onto_lists};

use std::alloc::{AllocError, Global};
use wh_text::{Name, RawType, RawTypes};

// The type of functions of these types, one after another, to a sort.
fn over(alloc: Global, args: RawTypes, sort: &[u8]) -> Result<RawType, AllocError>
    requires { IsWord sort.now }
    ensures { IfOk result (λ raw. rty raw ≡ raw_type (rtys args) sort.now 0) }
{
    let sort = Name::new(alloc, sort)?;
    Ok(RawType { args, sort, at: 0 })
}

/// `nat`
pub fn nat(alloc: Global) -> Result<RawType, AllocError>
    ensures { IfOk result (λ raw. rty raw ≡ raw_nat) }
{
    over(alloc, RawTypes::new(alloc), b"nat")
}

/// `list`
pub fn list(alloc: Global) -> Result<RawType, AllocError>
    ensures { IfOk result (λ raw. rty raw ≡ raw_list) }
{
    over(alloc, RawTypes::new(alloc), b"list")
}

/// `nat -> nat`
pub fn step(alloc: Global) -> Result<RawType, AllocError>
    ensures { IfOk result (λ raw. rty raw ≡ raw_step) }
{
    let mut args = RawTypes::new(alloc);
    args.push(nat(alloc)?)?;
    over(alloc, args, b"nat")
}

/// The type of functions from this type and `list` to `list`.
pub fn onto_lists(alloc: Global, first: RawType) -> Result<RawType, AllocError>
    ensures { IfOk result (λ raw. rty raw ≡ raw_onto_lists (rty first)) }
{
    let mut args = RawTypes::new(alloc);
    args.push(first)?;
    args.push(list(alloc)?)?;
    over(alloc, args, b"list")
}
