//! Types as they are written: where they stand, that none is too wide, and what they stand for.

ghost use Rattle.std.specs.Prelude.{◌≡◌, Some, IfOk};
ghost use Rattle.wh_text.specs.Erase.{rty, rtys};
ghost use Rattle.wh_types.specs.Erase.{ty, tys};
ghost use Rattle.wh_system_parts.specs.Faults.{IsFirstFault, Passes};
ghost use Rattle.wh_system_parts.specs.Naming.{arrows_over, type_meant};
ghost use Rattle.wh_system_parts.specs.RuleTests.{types_of_raw};
ghost use Rattle.wh_system_parts.specs.Tests.{count_of_types, sorts_of_type, sorts_of_types, type_offset, width_of_type};

use crate::fault::SystemFault;
use crate::names::NameTable;
use std::alloc::{AllocError, Global};
use wh_text::{RawType, RawTypes};
use wh_types::{Or, SimpleType};

const MOST_ARGUMENTS: usize = 32;

/// The offset of a type: a functional type stands where its first argument stands.
pub fn offset_of_type(kind: &RawType) -> u32
    ensures { result ≡ type_offset (rty kind.now) }
{
    match kind.args.as_slice().first() {
        Some(first) => offset_of_type(first),
        None => kind.at,
    }
}

/// Whether no part of the type has more than 32 arguments; the fault is at the first argument past them.
pub fn check_width(kind: &RawType) -> Result<(), SystemFault>
    ensures { IsFirstFault (width_of_type (rty kind.now)) result }
{
    for (k, argument) in kind.args.as_slice().iter().enumerate() {
        if k == MOST_ARGUMENTS {
            return Err(SystemFault::TooMany {
                at: offset_of_type(argument),
            });
        }
        check_width(argument)?;
    }
    Ok(())
}

/// Whether there are at most 32 types; the fault is at the first one past them.
pub fn check_type_count(kinds: &RawTypes) -> Result<(), SystemFault>
    ensures { IsFirstFault (count_of_types 0 (rtys kinds.now)) result }
{
    match kinds.as_slice().get(MOST_ARGUMENTS) {
        Some(kind) => Err(SystemFault::TooMany {
            at: offset_of_type(kind),
        }),
        None => Ok(()),
    }
}

/// The type that a raw type stands for over these sorts; the fault is at the first sort that is not there.
#[cycle(resolve_type)]
pub fn resolve_type(
    alloc: Global,
    sorts: &NameTable,
    kind: &RawType,
) -> Result<SimpleType, Or<SystemFault>>
    ensures { Passes (sorts_of_type sorts.now (rty kind.now)) result (λ a. type_meant sorts.now (rty kind.now) ≡ Some (ty a)) }
{
    let domains = resolve_types(alloc, sorts, &kind.args)?;
    let Some(sort) = sorts.number(&kind.sort) else {
        return Err(Or::Because(SystemFault::UnknownName { at: kind.at }));
    };
    Ok(arrows(alloc, domains, SimpleType::Sort(sort))?)
}

// The types that the list stands for.
#[cycle(resolve_type)]
fn resolve_types(
    alloc: Global,
    sorts: &NameTable,
    kinds: &RawTypes,
) -> Result<Vec<SimpleType>, Or<SystemFault>>
    ensures { Passes (sorts_of_types sorts.now (rtys kinds.now)) result
        (λ domains. types_of_raw sorts.now (rtys kinds.now) ≡ tys domains.items) }
{
    let mut domains = Vec::new(alloc);
    for kind in kinds.as_slice() {
        domains.push(resolve_type(alloc, sorts, kind)?)?;
    }
    Ok(domains)
}

// The type of functions from these types, one after another, to the last.
fn arrows(
    alloc: Global,
    domains: Vec<SimpleType>,
    last: SimpleType,
) -> Result<SimpleType, AllocError>
    ensures { IfOk result (λ whole. ty whole ≡ arrows_over (tys domains.items) (ty last)) }
{
    let mut left = domains;
    let mut whole = last;
    while let Some(domain) = left.pop() {
        whole = SimpleType::Arrow(Box::new(alloc, domain)?, Box::new(alloc, whole)?);
    }
    Ok(whole)
}
