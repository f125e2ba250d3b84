//! Making a system of the parts of a text: `system_of` runs all tests in their order, and answers the first fault.

ghost use Rattle.std.specs.Prelude.{◌≡◌, Some, None, IfOk};
ghost use Rattle.wh_types.specs.Outcome.{IfBecause};
ghost use Rattle.wh_system_parts.specs.Erase.{rparts};
ghost use Rattle.wh_system_parts.specs.RuleTests.{refusal};
ghost use Rattle.wh_system.specs.SystemView.{system_data};
ghost use Rattle.wh_system_making.specs.Proper.{AreProper};
ghost use Rattle.wh_system_making.specs.Says.{Says};

use crate::resolution::{Resolution, resolve_parts};
use crate::tables::list_of;
use std::alloc::{AllocError, Global};
use wh_system::{System, SystemNames};
use wh_system_parts::{NameTable, Parts, SystemFault};
use wh_terms::Signature;
use wh_text::Name;
use wh_types::{List, Or};

/// The system that the parts say, or why they say none: the first of the tests that fails. The tests of the sorts come
/// first, then those of the symbols, then those of each rule in order. No declared name is a keyword, and types nest at
/// most 16 deep.
pub fn system_of(alloc: Global, parts: &Parts) -> Result<System, Or<SystemFault>>
    requires { AreProper (rparts parts.now) }
    ensures said { IfOk result (λ system. (refusal (rparts parts.now) ≡ None) × Says (rparts parts.now) (system_data system)) }
    ensures refused { IfBecause result (λ fault. refusal (rparts parts.now) ≡ Some fault) }
{
    let resolved = resolve_parts(alloc, parts)?;
    let Resolution { sorts, funs, rules } = resolved;
    let names = names_of(alloc, &sorts, &funs.names, rules.meta_names)?;
    let signature = Signature {
        sorts: parts.sorts.as_slice().len() as u32,
        funs: funs.kinds,
    };
    Ok(System::new(names, signature, rules.rules, rules.needs))
}

// The names of a system, those of the sorts and of the symbols from their tables.
fn names_of(
    alloc: Global,
    sorts: &NameTable,
    funs: &NameTable,
    metas: Vec<List<Name>>,
) -> Result<SystemNames, AllocError>
    ensures { IfOk result (λ names. (names.sorts ≡ sorts.now) × (names.funs ≡ funs.now) × (names.metas.items ≡ metas.items)) }
{
    let sorts = list_of(alloc, sorts)?;
    let funs = list_of(alloc, funs)?;
    Ok(SystemNames { sorts, funs, metas })
}
