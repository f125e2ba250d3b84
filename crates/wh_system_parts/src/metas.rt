//! The meta-variables of a rule: the tests of their declarations, and the table that numbers them.

ghost use Rattle.std.specs.Prelude.{◌≡◌, ◌<◌, ◌++◌, ◌||◌, [], ◌∷◌, OnOk, length, map};
ghost use Rattle.wh_text.specs.Erase.{rtys};
ghost use Rattle.wh_types.specs.Erase.{tys};
ghost use Rattle.wh_terms.specs.Erase.{declared_meta, declared_metas};
ghost use Rattle.wh_system_parts.specs.Declarations.{meta_count, tests_of_meta};
ghost use Rattle.wh_system_parts.specs.Erase.{rmeta};
ghost use Rattle.wh_system_parts.specs.Faults.{Passes};
ghost use Rattle.wh_system_parts.specs.Naming.{is_declared};
ghost use Rattle.wh_system_parts.specs.RuleTests.{declared_by, types_of_raw};
ghost use Rattle.wh_system_parts.specs.Tests.{meta_tests, test, types_tests};
ghost use Rattle.wh_system_parts.specs.declared.fault.SystemFault.TheVariants.{Twice};

use crate::declarations::{check_meta_count, declared_type};
use crate::fault::SystemFault;
use crate::names::NameTable;
use crate::parts::{RawMeta, RawName};
use crate::types::check_type_count;
use std::alloc::Global;
use wh_terms::{MetaDecl, Metas, Types};
use wh_text::RawTypes;
use wh_types::Or;

/// The meta-variables of a rule by their numbers.
#[derive(Drop)]
pub struct RuleMetas {
    /// The names of the meta-variables.
    pub names: NameTable,
    /// The declarations of the meta-variables.
    pub declared: Metas,
}

/// The meta-variables of a rule. The fault is that there are too many, or else that of the first that has one.
pub fn declare_metas(
    alloc: Global,
    sorts: &NameTable,
    funs: &NameTable,
    metas: &[RawMeta],
) -> Result<RuleMetas, Or<SystemFault>>
    ensures { Passes (meta_count (map rmeta metas.now) ++ meta_tests sorts.now funs.now [] (map rmeta metas.now)) result
        (λ rule. (rule.names ≡ map (λ m. m.name.name) (map rmeta metas.now))
        × (declared_metas rule.declared ≡ map (declared_by sorts.now) (map rmeta metas.now))) }
{
    check_meta_count(metas)?;
    let mut names = NameTable::new(alloc);
    let mut declared = Metas::new(alloc);
    for meta in metas {
        let declaration = declare_meta(alloc, sorts, funs, &mut names, meta)?;
        declared.push(declaration)?;
    }
    Ok(RuleMetas { names, declared })
}

// The meta-variable's name joins the names, and the answer is its declaration.
fn declare_meta(
    alloc: Global,
    sorts: &NameTable,
    funs: &NameTable,
    names: &mut NameTable,
    meta: &RawMeta,
) -> Result<MetaDecl, Or<SystemFault>>
    requires { length names.old < 1024 }
    ensures meta { Passes (tests_of_meta sorts.now funs.now names.old (rmeta meta.now)) result
        (λ made. declared_meta made ≡ declared_by sorts.now (rmeta meta.now)) }
    ensures joined { OnOk result (names.new ≡ names.old ++ meta.now.name.name ∷ []) }
{
    join_meta(alloc, funs, names, &meta.name)?;
    check_type_count(&meta.args)?;
    let args = declared_types(alloc, sorts, &meta.args)?;
    let last = declared_type(alloc, sorts, &meta.result)?;
    Ok(MetaDecl { args, result: last })
}

// The meta-variable's name joins the names; the fault is that one of them or a symbol has it.
fn join_meta(
    alloc: Global,
    funs: &NameTable,
    names: &mut NameTable,
    name: &RawName,
) -> Result<(), Or<SystemFault>>
    requires { length names.old < 1024 }
    ensures { Passes (test (is_declared names.old name.now.name || is_declared funs.now name.now.name) (Twice name.now.at) ∷ []) result
        (λ _. names.new ≡ names.old ++ name.now.name ∷ []) }
{
    if funs.number(&name.name).is_some() {
        return Err(Or::Because(SystemFault::Twice { at: name.at }));
    }
    if !names.add(alloc, &name.name)? {
        return Err(Or::Because(SystemFault::Twice { at: name.at }));
    }
    Ok(())
}

// The types that are declared, one after another.
fn declared_types(
    alloc: Global,
    sorts: &NameTable,
    kinds: &RawTypes,
) -> Result<Types, Or<SystemFault>>
    ensures { Passes (types_tests sorts.now (rtys kinds.now)) result (λ types. types_of_raw sorts.now (rtys kinds.now) ≡ tys types) }
{
    let mut types = Types::new(alloc);
    for kind in kinds.as_slice() {
        types.push(declared_type(alloc, sorts, kind)?)?;
    }
    Ok(types)
}
