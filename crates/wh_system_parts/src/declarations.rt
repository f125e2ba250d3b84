//! The declarations of a system: the tests of its sorts and symbols, and the tables that number them.

ghost use Rattle.std.specs.Prelude.{◌≡◌, ◌<◌, ◌++◌, [], ◌∷◌, Some, OnOk, length, map};
ghost use Rattle.wh_text.specs.Erase.{rty};
ghost use Rattle.wh_types.specs.Erase.{ty, tys};
ghost use Rattle.wh_system_parts.specs.Declarations.{fun_count, meta_count, rule_count, sort_count, tests_of_fun};
ghost use Rattle.wh_system_parts.specs.Erase.{rfun, rmeta, rname, rrule};
ghost use Rattle.wh_system_parts.specs.Faults.{IsFirstFault, Passes};
ghost use Rattle.wh_system_parts.specs.Naming.{type_meant};
ghost use Rattle.wh_system_parts.specs.RuleTests.{type_of_raw};
ghost use Rattle.wh_system_parts.specs.Tests.{fun_tests, names_tests, type_tests};

use crate::fault::SystemFault;
use crate::names::NameTable;
use crate::parts::{RawFun, RawMeta, RawName, RawRule};
use crate::types::{check_width, resolve_type};
use std::alloc::Global;
use wh_terms::Types;
use wh_text::RawType;
use wh_types::{Or, SimpleType};

const MOST_SORTS: usize = 256;

const MOST_FUNS: usize = 1024;

const MOST_METAS: usize = 32;

const MOST_RULES: usize = 1024;

/// The symbols of a system by their numbers.
#[derive(Drop)]
pub struct Funs {
    /// The names of the symbols.
    pub names: NameTable,
    /// The types of the symbols.
    pub kinds: Types,
}

/// Whether there are at most 256 sorts; the fault is at the name of the first one past them.
pub fn check_sort_count(sorts: &[RawName]) -> Result<(), SystemFault>
    ensures { IsFirstFault (sort_count (map rname sorts.now)) result }
{
    match sorts.get(MOST_SORTS) {
        Some(extra) => Err(SystemFault::TooMany { at: extra.at }),
        None => Ok(()),
    }
}

/// Whether there are at most 1,024 symbols; the fault is at the name of the first one past them.
pub fn check_fun_count(funs: &[RawFun]) -> Result<(), SystemFault>
    ensures { IsFirstFault (fun_count (map rfun funs.now)) result }
{
    match funs.get(MOST_FUNS) {
        Some(extra) => Err(SystemFault::TooMany { at: extra.name.at }),
        None => Ok(()),
    }
}

/// Whether a rule has at most 32 meta-variables; the fault is at the name of the first one past them.
pub fn check_meta_count(metas: &[RawMeta]) -> Result<(), SystemFault>
    ensures { IsFirstFault (meta_count (map rmeta metas.now)) result }
{
    match metas.get(MOST_METAS) {
        Some(extra) => Err(SystemFault::TooMany { at: extra.name.at }),
        None => Ok(()),
    }
}

/// Whether there are at most 1,024 rules; the fault is at the keyword of the first one past them.
pub fn check_rule_count(rules: &[RawRule]) -> Result<(), SystemFault>
    ensures { IsFirstFault (rule_count (map rrule rules.now)) result }
{
    match rules.get(MOST_RULES) {
        Some(extra) => Err(SystemFault::TooMany { at: extra.at }),
        None => Ok(()),
    }
}

/// The table of the sorts. The fault is that there are too many, or else at the first name that stands again.
pub fn declare_sorts(alloc: Global, sorts: &[RawName]) -> Result<NameTable, Or<SystemFault>>
    ensures { Passes (sort_count (map rname sorts.now) ++ names_tests [] [] (map rname sorts.now)) result
        (λ table. table ≡ map (λ s. s.name) (map rname sorts.now)) }
{
    check_sort_count(sorts)?;
    let mut table = NameTable::new(alloc);
    for sort in sorts {
        if !table.add(alloc, &sort.name)? {
            return Err(Or::Because(SystemFault::Twice { at: sort.at }));
        }
    }
    Ok(table)
}

/// The symbols. The fault is that there are too many, or else that of the first symbol that has one.
pub fn declare_funs(
    alloc: Global,
    sorts: &NameTable,
    funs: &[RawFun],
) -> Result<Funs, Or<SystemFault>>
    ensures { Passes (fun_count (map rfun funs.now) ++ fun_tests sorts.now [] (map rfun funs.now)) result
        (λ declared. (declared.names ≡ map (λ f. f.name.name) (map rfun funs.now))
        × (tys declared.kinds ≡ map (λ f. type_of_raw sorts.now f.kind) (map rfun funs.now))) }
{
    check_fun_count(funs)?;
    let mut names = NameTable::new(alloc);
    let mut kinds = Types::new(alloc);
    for fun in funs {
        let kind = declare_fun(alloc, sorts, &mut names, fun)?;
        kinds.push(kind)?;
    }
    Ok(Funs { names, kinds })
}

// The symbol's name joins the names, and the answer is its type.
fn declare_fun(
    alloc: Global,
    sorts: &NameTable,
    names: &mut NameTable,
    fun: &RawFun,
) -> Result<SimpleType, Or<SystemFault>>
    requires { length names.old < 1024 }
    ensures kind { Passes (tests_of_fun sorts.now names.old (rfun fun.now)) result
        (λ kind. type_meant sorts.now (rty fun.now.kind) ≡ Some (ty kind)) }
    ensures joined { OnOk result (names.new ≡ names.old ++ fun.now.name.name ∷ []) }
{
    if !names.add(alloc, &fun.name.name)? {
        return Err(Or::Because(SystemFault::Twice { at: fun.name.at }));
    }
    declared_type(alloc, sorts, &fun.kind)
}

/// The type that is declared; the fault is at a sort that is not there, or else at an argument past the 32nd.
pub fn declared_type(
    alloc: Global,
    sorts: &NameTable,
    kind: &RawType,
) -> Result<SimpleType, Or<SystemFault>>
    ensures { Passes (type_tests sorts.now (rty kind.now)) result (λ a. type_meant sorts.now (rty kind.now) ≡ Some (ty a)) }
{
    let resolved = resolve_type(alloc, sorts, kind)?;
    check_width(kind)?;
    Ok(resolved)
}
