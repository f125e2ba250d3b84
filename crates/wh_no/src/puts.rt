//! The terms that a NO certificate puts for variables, as a substitution.

ghost use Rattle.std.specs.Prelude.{◌≡◌, ◌↔◌, ◌≤◌, ◌<◌, ◌+◌, ◌^◌, ℕ, List, [], Some, IfOk, IsTrue, MatchBool, length, map, slice_get};
ghost use Rattle.wh_types.specs.Outcome.{MatchOr};
ghost use Rattle.wh_types.specs.Erase.{ty};
ghost use Rattle.wh_terms.specs.Erase.{tm};
ghost use Rattle.wh_terms.specs.Typing.{Typed};
ghost use Rattle.wh_terms.specs.declared.subst.SubstEntry as entry;
ghost use Rattle.wh_cert.specs.Said.{said_put};
ghost use Rattle.wh_cert.specs.Written as written;
ghost use Rattle.wh_system.specs.SystemView.{system_data};
ghost use Rattle.wh_system_making.specs.TablesOf.{AreTablesOf};
ghost use Rattle.wh_no.specs.Entry.{entry_puts, SaysTyped};
ghost use Rattle.wh_no.specs.Faults.{AreRight, AreRightTo, IsPutFault};

use crate::fault::NoFault;
use std::alloc::{AllocError, Global};
use wh_cert::Put;
use wh_system::System;
use wh_system_making::NameTables;
use wh_terms::{Metas, SubstEntry, Term, type_of};
use wh_types::{Or, SimpleType, same_type};

// Whether the term has that type.
fn has_type(
    alloc: Global,
    system: &System,
    term: &Term,
    kind: &SimpleType,
) -> Result<bool, AllocError>
    ensures { IfOk result (λ yes. MatchBool yes (Typed (system_data system.now).symbols [] [] (tm term.now) (ty kind.now))
        (Typed (system_data system.now).symbols [] [] (tm term.now) (ty kind.now) → ⊥)) }
{
    let no_metas = Metas::new(alloc);
    match type_of(alloc, system.signature(), &no_metas, term)? {
        Some(found) => Ok(same_type(&found, kind)),
        None => Ok(false),
    }
}

// What a line says, if its names stand for a type and a well-typed term of that type.
fn typed_put(
    alloc: Global,
    system: &System,
    names: &NameTables,
    put: &Put,
) -> Result<Option<SubstEntry>, AllocError>
    requires { AreTablesOf (system_data system.now) names.now }
    ensures { IfOk result (SaysTyped (system_data system.now) (said_put put.now)) }
{
    let Some(kind) = names.resolve_type(alloc, system, &put.kind)? else {
        return Ok(None);
    };
    let Some(value) = names.resolve(alloc, system, &put.term)? else {
        return Ok(None);
    };
    if !has_type(alloc, system, &value, &kind)? {
        return Ok(None);
    }
    system.is_well_made();
    Ok(Some(SubstEntry {
        number: put.number,
        kind,
        value,
    }))
}

// Whether the number is above that of the last entry, if there is one.
fn is_above(entries: &[SubstEntry], number: u32) -> bool
    ensures { IsTrue result ↔ ((k : ℕ) (e : entry.SubstEntry) → k + 1 ≡ length entries.now → slice_get entries.now k ≡ Some e
        → e.number < number) }
{
    match entries.last() {
        Some(before) => before.number < number,
        None => true,
    }
}

/// Adds what one more line, of that number, puts for a variable, behind what the lines before it put. The fault is that
/// the line does not say a typed put, or that its number is not above that of the line before.
pub fn add_put(
    alloc: Global,
    system: &System,
    names: &NameTables,
    index: u32,
    put: &Put,
    entries: &mut Vec<SubstEntry>,
) -> Result<(), Or<NoFault>>
    requires { AreTablesOf (system_data system.now) names.now }
    ensures { (lines : List written.Put) → slice_get lines index ≡ Some (said_put put.now)
        → AreRightTo (system_data system.now) lines index (entry_puts entries.old.items)
        → MatchOr result (λ _. AreRightTo (system_data system.now) lines (index + 1) (entry_puts entries.new.items))
        (IsPutFault (system_data system.now) lines) }
{
    if !is_above(entries, put.number) {
        return Err(Or::Because(NoFault::BadPut { index }));
    }
    match typed_put(alloc, system, names, put)? {
        Some(entry) => entries.push(entry)?,
        None => return Err(Or::Because(NoFault::BadPut { index })),
    }
    Ok(())
}

/// What the lines put for variables. The fault is the first line that does not say a typed put, or whose number is not
/// above that of the line before.
pub fn check_puts(
    alloc: Global,
    system: &System,
    names: &NameTables,
    puts: &[Put],
) -> Result<Vec<SubstEntry>, Or<NoFault>>
    requires names { AreTablesOf (system_data system.now) names.now }
    requires many { length puts.now ≤ 2 ^ 32 }
    ensures { MatchOr result (λ entries. AreRight (system_data system.now) (map said_put puts.now) (entry_puts entries.items))
        (IsPutFault (system_data system.now) (map said_put puts.now)) }
{
    let mut entries = Vec::new(alloc);
    for (i, put) in puts.iter().enumerate() {
        add_put(alloc, system, names, i as u32, put, &mut entries)?;
    }
    Ok(entries)
}
