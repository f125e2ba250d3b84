//! The terms that are put for the variables of a start, so that it becomes a given part.

ghost use Rattle.std.specs.Prelude.{◌≡◌, ◌≤◌, [], IfOk, MatchBool, MatchOption, length};
ghost use Rattle.wh_types.specs.Limits.{most_metas};
ghost use Rattle.wh_types.specs.Erase.{ty};
ghost use Rattle.wh_terms.specs.Erase.{tm, symbols};
ghost use Rattle.wh_terms.specs.Typing.{Typed};
ghost use Rattle.wh_no.specs.Entry.{entry_puts};
ghost use Rattle.wh_loop_starts.specs.Meets.{IsReady, TellsEntry, IsPushed, IsUntyped, ArePutsOf, HasUntyped, AreInstance, IsNoInstance};

use crate::meets::{Met, meets};
use std::alloc::{AllocError, Global};
use wh_terms::{Metas, Signature, SubstEntry, Term, copy_term, type_of};
use wh_types::{SimpleType, same_type};

// A rule has no more meta-variables, so no variable of a start has a greater number.
const MOST_VARIABLES: usize = 32;

// Whether the term has that type.
fn has_type(
    alloc: Global,
    signature: &Signature,
    term: &Term,
    kind: &SimpleType,
) -> Result<bool, AllocError>
    ensures { IfOk result (λ yes. MatchBool yes (Typed (symbols signature.now) [] [] (tm term.now) (ty kind.now))
        (Typed (symbols signature.now) [] [] (tm term.now) (ty kind.now) → ⊥)) }
{
    let no_metas = Metas::new(alloc);
    match type_of(alloc, signature, &no_metas, term)? {
        Some(found) => Ok(same_type(&found, kind)),
        None => Ok(false),
    }
}

// The entry for the variable of that number; `None` where its value has not its type.
fn typed_entry(
    alloc: Global,
    signature: &Signature,
    number: u32,
    met: &Met,
) -> Result<Option<SubstEntry>, AllocError>
    ensures { IfOk result (TellsEntry (symbols signature.now) number met.now) }
{
    if !has_type(alloc, signature, met.value, met.kind)? {
        return Ok(None);
    }
    let kind = met.kind.copy(alloc)?;
    Ok(Some(SubstEntry {
        number,
        kind,
        value: copy_term(alloc, met.value)?,
    }))
}

// The entry for the variable of that number joins the entries, if something stands in its place. The answer is whether
// that has the variable's type.
fn push_entry(
    alloc: Global,
    signature: &Signature,
    number: u32,
    place: &Option<Met>,
    entries: &mut Vec<SubstEntry>,
) -> Result<bool, AllocError>
    ensures { IfOk result (λ yes. MatchBool yes
        (IsPushed (symbols signature.now) number place.now (entry_puts entries.old.items) (entry_puts entries.new.items))
        (IsUntyped (symbols signature.now) place.now)) }
{
    let Some(met) = place else {
        return Ok(true);
    };
    let Some(entry) = typed_entry(alloc, signature, number, met)? else {
        return Ok(false);
    };
    entries.push(entry)?;
    Ok(true)
}

// The entries for the variables of the table, by increasing numbers; `None` where a value has not its variable's type.
fn typed_entries(
    alloc: Global,
    signature: &Signature,
    table: &[Option<Met>],
) -> Result<Option<Vec<SubstEntry>>, AllocError>
    requires { length table.now ≤ most_metas }
    ensures { IfOk result (λ entries. MatchOption entries
        (HasUntyped (symbols signature.now) table.now)
        (λ es. ArePutsOf (symbols signature.now) table.now (entry_puts es.items))) }
{
    let mut entries = Vec::new(alloc);
    for (number, place) in table.iter().enumerate() {
        if !push_entry(alloc, signature, number as u32, place, &mut entries)? {
            return Ok(None);
        }
    }
    Ok(Some(entries))
}

/// The terms to put for the variables of the start, so that it becomes the part; `None` comes exactly where no typed
/// terms do.
pub fn instance_of<'a>(
    alloc: Global,
    signature: &Signature,
    start: &'a Term,
    part: &'a Term,
) -> Result<Option<Vec<SubstEntry>>, AllocError>
    requires { IsReady (symbols signature.now) (tm start.now) }
    ensures { IfOk result (λ entries. MatchOption entries
        (IsNoInstance (symbols signature.now) (tm start.now) (tm part.now))
        (λ es. AreInstance (symbols signature.now) (tm start.now) (tm part.now) (entry_puts es.items))) }
{
    let mut table = vec![in alloc; None; MOST_VARIABLES]?;
    if meets(start, part, &mut table) {
        typed_entries(alloc, signature, &table)
    } else {
        Ok(None)
    }
}
