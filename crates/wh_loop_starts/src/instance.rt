//! Instances of a start in a term, at any position.

ghost use Rattle.std.specs.Prelude.{◌≡◌, Some, IfOk, OnOk, MatchOption, All, ◌<◌, ◌++◌, ◌∷◌, []};
ghost use Rattle.wh_terms.specs.Erase.{tm, symbols};
ghost use Rattle.wh_terms.specs.Places.{IsPath, part_at};
ghost use Rattle.wh_terms.specs.Typing.{WellTyped};
ghost use Rattle.wh_system.specs.SystemView.{system_data};
ghost use Rattle.wh_no.specs.Entry.{entry_puts};
ghost use Rattle.wh_no.specs.Valid.{HoldsInstance};
ghost use Rattle.wh_loop_starts.specs.Starts.{IsSomeStart};
ghost use Rattle.wh_loop_starts.specs.Space.{HoldsInstanceOf, InSpace};
ghost use Rattle.wh_loop_starts.specs.Found.{IsInstanceIn};
ghost use Rattle.wh_loop_starts.specs.Meets.{IsReady, IsSearchable, HasNoneAt, HasNoneBelow, HasNoneFrom};

use crate::entries::instance_of;
use crate::meets::has_same_head;
use crate::unused::first_unused;
use std::alloc::{AllocError, Global};
use wh_system::System;
use wh_terms::{Path, Signature, SubstEntry, Term, opened_at};

/// An instance of a term in another one.
#[derive(Drop)]
pub struct Instance {
    /// The position of the instance. The binders on the way to it are opened by variables above those of the first
    /// term.
    pub at: Path,
    /// The terms that are put for variables of the first term, by increasing numbers.
    pub puts: Vec<SubstEntry>,
}

// The place with these steps.
fn path_of(alloc: Global, steps: &[u8]) -> Result<Path, AllocError>
    requires { IsPath steps.now }
    ensures { IfOk result (λ path. path ≡ steps.now) }
{
    let mut path = Path::new(alloc);
    for step in steps {
        path.push(*step)?;
    }
    Ok(path)
}

// What is looked for, and where.
#[derive(Drop)]
struct Search<'a> {
    signature: &'a Signature,
    start: &'a Term,
    term: &'a Term,
}

// The instance at the place with these steps, where `here` stands, if there is one. Only a part that begins as the
// start does is opened: opening keeps a symbol at the head, and the number of its arguments.
fn instance_at(
    alloc: Global,
    search: &Search,
    here: &Term,
    steps: &[u8],
) -> Result<Option<Instance>, AllocError>
    requires ready { IsReady (symbols search.now.signature.now) (tm search.now.start.now) }
    requires searchable { IsSearchable (tm search.now.term.now) }
    requires here { part_at steps.now (tm search.now.term.now) ≡ Some (tm here.now) }
    ensures { IfOk result (λ found. MatchOption found
        (HasNoneAt (symbols search.now.signature.now) (tm search.now.start.now) (tm search.now.term.now) steps.now)
        (IsInstanceIn (symbols search.now.signature.now) (tm search.now.start.now) (tm search.now.term.now))) }
{
    if !has_same_head(search.start, here) {
        return Ok(None);
    }
    let at = path_of(alloc, steps)?;
    let first = first_unused(search.start);
    let Some(part) = opened_at(alloc, search.term, &at, first)? else {
        return Ok(None);
    };
    match instance_of(alloc, search.signature, search.start, &part)? {
        Some(puts) => Ok(Some(Instance { at, puts })),
        None => Ok(None),
    }
}

// The first instance at the place with these steps or below it, if there is one.
#[cycle(places)]
fn instance_from(
    alloc: Global,
    search: &Search,
    here: &Term,
    steps: &mut Vec<u8>,
) -> Result<Option<Instance>, AllocError>
    requires ready { IsReady (symbols search.now.signature.now) (tm search.now.start.now) }
    requires searchable { IsSearchable (tm search.now.term.now) }
    requires here { part_at steps.old.items (tm search.now.term.now) ≡ Some (tm here.now) }
    ensures kept { OnOk result (steps.new.items ≡ steps.old.items) }
    ensures found { IfOk result (λ found. MatchOption found
        (HasNoneFrom (symbols search.now.signature.now) (tm search.now.start.now) (tm search.now.term.now) steps.old.items)
        (IsInstanceIn (symbols search.now.signature.now) (tm search.now.start.now) (tm search.now.term.now))) }
{
    match instance_at(alloc, search, here, steps)? {
        Some(found) => Ok(Some(found)),
        None => instance_below(alloc, search, here, steps),
    }
}

// The first instance at a place below the one with these steps, if there is one.
#[cycle(places)]
fn instance_below(
    alloc: Global,
    search: &Search,
    here: &Term,
    steps: &mut Vec<u8>,
) -> Result<Option<Instance>, AllocError>
    requires ready { IsReady (symbols search.now.signature.now) (tm search.now.start.now) }
    requires searchable { IsSearchable (tm search.now.term.now) }
    requires here { part_at steps.old.items (tm search.now.term.now) ≡ Some (tm here.now) }
    ensures kept { OnOk result (steps.new.items ≡ steps.old.items) }
    ensures found { IfOk result (λ found. MatchOption found
        (HasNoneBelow (symbols search.now.signature.now) (tm search.now.start.now) (tm search.now.term.now) steps.old.items)
        (IsInstanceIn (symbols search.now.signature.now) (tm search.now.start.now) (tm search.now.term.now))) }
{
    match here {
        Term::Lam(_, body) => instance_in(alloc, search, body, 0, steps),
        Term::App(function, argument) => {
            match instance_in(alloc, search, function, 0, steps)? {
                Some(found) => Ok(Some(found)),
                None => instance_in(alloc, search, argument, 1, steps),
            }
        }
        Term::Bound(_) | Term::Free(_, _) | Term::Fun(_) | Term::Meta(_, _) => Ok(None),
    }
}

// The first instance one step further, where `child` stands, or below it.
#[cycle(places)]
fn instance_in(
    alloc: Global,
    search: &Search,
    child: &Term,
    step: u8,
    steps: &mut Vec<u8>,
) -> Result<Option<Instance>, AllocError>
    requires ready { IsReady (symbols search.now.signature.now) (tm search.now.start.now) }
    requires searchable { IsSearchable (tm search.now.term.now) }
    requires child { part_at (steps.old.items ++ step ∷ []) (tm search.now.term.now) ≡ Some (tm child.now) }
    ensures kept { OnOk result (steps.new.items ≡ steps.old.items) }
    ensures found { IfOk result (λ found. MatchOption found
        (HasNoneFrom (symbols search.now.signature.now) (tm search.now.start.now) (tm search.now.term.now) (steps.old.items ++ step ∷ []))
        (IsInstanceIn (symbols search.now.signature.now) (tm search.now.start.now) (tm search.now.term.now))) }
{
    steps.push(step)?;
    let found = instance_from(alloc, search, child, steps)?;
    let _ = steps.pop();
    Ok(found)
}

/// An instance of the start in the term; `None` comes exactly where no position has one.
pub fn find_instance(
    alloc: Global,
    system: &System,
    start: &Term,
    term: &Term,
) -> Result<Option<Instance>, AllocError>
    requires start { IsSomeStart (system_data system.now).rules (tm start.now) }
    requires small { InSpace (tm term.now) }
    requires typed { WellTyped (system_data system.now).symbols (tm term.now) }
    ensures { IfOk result (λ found. MatchOption found (HoldsInstanceOf (system_data system.now).symbols (tm start.now) (tm term.now) → ⊥)
        (IsInstanceIn (system_data system.now).symbols (tm start.now) (tm term.now))) }
{
    system.is_well_made();
    let search = Search {
        signature: system.signature(),
        start,
        term,
    };
    let mut steps = Vec::new(alloc);
    instance_from(alloc, &search, term, &mut steps)
}
