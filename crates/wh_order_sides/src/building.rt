//! Extended terms, built as long as there is room for their nodes. `long` is the main function.

ghost use Rattle.std.specs.Prelude.{ℕ, ◌≡◌, [], OnOk};
ghost use Rattle.wh_terms.specs.Erase.{declared_metas, symbols, tm, tms};
ghost use Rattle.wh_terms.specs.Scope.{scope};
ghost use Rattle.wh_terms.specs.Tree.{Tm};
ghost use Rattle.wh_order_extended.specs.Kinds.{kind};
ghost use Rattle.wh_order_extended.specs.Long.{core, cores, finish, finish_argument, long};
ghost use Rattle.wh_order_sides.specs.Growth.{argued};
ghost use Rattle.wh_order_sides.specs.Room.{Builds, BuildsAll, IsBuilt};

use crate::expanding::expand_within;
use crate::kinds::kind_under;
use crate::room::{Built, BuiltTerms, TooWide, without};
use std::alloc::Global;
use wh_terms::{MetaDecl, Signature, Term, Terms};
use wh_types::{Or, SimpleType};

/// The extended term of a term without loose variables (Kop 2012; Fuhs and Kop 2019).
///
/// `Err` comes exactly where there is no room for it.
pub fn long(
    alloc: Global,
    signature: &Signature,
    metas: &[MetaDecl],
    term: &Term,
    room: u32,
) -> Result<Built, Or<TooWide>>
    ensures { Builds room (long (symbols signature.now) (declared_metas metas.now) [] (tm term.now)) result }
{
    let mut binders = Vec::new(alloc);
    long_under(alloc, signature, metas, &mut binders, term, room)
}

// The extended term of a part of a term below binders of the types `binders`, the outermost first.
#[cycle(building)]
fn long_under<'a>(
    alloc: Global,
    signature: &Signature,
    metas: &[MetaDecl],
    binders: &mut Vec<&'a SimpleType>,
    term: &'a Term,
    room: u32,
) -> Result<Built, Or<TooWide>>
    ensures built { Builds room (long (symbols signature.now) (declared_metas metas.now) (scope binders.old.items)
        (tm term.now)) result }
    ensures kept { OnOk result (binders.new.items ≡ binders.old.items) }
{
    let spine = core_under(alloc, signature, metas, binders, term, room)?;
    finish(alloc, signature, metas, binders, term, spine)
}

// The extended term of an argument of a meta-variable below binders, where a bound variable stands as it is.
#[cycle(building)]
fn argument_under<'a>(
    alloc: Global,
    signature: &Signature,
    metas: &[MetaDecl],
    binders: &mut Vec<&'a SimpleType>,
    term: &'a Term,
    room: u32,
) -> Result<Built, Or<TooWide>>
    ensures built { Builds room (argued (symbols signature.now) (declared_metas metas.now) (scope binders.old.items)
        (tm term.now)) result }
    ensures kept { OnOk result (binders.new.items ≡ binders.old.items) }
{
    let spine = core_under(alloc, signature, metas, binders, term, room)?;
    finish_argument(alloc, signature, metas, binders, term, spine)
}

// What stands for an argument of a meta-variable, with its missing arguments; a bound variable stands as it is.
fn finish_argument<'a>(
    alloc: Global,
    signature: &Signature,
    metas: &[MetaDecl],
    binders: &mut Vec<&'a SimpleType>,
    term: &'a Term,
    spine: Built,
) -> Result<Built, Or<TooWide>>
    ensures built { (room : ℕ) (t : Tm) → IsBuilt room t spine → Builds room (finish_argument (tm term.now)
        (kind (symbols signature.now) (declared_metas metas.now) (scope binders.old.items) (tm term.now)) t) result }
    ensures kept { OnOk result (binders.new.items ≡ binders.old.items) }
{
    match term {
        Term::Bound(_) | Term::Lam(_, _) | Term::Meta(_, _) => Ok(spine),
        Term::Free(_, _) | Term::Fun(_) | Term::App(_, _) => {
            let kind = kind_under(alloc, signature, metas, binders, term)?;
            expand_within(alloc, &kind, spine)
        }
    }
}

// What stands for the term, with its missing arguments; an abstraction and an application of a meta-variable stand as
// they are.
fn finish<'a>(
    alloc: Global,
    signature: &Signature,
    metas: &[MetaDecl],
    binders: &mut Vec<&'a SimpleType>,
    term: &'a Term,
    spine: Built,
) -> Result<Built, Or<TooWide>>
    ensures built { (room : ℕ) (t : Tm) → IsBuilt room t spine → Builds room (finish (tm term.now)
        (kind (symbols signature.now) (declared_metas metas.now) (scope binders.old.items) (tm term.now)) t) result }
    ensures kept { OnOk result (binders.new.items ≡ binders.old.items) }
{
    match term {
        Term::Lam(_, _) | Term::Meta(_, _) => Ok(spine),
        Term::Bound(_) | Term::Free(_, _) | Term::Fun(_) | Term::App(_, _) => {
            let kind = kind_under(alloc, signature, metas, binders, term)?;
            expand_within(alloc, &kind, spine)
        }
    }
}

// The spine with its arguments extended, but without its own missing ones.
#[cycle(building)]
fn core_under<'a>(
    alloc: Global,
    signature: &Signature,
    metas: &[MetaDecl],
    binders: &mut Vec<&'a SimpleType>,
    term: &'a Term,
    room: u32,
) -> Result<Built, Or<TooWide>>
    ensures built { Builds room (core (symbols signature.now) (declared_metas metas.now) (scope binders.old.items)
        (tm term.now)) result }
    ensures kept { OnOk result (binders.new.items ≡ binders.old.items) }
{
    let rest = without(room, 1)?;
    match term {
        Term::Bound(number) => Ok(Built {
            term: Term::Bound(*number),
            room: rest,
        }),
        Term::Free(number, kind) => Ok(Built {
            term: Term::Free(*number, kind.copy(alloc)?),
            room: rest,
        }),
        Term::Fun(symbol) => Ok(Built {
            term: Term::Fun(*symbol),
            room: rest,
        }),
        Term::Meta(meta, items) => {
            let items = cores_under(alloc, signature, metas, binders, items, rest)?;
            Ok(Built {
                term: Term::Meta(*meta, items.items),
                room: items.room,
            })
        }
        Term::Lam(kind, body) => {
            binders.push(kind)?;
            let body = long_under(alloc, signature, metas, binders, body, rest)?;
            let _ = binders.pop();
            let kind = kind.copy(alloc)?;
            Ok(Built {
                term: Term::Lam(kind, Box::new(alloc, body.term)?),
                room: body.room,
            })
        }
        Term::App(function, argument) => {
            let function = core_under(alloc, signature, metas, binders, function, rest)?;
            let argument = long_under(alloc, signature, metas, binders, argument, function.room)?;
            let front = Box::new(alloc, function.term)?;
            Ok(Built {
                term: Term::App(front, Box::new(alloc, argument.term)?),
                room: argument.room,
            })
        }
    }
}

// The extended terms of the arguments of a meta-variable below binders of the types `binders`.
#[cycle(building)]
fn cores_under<'a>(
    alloc: Global,
    signature: &Signature,
    metas: &[MetaDecl],
    binders: &mut Vec<&'a SimpleType>,
    items: &'a Terms,
    room: u32,
) -> Result<BuiltTerms, Or<TooWide>>
    ensures built { BuildsAll room (cores (symbols signature.now) (declared_metas metas.now) (scope binders.old.items)
        (tms items.now)) result }
    ensures kept { OnOk result (binders.new.items ≡ binders.old.items) }
{
    let mut results = Terms::new(alloc);
    let mut left = room;
    for item in items.as_slice() {
        let argument = argument_under(alloc, signature, metas, binders, item, left)?;
        results.push(argument.term)?;
        left = argument.room;
    }
    Ok(BuiltTerms {
        items: results,
        room: left,
    })
}
