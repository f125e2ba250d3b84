//! Missing arguments: a term of a functional type is applied to variables of new abstractions (eta-expansion).

ghost use Rattle.std.specs.Prelude.{ℕ, ◌≡◌, ◌+◌, ◌<◌, IfOk};
ghost use Rattle.wh_types.specs.Erase.{ty};
ghost use Rattle.wh_types.specs.Outcome.{MatchOr};
ghost use Rattle.wh_terms.specs.Erase.{tm};
ghost use Rattle.wh_terms.specs.Tree.{Tm};
ghost use Rattle.wh_order_extended.specs.Long.{expand};
ghost use Rattle.wh_order_sides.specs.Growth.{growth};
ghost use Rattle.wh_order_sides.specs.Room.{Builds, IsBuilt};

use crate::raising::raise;
use crate::room::{Built, TooWide, without};
use std::alloc::{AllocError, Global};
use wh_terms::Term;
use wh_types::{Or, SimpleType};

/// The term with all missing arguments of its type, these extended too (Kop 2012).
///
/// `Err` comes exactly where there is no room.
#[tactic(auto, using(crate::proofs::ExpandLemmas::size_expand))]
pub fn expand_within(alloc: Global, kind: &SimpleType, spine: Built) -> Result<Built, Or<TooWide>>
    ensures { (room : ℕ) (t : Tm) → IsBuilt room t spine → Builds room (expand (ty kind.now) t) result }
{
    let room = room_behind(kind, spine.room)?;
    let term = expand(alloc, kind, spine.term)?;
    Ok(Built { term, room })
}

// The room that is left once a term of this type has its missing arguments.
fn room_behind(kind: &SimpleType, room: u32) -> Result<u32, Or<TooWide>>
    ensures { MatchOr result (λ rest. rest + growth (ty kind.now) ≡ room) (λ _. room < growth (ty kind.now)) }
{
    match kind {
        SimpleType::Sort(_) => Ok(room),
        SimpleType::Arrow(argument, rest) => {
            let room = without(room, 3)?;
            let room = room_behind(argument, room)?;
            room_behind(rest, room)
        }
    }
}

// The term with all missing arguments of its type.
#[tactic(auto, using(crate::proofs::ExpandLemmas::expand_sort, crate::proofs::ExpandLemmas::expand_arrow))]
fn expand(alloc: Global, kind: &SimpleType, spine: Term) -> Result<Term, AllocError>
    ensures { IfOk result (λ r. tm r ≡ expand (ty kind.now) (tm spine)) }
{
    match kind {
        SimpleType::Sort(_) => Ok(spine),
        SimpleType::Arrow(argument, rest) => {
            let function = raise(alloc, &spine)?;
            let last = expand(alloc, argument, Term::Bound(0))?;
            let whole = Term::App(Box::new(alloc, function)?, Box::new(alloc, last)?);
            let body = expand(alloc, rest, whole)?;
            let kind = argument.copy(alloc)?;
            Ok(Term::Lam(kind, Box::new(alloc, body)?))
        }
    }
}
