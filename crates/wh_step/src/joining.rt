//! Measuring the result of a step at its place, before the step is taken.
//!
//! The term around the place is known to fit, and its size is known. So of the result's height and of its spines only
//! what the new part reaches can pass a limit: the walk goes down the path alone, and stops at the first measure that
//! is past one. What stands above a place adds to the height by what is put there: the function of an application adds
//! nothing where it is an application itself, and 1 elsewhere.

ghost use Rattle.std.specs.Prelude.{◌≡◌, ◌≤◌, ℕ, [], ◌∷◌, List, Some, IfOk};
ghost use Rattle.wh_types.specs.Limits.{greatest_size};
ghost use Rattle.wh_types.specs.Ty.{Ty};
ghost use Rattle.wh_terms.specs.Tree.{Tm, lam, app};
ghost use Rattle.wh_terms.specs.Erase.{tm};
ghost use Rattle.wh_terms.specs.Places.{part_at};
ghost use Rattle.wh_terms.specs.Measures.{Fits, size as tree_size};
ghost use Rattle.wh_step.specs.Roots.{put_at};
ghost use Rattle.wh_step.specs.Contracta.{IsReady, result_of};
ghost use Rattle.wh_step.specs.Extents.{IsExtent};
ghost use Rattle.wh_step.specs.Context.{IsJoint, IsMeasured, Joins, LimitsJoint, NewSize};

use crate::extent::Extent;
use crate::joint::Joint;
use crate::measuring::{contractum_extent, known};
use crate::redex::Contractum;
use std::alloc::{AllocError, Global};
use wh_terms::{MOST_ARGUMENTS, MOST_HEIGHT, MOST_SIZE, Term, size};

// A joint with these measures, if they keep the limits.
fn limited(height: u32, arguments: u32, is_front: bool, is_applied: bool) -> Option<Joint>
    ensures { LimitsJoint height arguments is_front is_applied result }
{
    if height > MOST_HEIGHT || arguments > MOST_ARGUMENTS {
        return None;
    }
    Some(Joint {
        height,
        arguments,
        is_front,
        is_applied,
    })
}

// The part itself, at its place.
fn alone(part: Extent) -> Joint
    ensures { (v t : Tm) → IsExtent v part → IsJoint [] v t result }
{
    Joint {
        height: part.height,
        arguments: part.arguments,
        is_front: true,
        is_applied: part.arguments > 0,
    }
}

// One level up from the function of an application.
fn above_function(joint: Joint) -> Option<Joint>
    ensures { (path : List ℕ) (v t u : Tm) → IsJoint path v t joint → Joins (0 ∷ path) v (app t u) result }
{
    let height = if joint.is_applied {
        joint.height
    } else {
        joint.height + 1
    };
    let arguments = if joint.is_front {
        joint.arguments + 1
    } else {
        joint.arguments
    };
    limited(height, arguments, joint.is_front, true)
}

// One level up from the argument of an application.
fn above_argument(joint: Joint) -> Option<Joint>
    ensures { (path : List ℕ) (v t u : Tm) → IsJoint path v u joint → Joins (1 ∷ path) v (app t u) result }
{
    limited(joint.height + 1, joint.arguments, false, true)
}

// One level up from the body of an abstraction.
fn above_body(joint: Joint) -> Option<Joint>
    ensures { (path : List ℕ) (v : Tm) (a : Ty) (t : Tm) → IsJoint path v t joint → Joins (0 ∷ path) v (lam a t) result }
{
    limited(joint.height + 1, joint.arguments, false, false)
}

// What a part of this extent brings to the term at the path.
fn join(term: &Term, path: &[u8], part: Extent) -> Option<Joint>
    requires there { (r : Tm) × (part_at path.now (tm term.now) ≡ Some r) }
    ensures { (v : Tm) → IsExtent v part → Joins path.now v (tm term.now) result }
{
    let Some((step, rest)) = path.split_first() else {
        return Some(alone(part));
    };
    match term {
        Term::App(function, argument) => {
            if *step == 0 {
                above_function(join(function, rest, part)?)
            } else {
                above_argument(join(argument, rest, part)?)
            }
        }
        Term::Lam(_, body) => above_body(join(body, rest, part)?),
        Term::Bound(_) | Term::Free(_, _) | Term::Fun(_) | Term::Meta(_, _) => unreachable!(),
    }
}

// The size of a term of the size `total` with the part in place of one of the size `old`, if it fits.
fn resized(total: u64, old: u64, part: Extent, joint: Option<Joint>) -> Option<u64>
    requires small { total ≤ greatest_size }
    requires inside { old ≤ total }
    ensures { (path : List ℕ) (v t r : Tm) → IsMeasured path v t r total old part joint → NewSize (put_at path v t) result }
{
    match joint {
        Some(_) => {
            let whole = total - old + u64::from(part.size);
            if whole > u64::from(MOST_SIZE) {
                None
            } else {
                Some(whole)
            }
        }
        None => None,
    }
}

/// The size of the result of a step at the path, if it fits; `total` is the size of the term. Only the path, the redex
/// and the parts that the contractum is built from are gone over.
pub fn new_size(
    alloc: Global,
    term: &Term,
    total: u64,
    path: &[u8],
    redex: &Term,
    contractum: &Contractum<'_>,
) -> Result<Option<u64>, AllocError>
    requires fits { Fits (tm term.now) }
    requires sized { total ≡ tree_size (tm term.now) }
    requires there { part_at path.now (tm term.now) ≡ Some (tm redex.now) }
    requires ready { IsReady contractum.now }
    ensures { IfOk result (NewSize (put_at path.now (result_of contractum.now) (tm term.now))) }
{
    let Some(part) = known(contractum_extent(alloc, contractum))? else {
        return Ok(None);
    };
    Ok(resized(total, size(redex), part, join(term, path, part)))
}
