//! A body at the place of its meta-variable.
//!
//! In a pattern a meta-variable is applied to distinct bound variables. So a body stands there as a tree whose loose
//! variables are renamed: a parameter is one of these variables, and a further loose variable counts the passed binders
//! too. `is_placed` compares a known body with a term, `body_of` finds the body that a term is, if there is one.

ghost use Rattle.std.specs.Prelude.{◌≡◌, ◌≢◌, ◌↔◌, ◌+◌, ◌<◌, ℕ, length, IfOk, IsTrue, MatchOption};
ghost use Rattle.wh_types.specs.Erase.{ty};
ghost use Rattle.wh_terms.specs.Tree.{Tm, Tms, bound};
ghost use Rattle.wh_terms.specs.Erase.{tm, tms};
ghost use Rattle.wh_terms.specs.Pattern.{AllBoundBelow};
ghost use Rattle.wh_terms.specs.Value.{parameters};
ghost use Rattle.wh_terms.specs.Under.{ups, moved};
ghost use Rattle.wh_match.specs.MatchSearch.{placed, all_placed};

use std::alloc::{AllocError, Global};
use wh_terms::{Term, Terms};
use wh_types::{counted, same_type, sum};

/// The arguments of a meta-variable in a pattern, and below how many binders they stand.
#[derive(Clone, Copy)]
pub struct Seat<'a> {
    pub args: &'a [Term],
    pub depth: u32,
}

// The number that a bound variable of the body has at the seat, below `inner` binders of the body.
#[tactic(auto, using(wh_terms::proofs::UnderLemmas::ups_low, crate::proofs::SeatLemmas::argument_here, wh_terms::proofs::BodyLemmas::parameter_beyond))]
fn placed_number(seat: &Seat<'_>, number: u32, inner: u32) -> Result<u32, AllocError>
    requires { AllBoundBelow seat.now.depth (tms seat.now.args.now) }
    ensures { IfOk result (λ place. ups inner (parameters (tms seat.now.args.now) (moved seat.now.depth)) number ≡ bound place) }
{
    if number < inner {
        return Ok(number);
    }
    let inward = (number - inner) as usize;
    let count = seat.args.len();
    if inward < count {
        match &seat.args[count - 1 - inward] {
            Term::Bound(outer) => sum(*outer, inner),
            _ => unreachable!(),
        }
    } else {
        sum(number - count as u32, seat.depth)
    }
}

/// Whether the term is the body at the seat, both from below `inner` binders of the body.
#[cycle(placed)]
pub fn is_placed(seat: &Seat<'_>, body: &Term, term: &Term, inner: u32) -> Result<bool, AllocError>
    requires { AllBoundBelow seat.now.depth (tms seat.now.args.now) }
    ensures { IfOk result (λ same. IsTrue same ↔ (placed (tms seat.now.args.now) seat.now.depth inner (tm body.now) ≡ tm term.now)) }
{
    match (body, term) {
        (Term::Bound(number), Term::Bound(other)) => Ok(
            placed_number(seat, *number, inner)? == *other,
        ),
        (Term::Free(number, kind), Term::Free(other, other_kind)) => {
            Ok(*number == *other && same_type(kind, other_kind))
        }
        (Term::Fun(symbol), Term::Fun(other)) => Ok(*symbol == *other),
        (Term::Meta(meta, items), Term::Meta(other, others)) => {
            Ok(*meta == *other && are_placed(seat, items, others, inner)?)
        }
        (Term::Lam(kind, part), Term::Lam(other_kind, other_part)) => {
            Ok(same_type(kind, other_kind) && is_placed(seat, part, other_part, sum(inner, 1)?)?)
        }
        (Term::App(function, argument), Term::App(first, second)) => {
            Ok(
                is_placed(seat, function, first, inner)?
                    && is_placed(seat, argument, second, inner)?,
            )
        }
        _ => Ok(false),
    }
}

// Whether each term of `parts` is the body in its place in `bodies` at the seat, and there are as many of both.
#[cycle(placed)]
fn are_placed(
    seat: &Seat<'_>,
    bodies: &Terms,
    parts: &Terms,
    inner: u32,
) -> Result<bool, AllocError>
    requires { AllBoundBelow seat.now.depth (tms seat.now.args.now) }
    ensures { IfOk result (λ same. IsTrue same ↔ (all_placed (tms seat.now.args.now) seat.now.depth inner
        (tms bodies.now) ≡ tms parts.now)) }
{
    let (items, others) = (bodies.as_slice(), parts.as_slice());
    if items.len() != others.len() {
        return Ok(false);
    }
    for (i, item) in items.iter().enumerate() {
        if !is_placed(seat, item, &others[i], inner)? {
            return Ok(false);
        }
    }
    Ok(true)
}

// The loose variable of the body that stands at the seat as this bound variable of the term; both are counted from
// outside the body. None: no body has this variable there.
#[tactic(auto, using(crate::proofs::SeatLemmas::from_beyond, crate::proofs::SeatLemmas::from_argument, crate::proofs::SeatLemmas::misses_more, crate::proofs::SeatLemmas::from_nowhere))]
fn origin(seat: &Seat<'_>, number: u32) -> Result<Option<u32>, AllocError>
    requires { AllBoundBelow seat.now.depth (tms seat.now.args.now) }
    ensures { IfOk result (λ found. MatchOption found
        ((i : ℕ) → parameters (tms seat.now.args.now) (moved seat.now.depth) i ≢ bound number)
        (λ i. parameters (tms seat.now.args.now) (moved seat.now.depth) i ≡ bound number)) }
{
    let count = seat.args.len();
    if number >= seat.depth {
        return Ok(Some(sum(number - seat.depth, counted(count)?)?));
    }
    for (i, arg) in seat.args.iter().enumerate() {
        if let Term::Bound(outer) = arg {
            if *outer == number {
                return Ok(Some(counted(count - 1 - i)?));
            }
        }
    }
    Ok(None)
}

// The loose variable of the body that stands at the seat as this bound variable of the term, where both are counted
// from below `inner` binders of the body, whose own variables stay. None: no body has this variable there.
#[tactic(auto, using(wh_terms::proofs::UnderLemmas::ups_low, crate::proofs::SeatLemmas::from_there))]
fn source(seat: &Seat<'_>, number: u32, inner: u32) -> Result<Option<u32>, AllocError>
    requires { AllBoundBelow seat.now.depth (tms seat.now.args.now) }
    ensures { IfOk result (λ found. MatchOption found
        ((body : Tm) → placed (tms seat.now.args.now) seat.now.depth inner body ≢ bound number)
        (λ i. ups inner (parameters (tms seat.now.args.now) (moved seat.now.depth)) i ≡ bound number)) }
{
    if number < inner {
        return Ok(Some(number));
    }
    match origin(seat, number - inner)? {
        Some(outer) => Ok(Some(sum(outer, inner)?)),
        None => Ok(None),
    }
}

/// The body that stands at the seat as this term, both from below `inner` binders of the body; None if there is none.
#[cycle(body)]
pub fn body_of(
    alloc: Global,
    seat: &Seat<'_>,
    term: &Term,
    inner: u32,
) -> Result<Option<Term>, AllocError>
    requires { AllBoundBelow seat.now.depth (tms seat.now.args.now) }
    ensures { IfOk result (λ found. MatchOption found
        ((body : Tm) → placed (tms seat.now.args.now) seat.now.depth inner body ≢ tm term.now)
        (λ body. placed (tms seat.now.args.now) seat.now.depth inner (tm body) ≡ tm term.now)) }
{
    match term {
        Term::Bound(number) => match source(seat, *number, inner)? {
            Some(outer) => Ok(Some(Term::Bound(outer))),
            None => Ok(None),
        },
        Term::Free(number, kind) => Ok(Some(Term::Free(*number, kind.copy(alloc)?))),
        Term::Fun(symbol) => Ok(Some(Term::Fun(*symbol))),
        Term::Meta(meta, items) => match bodies_of(alloc, seat, items, inner)? {
            Some(bodies) => Ok(Some(Term::Meta(*meta, bodies))),
            None => Ok(None),
        },
        Term::Lam(kind, part) => match body_of(alloc, seat, part, sum(inner, 1)?)? {
            Some(body) => {
                let kind = kind.copy(alloc)?;
                Ok(Some(Term::Lam(kind, Box::new(alloc, body)?)))
            }
            None => Ok(None),
        },
        Term::App(function, argument) => {
            let Some(first) = body_of(alloc, seat, function, inner)? else {
                return Ok(None);
            };
            let first = Box::new(alloc, first)?;
            let Some(second) = body_of(alloc, seat, argument, inner)? else {
                return Ok(None);
            };
            Ok(Some(Term::App(first, Box::new(alloc, second)?)))
        }
    }
}

// The bodies that stand at the seat as the arguments of a meta-variable, one for each; None if one has none.
#[cycle(body)]
fn bodies_of(
    alloc: Global,
    seat: &Seat<'_>,
    items: &Terms,
    inner: u32,
) -> Result<Option<Terms>, AllocError>
    requires { AllBoundBelow seat.now.depth (tms seat.now.args.now) }
    ensures { IfOk result (λ found. MatchOption found
        ((bodies : Tms) → all_placed (tms seat.now.args.now) seat.now.depth inner bodies ≢ tms items.now)
        (λ bodies. all_placed (tms seat.now.args.now) seat.now.depth inner (tms bodies) ≡ tms items.now)) }
{
    let mut bodies = Terms::new(alloc);
    for item in items.as_slice() {
        let Some(body) = body_of(alloc, seat, item, inner)? else {
            return Ok(None);
        };
        bodies.push(body)?;
    }
    Ok(Some(bodies))
}
