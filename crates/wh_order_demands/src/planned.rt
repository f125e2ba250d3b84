//! The demand of a claim: its plan, followed into the parts. `demand_of` is the main function.

ghost use Rattle.std.specs.Prelude.{◌≡◌, ◌||◌, ℕ, Bool, IfOk, not, true};
ghost use Rattle.wh_terms.specs.Erase.{tm};
ghost use Rattle.wh_order_demands.specs.Claims.{IsPossible};
ghost use Rattle.wh_order_demands.specs.Demands.{holds};
ghost use Rattle.wh_order_demands.specs.Planned.{IsFirstDemand, MeetsAll, MeetsFirstFrom, MeetsOrder, MeetsPlan, MeetsSome, MeetsWhole};
ghost use Rattle.wh_order_demands.specs.Plans.{SomeSet, order_data, others_data, part_data, parts_data, plan_data, whole_data};

use crate::claim::Claim;
use crate::demand::Demand;
use crate::filters::none_of;
use crate::joining::{both, either};
use crate::plan::{Order, Others, Part, Plan, Whole, plan_of};
use crate::view::Spot;
use std::alloc::{AllocError, Global};
use wh_terms::Term;
use wh_types::sum;

/// What the bits of an order meet wherever the claim holds of the two trees behind its filters: claims are followed at
/// most `room` deep, and at most `left` of them, which counts down. Beyond that nothing is demanded.
///
/// Only that direction is promised: bits that meet the demand may write an order under which the claim fails (ours).
#[cycle(demanding)]
pub fn demand_of(
    alloc: Global,
    spots: &[Option<Spot>],
    claim: Claim,
    from: &Term,
    to: &Term,
    room: u32,
    left: &mut u32,
) -> Result<Demand, AllocError>
    ensures { IfOk result (IsPossible spots.now claim (tm from.now) (tm to.now)) }
{
    if room == 0 || *left == 0 {
        return Ok(Demand::Always);
    }
    *left -= 1;
    match claim {
        Claim::AtLeast => {
            let equal = demand_of(alloc, spots, Claim::Equal, from, to, room - 1, left)?;
            let greater = demand_of(alloc, spots, Claim::Greater, from, to, room - 1, left)?;
            either(alloc, equal, greater)
        }
        _ => match plan_of(alloc, spots, claim, from, to)? {
            Some(plan) => planned(alloc, spots, &plan, room - 1, left),
            None => Ok(Demand::Always),
        },
    }
}

// What a plan demands.
#[cycle(demanding)]
fn planned(
    alloc: Global,
    spots: &[Option<Spot>],
    plan: &Plan<'_>,
    room: u32,
    left: &mut u32,
) -> Result<Demand, AllocError>
    ensures { IfOk result (MeetsPlan spots.now (plan_data plan.now)) }
{
    let some = some_of(alloc, spots, plan.some.as_slice(), room, left)?;
    match &plan.all {
        Some(whole) => {
            let all = whole_of(alloc, spots, whole, room, left)?;
            either(alloc, some, all)
        }
        None => Ok(some),
    }
}

// The demand that no bit of some is set, that all parts are met, and that symbols compare.
#[cycle(demanding)]
fn whole_of(
    alloc: Global,
    spots: &[Option<Spot>],
    whole: &Whole<'_>,
    room: u32,
    left: &mut u32,
) -> Result<Demand, AllocError>
    ensures { IfOk result (MeetsWhole spots.now (whole_data whole.now)) }
{
    let unset = none_of(alloc, whole.first, whole.count)?;
    let all = all_of(alloc, spots, whole.parts.as_slice(), room, left)?;
    let order = order_of(alloc, spots, &whole.order, room, left)?;
    let rest = both(alloc, all, order)?;
    both(alloc, unset, rest)
}

// The demand that symbols compare.
#[cycle(demanding)]
fn order_of(
    alloc: Global,
    spots: &[Option<Spot>],
    order: &Order<'_>,
    room: u32,
    left: &mut u32,
) -> Result<Demand, AllocError>
    ensures { IfOk result (MeetsOrder spots.now (order_data order.now)) }
{
    match order {
        Order::Free => Ok(Demand::Always),
        Order::Same(parts) => first_of(alloc, spots, parts.as_slice(), room, left),
        Order::Other(others) => others_of(alloc, spots, others, room, left),
    }
}

// The demand that two different symbols compare.
#[cycle(demanding)]
fn others_of(
    alloc: Global,
    spots: &[Option<Spot>],
    others: &Others<'_>,
    room: u32,
    left: &mut u32,
) -> Result<Demand, AllocError>
    ensures { IfOk result (MeetsOrder spots.now (others_data others.now)) }
{
    let some = some_of(alloc, spots, others.parts.as_slice(), room, left)?;
    let level = both(alloc, Demand::Bit(others.above), some)?;
    let low = either(alloc, Demand::NoBit(others.below), level)?;
    let picks = one_of(alloc, others.first, others.count)?;
    either(alloc, picks, low)
}

// The demand that one of `count` bits from `first` on is set.
fn one_of(alloc: Global, first: u32, count: u32) -> Result<Demand, AllocError>
    ensures { IfOk result (λ made. (v : ℕ → Bool) → SomeSet v first count → holds v made ≡ true) }
{
    let mut found = Demand::Never;
    for place in 0..count {
        let bit = sum(first, place)?;
        found = either(alloc, found, Demand::Bit(bit))?;
    }
    Ok(found)
}

// The demand that one of two bits is set.
fn set(alloc: Global, bit: u32, other: u32) -> Result<Demand, AllocError>
    ensures { IfOk result (λ made. (v : ℕ → Bool) → holds v made ≡ (v bit || v other)) }
{
    if bit == other {
        return Ok(Demand::Bit(bit));
    }
    either(alloc, Demand::Bit(bit), Demand::Bit(other))
}

// The demand that neither of two bits is set.
fn unset(alloc: Global, bit: u32, other: u32) -> Result<Demand, AllocError>
    ensures { IfOk result (λ made. (v : ℕ → Bool) → holds v made ≡ not (v bit || v other)) }
{
    if bit == other {
        return Ok(Demand::NoBit(bit));
    }
    both(alloc, Demand::NoBit(bit), Demand::NoBit(other))
}

// The demand that some part is met.
#[cycle(demanding)]
fn some_of(
    alloc: Global,
    spots: &[Option<Spot>],
    parts: &[Part<'_>],
    room: u32,
    left: &mut u32,
) -> Result<Demand, AllocError>
    ensures { IfOk result (MeetsSome spots.now (parts_data parts.now)) }
{
    let mut found = Demand::Never;
    for part in parts {
        let own = demand_of(alloc, spots, part.claim, part.left, part.right, room, left)?;
        let is_set = set(alloc, part.bit, part.other)?;
        let met = both(alloc, is_set, own)?;
        found = either(alloc, found, met)?;
    }
    Ok(found)
}

// The demand that all parts are met.
#[cycle(demanding)]
fn all_of(
    alloc: Global,
    spots: &[Option<Spot>],
    parts: &[Part<'_>],
    room: u32,
    left: &mut u32,
) -> Result<Demand, AllocError>
    ensures { IfOk result (MeetsAll spots.now (parts_data parts.now)) }
{
    let mut found = Demand::Always;
    for part in parts {
        let own = demand_of(alloc, spots, part.claim, part.left, part.right, room, left)?;
        let is_unset = unset(alloc, part.bit, part.other)?;
        let met = either(alloc, is_unset, own)?;
        found = both(alloc, found, met)?;
    }
    Ok(found)
}

// The demand that in the first part in which the trees differ the left one is greater. It is made from the last part
// on.
#[cycle(demanding)]
fn first_of(
    alloc: Global,
    spots: &[Option<Spot>],
    parts: &[Part<'_>],
    room: u32,
    left: &mut u32,
) -> Result<Demand, AllocError>
    ensures { IfOk result (MeetsFirstFrom spots.now 0 (parts_data parts.now)) }
{
    let mut found = Demand::Never;
    let mut place = parts.len();
    while place > 0 {
        place -= 1;
        found = first_from(alloc, spots, &parts[place], found, room, left)?;
    }
    Ok(found)
}

// The demand that in the first part that differs the left tree is greater, for this part and then those of `rest`.
#[cycle(demanding)]
fn first_from(
    alloc: Global,
    spots: &[Option<Spot>],
    part: &Part<'_>,
    rest: Demand,
    room: u32,
    left: &mut u32,
) -> Result<Demand, AllocError>
    ensures { IfOk result (IsFirstDemand spots.now (part_data part.now) rest) }
{
    let greater = demand_of(
        alloc,
        spots,
        Claim::Greater,
        part.left,
        part.right,
        room,
        left,
    )?;
    let equal = demand_of(
        alloc,
        spots,
        Claim::Equal,
        part.left,
        part.right,
        room,
        left,
    )?;
    let is_set = set(alloc, part.bit, part.other)?;
    let is_unset = unset(alloc, part.bit, part.other)?;
    let here = both(alloc, is_set, greater)?;
    let same = either(alloc, is_unset, equal)?;
    let later = both(alloc, same, rest)?;
    either(alloc, here, later)
}
