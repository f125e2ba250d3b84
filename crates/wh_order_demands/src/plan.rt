//! Plans: what a claim about two trees asks of their parts, by what heads the trees.

ghost use Rattle.std.specs.Prelude.{◌≡◌, ◌+◌, ◌++◌, ℕ, IfOk, List, OnOk, Option, length, true};
ghost use Rattle.wh_terms.specs.Erase.{tm};
ghost use Rattle.wh_terms.specs.Tree.{Tm, head};
ghost use Rattle.wh_order_path.specs.Verdict.{is_other_head};
ghost use Rattle.wh_order_demands.specs.Claims.{order_bit};
ghost use Rattle.wh_order_demands.specs.Orders.{IsAllAbove, IsAllEqual, IsCompared};
ghost use Rattle.wh_order_demands.specs.Plans.{IsAlone, IsPlan, IsPlanBeside, left_parts, pair_parts, parts_data, right_parts};
ghost use Rattle.wh_order_demands.specs.Views.{IsCallOf, IsView, items_data};
ghost use Rattle.wh_order_demands.specs.declared.view.Spot.{Spot};
ghost use Rattle.wh_order_demands.specs.declared.claim.Claim.TheVariants as claim;

use crate::claim::Claim;
use crate::view::{Call, Spot, View, view_of};
use std::alloc::{AllocError, Global};
use wh_terms::Term;
use wh_types::{counted, sum};

/// A claim about two parts, and two bits.
#[derive(Drop)]
pub struct Part<'a> {
    /// A bit: that a place is kept, or that it is picked.
    pub bit: u32,
    /// A second bit, which serves as well.
    pub other: u32,
    /// The claim.
    pub claim: Claim,
    /// The left part.
    pub left: &'a Term,
    /// The right part.
    pub right: &'a Term,
}

/// A list of parts.
pub type Parts<'a> = Vec<Part<'a>>;

/// How two symbols have to compare where they head trees.
#[derive(Drop)]
pub struct Others<'a> {
    /// The first of the bits for the places that the right one may pick.
    pub first: u32,
    /// How many bits there are.
    pub count: u32,
    /// The bit that the left one's precedence is at least the right one's.
    pub above: u32,
    /// The bit for the other way round.
    pub below: u32,
    /// Arguments on the right: some argument on the left is greater than one of these, where the precedences are equal.
    pub parts: Parts<'a>,
}

/// How the symbols that head two trees have to compare.
#[derive(Drop)]
pub enum Order<'a> {
    /// Nothing is asked.
    Free,
    /// The two symbols are one: the first of its arguments that differ get smaller.
    Same(Parts<'a>),
    /// There are two symbols.
    Other(Others<'a>),
}

/// A condition: bits of which none is to be set, parts that are all to be met, and how symbols have to compare.
#[derive(Drop)]
pub struct Whole<'a> {
    /// The first of these bits.
    pub first: u32,
    /// How many bits there are.
    pub count: u32,
    /// The parts.
    pub parts: Parts<'a>,
    /// The symbols.
    pub order: Order<'a>,
}

/// A plan for a claim. Where the claim holds, one of the parts in `some` has a bit set and its own claim holds; or the
/// condition in `all` is met.
#[derive(Drop)]
pub struct Plan<'a> {
    /// Parts of which one is enough.
    pub some: Parts<'a>,
    /// The condition, if there is one.
    pub all: Option<Whole<'a>>,
}

/// What the claim about two trees asks of their parts; `None` where nothing is known.
pub fn plan_of<'a>(
    alloc: Global,
    spots: &[Option<Spot>],
    claim: Claim,
    left: &'a Term,
    right: &'a Term,
) -> Result<Option<Plan<'a>>, AllocError>
    ensures { IfOk result (IsPlan spots.now claim (tm left.now) (tm right.now)) }
{
    let from = view_of(alloc, spots, left)?;
    let to = view_of(alloc, spots, right)?;
    match claim {
        Claim::Equal => equal(alloc, left, right, &from, &to),
        Claim::Greater => greater(alloc, left, right, &from, &to),
        Claim::Above => above(alloc, left, right, &from, &to),
        Claim::PartGreater => part_greater(alloc, left, right, &from),
        Claim::AtLeast => Ok(None),
    }
}

// Two equal trees.
fn equal<'a>(
    alloc: Global,
    left: &'a Term,
    right: &'a Term,
    from: &View<'a>,
    to: &View<'a>,
) -> Result<Option<Plan<'a>>, AllocError>
    ensures { (spots : List (Option Spot)) → IsView spots (tm left.now) from.now → IsView spots (tm right.now) to.now
        → IfOk result (IsPlan spots claim.Equal (tm left.now) (tm right.now)) }
{
    match from {
        View::Unknown => Ok(None),
        View::Other => equal_to(alloc, left, right, to),
        View::Call(f) => equal_from(alloc, left, right, f, to),
    }
}

// No symbol heads the left one.
fn equal_to<'a>(
    alloc: Global,
    left: &'a Term,
    right: &'a Term,
    to: &View<'a>,
) -> Result<Option<Plan<'a>>, AllocError>
    ensures { (spots : List (Option Spot)) → is_other_head (head (tm left.now)) ≡ true → IsView spots (tm right.now) to.now
        → IfOk result (IsPlan spots claim.Equal (tm left.now) (tm right.now)) }
{
    match to {
        View::Call(g) => {
            let mut some = Vec::new(alloc);
            pick_right(&mut some, Claim::Equal, left, g)?;
            Ok(Some(Plan { some, all: None }))
        }
        View::Other => Ok(equal_alone(alloc, alone(left), alone(right))),
        View::Unknown => Ok(None),
    }
}

// Two meta-variables without arguments are not equal, unless they are one.
fn equal_alone<'a>(alloc: Global, left: Option<u32>, right: Option<u32>) -> Option<Plan<'a>>
    ensures { (spots : List (Option Spot)) (s t : Tm) → IsAlone s left → IsAlone t right → IsPlan spots claim.Equal s t result }
{
    match (left, right) {
        (Some(left), Some(right)) => {
            if left == right {
                None
            } else {
                let some = Vec::new(alloc);
                Some(Plan { some, all: None })
            }
        }
        _ => None,
    }
}

// A symbol heads the left one.
fn equal_from<'a>(
    alloc: Global,
    left: &'a Term,
    right: &'a Term,
    f: &Call<'a>,
    to: &View<'a>,
) -> Result<Option<Plan<'a>>, AllocError>
    ensures { (spots : List (Option Spot)) → IsCallOf spots (tm left.now) f.now.symbol f.now.first (items_data f.now.items.items)
        → IsView spots (tm right.now) to.now → IfOk result (IsPlan spots claim.Equal (tm left.now) (tm right.now)) }
{
    let mut some = Vec::new(alloc);
    match to {
        View::Unknown => Ok(None),
        View::Other => {
            pick_left(&mut some, Claim::Equal, f, right)?;
            Ok(Some(Plan { some, all: None }))
        }
        View::Call(g) => {
            if f.symbol == g.symbol {
                let all = equal_arguments(alloc, f, g)?;
                return Ok(Some(Plan {
                    some,
                    all: Some(all),
                }));
            }
            pick_left(&mut some, Claim::Equal, f, right)?;
            pick_right(&mut some, Claim::Equal, left, g)?;
            Ok(Some(Plan { some, all: None }))
        }
    }
}

// All arguments of both symbols are equal that the left one keeps or picks.
fn equal_arguments<'a>(alloc: Global, f: &Call<'a>, g: &Call<'a>) -> Result<Whole<'a>, AllocError>
    ensures { IfOk result (IsAllEqual f.now g.now) }
{
    let mut parts = Vec::new(alloc);
    let picked = picked_bit(f)?;
    put_pairs(&mut parts, picked, Claim::Equal, f, g)?;
    Ok(Whole {
        first: 0,
        count: 0,
        parts,
        order: Order::Free,
    })
}

// A tree that is greater.
fn greater<'a>(
    alloc: Global,
    left: &'a Term,
    right: &'a Term,
    from: &View<'a>,
    to: &View<'a>,
) -> Result<Option<Plan<'a>>, AllocError>
    ensures { (spots : List (Option Spot)) → IsView spots (tm left.now) from.now → IsView spots (tm right.now) to.now
        → IfOk result (IsPlan spots claim.Greater (tm left.now) (tm right.now)) }
{
    match from {
        View::Unknown => Ok(None),
        View::Other => greater_to(alloc, left, to),
        View::Call(f) => {
            let mut some = Vec::new(alloc);
            let picked = picked_bit(f)?;
            put_left(&mut some, f.first, picked, Claim::Greater, f, right)?;
            above_from(alloc, some, left, right, f, to)
        }
    }
}

// No symbol heads the left one.
fn greater_to<'a>(
    alloc: Global,
    left: &'a Term,
    to: &View<'a>,
) -> Result<Option<Plan<'a>>, AllocError>
    ensures { (spots : List (Option Spot)) (t : Tm) → is_other_head (head (tm left.now)) ≡ true → IsView spots t to.now
        → IfOk result (IsPlan spots claim.Greater (tm left.now) t) }
{
    match to {
        View::Call(g) => {
            let mut some = Vec::new(alloc);
            pick_right(&mut some, Claim::Greater, left, g)?;
            Ok(Some(Plan { some, all: None }))
        }
        View::Other => match alone(left) {
            Some(_) => {
                let some = Vec::new(alloc);
                Ok(Some(Plan { some, all: None }))
            }
            None => Ok(None),
        },
        View::Unknown => Ok(None),
    }
}

// A tree that is above.
fn above<'a>(
    alloc: Global,
    left: &'a Term,
    right: &'a Term,
    from: &View<'a>,
    to: &View<'a>,
) -> Result<Option<Plan<'a>>, AllocError>
    ensures { (spots : List (Option Spot)) → IsView spots (tm left.now) from.now → IsView spots (tm right.now) to.now
        → IfOk result (IsPlan spots claim.Above (tm left.now) (tm right.now)) }
{
    match from {
        View::Call(f) => {
            let mut some = Vec::new(alloc);
            put_left(&mut some, f.first, f.first, Claim::Greater, f, right)?;
            above_from(alloc, some, left, right, f, to)
        }
        View::Unknown | View::Other => Ok(None),
    }
}

// The plan for the left tree above the right one, where `some` has the parts that an argument on the left is greater.
// These may be met instead.
fn above_from<'a>(
    alloc: Global,
    some: Parts<'a>,
    left: &'a Term,
    right: &'a Term,
    f: &Call<'a>,
    to: &View<'a>,
) -> Result<Option<Plan<'a>>, AllocError>
    ensures { (spots : List (Option Spot)) (z : ℕ)
        → IsCallOf spots (tm left.now) f.now.symbol f.now.first (items_data f.now.items.items)
        → IsView spots (tm right.now) to.now
        → parts_data some.entry.items ≡ left_parts f.now.first z claim.Greater (items_data f.now.items.items) (tm right.now)
        → IfOk result (IsPlanBeside spots (parts_data some.entry.items) (tm left.now) (tm right.now)) }
{
    let mut some = some;
    put_left(&mut some, f.first, f.first, Claim::Equal, f, right)?;
    match to {
        View::Unknown => Ok(None),
        View::Other => match alone(right) {
            Some(_) => Ok(Some(Plan { some, all: None })),
            None => Ok(None),
        },
        View::Call(g) => {
            let all = above_arguments(alloc, left, f, g)?;
            Ok(Some(Plan {
                some,
                all: Some(all),
            }))
        }
    }
}

// The left symbol picks nothing, its tree is above all arguments that the right one keeps, or above the one that it
// picks, and the symbols compare.
fn above_arguments<'a>(
    alloc: Global,
    left: &'a Term,
    f: &Call<'a>,
    g: &Call<'a>,
) -> Result<Whole<'a>, AllocError>
    ensures { IfOk result (IsAllAbove left.now f.now g.now) }
{
    let mut parts = Vec::new(alloc);
    let picked = picked_bit(g)?;
    put_right(&mut parts, g.first, picked, Claim::Above, left, g)?;
    let order = order_of(alloc, left, f, g)?;
    Ok(Whole {
        first: picked_bit(f)?,
        count: counted(f.items.len())?,
        parts,
        order,
    })
}

// How two symbols compare.
fn order_of<'a>(
    alloc: Global,
    left: &'a Term,
    f: &Call<'a>,
    g: &Call<'a>,
) -> Result<Order<'a>, AllocError>
    ensures { IfOk result (IsCompared left.now f.now g.now) }
{
    let mut parts = Vec::new(alloc);
    if f.symbol == g.symbol {
        put_pairs(&mut parts, f.first, Claim::Greater, f, g)?;
        return Ok(Order::Same(parts));
    }
    put_right(&mut parts, g.first, g.first, Claim::PartGreater, left, g)?;
    Ok(Order::Other(Others {
        first: picked_bit(g)?,
        count: counted(g.items.len())?,
        above: order_bit(f, g)?,
        below: order_bit(g, f)?,
        parts,
    }))
}

// An argument that is greater.
fn part_greater<'a>(
    alloc: Global,
    left: &'a Term,
    right: &'a Term,
    from: &View<'a>,
) -> Result<Option<Plan<'a>>, AllocError>
    ensures { (spots : List (Option Spot)) → IsView spots (tm left.now) from.now
        → IfOk result (IsPlan spots claim.PartGreater (tm left.now) (tm right.now)) }
{
    match from {
        View::Call(f) => {
            let mut some = Vec::new(alloc);
            put_left(&mut some, f.first, f.first, Claim::Greater, f, right)?;
            Ok(Some(Plan { some, all: None }))
        }
        View::Unknown | View::Other => Ok(None),
    }
}

// The meta-variable that the tree is, where it has no arguments.
fn alone(t: &Term) -> Option<u32>
    ensures { IsAlone (tm t.now) result }
{
    match t {
        Term::Meta(meta, items) => {
            if items.as_slice().is_empty() {
                Some(*meta)
            } else {
                None
            }
        }
        _ => None,
    }
}

// The first bit for the places that the symbol may pick.
fn picked_bit(f: &Call<'_>) -> Result<u32, AllocError>
    ensures { IfOk result (λ bit. bit ≡ length (items_data f.now.items.items) + f.now.first) }
{
    let count = counted(f.items.len())?;
    sum(count, f.first)
}

// The bit that the precedence of f is at least that of g.
fn order_bit(f: &Call<'_>, g: &Call<'_>) -> Result<u32, AllocError>
    ensures { IfOk result (λ bit. bit ≡ order_bit (length (items_data f.now.items.items)) f.now.first g.now.symbol) }
{
    let count = counted(f.items.len())?;
    let behind = sum(count, picked_bit(f)?)?;
    sum(behind, g.symbol)
}

// The claim for each argument of the symbol, with the bit that it is picked.
fn pick_left<'a>(
    parts: &mut Parts<'a>,
    claim: Claim,
    f: &Call<'a>,
    right: &'a Term,
) -> Result<(), AllocError>
    ensures { OnOk result (parts_data parts.new.items ≡ parts_data parts.old.items
        ++ left_parts (length (items_data f.now.items.items) + f.now.first) (length (items_data f.now.items.items) + f.now.first)
        claim (items_data f.now.items.items) (tm right.now)) }
{
    let picked = picked_bit(f)?;
    put_left(parts, picked, picked, claim, f, right)
}

// Puts the claim for each argument of the symbol on the right, with the bit that it is picked.
fn pick_right<'a>(
    parts: &mut Parts<'a>,
    claim: Claim,
    left: &'a Term,
    g: &Call<'a>,
) -> Result<(), AllocError>
    ensures { OnOk result (parts_data parts.new.items ≡ parts_data parts.old.items
        ++ right_parts (length (items_data g.now.items.items) + g.now.first) (length (items_data g.now.items.items) + g.now.first)
        claim (tm left.now) (items_data g.now.items.items)) }
{
    let picked = picked_bit(g)?;
    put_right(parts, picked, picked, claim, left, g)
}

// Puts the claim for each argument of the symbol at the end, with the bits from these on.
fn put_left<'a>(
    parts: &mut Parts<'a>,
    first: u32,
    second: u32,
    claim: Claim,
    f: &Call<'a>,
    right: &'a Term,
) -> Result<(), AllocError>
    ensures { OnOk result (parts_data parts.new.items ≡ parts_data parts.old.items
        ++ left_parts first second claim (items_data f.now.items.items) (tm right.now)) }
{
    let mut bit = first;
    let mut other = second;
    for place in 0..f.items.len() {
        parts.push(Part {
            bit,
            other,
            claim,
            left: f.items[place],
            right,
        })?;
        bit = sum(bit, 1)?;
        other = sum(other, 1)?;
    }
    Ok(())
}

// Puts the claim for each argument of the symbol on the right, with its two bits.
fn put_right<'a>(
    parts: &mut Parts<'a>,
    first: u32,
    second: u32,
    claim: Claim,
    left: &'a Term,
    g: &Call<'a>,
) -> Result<(), AllocError>
    ensures { OnOk result (parts_data parts.new.items ≡ parts_data parts.old.items
        ++ right_parts first second claim (tm left.now) (items_data g.now.items.items)) }
{
    let mut bit = first;
    let mut other = second;
    for place in 0..g.items.len() {
        parts.push(Part {
            bit,
            other,
            claim,
            left,
            right: g.items[place],
        })?;
        bit = sum(bit, 1)?;
        other = sum(other, 1)?;
    }
    Ok(())
}

// Puts the claim for the arguments of both symbols at the end, member by member, with the bits that the left one keeps
// them, and with those from another one on.
fn put_pairs<'a>(
    parts: &mut Parts<'a>,
    second: u32,
    claim: Claim,
    f: &Call<'a>,
    g: &Call<'a>,
) -> Result<(), AllocError>
    ensures { OnOk result (parts_data parts.new.items ≡ parts_data parts.old.items
        ++ pair_parts f.now.first second claim (items_data f.now.items.items) (items_data g.now.items.items)) }
{
    let mut bit = f.first;
    let mut other = second;
    for place in 0..f.items.len().min(g.items.len()) {
        parts.push(Part {
            bit,
            other,
            claim,
            left: f.items[place],
            right: g.items[place],
        })?;
        bit = sum(bit, 1)?;
        other = sum(other, 1)?;
    }
    Ok(())
}
