//! Orders by a circuit over the bits that write them. `orders_by_circuit` is the main function.

ghost use Rattle.std.specs.Prelude.{◌≡◌, IfOk};
ghost use Rattle.wh_pairs.specs.Marked.{AreMarked};
ghost use Rattle.wh_reduction_pairs.specs.TaskView.{task_data};
ghost use Rattle.wh_poly_guesses.specs.Coefficients.{scopes_of};
ghost use Rattle.wh_order_space.specs.Circuited.{IsCircuited};
ghost use Rattle.wh_order_space.specs.Spotted.{types_in};

use crate::firsts::first_bits;
use crate::guess::guess_by;
use crate::sides::demand_of_set;
use crate::spots::spots_of;
use std::alloc::{AllocError, Global};
use wh_order_meeting::{Meeting, meet};
use wh_reduction_pairs::Task;
use wh_types::{SimpleType, counted, sum};

/// What a circuit tells of the orders for a set.
#[derive(Drop)]
pub enum Circuited {
    /// No order that is tried lets a pair of the set go.
    Nothing,
    /// Values of the bits of orders that are worth trying first; nothing is promised of them.
    First(Vec<bool>),
    /// The circuit tells nothing.
    Open,
}

/// Whether some order lets a pair of the set go, as far as a circuit over the bits of orders tells (Codish, Giesl,
/// Schneider-Kamp and Thiemann 2012 for first-order terms; the demands on terms under binders are ours).
///
/// `scopes` has the types of the arguments of all symbols, and then of the marked ones; a precedence has
/// `precedence_bits` bits. What is demanded of the bits is met wherever they write an order that lets a pair go; so
/// `Nothing` comes only where none does.
pub fn orders_by_circuit<'a>(
    alloc: Global,
    task: &Task<'a>,
    marked: &[u32],
    scopes: &[Vec<SimpleType>],
    precedence_bits: usize,
    budget: u64,
) -> Result<Circuited, AllocError>
    requires marked { AreMarked (task_data task.now).pairs (task_data task.now).set marked.now }
    requires scopes { types_in scopes.now ≡ scopes_of (task_data task.now) marked.now }
    ensures { IfOk result (IsCircuited (task_data task.now)) }
{
    let symbols = task.system.signature().funs.as_slice().len();
    let width = counted(symbols)?;
    let first_bits = first_bits(alloc, scopes, sum(width, width)?)?;
    let spots = spots_of(alloc, symbols, marked, scopes, &first_bits)?;
    let demand = demand_of_set(alloc, task, &spots)?;
    let count = last_of(&first_bits);
    match meet(alloc, &demand, count, budget)? {
        Meeting::Never => Ok(Circuited::Nothing),
        Meeting::Bits(values) => {
            let first = guess_by(alloc, &values, &spots, precedence_bits)?;
            Ok(Circuited::First(first))
        }
        Meeting::Open => Ok(Circuited::Open),
    }
}

// The last of the numbers, or 0.
fn last_of(numbers: &[u32]) -> u32 {
    match numbers.last() {
        Some(number) => *number,
        None => 0,
    }
}
