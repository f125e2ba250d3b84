//! The trail: a formula, and an assignment that grows by decisions and propagation. Every clause with
//! two literals that are not false watches two of them, and is looked at only where one of these
//! becomes false; the clauses without two are looked at each time, but for those that have become true
//! before the first level.

mod adding;
mod levels;
mod queue;
mod visiting;

ghost use Rattle.std.specs.Prelude.{◌≡◌, ◌*◌, length, vec_len};
ghost use Rattle.wh_sat_trail.specs.Propagation.{Within};
ghost use Rattle.wh_sat_trail.specs.Settled.{Settled, ground_of};
ghost use Rattle.wh_sat_trail.specs.Watch.{Guarded, Ordered};

use crate::assignment::Assignment;
use crate::formula::Formula;
use crate::watch::{Pair, Places, Stop, Watchers};

/// A formula and a part of an assignment to its variables, by levels: each begins with a decision,
/// and goes on with what the clauses force.
#[derive(Drop)]
pub struct Trail {
    formula: Formula,
    assignment: Assignment,
    stops: Vec<Stop>,
    head: usize,
    lists: Vec<Watchers>,
    pairs: Vec<Pair>,
    places: Places,
    short: Vec<usize>,
    settled: usize,
    ghost width: { vec_len assignment.values ≡ formula.variables },
    ghost within: { Within formula.variables formula.clauses },
    ghost coded: { vec_len lists ≡ 2 * formula.variables },
    ghost paired: { vec_len pairs ≡ length formula.clauses },
    ghost ordered: { Ordered stops.items head (length assignment.literals.items) },
    ghost guarded: { Guarded formula.clauses assignment.literals.items stops.items head lists.items pairs.items short.items },
    ghost settling: { Settled formula.clauses (ground_of stops.items assignment.literals.items) short.items settled },
}
