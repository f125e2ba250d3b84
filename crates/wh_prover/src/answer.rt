//! The bounds of the search for a proof, and its answers.

use wh_access::NoRanks;
use wh_cert::Certificate;
use wh_find_loop::Visits;
use wh_pairs::PairSet;
use wh_sat_trail::Clauses;

/// What bounds the search.
#[derive(Clone, Copy)]
pub struct Options {
    /// How many clauses a finder may make for one set.
    pub tries: u64,
    /// How many steps a loop may have.
    pub depth: u32,
    /// How many terms the search for loops may keep.
    pub visited: u32,
}

/// The answer of the search.
#[derive(Drop)]
pub enum Answer {
    /// Every well-typed term is bounded: a valid certificate of it, which the check accepts.
    Yes(Certificate),
    /// Some term has reductions of every length: a certificate of it, which the check accepts.
    No(Certificate),
    /// The search gave up.
    Maybe(Cause),
}

/// Why the search gave up. It says nothing of whether every well-typed term is bounded.
#[derive(Drop)]
pub enum Cause {
    /// The system is passing under no ranks.
    NoRanks(NoRanks),
    /// The search came to this set, of which the graph settles nothing, and no projection, no interpretation that covers
    /// all rules and no path order of the spaces lets a pair go. Interpretations that cover a shorter list were looked
    /// for over the least closed list alone: there was no such list, or it is longer than 40 less the pairs of the set,
    /// or the set is not flat with it; none of the space lets a pair go; or that search was given up with a number of
    /// clauses that grows with `tries`, so that more of them can help. There is no loop of at most `depth` steps in the
    /// space, and fewer terms are reached than may be kept.
    Stuck(PairSet),
    /// A finder ended on a set without an answer.
    Spent {
        /// Which finder it is.
        finder: Finder,
        /// The set.
        set: PairSet,
        /// The clauses that the finder made, as many as it may.
        list: Clauses,
    },
    /// As `Stuck` for some set, but the search for loops kept as many terms as it may, which are shown.
    Full(Visits),
}

/// A finder: a search for a way to let pairs of a set go.
#[derive(Clone, Copy)]
pub enum Finder {
    /// The search for a projection to arguments.
    Subterm,
    /// The search for interpretations.
    Poly,
    /// The search for path orders.
    Order,
}
