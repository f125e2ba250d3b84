//! The search for moves that show that one polynomial is at least another: a maximum flow between their monomials. It
//! stands apart from the checks of moves in wh_polycheck, since the check of a certificate needs no search.
#![tactic(auto)]

mod finding;
mod flow;
mod growing;
mod search;

pub use finding::{deficit, find_moves};
