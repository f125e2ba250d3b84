//! Rows of the searches and of the calls on pairs by numbers, over systems that are read from texts: what one formula
//! for a flat set of one pair comes to, and what the search for a path order; the search for projections, their check,
//! and the values of sides, by numbers.
//!
//! This crate has tests alone: a library with tests of its own would be proved a second time with them.
#![tactic(auto)]

#[cfg(test)]
mod polynomial_rows;
#[cfg(test)]
mod polynomials;
#[cfg(test)]
mod problem;
#[cfg(test)]
mod projection_rows;
#[cfg(test)]
mod readings;
#[cfg(test)]
mod search_rows;
#[cfg(test)]
mod set_rows;
