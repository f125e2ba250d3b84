//! Rows of the calls on terms, steps, ranks and pairs, with answers from outside, and each public call at least once
//! with ample memory.
//!
//! Like wh_test_method, this crate has tests alone: a library with tests of its own would be proved a second time with
//! them. The rows stand in tables, and where it is shorter as texts that the libraries read. What the calls answer is
//! proved; that they answer at all, and that the definitions say what is meant, is what these runs show.
#![tactic(auto)]

#[cfg(test)]
mod asking;
#[cfg(test)]
mod calls;
#[cfg(test)]
mod numbering_rows;
#[cfg(test)]
mod pair_rows;
#[cfg(test)]
mod rank_rows;
#[cfg(test)]
mod reading;
#[cfg(test)]
mod spelling;
#[cfg(test)]
mod stack;
#[cfg(test)]
mod step_rows;
#[cfg(test)]
mod term_rows;
