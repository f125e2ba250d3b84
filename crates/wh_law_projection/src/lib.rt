//! Laws of the subterm criterion, in the terms of the longest sequence of steps and direct subterms from a call's
//! projected argument. Each is the contract of a function that does nothing, and no program stands on them.
#![tactic(auto)]

mod lengths;

pub use lengths::{
    below_lowers_the_longest_sequence, equal_keeps_the_longest_sequence,
    projected_lengths_are_unique, steps_do_not_raise_the_longest_sequence,
};
