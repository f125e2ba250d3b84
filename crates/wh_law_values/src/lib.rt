//! Laws of the values of terms and of calls where an interpretation covers only listed rules. Each is the contract of a
//! function that does nothing, and no program stands on them.
#![tactic(auto)]

mod values;

pub use values::{
    bounded_calls_have_numbers, bounded_terms_have_values, pairs_do_not_raise_numbers,
    steps_do_not_raise_numbers, strict_pairs_lower_numbers, values_are_least_bounds,
};
