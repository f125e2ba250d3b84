//! What interpretations mean: polynomials as weakly monotone functionals, and the laws of their values, each the
//! contract of a function that does nothing.
#![tactic(auto)]

mod calls;
mod covering;
mod pairs;
mod terms;
mod values;

pub use calls::{
    covered_pairs_do_not_raise_calls, steps_do_not_raise_calls, strictly_covered_pairs_lower_calls,
};
pub use covering::{covers_mean_at_least, strict_covers_mean_greater};
pub use pairs::{
    coverings_keep_that_calls_end, covers_keep_that_calls_end, marked_sides_have_normal_forms,
    pairs_have_marked_sides,
};
pub use terms::{
    beta_keeps_values, covered_steps_do_not_raise_values, sides_have_normal_forms,
    sides_mean_their_polynomials, values_are_monotone,
};
pub use values::{at_least_means_at_least, values_mean_the_same};
