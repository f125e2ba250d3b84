//! Laws of measures: each node of a termination proof gives a call a list of numbers that no step raises and that the
//! pairs of the node's set lower. Each is the contract of a function that does nothing, and no program stands on them.
#![tactic(auto)]

mod measures;

pub use measures::{
    computable_arguments_are_bounded, measures_have_short_lists, nodes_measure_calls,
    nodes_of_valid_certificates_measure_calls, reaching_is_decided, short_lists_end,
};
