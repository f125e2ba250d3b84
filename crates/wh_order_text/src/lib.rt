//! Inferences and argument filters of a certificate's lines, read byte by byte and printed.
#![tactic(auto)]

mod filter_reader;
mod inference_reader;
mod laws;
mod printer;

pub use filter_reader::{FilterPlace, FilterStep, FilterText, FilterWord};
pub use inference_reader::{InferencePlace, InferenceStep, InferenceText, OpenInference};
pub use laws::{
    depth_within, entries_short, filter_led, filter_read, inference_led, inference_read,
    no_inference_prefix, one_filter, one_inference,
};
pub use printer::{print_filter, print_inference};
