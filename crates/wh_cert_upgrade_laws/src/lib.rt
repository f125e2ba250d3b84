//! Laws of upgraded certificates: they are as valid and as small as those of version 1 that they are made of.
#![tactic(auto)]

mod laws;

pub use laws::{upgraded_certificates_are_as_small, upgraded_certificates_are_as_valid};
