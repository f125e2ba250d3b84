//! Loops: the terms that the search for them begins at, instances of these, and the certificate of a loop.
#![tactic(auto)]

mod certify;
mod entries;
mod instance;
mod meets;
mod start;
mod unused;

pub use certify::certificate_of;
pub use instance::{Instance, find_instance};
pub use start::start_of_rule;
