//! Systems, as data: their names, what terms are built over, and their rules. Every system is well made.
#![tactic(auto)]

mod names;
mod system;

pub use names::SystemNames;
pub use system::System;
