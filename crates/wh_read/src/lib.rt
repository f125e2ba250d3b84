//! Reading system texts: `read_system` turns bytes into a system, or says why they are none.
#![tactic(auto)]

mod declarations;
mod fault;
mod laws;
mod lexeme;
mod parsing;
mod place;
mod read;
mod reasons;
mod terms;
mod types;

pub use fault::SyntaxFault;
pub use laws::{one_reading, one_refusal, read_or_refused, systems_read_are_well_made};
pub use parsing::parse;
pub use read::read_system;
pub use reasons::{Reason, Refused};
