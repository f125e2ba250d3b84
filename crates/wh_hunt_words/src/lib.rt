//! The words of the program `wanda_hunt`, and what they ask for. The crate stands on little, so that its clause is proved
//! without the search.
#![tactic(auto)]

mod words;

pub use words::{Hunt, read_hunt};
