//! The canonical text of a system, which reads back as that system, and the text of its dependency pairs. It stands
//! apart from systems and pairs: one walk prints the terms of both, and the law that the text reads back needs the
//! reader.
#![tactic(auto)]

mod declarations;
mod laws;
mod names;
mod pairs;
mod rules;
mod system;
mod terms;
mod types;

pub use laws::{canonical_texts_are_read_back, printed_systems_are_read_back};
pub use pairs::print_pairs;
pub use system::print_system;
