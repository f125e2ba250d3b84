//! The search for interpretations by climbing from a first guess: `climb` is the main function.
#![tactic(auto)]

mod burdens;
mod climbing;
mod holders;
mod known;
mod search;
mod state;

pub use search::{Climbed, climb};
