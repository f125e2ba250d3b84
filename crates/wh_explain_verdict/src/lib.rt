//! What a check says of a certificate, and the words that an explanation begins with for it.
#![tactic(auto)]

mod verdict;

pub use verdict::{Verdict, first_words, verdict_of};
