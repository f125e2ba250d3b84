//! System texts as tokens, and raw trees: what a text says before its names are looked up.
#![tactic(auto)]

mod cut;
mod laws;
mod name;
mod nesting;
mod print;
mod raw;
mod token;

pub use cut::tokens;
pub use laws::one_cut;
pub use name::Name;
pub use nesting::{opens_in_certificate, opens_in_system};
pub use print::{print_number, print_part, print_raw, print_term};
pub use raw::{RawBinder, RawTerm, RawTerms, RawType, RawTypes};
pub use token::{TextFault, Token, TokenKind, Tokens};
