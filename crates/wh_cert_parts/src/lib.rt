//! Types, terms and polynomials of a certificate's lines, read byte by byte by machines that hold a stack.
#![tactic(auto)]

mod poly_reader;
mod raw;
mod term_reader;
mod type_reader;

pub use poly_reader::{Part, PolyFrame, PolyPlace, PolyStep, PolyText};
pub use term_reader::{Frame, TermPlace, TermStep, TypeText, Typed, term_step};
pub use type_reader::{TypePlace, TypeStep, type_step};
