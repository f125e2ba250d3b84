//! What every crate of wanda stands on: simple types, ranks, the lists of bytes and numbers, and
//! the one error that tells want of memory from a cause.
#![tactic(auto)]

mod list;
mod numbers;
mod ranks;
mod simple_type;
mod want;

pub use list::List;
pub use numbers::{counted, is_in, sum};
pub use ranks::Ranks;
pub use simple_type::{SimpleType, same_type};
pub use want::Or;

/// A list of numbers: of pairs, of sorts, of places.
pub type Numbers = List<u32>;
/// A list of bytes: the text of a file, of an answer or of a certificate.
pub type Bytes = List<u8>;
/// A list of blocks, each a list of numbers.
pub type Blocks = List<Numbers>;
