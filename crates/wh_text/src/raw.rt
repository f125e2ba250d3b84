//! Raw trees: types and terms as a text writes them, before their names are looked up. Readers make them, and `print`
//! spells them.

use crate::name::Name;
use wh_types::List;

/// A type as it is written: its arguments, and the sort that it gives.
#[derive(Drop)]
pub struct RawType {
    /// The types of the arguments, in order.
    pub args: RawTypes,
    /// The name of the sort.
    pub sort: Name,
    /// The offset of the sort's name, in bytes; 0 in a certificate.
    pub at: u32,
}

/// A list of types.
pub type RawTypes = List<RawType>;

/// The binder of an abstraction.
#[derive(Drop)]
pub enum RawBinder {
    /// A name.
    Named(Name),
    /// `$` with a number.
    Numbered(u32),
}

/// A term as it is written. The last number of each variant is the offset where it stands, in bytes; 0 in a
/// certificate.
#[derive(Drop)]
pub enum RawTerm {
    /// A plain name.
    Named(Name, u32),
    /// `$` with a number.
    Numbered(u32, u32),
    /// `%` with a number, and its type.
    Free(u32, Box<RawType>, u32),
    /// A name with arguments in brackets.
    Meta(Name, RawTerms, u32),
    /// An abstraction: its binder, the type of the binder's variable, and the body.
    Lam(RawBinder, Box<RawType>, Box<RawTerm>, u32),
    /// A head with one or more arguments; the head is no spine.
    Spine(Box<RawTerm>, RawTerms, u32),
}

/// A list of terms.
pub type RawTerms = List<RawTerm>;
