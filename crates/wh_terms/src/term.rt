//! Terms and meta-terms as data. Bound variables are numbers that count binders outward, so no names have to be kept
//! apart.

use wh_types::{List, SimpleType};

/// A term or meta-term.
#[derive(Drop)]
pub enum Term {
    /// A bound variable; its number counts the binders around it, outward from 0.
    Bound(u32),
    /// A free variable, told apart by its number and its type.
    Free(u32, SimpleType),
    /// A symbol by its number.
    Fun(u32),
    /// A meta-variable by its number, with its arguments.
    Meta(u32, Terms),
    /// An abstraction over a variable of the type, with its body.
    Lam(SimpleType, Box<Term>),
    /// An application of a function to one argument.
    App(Box<Term>, Box<Term>),
}

/// A list of terms.
pub type Terms = List<Term>;
