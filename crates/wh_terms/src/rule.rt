//! Signatures, which terms are built over, declarations of meta-variables, and rewrite rules.

use crate::lists::Types;
use crate::term::Term;
use wh_types::{List, SimpleType};

/// The sorts, told by how many there are, and the types of the symbols in order.
#[derive(Drop)]
pub struct Signature {
    /// How many sorts there are.
    pub sorts: u32,
    /// The type of each symbol, by its number.
    pub funs: Types,
}

/// A declared meta-variable.
#[derive(Drop)]
pub struct MetaDecl {
    /// The types of its arguments.
    pub args: Types,
    /// The type of its applications, which may be functional.
    pub result: SimpleType,
}

/// The meta-variables of a rule, by number.
pub type Metas = List<MetaDecl>;

/// A rewrite rule over its meta-variables.
#[derive(Drop)]
pub struct Rule {
    /// The meta-variables, by number.
    pub metas: Metas,
    /// The left side.
    pub left: Term,
    /// The right side.
    pub right: Term,
}
