//! Filtered trees as data: terms behind argument filterings, where all sorts are one. The check of a path order
//! compares them.

use wh_types::{List, SimpleType};

/// A tree behind argument filters. Each sort in its types is `Sort(0)`.
#[derive(Drop)]
pub enum Tree {
    /// A bound variable; its number counts the binders around it, outward from 0.
    Bound(u32),
    /// A free variable, told apart by its number and its type.
    Free(u32, SimpleType),
    /// A meta-variable by its number, with the type of its applications and its arguments.
    Meta(u32, SimpleType, Trees),
    /// A symbol by its number, with the arguments that its filter keeps.
    Sym(u32, Trees),
    /// The marked symbol of the symbol with the number, with the arguments that its filter keeps.
    Mark(u32, Trees),
    /// An abstraction over a variable of the type, with its body.
    Lam(SimpleType, Box<Tree>),
    /// A tree that is no symbol and no application, with its arguments, of which there is one at least.
    Apply(Box<Tree>, Trees),
}

/// A list of filtered trees.
pub type Trees = List<Tree>;
