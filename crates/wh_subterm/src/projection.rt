//! Projections as data: an argument chosen for each marked symbol, and what can be wrong with the choice.

use wh_types::List;

/// The argument that is chosen for a marked symbol.
#[derive(Clone, Copy)]
pub struct Choice {
    /// The number of the symbol.
    pub symbol: u32,
    /// The number of the argument, counted from 1.
    pub argument: u32,
}

/// A list of choices.
pub type Projection = List<Choice>;

/// What is wrong with a projection or with the list of the pairs that it drops.
#[derive(Clone, Copy)]
pub enum SubtermFault {
    /// The choices are not for the marked symbols of the set, each once and in order.
    BadArgs,
    /// The rules of a marked symbol need no argument.
    NoProjection {
        /// The first such symbol.
        symbol: u32,
    },
    /// The number chosen for a marked symbol is none of its arguments.
    BadArgument {
        /// The first such symbol.
        symbol: u32,
    },
    /// The list of dropped pairs is empty, has a number twice, or one that is not in the set.
    BadDrop,
    /// A pair is neither equal nor below, or it is dropped and not below.
    NotDecreasing {
        /// The least such pair.
        pair: u32,
    },
}
