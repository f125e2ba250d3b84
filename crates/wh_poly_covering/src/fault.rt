//! The faults of a node of interpretations: which condition fails first, and at which symbol, rule or pair.

use wh_poly::Excess;
use wh_polycheck::CoverFault;
use wh_usable::NotClosed;

/// What is wrong first with a node of interpretations on a set of pairs, once its names are looked up. Symbols, rules
/// and pairs are told by their numbers.
#[derive(Clone, Copy)]
pub enum CoveringFault {
    /// This interpretation is the first that is not normal in its scope.
    BadPolynomial {
        /// The symbol.
        symbol: u32,
        /// Whether it is the interpretation of the marked symbol.
        marked: bool,
    },
    /// There are not as many lines of moves as rules, or as pairs of the set.
    BadLines,
    /// The list of dropped pairs is empty, has one twice, or one that is not of the set.
    BadDrop,
    /// The rules that are to be covered are not closed for the set.
    NotClosed(NotClosed),
    /// What is wrong with the line of this rule.
    Rule {
        /// The rule.
        rule: u32,
        /// What is wrong with the line.
        fault: LineFault,
    },
    /// What is wrong with the line of this pair.
    Pair {
        /// The pair.
        pair: u32,
        /// What is wrong with the line.
        fault: LineFault,
    },
}

/// What is wrong first with a line of moves between two sides.
#[derive(Clone, Copy)]
pub enum LineFault {
    /// A value in the evaluation of a side exceeds this limit.
    Exceeds(Excess),
    /// The moves do not cover, or not strictly, though the pair is dropped.
    Cover(CoverFault),
}
