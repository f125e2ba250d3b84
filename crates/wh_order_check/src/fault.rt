//! The faults of a node of a path order: which condition fails first, and at which symbol, rule or pair.

/// What is wrong first with a node of a path order on a set of pairs, once its names are looked up. Symbols, rules and
/// pairs are told by their numbers.
#[derive(Clone, Copy)]
pub enum OrderingFault {
    /// This filter is the first that is not proper: a place that it keeps or picks is none of its symbol, the places do
    /// not increase, or the place that it picks has a functional type.
    BadFilter {
        /// The symbol.
        symbol: u32,
        /// Whether it is the filter of the marked symbol.
        marked: bool,
    },
    /// There are not as many lines of inferences as rules, or as pairs of the set.
    BadLines,
    /// The list of dropped pairs is empty, has one twice, or one that is not of the set.
    BadDrop,
    /// A side of this rule has too many nodes with all its arguments.
    WideRule {
        /// The rule.
        rule: u32,
    },
    /// A side of this pair has too many nodes with all its arguments.
    WidePair {
        /// The pair.
        pair: u32,
    },
    /// An inference in the line of this rule is bad.
    BadRule {
        /// The rule.
        rule: u32,
        /// The number of the first bad inference, in preorder from 0.
        entry: u32,
    },
    /// An inference in the line of this pair is bad.
    BadPair {
        /// The pair.
        pair: u32,
        /// The number of the first bad inference, in preorder from 0.
        entry: u32,
    },
    /// This pair is dropped, and its line says that its sides are equal.
    NotStrict {
        /// The pair.
        pair: u32,
    },
}
