//! Reports: the answers of a run in one line, with names in place of the numbers of sorts, symbols and meta-variables.
//! Certificates and systems that are shown are no reports.

use crate::names::Names;
use wh_text::Name;
use wh_types::Numbers;

/// An answer of one line.
#[derive(Drop)]
pub enum Report {
    /// The certificate is a proof of termination.
    Yes,
    /// The certificate is a proof of non-termination.
    No,
    /// The certificate is rejected.
    Rejected(NamedRejection),
    /// No certificate was found.
    Maybe(NamedCause),
    /// The system is refused: the reason, and the byte where it stands.
    Refused(ReasonWord, u32),
    /// The words are none of the program's.
    BadWords,
    /// A file could not be read.
    ReadFault(Role),
    /// There was no memory.
    OutOfMemory,
    /// A file, or the output, is longer than its limit.
    TooLong(Role),
    /// A coefficient is above 2^128 - 1 in the evaluation of a side in the node with this number.
    Overflow(u32),
    /// A value is too large in the evaluation of a side in the node with this number.
    TooLarge(u32),
}

/// A file, or the output.
#[derive(Clone, Copy)]
pub enum Role {
    /// The system file.
    System,
    /// The certificate file.
    Certificate,
    /// The certificate that would be written.
    Output,
}

/// Why no certificate was found.
#[derive(Drop)]
pub enum NamedCause {
    /// The demands on the ranks of these sorts make a cycle.
    Sorts(Names),
    /// This meta-variable of the rule is not read.
    Meta {
        /// The rule.
        rule: u32,
        /// The meta-variable.
        name: Name,
    },
    /// Nothing lets a pair of this set go.
    Stuck(Numbers),
    /// A finder gave up.
    Spent {
        /// Which finder it is.
        by: NamedFinder,
        /// How many clauses or terms it listed.
        count: u64,
    },
}

/// A finder.
#[derive(Clone, Copy)]
pub enum NamedFinder {
    /// The search for projections.
    Subterm,
    /// The search for interpretations.
    Poly,
    /// The search for path orders.
    Order,
    /// The search for loops.
    Loop,
}

/// Why a system is refused: its bytes are no system text, the system is not well made, or it has too many dependency
/// pairs.
#[derive(Clone, Copy)]
pub enum ReasonWord {
    /// A byte can't stand there.
    BadByte,
    /// A number begins with a superfluous 0, or is above 65,535.
    BadNumber,
    /// A name has more than 64 bytes.
    NameTooLong,
    /// A token can't stand there, or the text ends too early.
    Syntax,
    /// A sort, a variable, a meta-variable or a symbol with this name was not declared.
    UnknownName,
    /// A sort, a symbol or a meta-variable of a rule is declared again, or a meta-variable has the name of a symbol.
    Twice,
    /// An argument does not have the type that is wanted, or the sides of a rule have different types.
    IllTyped,
    /// A part of a left side is no pattern.
    NotPattern,
    /// A side has a free variable.
    OpenSide,
    /// A right side has a meta-variable that its left side does not have.
    NewMeta,
    /// The head of a left side is no symbol.
    HeadNotFun,
    /// Rules of one symbol have left sides with different numbers of arguments.
    UnevenRules,
    /// There is more of something than a system may have, or a side of a rule is too high or too large.
    TooMany,
    /// There are more than 4,096 dependency pairs.
    TooManyPairs,
}

/// Why a certificate is rejected: its bytes are no certificate text, or the first condition of a valid certificate that
/// is false. Nodes are counted from 0, each before its children; so are rules, pairs, steps and lines, and the moves,
/// monomials and inferences of a line.
#[derive(Drop)]
pub enum NamedRejection {
    /// The bytes are no certificate text, and no such text begins with more of them than this.
    Syntax {
        at: u64,
    },
    /// There is not one rank for each sort.
    RankCount,
    /// The system is not passing under the ranks: this meta-variable of this rule is not read on a way of accessible
    /// places.
    Inaccessible {
        rule: u32,
        meta: Name,
    },
    /// There are this many pairs, and the certificate states another number.
    PairCount {
        pairs: u32,
    },
    /// The set of a node `done` has a pair.
    NotEmpty {
        node: u32,
    },
    /// The set of a node `alone` has not one pair.
    NotOne {
        node: u32,
    },
    /// The pair of a node `alone` may follow itself.
    Loops {
        node: u32,
        pair: u32,
    },
    /// There are fewer than two blocks, or an empty one.
    FewBlocks {
        node: u32,
    },
    /// The blocks do not have this pair just once, or have it and the set does not.
    NotPartition {
        node: u32,
        pair: u32,
    },
    /// The pair `a` of a later block may be followed by the pair `b` of an earlier one.
    BackEdge {
        node: u32,
        a: u32,
        b: u32,
    },
    /// The lines `arg` are not for the marked symbols of the set, each once and in order.
    BadArgs {
        node: u32,
    },
    /// The rules of this symbol need no argument.
    NoProjection {
        node: u32,
        symbol: Name,
    },
    /// The number chosen for this symbol is none of the arguments that its rules need.
    BadArgument {
        node: u32,
        symbol: Name,
    },
    /// The list of dropped pairs is empty, has one twice, or one that is not of the set.
    BadDrop {
        node: u32,
    },
    /// This pair is neither equal nor below, or it is dropped and not below.
    NotDecreasing {
        node: u32,
        pair: u32,
    },
    /// The list of the rules that are to be covered has a number that is not above the one before, or that is no rule.
    BadUsable {
        node: u32,
    },
    /// The lines `fun` are not for the symbols of the system in order, or the lines `mark` not for the marked symbols
    /// of the set.
    BadSymbols {
        node: u32,
    },
    /// The interpretation of this symbol, as it stands or marked, is not normal in its scope.
    BadPolynomial {
        node: u32,
        symbol: Name,
        marked: bool,
    },
    /// There is not one line `rule` for each rule that is to be covered, or not one line `pair` for each pair of the
    /// set.
    BadLines {
        node: u32,
    },
    /// Not all rules are listed, and this listed rule is not first-order, or its right side has a symbol not all whose
    /// rules are listed.
    NotClosedRule {
        node: u32,
        rule: u32,
    },
    /// Not all rules are listed, and this pair of the set is not first-order, or its right side has a symbol not all
    /// whose rules are listed.
    NotClosedPair {
        node: u32,
        pair: u32,
    },
    /// This move of the rule's line is not good: a monomial is not there, or the left one is not of the right one's
    /// kind.
    BadMoveRule {
        node: u32,
        rule: u32,
        entry: u32,
    },
    /// The moves of the rule take more from this monomial of its left side than its coefficient.
    OverSpentRule {
        node: u32,
        rule: u32,
        monomial: u32,
    },
    /// The moves of the rule bring less to this monomial of its right side than its coefficient.
    NotCoveredRule {
        node: u32,
        rule: u32,
        monomial: u32,
    },
    /// This move of the pair's line is not good: a monomial is not there, or the left one is not of the right one's
    /// kind.
    BadMovePair {
        node: u32,
        pair: u32,
        entry: u32,
    },
    /// The moves of the pair take more from this monomial of its left side than its coefficient.
    OverSpentPair {
        node: u32,
        pair: u32,
        monomial: u32,
    },
    /// The moves of the pair bring less to this monomial of its right side than its coefficient.
    NotCoveredPair {
        node: u32,
        pair: u32,
        monomial: u32,
    },
    /// The filter of this symbol, as it stands or marked, is not proper.
    BadFilter {
        node: u32,
        symbol: Name,
        marked: bool,
    },
    /// A side of this rule has more than 65,536 nodes once it has all its arguments.
    TooWideRule {
        node: u32,
        rule: u32,
    },
    /// A side of this pair has more than 65,536 nodes once it has all its arguments.
    TooWidePair {
        node: u32,
        pair: u32,
    },
    /// This inference of the rule's line is the first that is bad, counted in preorder from 0.
    BadInferenceRule {
        node: u32,
        rule: u32,
        entry: u32,
    },
    /// This inference of the pair's line is the first that is bad, counted in preorder from 0.
    BadInferencePair {
        node: u32,
        pair: u32,
        entry: u32,
    },
    /// This pair is dropped, and its moves leave nothing of the constant of its left side, or its inference is that of
    /// equal trees.
    NotStrict {
        node: u32,
        pair: u32,
    },
    /// The names do not stand for a well-typed term that fits.
    NotATerm,
    /// There is no step.
    NoStep,
    /// This step is the first that does not apply.
    StepFails {
        index: u32,
    },
    /// The result of this step is the first that does not fit.
    TooBig {
        index: u32,
    },
    /// This line of a term that is put for a variable is the first that is not right.
    BadPut {
        index: u32,
    },
    /// The last term has no such position, or the part that stands there is not the instance.
    NoInstance,
}
