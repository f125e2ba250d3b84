//! Rejections: why the check refuses a certificate. The program prints each as a word and numbers.

ghost use Rattle.std.specs.Prelude.{◌≡◌};
ghost use Rattle.wh_checker.specs.Faults.{at_covering, at_node, at_open, at_ordering, at_pair, at_rule, in_excess, of_claim};
ghost use Rattle.wh_checker.specs.declared.rejected.NodeFault.TheVariants.{Blocks, Subterm};
ghost use Rattle.wh_poly_covering.specs.declared.fault.CoveringFault.TheVariants.{Pair, Rule};

use wh_graph::BlockFault;
use wh_no::NoFault;
use wh_order_check::OrderingFault;
use wh_poly::Excess;
use wh_poly_covering::{CoveringFault, LineFault};
use wh_polycheck::CoverFault;
use wh_subterm::SubtermFault;
use wh_usable::NotClosed;

/// What is wrong with a node of a YES certificate.
#[derive(Clone, Copy)]
pub enum NodeFault {
    /// The set of a node `done` has a pair.
    NotEmpty,
    /// The set of a node `alone` has not one pair.
    NotOne,
    /// The pair of a node `alone` may follow itself.
    Loops {
        /// The pair.
        pair: u32,
    },
    /// The fault of a node `blocks`.
    Blocks(BlockFault),
    /// The fault of a node `subterm`.
    Subterm(SubtermFault),
    /// The list of a node `poly` is not one of rules, each above the one before.
    BadUsable,
    /// The lines of a node `poly` or `order` are not for all symbols of the system and for the marked symbols of the
    /// set, in order.
    BadSymbols,
    /// What else is wrong with a node `poly`.
    Poly(CoveringFault),
    /// What else is wrong with a node `order`.
    Order(OrderingFault),
}

/// The first condition of a valid certificate that is false. Nodes are counted from 0, each before its children; so are
/// rules, meta-variables, symbols, pairs, steps and lines.
#[derive(Clone, Copy)]
pub enum Rejected {
    /// There is not one rank for each sort.
    RankCount,
    /// The system is not passing under the ranks: this meta-variable of this rule is not read on a way of accessible
    /// places.
    Inaccessible {
        rule: u32,
        meta: u32,
    },
    /// There are this many pairs.
    PairCount {
        pairs: u32,
    },
    /// The set of a node `done` has a pair.
    NotEmpty {
        node: u32,
    },
    /// The set of a node `alone` has not one pair.
    NotOne {
        node: u32,
    },
    /// The pair of a node `alone` may follow itself.
    Loops {
        node: u32,
        pair: u32,
    },
    /// There are fewer than two blocks, or an empty one.
    FewBlocks {
        node: u32,
    },
    /// The blocks do not have this pair just once, or have it and the set does not.
    NotPartition {
        node: u32,
        pair: u32,
    },
    /// The pair `a` of a later block may be followed by the pair `b` of an earlier one.
    BackEdge {
        node: u32,
        a: u32,
        b: u32,
    },
    /// The lines `arg` are not for the marked symbols of the set, each once and in order.
    BadArgs {
        node: u32,
    },
    /// The rules of this symbol need no argument.
    NoProjection {
        node: u32,
        symbol: u32,
    },
    /// The number chosen for this symbol is none of the arguments that its rules need.
    BadArgument {
        node: u32,
        symbol: u32,
    },
    /// The list of dropped pairs is empty, has one twice, or one that is not of the set.
    BadDrop {
        node: u32,
    },
    /// This pair is neither equal nor below, or it is dropped and not below.
    NotDecreasing {
        node: u32,
        pair: u32,
    },
    /// The list of the rules that are to be covered is not one of rules, each above the one before.
    BadUsable {
        node: u32,
    },
    /// The lines `fun` are not for the symbols of the system, or the lines `mark` not for the marked symbols of the
    /// set, in order.
    BadSymbols {
        node: u32,
    },
    /// The polynomial of this symbol, or of its marked symbol, is the first that is not normal in its scope.
    BadPolynomial {
        node: u32,
        symbol: u32,
        marked: bool,
    },
    /// There are not as many lines `rule` as rules that are to be covered, or not as many lines `pair` as pairs of the
    /// set.
    BadLines {
        node: u32,
    },
    /// Not all rules are to be covered, and this is the first of them that is not first-order, or calls a rule that is
    /// not one of them.
    NotClosedRule {
        node: u32,
        rule: u32,
    },
    /// Not all rules are to be covered, and this is the first pair of the set that is not first-order, or calls a rule
    /// that is not one of them.
    NotClosedPair {
        node: u32,
        pair: u32,
    },
    /// This move for this rule is the first that is not between monomials that fit.
    BadMoveRule {
        node: u32,
        rule: u32,
        entry: u32,
    },
    /// The moves for this rule take more from this left monomial than its coefficient.
    OverSpentRule {
        node: u32,
        rule: u32,
        monomial: u32,
    },
    /// The moves for this rule bring less to this right monomial than its coefficient.
    NotCoveredRule {
        node: u32,
        rule: u32,
        monomial: u32,
    },
    /// This move for this pair is the first that is not between monomials that fit.
    BadMovePair {
        node: u32,
        pair: u32,
        entry: u32,
    },
    /// The moves for this pair take more from this left monomial than its coefficient.
    OverSpentPair {
        node: u32,
        pair: u32,
        monomial: u32,
    },
    /// The moves for this pair bring less to this right monomial than its coefficient.
    NotCoveredPair {
        node: u32,
        pair: u32,
        monomial: u32,
    },
    /// The filter of this symbol, or of its marked symbol, is the first that is not proper.
    BadFilter {
        node: u32,
        symbol: u32,
        marked: bool,
    },
    /// A side of this rule has too many nodes once it has all its arguments.
    TooWideRule {
        node: u32,
        rule: u32,
    },
    /// A side of this pair has too many nodes once it has all its arguments.
    TooWidePair {
        node: u32,
        pair: u32,
    },
    /// This inference in the line of this rule, in preorder from 0, is the first that is bad.
    BadInferenceRule {
        node: u32,
        rule: u32,
        entry: u32,
    },
    /// This inference in the line of this pair, in preorder from 0, is the first that is bad.
    BadInferencePair {
        node: u32,
        pair: u32,
        entry: u32,
    },
    /// This pair is dropped, but not shown to shrink: its left side has no constant, or the moves leave none of it, or
    /// its inference is that of equal trees.
    NotStrict {
        node: u32,
        pair: u32,
    },
    /// The names do not stand for a well-typed term that fits.
    NotATerm,
    /// There is no step.
    NoStep,
    /// This step is the first that does not apply.
    StepFails {
        index: u32,
    },
    /// The result of this step is the first that does not fit.
    TooBig {
        index: u32,
    },
    /// This line of a term that is put for a variable is the first that is not right.
    BadPut {
        index: u32,
    },
    /// The last term has no such position, or the part that stands there is not the instance.
    NoInstance,
}

/// Why a certificate is not accepted.
#[derive(Clone, Copy)]
pub enum CheckFault {
    /// This condition is the first that is false, and no value exceeds a limit before it.
    Rejected(Rejected),
    /// A coefficient is above 2^128 - 1 in the evaluation of a side in this node; all conditions before that hold.
    Overflow {
        /// The number of the node.
        node: u32,
    },
    /// A value is too large in the evaluation of a side in this node; all conditions before that hold.
    TooLarge {
        /// The number of the node.
        node: u32,
    },
}

impl NodeFault {
    /// The fault of the node of that number.
    pub fn at_node(self, node: u32) -> CheckFault
        ensures { result ≡ at_node node self }
    {
        match self {
            NodeFault::NotEmpty => CheckFault::Rejected(Rejected::NotEmpty { node }),
            NodeFault::NotOne => CheckFault::Rejected(Rejected::NotOne { node }),
            NodeFault::Loops { pair } => CheckFault::Rejected(Rejected::Loops { node, pair }),
            NodeFault::Blocks(fault) => in_blocks(node, fault),
            NodeFault::Subterm(fault) => in_subterm(node, fault),
            NodeFault::BadUsable => CheckFault::Rejected(Rejected::BadUsable { node }),
            NodeFault::BadSymbols => CheckFault::Rejected(Rejected::BadSymbols { node }),
            NodeFault::Poly(fault) => at_covering(node, fault),
            NodeFault::Order(fault) => CheckFault::Rejected(at_ordering(node, fault)),
        }
    }
}

// The fault of the node `blocks` of that number.
fn in_blocks(node: u32, fault: BlockFault) -> CheckFault
    ensures { result ≡ at_node node (Blocks fault) }
{
    let row = match fault {
        BlockFault::FewBlocks => Rejected::FewBlocks { node },
        BlockFault::NotPartition { pair } => Rejected::NotPartition { node, pair },
        BlockFault::BackEdge { a, b } => Rejected::BackEdge { node, a, b },
    };
    CheckFault::Rejected(row)
}

// The fault of the node `subterm` of that number.
fn in_subterm(node: u32, fault: SubtermFault) -> CheckFault
    ensures { result ≡ at_node node (Subterm fault) }
{
    let row = match fault {
        SubtermFault::BadArgs => Rejected::BadArgs { node },
        SubtermFault::NoProjection { symbol } => Rejected::NoProjection { node, symbol },
        SubtermFault::BadArgument { symbol } => Rejected::BadArgument { node, symbol },
        SubtermFault::BadDrop => Rejected::BadDrop { node },
        SubtermFault::NotDecreasing { pair } => Rejected::NotDecreasing { node, pair },
    };
    CheckFault::Rejected(row)
}

// The fault of the node `poly` of that number, whose names are looked up.
fn at_covering(node: u32, fault: CoveringFault) -> CheckFault
    ensures { result ≡ at_covering node fault }
{
    match fault {
        CoveringFault::BadPolynomial { symbol, marked } => {
            CheckFault::Rejected(Rejected::BadPolynomial {
                node,
                symbol,
                marked,
            })
        }
        CoveringFault::BadLines => CheckFault::Rejected(Rejected::BadLines { node }),
        CoveringFault::BadDrop => CheckFault::Rejected(Rejected::BadDrop { node }),
        CoveringFault::NotClosed(fault) => CheckFault::Rejected(at_open(node, fault)),
        CoveringFault::Rule { rule, fault } => in_rule_line(node, rule, fault),
        CoveringFault::Pair { pair, fault } => in_pair_line(node, pair, fault),
    }
}

// The rejection where the rules that are to be covered are not closed.
fn at_open(node: u32, fault: NotClosed) -> Rejected
    ensures { result ≡ at_open node fault }
{
    match fault {
        NotClosed::Rule { rule } => Rejected::NotClosedRule { node, rule },
        NotClosed::Pair { pair } => Rejected::NotClosedPair { node, pair },
    }
}

// The fault of the line of a rule.
fn in_rule_line(node: u32, rule: u32, fault: LineFault) -> CheckFault
    ensures { result ≡ at_covering node (Rule rule fault) }
{
    match fault {
        LineFault::Exceeds(excess) => in_excess(node, excess),
        LineFault::Cover(fault) => CheckFault::Rejected(at_rule(node, rule, fault)),
    }
}

// The fault of the line of a pair.
fn in_pair_line(node: u32, pair: u32, fault: LineFault) -> CheckFault
    ensures { result ≡ at_covering node (Pair pair fault) }
{
    match fault {
        LineFault::Exceeds(excess) => in_excess(node, excess),
        LineFault::Cover(fault) => CheckFault::Rejected(at_pair(node, pair, fault)),
    }
}

// The fault where a value exceeds a limit in the node.
fn in_excess(node: u32, excess: Excess) -> CheckFault
    ensures { result ≡ in_excess node excess }
{
    match excess {
        Excess::Overflow => CheckFault::Overflow { node },
        Excess::TooLarge => CheckFault::TooLarge { node },
    }
}

// The fault of the moves for a rule.
fn at_rule(node: u32, rule: u32, fault: CoverFault) -> Rejected
    ensures { result ≡ at_rule node rule fault }
{
    match fault {
        CoverFault::BadMove { entry } => Rejected::BadMoveRule { node, rule, entry },
        CoverFault::OverSpent { monomial } => Rejected::OverSpentRule {
            node,
            rule,
            monomial,
        },
        CoverFault::NotCovered { monomial } => Rejected::NotCoveredRule {
            node,
            rule,
            monomial,
        },
        CoverFault::NotStrict => Rejected::NotStrict { node, pair: rule },
    }
}

// The fault of the moves for a pair.
fn at_pair(node: u32, pair: u32, fault: CoverFault) -> Rejected
    ensures { result ≡ at_pair node pair fault }
{
    match fault {
        CoverFault::BadMove { entry } => Rejected::BadMovePair { node, pair, entry },
        CoverFault::OverSpent { monomial } => Rejected::OverSpentPair {
            node,
            pair,
            monomial,
        },
        CoverFault::NotCovered { monomial } => Rejected::NotCoveredPair {
            node,
            pair,
            monomial,
        },
        CoverFault::NotStrict => Rejected::NotStrict { node, pair },
    }
}

// The fault of the node `order` of that number, whose names are looked up.
fn at_ordering(node: u32, fault: OrderingFault) -> Rejected
    ensures { result ≡ at_ordering node fault }
{
    match fault {
        OrderingFault::BadFilter { symbol, marked } => Rejected::BadFilter {
            node,
            symbol,
            marked,
        },
        OrderingFault::BadLines => Rejected::BadLines { node },
        OrderingFault::BadDrop => Rejected::BadDrop { node },
        OrderingFault::WideRule { rule } => Rejected::TooWideRule { node, rule },
        OrderingFault::WidePair { pair } => Rejected::TooWidePair { node, pair },
        OrderingFault::BadRule { rule, entry } => Rejected::BadInferenceRule { node, rule, entry },
        OrderingFault::BadPair { pair, entry } => Rejected::BadInferencePair { node, pair, entry },
        OrderingFault::NotStrict { pair } => Rejected::NotStrict { node, pair },
    }
}

/// The fault of a NO certificate.
pub fn of_claim(fault: NoFault) -> Rejected
    ensures { result ≡ of_claim fault }
{
    match fault {
        NoFault::NotATerm => Rejected::NotATerm,
        NoFault::NoStep => Rejected::NoStep,
        NoFault::StepFails { index } => Rejected::StepFails { index },
        NoFault::TooBig { index } => Rejected::TooBig { index },
        NoFault::BadPut { index } => Rejected::BadPut { index },
        NoFault::NoInstance => Rejected::NoInstance,
    }
}
