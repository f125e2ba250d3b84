//! Certificates as data: a proof that a system terminates, or a loop of it. Readers and the search make them; the
//! check, the printer and the explainer take them.

use crate::order_node::OrderNode;
use crate::poly_node::PolyNode;
use wh_terms::{Path, Step};
use wh_text::{Name, RawTerm, RawType};
use wh_types::{Blocks, List, Numbers};

/// A certificate. All offsets in its raw trees are 0.
#[derive(Drop)]
pub enum Certificate {
    /// For each well-typed term there is a number that no reduction from it exceeds in length.
    Yes(YesCertificate),
    /// There are reductions of every length.
    No(NoCertificate),
}

/// Ranks of the sorts, and a tree of nodes by which every chain of pairs ends.
#[derive(Drop)]
pub struct YesCertificate {
    /// The version of the format, 1 or 2: nodes of path orders, and nodes of interpretations that list rules, stand in
    /// the second.
    pub version: u32,
    /// A rank for each sort.
    pub ranks: Numbers,
    /// The number of pairs.
    pub pairs: u32,
    /// The tree, each node before its children.
    pub nodes: Nodes,
}

/// How the chains of a set of pairs are shown to end.
#[derive(Drop)]
pub enum Node {
    /// There is no pair.
    Done,
    /// There is one pair, which may not follow itself.
    Alone,
    /// By blocks of pairs, none of which leads back to an earlier one. It has a child for each block.
    Blocks(Blocks),
    /// By an argument of each symbol that shrinks in some pairs and never grows. It has a child for the other pairs.
    Subterm {
        /// The pairs in which the argument shrinks.
        args: Args,
        /// The pairs in which it shrinks.
        drop: Numbers,
    },
    /// By polynomials under which no rule that is to be covered and no pair grows, and some pairs shrink. It has a
    /// child for the other pairs.
    Poly(Box<PolyNode>),
    /// By argument filters and a path order under which no rule and no pair grows, and some pairs shrink. It has a
    /// child for the other pairs.
    Order(Box<OrderNode>),
}

/// A symbol, and the argument of it that is looked at, counted from 1.
#[derive(Drop)]
pub struct Arg {
    /// The name of the symbol.
    pub name: Name,
    /// The number of the argument.
    pub place: u32,
}

/// A reduction whose last term holds an instance of its first one.
#[derive(Drop)]
pub struct NoCertificate {
    /// The first term.
    pub term: RawTerm,
    /// The steps from it, in order.
    pub steps: Steps,
    /// The position of the instance in the last term.
    pub at: Path,
    /// The terms that take the place of the first term's variables in the instance.
    pub puts: Puts,
}

/// A list of symbols with arguments.
pub type Args = List<Arg>;

/// A list of nodes.
pub type Nodes = List<Node>;

/// A list of steps.
pub type Steps = List<Step>;

/// A variable, by its number and its type, and the term that is put for it.
#[derive(Drop)]
pub struct Put {
    /// The number of the variable.
    pub number: u32,
    /// The type of the variable.
    pub kind: RawType,
    /// The term.
    pub term: RawTerm,
}

/// A list of terms that are put for variables.
pub type Puts = List<Put>;

/// The fault of bytes that are no certificate text.
#[derive(Clone, Copy)]
pub struct CertSyntax {
    /// The number of bytes, from the front on, that can begin a certificate text.
    pub at: u64,
}
