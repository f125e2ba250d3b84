//! The items of a certificate: parts of it that one or several whole lines say, in the order of its text.

use crate::certificate::{Node, Put};
use wh_terms::{Path, Step};
use wh_text::RawTerm;
use wh_types::Numbers;

/// An item. The text of a certificate is that of its items, in their order, and nothing else. Large parts stand behind
/// a box.
#[derive(Drop)]
pub enum Item {
    /// The lines of a YES certificate before its nodes.
    YesHead {
        /// The version of the format.
        version: u32,
        /// A rank for each sort.
        ranks: Numbers,
        /// The number of pairs.
        pairs: u32,
    },
    /// The lines of a node, without its children's.
    Node(Box<Node>),
    /// The lines of a NO certificate before its steps.
    NoHead {
        /// The first term.
        term: Box<RawTerm>,
    },
    /// A step.
    Step(Step),
    /// The position of the instance.
    At(Path),
    /// The term that is put for a variable.
    Put(Box<Put>),
    /// The end of a certificate of either kind.
    End,
}
