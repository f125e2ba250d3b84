//! The graph of calls: calls up to the names of their variables, and steps from one to the next.

use std::alloc::{AllocError, Global};
use wh_hunt_terms::{Way, head_of, mark};
use wh_terms::{Term, same};

/// No more calls than that become nodes.
pub const MOST_NODES: usize = 3000;

/// No more steps than that become edges.
pub const MOST_EDGES: usize = 100_000;

// How many rows the nodes are spread over.
const ROWS: u64 = 1024;

/// A call.
#[derive(Drop)]
pub struct Node {
    /// The call with canonical names.
    pub term: Term,
    /// Its symbol.
    pub symbol: u32,
    /// The number of the edge by which it was found; `None` for a start.
    pub came: Option<usize>,
    /// The number of the first edge from it.
    pub first: usize,
    /// The number behind the last edge from it.
    pub end: usize,
    /// Whether each node on the way to it has one edge alone.
    pub is_chain: bool,
    /// Whether its edges are there.
    pub is_done: bool,
}

/// A step from a call, and a call in its result.
#[derive(Drop)]
pub struct Edge {
    /// The number of the node that it leads from.
    pub from: usize,
    /// The number of the node that it leads to.
    pub to: usize,
    /// The rule of the step.
    pub rule: u32,
    /// The way to where the rule is applied in the call.
    pub at: Way,
    /// The way to the next call in the result.
    pub call: Way,
}

/// The graph as far as it was made.
#[derive(Drop)]
pub struct Graph {
    /// The nodes in the order of their finding.
    pub nodes: Vec<Node>,
    /// The edges, those from one node in a row.
    pub edges: Vec<Edge>,
    // the numbers of the nodes by their marks
    rows: Vec<Vec<usize>>,
}

// The number of a term's row.
fn row_of(term: &Term) -> usize {
    (mark(term) % ROWS) as usize
}

impl Graph {
    /// The graph without nodes.
    pub fn new(alloc: Global) -> Result<Graph, AllocError> {
        let mut rows = Vec::new(alloc);
        for _ in 0..ROWS {
            rows.push(Vec::new(alloc))?;
        }
        Ok(Graph {
            nodes: Vec::new(alloc),
            edges: Vec::new(alloc),
            rows,
        })
    }

    // Whether the node with the number is the call.
    fn is_at(&self, number: usize, term: &Term) -> bool {
        match self.nodes.get(number) {
            Some(node) => same(&node.term, term),
            None => false,
        }
    }

    /// Whether the node with the number has its edges, or there is none with the number.
    pub fn is_done(&self, number: usize) -> bool {
        match self.nodes.get(number) {
            Some(node) => node.is_done,
            None => true,
        }
    }

    /// The number of the node that is the call with these canonical names.
    pub fn number_of(&self, term: &Term) -> Option<usize> {
        for number in self.rows.get(row_of(term))? {
            if self.is_at(*number, term) {
                return Some(*number);
            }
        }
        None
    }

    /// The call joins as a node without edges, and the answer is its number; `None` where the graph is full, or the
    /// term has no symbol at its head.
    pub fn add_node(
        &mut self,
        term: Term,
        came: Option<usize>,
        is_chain: bool,
    ) -> Result<Option<usize>, AllocError> {
        let number = self.nodes.len();
        let Some(head) = head_of(&term) else {
            return Ok(None);
        };
        if number >= MOST_NODES {
            return Ok(None);
        }
        if let Some(row) = self.rows.get_mut(row_of(&term)) {
            row.push(number)?;
        }
        self.nodes.push(Node {
            term,
            symbol: head.symbol,
            came,
            first: 0,
            end: 0,
            is_chain,
            is_done: false,
        })?;
        Ok(Some(number))
    }
}
