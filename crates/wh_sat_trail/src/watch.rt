//! The data of the two-watched-literals scheme: which literals each clause watches, and which clauses watch a literal.

ghost use Rattle.std.specs.Prelude.{◌≡◌};
ghost use Rattle.wh_sat_trail.specs.Code.{code_of};

use crate::literal::Literal;
use std::alloc::{AllocError, Global};
use std::marker::Model;

/// Where a level began: how many literals had been propagated, and how many were true.
#[derive(Clone, Copy)]
pub struct Stop {
    pub done: usize,
    pub mark: usize,
}

/// The two literals that a clause watches, if it watches any.
#[derive(Clone, Copy)]
pub struct Pair {
    pub first: Literal,
    pub second: Literal,
    pub watched: bool,
}

/// The numbers of the clauses that watch a literal; a clause that has moved on may still be among them.
#[derive(Drop)]
pub struct Watchers {
    pub items: Vec<usize>,
}

impl Model for Watchers {
    ghost use Rattle.std.specs.Prelude.{List, ℕ};

    ghost Value = { List ℕ };

    ghost view = { λ list. list.items.items };
}

/// For each clause the place of the watch that it took last: the search for the next one goes on from there, as in
/// CaDiCaL (Gent 2013). Nothing is claimed of it.
#[derive(Drop)]
pub struct Places {
    items: Vec<usize>,
}

impl Places {
    /// The places of no clause.
    pub fn new(alloc: Global) -> Places {
        Places {
            items: Vec::new(alloc),
        }
    }

    /// Makes room for one clause more, which begins at its first literal.
    pub fn open(&mut self) -> Result<(), AllocError> {
        self.items.push(0)?;
        Ok(())
    }

    /// The place of a clause.
    pub fn place(&self, number: usize) -> usize {
        match self.items.get(number) {
            Some(place) => *place,
            None => 0,
        }
    }

    /// A clause has another place.
    pub fn put(&mut self, number: usize, place: usize) {
        if let Some(slot) = self.items.get_mut(number) {
            *slot = place;
        }
    }
}

/// What became of a clause in the list of a literal that is false now.
pub enum Visit {
    Stays,
    Moved,
    Refuted(usize),
}

/// The number of a literal's list.
pub fn code(literal: Literal) -> usize
    ensures { result ≡ code_of literal }
{
    2 * literal.variable as usize + usize::from(literal.positive)
}

/// What the short clauses say: nothing, that one is false, or that one forces a literal.
pub enum Find {
    Nothing,
    Refuted(usize),
    Forces(usize, Literal),
}
