//! Clauses, which are lists of literals, and lists of clauses.

ghost use Rattle.std.specs.Prelude.{◌≡◌, IfOk, OnOk, OnErr, [], ◌∷◌, ◌++◌, take};

use crate::literal::Literal;
use std::alloc::{AllocError, Global};
use std::marker::Model;

/// A list of literals, of which one is to be true.
#[derive(Drop)]
pub struct Clause {
    items: Vec<Literal>,
}

impl Model for Clause {
    ghost use Rattle.std.specs.Coded.{coded_list};
    ghost use Rattle.std.specs.Prelude.{List};
    ghost use Rattle.wh_sat_trail.specs.contracts.literal.Literal as literal;
    ghost use Rattle.wh_sat_trail.specs.declared.literal.Literal.{Literal};

    ghost Value = { List Literal };

    ghost coded = { coded_list literal.the_row.coded };

    ghost view = { λ clause. clause.items.items };
}

impl Clause {
    /// The empty clause.
    pub fn new(alloc: Global) -> Clause
        ensures { result ≡ [] }
    {
        Clause {
            items: Vec::new(alloc),
        }
    }

    /// Puts a literal at the end.
    pub fn push(&mut self, item: Literal) -> Result<(), AllocError>
        ensures ok { OnOk result (self.new ≡ self.old ++ item ∷ []) }
        ensures err { OnErr result (self.new ≡ self.old) }
    {
        self.items.push(item)?;
        Ok(())
    }

    /// The literals in order.
    pub fn as_slice(&self) -> &[Literal]
        ensures { result.now ≡ self.now }
    {
        &self.items
    }
}

/// A list of clauses, of which all are to be true.
#[derive(Drop)]
pub struct Clauses {
    pub(crate) items: Vec<Clause>,
}

impl Model for Clauses {
    ghost use Rattle.std.specs.Coded.{coded_list};
    ghost use Rattle.std.specs.Prelude.{List};
    ghost use Rattle.wh_sat_trail.specs.contracts.literal.Literal as literal;
    ghost use Rattle.wh_sat_trail.specs.declared.literal.Literal.{Literal};

    ghost Value = { List (List Literal) };

    ghost coded = { coded_list (coded_list literal.the_row.coded) };

    ghost view = { λ clauses. clauses.items.items };
}

impl Clauses {
    /// The empty list.
    pub fn new(alloc: Global) -> Clauses
        ensures { result ≡ [] }
    {
        Clauses {
            items: Vec::new(alloc),
        }
    }

    /// Puts a clause at the end.
    pub fn push(&mut self, item: Clause) -> Result<(), AllocError>
        ensures ok { OnOk result (self.new ≡ self.old ++ item ∷ []) }
        ensures err { OnErr result (self.new ≡ self.old) }
    {
        self.items.push(item)?;
        Ok(())
    }

    /// Puts the clauses of another list at the end, in their order; without memory the list stays as it was.
    pub fn append(&mut self, mut others: Clauses) -> Result<(), AllocError>
        ensures ok { OnOk result (self.new ≡ self.old ++ others) }
        ensures err { OnErr result (self.new ≡ self.old) }
    {
        self.items.append(&mut others.items)?;
        Ok(())
    }

    /// Keeps the first clauses alone.
    pub fn truncate(&mut self, keep: usize)
        ensures { self.new ≡ take keep self.old }
    {
        self.items.truncate(keep);
    }

    /// The clauses in order.
    pub fn as_slice(&self) -> &[Clause]
        ensures { result.now ≡ self.now }
    {
        &self.items
    }
}
