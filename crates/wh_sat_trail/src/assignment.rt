//! The literals that are true, in order, beside a table of values by variable.

ghost use Rattle.std.specs.Prelude.{◌≡◌, ◌+◌, ◌<◌, ◌≤◌, ◌++◌, [], ◌∷◌, IfOk, MatchBool, MatchOption, get_or, length, take, vec_capacity, vec_len};
ghost use Rattle.wh_sat_trail.specs.Assignment.{AllBelow, Fails, Holds, IsFresh, Open, Tabled, count_none, value_in};

use crate::literal::Literal;
use std::alloc::{AllocError, Global};

/// The true literals, the values that they give, and for each variable the clause that forced it.
#[derive(Drop)]
pub struct Assignment {
    values: Vec<Option<bool>>,
    reasons: Vec<Option<usize>>,
    literals: Vec<Literal>,
    ghost below: { AllBelow (vec_len values) literals.items },
    ghost fresh: { IsFresh literals.items },
    ghost tabled: { Tabled (vec_len values) values.items literals.items },
    ghost counted: { length literals.items + count_none values.items ≡ vec_len values },
    ghost roomy: { vec_len values ≤ vec_capacity literals },
    ghost reasoned: { vec_len reasons ≡ vec_len values },
}

impl Assignment {
    /// Nothing is assigned. Room is made for every variable, so that no later call needs memory.
    pub fn new(alloc: Global, variables: u32) -> Result<Assignment, AllocError>
        ensures { IfOk result (λ made. (made.literals.items ≡ []) × (vec_len made.values ≡ variables)) }
    {
        let values = Vec::from_elem(alloc, None, variables as usize)?;
        let reasons = Vec::from_elem(alloc, None, variables as usize)?;
        let literals = Vec::with_capacity(alloc, variables as usize)?;
        Ok(Assignment {
            values,
            reasons,
            literals,
        })
    }

    /// How many literals are true.
    pub fn len(&self) -> usize
        ensures { result ≡ length self.now.literals.items }
    {
        self.literals.len()
    }

    /// The literal at a place.
    pub fn at(&self, place: usize) -> Literal
        requires { place < length self.now.literals.items }
        ensures { result ≡ get_or self.now.literals.items place result }
    {
        self.literals[place]
    }

    /// The value of a variable.
    pub fn value(&self, variable: u32) -> Option<bool>
        requires { variable < vec_len self.now.values }
        ensures { result ≡ value_in self.now.literals.items variable }
    {
        self.values[variable as usize]
    }

    /// The value of a literal.
    pub fn truth(&self, literal: Literal) -> Option<bool>
        requires { literal.variable < vec_len self.now.values }
        ensures { let t = self.now.literals.items in MatchOption result (Open t literal)
            (λ b. MatchBool b (Holds t literal) (Fails t literal)) }
    {
        match self.value(literal.variable) {
            None => None,
            Some(value) => Some(value == literal.positive),
        }
    }

    /// The number of the clause that forced the variable's last value.
    pub fn reason(&self, variable: u32) -> Option<usize>
        requires { variable < vec_len self.now.values }
    {
        self.reasons[variable as usize]
    }

    /// A literal without a value becomes true.
    pub fn assign(&mut self, literal: Literal, reason: Option<usize>)
        requires below { literal.variable < vec_len self.old.values }
        requires free { Open self.old.literals.items literal }
        ensures literals { self.new.literals.items ≡ self.old.literals.items ++ literal ∷ [] }
        ensures width { vec_len self.new.values ≡ vec_len self.old.values }
    {
        let _ = self.literals.push(literal);
        self.values[literal.variable as usize] = Some(literal.positive);
        self.reasons[literal.variable as usize] = reason;
    }

    /// Keeps the first literals alone.
    pub fn truncate(&mut self, keep: usize)
        ensures literals { self.new.literals.items ≡ take keep self.old.literals.items }
        ensures width { vec_len self.new.values ≡ vec_len self.old.values }
    {
        while self.literals.len() > keep {
            if let Some(literal) = self.literals.pop() {
                self.values[literal.variable as usize] = None;
            }
        }
    }
}
