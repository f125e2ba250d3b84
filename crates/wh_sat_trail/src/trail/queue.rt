//! Propagation: the queue of literals whose clauses have not been visited, then the clauses without two watches.

ghost use Rattle.std.specs.Bool.{OnTrue};
ghost use Rattle.std.specs.Prelude.{◌≡◌, ℕ, ◌+◌, ◌<◌, ◌≤◌, [], IfOk, MatchOption, OnErr, OnOk, get_or, length};
ghost use Rattle.wh_sat_trail.specs.Find.{Finds};
ghost use Rattle.wh_sat_trail.specs.Propagation.{Grows, IsClosed, IsRefuted};
ghost use Rattle.wh_sat_trail.specs.Settled.{IsMet, ground_of};
ghost use Rattle.wh_sat_trail.specs.State.{assigned, formula_of, marks_of};
ghost use Rattle.wh_sat_trail.specs.Watch.{AllSafe, done_of};

use crate::literal::Literal;
use crate::look::Look;
use crate::trail::Trail;
use crate::watch::{Find, Stop};
use std::alloc::AllocError;

impl Trail {
    /// Assigns what the clauses force, until one is false or none forces more. After want of memory
    /// the trail is as it was.
    pub fn propagate(&mut self) -> Result<Option<u64>, AllocError>
        ensures same { formula_of self.new ≡ formula_of self.old }
        ensures marks { marks_of self.new ≡ marks_of self.old }
        ensures grows { Grows (formula_of self.old).clauses (assigned self.old) (assigned self.new) }
        ensures answer { IfOk result (λ answer. MatchOption answer (IsClosed (formula_of self.old).clauses (assigned self.new))
            (λ k. (k < length (formula_of self.old).clauses) × IsRefuted (assigned self.new)
            (get_or (formula_of self.old).clauses k []))) }
        ensures err { OnErr result (assigned self.new ≡ assigned self.old) }
    {
        let before = self.assignment.len();
        match self.close() {
            Ok(None) => Ok(None),
            Ok(Some(number)) => Ok(Some(number as u64)),
            Err(_) => {
                let done = self.last_done();
                self.settled = 0;
                self.cut(Stop { done, mark: before });
                Err(AllocError)
            }
        }
    }

    /// How much of the queue was done when the last level began.
    fn last_done(&self) -> usize
        ensures { result ≡ done_of self.now.stops.items }
    {
        match self.stops.last() {
            None => 0,
            Some(stop) => stop.done,
        }
    }

    /// Assigns what the clauses force. After want of memory more may be assigned.
    fn close(&mut self) -> Result<Option<usize>, AllocError>
        ensures same { self.new.formula ≡ self.old.formula }
        ensures stops { self.new.stops.items ≡ self.old.stops.items }
        ensures grows { Grows self.old.formula.clauses self.old.assignment.literals.items self.new.assignment.literals.items }
        ensures answer { IfOk result (λ answer. MatchOption answer (IsClosed self.old.formula.clauses self.new.assignment.literals.items)
            (λ k. (k < length self.old.formula.clauses) × IsRefuted self.new.assignment.literals.items
            (get_or self.old.formula.clauses k []))) }
    {
        loop {
            if let Some(number) = self.empty_queue()? {
                return Ok(Some(number));
            }
            self.settle();
            match self.find() {
                Find::Nothing => return Ok(None),
                Find::Refuted(number) => return Ok(Some(number)),
                Find::Forces(number, literal) => self.assign(literal, number),
            }
        }
    }

    /// Visits the clauses of each literal in the queue.
    fn empty_queue(&mut self) -> Result<Option<usize>, AllocError>
        ensures same { self.new.formula ≡ self.old.formula }
        ensures stops { self.new.stops.items ≡ self.old.stops.items }
        ensures grows { Grows self.old.formula.clauses self.old.assignment.literals.items self.new.assignment.literals.items }
        ensures answer { IfOk result (λ answer. MatchOption answer (self.new.head ≡ length self.new.assignment.literals.items)
            (λ k. (k < length self.old.formula.clauses) × IsRefuted self.new.assignment.literals.items
            (get_or self.old.formula.clauses k []))) }
    {
        while self.head < self.assignment.len() {
            let literal = self.assignment.at(self.head);
            let falsified = Literal {
                variable: literal.variable,
                positive: !literal.positive,
            };
            if let Some(number) = self.visit_all(falsified)? {
                return Ok(Some(number));
            }
            self.advance();
        }
        Ok(None)
    }

    /// One literal more of the queue is done.
    fn advance(&mut self)
        requires more { self.old.head < length self.old.assignment.literals.items }
        requires safe { AllSafe self.old.formula.clauses self.old.assignment.literals.items self.old.pairs.items (self.old.head + 1)
            (length self.old.assignment.literals.items) }
        ensures same { self.new.formula ≡ self.old.formula }
        ensures stops { self.new.stops.items ≡ self.old.stops.items }
        ensures literals { self.new.assignment.literals.items ≡ self.old.assignment.literals.items }
        ensures head { self.new.head ≡ self.old.head + 1 }
    {
        self.head += 1;
    }

    /// Passes the short clauses that are true before the first level: they stay true.
    fn settle(&mut self)
        ensures same { self.new.formula ≡ self.old.formula }
        ensures stops { self.new.stops ≡ self.old.stops }
        ensures head { self.new.head ≡ self.old.head }
        ensures assignment { self.new.assignment ≡ self.old.assignment }
    {
        while self.is_next_met() {
            self.settled += 1;
        }
    }

    /// Whether the next short clause is true, and no level has begun.
    fn is_next_met(&self) -> bool
        ensures { OnTrue result ((self.now.settled < length self.now.short.items)
            × (get_or self.now.short.items self.now.settled 0 < length self.now.formula.clauses)
            × IsMet (ground_of self.now.stops.items self.now.assignment.literals.items)
            (get_or self.now.formula.clauses (get_or self.now.short.items self.now.settled 0) [])) }
    {
        if !self.stops.is_empty() || self.settled >= self.short.len() {
            return false;
        }
        let number = self.short[self.settled];
        if number >= self.pairs.len() {
            return false;
        }
        self.assignment.meets(self.clause(number))
    }

    /// The first of the short clauses that is false or forces a literal.
    fn find(&self) -> Find
        requires { self.now.head ≡ length self.now.assignment.literals.items }
        ensures { Finds self.now.formula.clauses self.now.assignment.literals.items result }
    {
        for place in self.settled..self.short.len() {
            let number = self.short[place];
            if number < self.pairs.len() {
                match self.assignment.look(self.clause(number)) {
                    Look::Quiet => {}
                    Look::Refuted => return Find::Refuted(number),
                    Look::Forces(literal) => return Find::Forces(number, literal),
                }
            }
        }
        Find::Nothing
    }
}
