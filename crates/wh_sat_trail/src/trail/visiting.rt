//! Visiting the clauses that watch a literal which has become false: each finds another watch, forces a literal or is
//! false.

ghost use Rattle.std.specs.Bool.{OnTrue};
ghost use Rattle.std.specs.List.{swap_remove};
ghost use Rattle.std.specs.Prelude.{◌≡◌, ◌≢◌, ℕ, ◌+◌, ◌*◌, ◌<◌, ◌≤◌, ◌++◌, [], ◌∷◌, ◌⊎◌, IfOk, MatchOption, OnErr, OnOk, false, get_or, length, set, true, vec_len};
ghost use Rattle.wh_sat_trail.specs.Assignment.{Fails, Holds, Open};
ghost use Rattle.wh_sat_trail.specs.Look.{IsCandidate};
ghost use Rattle.wh_sat_trail.specs.Propagation.{Forces, Grows, IsForced, IsRefuted};
ghost use Rattle.wh_sat_trail.specs.Visit.{PendingIn, Visits, list_of};
ghost use Rattle.wh_sat_trail.specs.Watch.{AllSafe, Turn, no_pair, nothing, pair};
ghost use Rattle.wh_sat_trail.specs.declared.literal.Literal.{Literal};

use crate::literal::Literal;
use crate::trail::Trail;
use crate::watch::{Pair, Visit, code};
use std::alloc::AllocError;

impl Trail {
    /// A literal becomes true, forced by a clause.
    pub(crate) fn assign(&mut self, literal: Literal, reason: usize)
        requires below { literal.variable < self.old.formula.variables }
        requires free { Open self.old.assignment.literals.items literal }
        ensures same { self.new.formula ≡ self.old.formula }
        ensures stops { self.new.stops ≡ self.old.stops }
        ensures head { self.new.head ≡ self.old.head }
        ensures lists { self.new.lists ≡ self.old.lists }
        ensures pairs { self.new.pairs ≡ self.old.pairs }
        ensures literals { self.new.assignment.literals.items ≡ self.old.assignment.literals.items ++ literal ∷ [] }
    {
        self.assignment.assign(literal, Some(reason));
    }

    /// The second watch of a clause, where `falsified` is one of its two watches.
    fn other_watch(&self, number: usize, falsified: Literal) -> Option<Literal>
        ensures { MatchOption result (number < vec_len self.now.pairs → (get_or self.now.pairs.items number no_pair).watched ≡ true
            → ((get_or self.now.pairs.items number no_pair).first ≢ falsified)
            × ((get_or self.now.pairs.items number no_pair).second ≢ falsified))
            (λ other. (number < vec_len self.now.pairs) × ((get_or self.now.pairs.items number no_pair ≡ pair falsified other)
            ⊎ (get_or self.now.pairs.items number no_pair ≡ pair other falsified))) }
    {
        if number >= self.pairs.len() {
            return None;
        }
        let both = self.pairs[number];
        if !both.watched {
            return None;
        }
        if both.first == falsified {
            return Some(both.second);
        }
        if both.second == falsified {
            return Some(both.first);
        }
        None
    }
}

impl Trail {
    /// A clause whose first watch is false watches another literal, which is not false.
    fn rewatch(
        &mut self,
        at: usize,
        number: usize,
        falsified: Literal,
        other: Literal,
        new: Literal,
    ) -> Result<(), AllocError>
        requires falsified_below { falsified.variable < self.old.formula.variables }
        requires number_in { number < length self.old.formula.clauses }
        requires both { get_or self.old.pairs.items number no_pair ≡ pair falsified other }
        requires at_in { at < length (list_of self.old falsified) }
        requires is { get_or (list_of self.old falsified) at 0 ≡ number }
        requires fails { Fails self.old.assignment.literals.items falsified }
        requires candidate { IsCandidate self.old.assignment (get_or self.old.formula.clauses number []) new }
        requires distinct { new ≢ other }
        ensures same { self.new.formula ≡ self.old.formula }
        ensures stops { self.new.stops.items ≡ self.old.stops.items }
        ensures head { self.new.head ≡ self.old.head }
        ensures literals { self.new.assignment.literals.items ≡ self.old.assignment.literals.items }
        ensures pairs { OnOk result (self.new.pairs.items ≡ set self.old.pairs.items number (pair new other)) }
        ensures list { OnOk result (list_of self.new falsified ≡ swap_remove (list_of self.old falsified) at number) }
    {
        self.lists[code(new)].items.push(number)?;
        self.pairs[number] = Pair {
            first: new,
            second: other,
            watched: true,
        };
        let _ = self.lists[code(falsified)].items.swap_remove(at);
        Ok(())
    }

    /// A clause that watches a false literal: it watches another one, or has none and is false or forces its other
    /// watch.
    fn mend(
        &mut self,
        at: usize,
        number: usize,
        falsified: Literal,
        other: Literal,
    ) -> Result<Visit, AllocError>
        requires falsified_below { falsified.variable < self.old.formula.variables }
        requires number_in { number < length self.old.formula.clauses }
        requires both { get_or self.old.pairs.items number no_pair ≡ pair falsified other }
        requires at_in { at < length (list_of self.old falsified) }
        requires is { get_or (list_of self.old falsified) at 0 ≡ number }
        requires turn { Turn self.old.assignment.literals.items self.old.head falsified }
        requires pending { PendingIn self.old falsified at }
        ensures same { self.new.formula ≡ self.old.formula }
        ensures stops { self.new.stops.items ≡ self.old.stops.items }
        ensures head { self.new.head ≡ self.old.head }
        ensures grows { Grows self.old.formula.clauses self.old.assignment.literals.items self.new.assignment.literals.items }
        ensures answer { IfOk result (Visits self.old self.new at falsified) }
    {
        let from = self.places.place(number);
        match self
            .assignment
            .replacement(self.clause(number), other, from)
        {
            Some((place, new)) => {
                self.rewatch(at, number, falsified, other, new)?;
                self.places.put(number, place);
                Ok(Visit::Moved)
            }
            None => match self.assignment.truth(other) {
                Some(true) => Ok(Visit::Stays),
                Some(false) => Ok(Visit::Refuted(number)),
                None => {
                    self.assign(other, number);
                    Ok(Visit::Stays)
                }
            },
        }
    }

    /// The clause at a place of the list of a literal that is false now.
    fn visit(&mut self, at: usize, falsified: Literal) -> Result<Visit, AllocError>
        requires falsified_below { falsified.variable < self.old.formula.variables }
        requires at_in { at < length (list_of self.old falsified) }
        requires turn { Turn self.old.assignment.literals.items self.old.head falsified }
        requires pending { PendingIn self.old falsified at }
        ensures same { self.new.formula ≡ self.old.formula }
        ensures stops { self.new.stops.items ≡ self.old.stops.items }
        ensures head { self.new.head ≡ self.old.head }
        ensures grows { Grows self.old.formula.clauses self.old.assignment.literals.items self.new.assignment.literals.items }
        ensures answer { IfOk result (Visits self.old self.new at falsified) }
    {
        let number = self.entry(at, falsified);
        match self.other_watch(number, falsified) {
            None => Ok(Visit::Stays),
            Some(other) => {
                if self.is_true(other) {
                    return Ok(Visit::Stays);
                }
                self.turn_pair(number, falsified, other);
                self.mend(at, number, falsified, other)
            }
        }
    }

    /// The literals of a clause.
    pub(crate) fn clause(&self, number: usize) -> &[Literal]
        requires { number < length self.now.formula.clauses }
        ensures { result.now ≡ get_or self.now.formula.clauses number [] }
    {
        self.formula.clauses.as_slice()[number].as_slice()
    }

    /// The clause number at a place of a literal's list.
    fn entry(&self, at: usize, literal: Literal) -> usize
        requires below { literal.variable < self.now.formula.variables }
        requires at_in { at < length (list_of self.now literal) }
        ensures { result ≡ get_or (list_of self.now literal) at 0 }
    {
        self.lists[code(literal)].items[at]
    }

    /// The false watch of a clause becomes its first.
    fn turn_pair(&mut self, number: usize, falsified: Literal, other: Literal)
        requires number_in { number < vec_len self.old.pairs }
        requires both { (get_or self.old.pairs.items number no_pair ≡ pair falsified other)
            ⊎ (get_or self.old.pairs.items number no_pair ≡ pair other falsified) }
        ensures same { self.new.formula ≡ self.old.formula }
        ensures stops { self.new.stops ≡ self.old.stops }
        ensures head { self.new.head ≡ self.old.head }
        ensures assignment { self.new.assignment ≡ self.old.assignment }
        ensures lists { self.new.lists ≡ self.old.lists }
        ensures pairs { self.new.pairs.items ≡ set self.old.pairs.items number (pair falsified other) }
    {
        self.pairs[number] = Pair {
            first: falsified,
            second: other,
            watched: true,
        };
    }

    /// Whether a literal is true.
    fn is_true(&self, literal: Literal) -> bool
        requires { literal.variable < self.now.formula.variables }
        ensures { OnTrue result (Holds self.now.assignment.literals.items literal) }
    {
        match self.assignment.truth(literal) {
            Some(value) => value,
            None => false,
        }
    }
}

impl Trail {
    /// All clauses that watch a literal which is false now. What is false is reported; else every watched clause is
    /// safe one literal further.
    pub(crate) fn visit_all(&mut self, falsified: Literal) -> Result<Option<usize>, AllocError>
        requires below { falsified.variable < self.old.formula.variables }
        requires turn { Turn self.old.assignment.literals.items self.old.head falsified }
        ensures same { self.new.formula ≡ self.old.formula }
        ensures stops { self.new.stops.items ≡ self.old.stops.items }
        ensures head { self.new.head ≡ self.old.head }
        ensures grows { Grows self.old.formula.clauses self.old.assignment.literals.items self.new.assignment.literals.items }
        ensures answer { IfOk result (λ answer. MatchOption answer
            (AllSafe self.new.formula.clauses self.new.assignment.literals.items self.new.pairs.items (self.new.head + 1)
            (length self.new.assignment.literals.items)) (λ k. (k < length self.old.formula.clauses)
            × IsRefuted self.new.assignment.literals.items (get_or self.old.formula.clauses k []))) }
    {
        let mut at = 0;
        while at < self.watchers(falsified) {
            match self.visit(at, falsified)? {
                Visit::Stays => at += 1,
                Visit::Moved => {}
                Visit::Refuted(number) => return Ok(Some(number)),
            }
        }
        Ok(None)
    }

    /// How many clauses stand in a literal's list.
    fn watchers(&self, literal: Literal) -> usize
        requires { literal.variable < self.now.formula.variables }
        ensures { result ≡ length (list_of self.now literal) }
    {
        self.lists[code(literal)].items.len()
    }
}
