//! What a clause says under an assignment, and which of its literals can be watched.

ghost use Rattle.std.specs.Bool.{OnTrue};
ghost use Rattle.std.specs.Prelude.{◌≡◌, ◌≢◌, ℕ, ◌<◌, ◌≤◌, MatchOption, IfSome, get_or, length, true, vec_len};
ghost use Rattle.wh_sat_trail.specs.Assignment.{AllBelow, Fails};
ghost use Rattle.wh_sat_trail.specs.Look.{IsCandidate, Looks};
ghost use Rattle.wh_sat_trail.specs.Settled.{IsMet};
ghost use Rattle.wh_sat_trail.specs.declared.literal.Literal.{Literal};

use crate::assignment::Assignment;
use crate::literal::Literal;

/// What a clause says: nothing, that it is false, or that a literal has to be true.
pub enum Look {
    /// The clause says nothing: a literal is true, or two have no value.
    Quiet,
    /// All literals of the clause are false.
    Refuted,
    /// This literal has no value, and all others are false.
    Forces(Literal),
}

impl Assignment {
    /// What a clause says.
    pub fn look(&self, clause: &[Literal]) -> Look
        requires { AllBelow (vec_len self.now.values) clause.now }
        ensures { Looks self.now.literals.items clause.now result }
    {
        let mut free: Option<Literal> = None;
        for literal in clause {
            match self.truth(*literal) {
                Some(true) => return Look::Quiet,
                Some(false) => {}
                None => match free {
                    None => free = Some(*literal),
                    Some(first) => if first != *literal {
                        return Look::Quiet;
                    }
                },
            }
        }
        match free {
            None => Look::Refuted,
            Some(literal) => Look::Forces(literal),
        }
    }

    /// Whether a literal of a clause is true.
    pub fn meets(&self, clause: &[Literal]) -> bool
        requires { AllBelow (vec_len self.now.values) clause.now }
        ensures { OnTrue result (IsMet self.now.literals.items clause.now) }
    {
        for literal in clause {
            match self.truth(*literal) {
                None => {}
                Some(false) => {}
                Some(true) => return true,
            }
        }
        false
    }

    /// A literal of the clause that is not false, and not `other`, with its place. It is looked for from the place
    /// `from` on, and then before it.
    pub fn replacement(
        &self,
        clause: &[Literal],
        other: Literal,
        from: usize,
    ) -> Option<(usize, Literal)>
        requires { AllBelow (vec_len self.now.values) clause.now }
        ensures { MatchOption result ((i : ℕ) (d : Literal) → i < length clause.now → get_or clause.now i d ≢ other
            → Fails self.now.literals.items (get_or clause.now i d))
            (λ found. IsCandidate self.now clause.now found.1 × (found.1 ≢ other)) }
    {
        let middle = from.min(clause.len());
        match self.replacement_in(clause, other, middle, clause.len()) {
            Some(found) => Some(found),
            None => self.replacement_in(clause, other, 0, middle),
        }
    }

    /// A literal of the clause that is not false, and not `other`, with its place, which is at least `from` and below
    /// `to`.
    fn replacement_in(
        &self,
        clause: &[Literal],
        other: Literal,
        from: usize,
        to: usize,
    ) -> Option<(usize, Literal)>
        requires below { AllBelow (vec_len self.now.values) clause.now }
        requires within { to ≤ length clause.now }
        ensures { MatchOption result ((i : ℕ) (d : Literal) → from ≤ i → i < to → get_or clause.now i d ≢ other
            → Fails self.now.literals.items (get_or clause.now i d))
            (λ found. IsCandidate self.now clause.now found.1 × (found.1 ≢ other)) }
    {
        for place in from..to {
            let literal = clause[place];
            match self.truth(literal) {
                Some(false) => {}
                Some(true) => if literal != other {
                    return Some((place, literal));
                },
                None => if literal != other {
                    return Some((place, literal));
                },
            }
        }
        None
    }

    /// A literal that is not false.
    fn candidate(&self, clause: &[Literal]) -> Option<Literal>
        requires { AllBelow (vec_len self.now.values) clause.now }
        ensures { IfSome result (IsCandidate self.now clause.now) }
    {
        for literal in clause {
            match self.truth(*literal) {
                Some(false) => {}
                Some(true) => return Some(*literal),
                None => return Some(*literal),
            }
        }
        None
    }

    /// Two different literals that are not false.
    pub fn watches(&self, clause: &[Literal]) -> Option<(Literal, Literal)>
        requires { AllBelow (vec_len self.now.values) clause.now }
        ensures { IfSome result (λ both. IsCandidate self.now clause.now both.0 × IsCandidate self.now clause.now both.1
            × (both.1 ≢ both.0)) }
    {
        match self.candidate(clause) {
            None => None,
            Some(first) => match self.replacement(clause, first, 0) {
                None => None,
                Some((_, second)) => Some((first, second)),
            },
        }
    }
}
