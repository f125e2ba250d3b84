//! What a clause gives where some literals are true: that is a step of the checker.

ghost use Rattle.std.specs.Prelude.{◌≡◌, ◌<◌, ℕ, List, not};
ghost use Rattle.wh_sat_trail.specs.Assignment.{AllBelow, negated};
ghost use Rattle.wh_sat_trail.specs.declared.literal.Literal.{Literal};
ghost use Rattle.wh_refute.specs.Told.{IsLook, Tells};

use crate::truth::Truth;
use wh_sat_trail::Literal;

/// The result of a look at a clause.
pub enum Look {
    /// All its literals are false.
    False,
    /// All literals but this one are false, and this one is not true yet.
    Leaves(Literal),
    /// Two are not false, or one alone, which is true already.
    Stuck,
}

/// The negation of the literal.
pub fn negation(literal: Literal) -> Literal
    ensures { result ≡ negated literal }
{
    Literal {
        variable: literal.variable,
        positive: !literal.positive,
    }
}

/// Looks at the clause.
pub fn look_at(truth: &Truth, clause: &[Literal], variables: u32) -> Look
    requires below { AllBelow variables clause.now }
    requires tells { (t : List Literal) × Tells variables truth.now t }
    ensures { (t : List Literal) → Tells variables truth.now t → IsLook t clause.now result }
{
    let mut left = None;
    for literal in clause {
        if truth.holds(negation(*literal)) {
            continue;
        }
        match left {
            None => left = Some(*literal),
            Some(other) => {
                if other != *literal {
                    return Look::Stuck;
                }
            }
        }
    }
    match left {
        None => Look::False,
        Some(literal) => {
            if truth.holds(literal) {
                Look::Stuck
            } else {
                Look::Leaves(literal)
            }
        }
    }
}
