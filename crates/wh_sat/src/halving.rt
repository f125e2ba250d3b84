//! The decisions that a conflict needs: those that propagation can do without are left out, by halving.

ghost use Rattle.std.specs.Prelude.{◌≡◌, ◌++◌, OnOk, IfOk, get_or, length, take};
ghost use Rattle.wh_sat.specs.Learning.{Clash, Reduced, Supposes};
ghost use Rattle.wh_sat_trail.specs.Assignment.{AllBelow};
ghost use Rattle.wh_sat_trail.specs.Propagation.{IsClosed};
ghost use Rattle.wh_sat_trail.specs.State.{assigned, formula_of, marks_of};

use std::alloc::{AllocError, Global};
use wh_sat_trail::{Literal, Trail};

/// Supposes literals one after the other: whether they clash. A true one is passed, a false one ends it.
fn suppose(trail: &mut Trail, literals: &[Literal]) -> Result<bool, AllocError>
    requires below { AllBelow (formula_of trail.old).variables literals.now }
    requires closed { IsClosed (formula_of trail.old).clauses (assigned trail.old) }
    ensures same { formula_of trail.new ≡ formula_of trail.old }
    ensures marks { OnOk result (take (length (marks_of trail.old)) (marks_of trail.new) ≡ marks_of trail.old) }
    ensures stop { OnOk result (get_or (marks_of trail.new) (length (marks_of trail.old)) (length (assigned trail.new)) ≡ length
        (assigned trail.old)) }
    ensures front { OnOk result (take (length (assigned trail.old)) (assigned trail.new) ≡ assigned trail.old) }
    ensures answer { IfOk result (λ clash. Supposes (formula_of trail.old).clauses (assigned trail.old) literals.now (assigned trail.new)
        clash) }
{
    for literal in literals {
        match trail.value(literal.variable) {
            Some(value) => if value != literal.positive {
                return Ok(true);
            },
            None => {
                trail.decide(*literal)?;
                match trail.propagate()? {
                    Some(_) => return Ok(true),
                    None => {}
                }
            }
        }
    }
    Ok(false)
}

/// The literals of the rest that are needed beside those that are given. The trail stays.
#[cycle(halve)]
fn needed_beside(
    alloc: Global,
    trail: &mut Trail,
    given: &[Literal],
    rest: &[Literal],
) -> Result<Vec<Literal>, AllocError>
    requires below { AllBelow (formula_of trail.old).variables rest.now }
    requires below_given { AllBelow (formula_of trail.old).variables given.now }
    requires closed { IsClosed (formula_of trail.old).clauses (assigned trail.old) }
    requires clash { Clash (formula_of trail.old).clauses ((assigned trail.old ++ given.now) ++ rest.now) }
    ensures same { formula_of trail.new ≡ formula_of trail.old }
    ensures marks { OnOk result (marks_of trail.new ≡ marks_of trail.old) }
    ensures assigned { OnOk result (assigned trail.new ≡ assigned trail.old) }
    ensures answer { IfOk result (λ kept. Reduced (formula_of trail.old).clauses (assigned trail.old ++ given.now) rest.now kept.items) }
{
    let level = trail.levels();
    if suppose(trail, given)? {
        trail.undo(level);
        return Ok(Vec::new(alloc));
    }
    let kept = halve(alloc, trail, rest)?;
    trail.undo(level);
    Ok(kept)
}

/// The literals that are needed for a clash, of literals that clash beside what is assigned. The trail stays.
#[cycle(halve)]
pub fn halve(
    alloc: Global,
    trail: &mut Trail,
    literals: &[Literal],
) -> Result<Vec<Literal>, AllocError>
    requires below { AllBelow (formula_of trail.old).variables literals.now }
    requires closed { IsClosed (formula_of trail.old).clauses (assigned trail.old) }
    requires clash { Clash (formula_of trail.old).clauses (assigned trail.old ++ literals.now) }
    ensures same { formula_of trail.new ≡ formula_of trail.old }
    ensures marks { OnOk result (marks_of trail.new ≡ marks_of trail.old) }
    ensures assigned { OnOk result (assigned trail.new ≡ assigned trail.old) }
    ensures answer { IfOk result (λ kept. Reduced (formula_of trail.old).clauses (assigned trail.old) literals.now kept.items) }
{
    if literals.len() < 2 {
        return Vec::from_slice(alloc, literals);
    }
    let (front, back) = literals.split_at(literals.len() / 2);
    let second = needed_beside(alloc, trail, front, back)?;
    let mut first = needed_beside(alloc, trail, &second, front)?;
    first.extend_from_slice(&second)?;
    Ok(first)
}
