//! Hints for a clause: numbers of clauses that lead from the negations of its literals to a clause that is false.

ghost use Rattle.std.specs.Prelude.{◌≡◌, ◌+◌, ◌<◌, ◌≤◌, ◌^◌, [], IfOk, List, MatchBool, length, map};
ghost use Rattle.wh_sat_trail.specs.Assignment.{AllBelow, negated};
ghost use Rattle.wh_sat_trail.specs.Propagation.{Within};
ghost use Rattle.wh_sat_trail.specs.declared.literal.Literal.{Literal};
ghost use Rattle.wh_refute.specs.Refuting.{Leads};
ghost use Rattle.wh_refute.specs.Told.{Tells};
ghost use Rattle.wh_sat.specs.Learning.{Refutes};
ghost use Rattle.wh_sat_listed.specs.Leading.{IsAt};

use std::alloc::{AllocError, Global};
use wh_refute::{Look, Truth, look_at, negation};
use wh_sat_trail::{Clause, Literal};
use wh_types::Numbers;

/// Hints for a clause that propagation refutes, in passes over the clauses before it: each that leaves one literal
/// makes it true, up to one that is false. No variable gets a value twice, so there are no more hints than variables,
/// and the last one.
pub fn hints_for(
    alloc: Global,
    truth: &mut Truth,
    variables: u32,
    clauses: &[Clause],
    clause: &[Literal],
) -> Result<Numbers, AllocError>
    requires tells { Tells variables truth.old [] }
    requires within { Within variables clauses.now }
    requires below { AllBelow variables clause.now }
    requires few { length clauses.now ≤ 2 ^ 32 }
    requires refuted { Refutes clauses.now (map negated clause.now) }
    ensures leads { IfOk result (λ hints. Leads clauses.now (map negated clause.now) hints) }
    ensures count { IfOk result (λ hints. length hints ≤ variables + 1) }
    ensures tells { (t : List Literal) × Tells variables truth.new t }
    ensures round { truth.new.round ≡ truth.old.round }
{
    suppose(truth, variables, clause);
    let mut hints = Numbers::new(alloc);
    loop {
        if pass(truth, variables, clauses, &mut hints)? {
            return Ok(hints);
        }
    }
}

// The negations of the literals become true.
fn suppose(truth: &mut Truth, variables: u32, clause: &[Literal])
    requires tells { Tells variables truth.old [] }
    requires below { AllBelow variables clause.now }
    ensures tells { Tells variables truth.new (map negated clause.now) }
    ensures round { truth.new.round ≡ truth.old.round }
{
    let _variables = variables;
    for literal in clause {
        truth.assume(negation(*literal));
    }
}

// One pass over the clauses: whether one is false, whose number is the last hint. If not, some clause has made a
// literal true.
fn pass(
    truth: &mut Truth,
    variables: u32,
    clauses: &[Clause],
    hints: &mut Numbers,
) -> Result<bool, AllocError>
    requires tells { (t : List Literal) × Tells variables truth.old t }
    requires within { Within variables clauses.now }
    requires few { length clauses.now ≤ 2 ^ 32 }
    ensures found { (start : List Literal) → IsAt variables clauses.now start truth.old hints.old → Refutes clauses.now start
        → IfOk result (λ is_false. MatchBool is_false
        (Leads clauses.now start hints.new × (length hints.new ≤ variables + 1))
        (IsAt variables clauses.now start truth.new hints.new × (length hints.old < length hints.new))) }
    ensures tells { (t : List Literal) × Tells variables truth.new t }
    ensures round { truth.new.round ≡ truth.old.round }
{
    for (number, clause) in clauses.iter().enumerate() {
        match look_at(truth, clause.as_slice(), variables) {
            Look::False => {
                hints.push(number as u32)?;
                return Ok(true);
            }
            Look::Leaves(literal) => {
                hints.push(number as u32)?;
                truth.assume(literal);
            }
            Look::Stuck => {}
        }
    }
    Ok(false)
}
