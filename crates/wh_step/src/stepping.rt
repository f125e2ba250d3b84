//! A step of a term, taken in place.
//!
//! The term is owned by the caller and changed where it stands; its size is handed on as a number. A step costs its
//! path, its redex and its contractum, however large the term is.

ghost use Rattle.std.specs.Prelude.{◌≡◌, IfOk, OnErr};
ghost use Rattle.wh_terms.specs.Typing.{Symbols};
ghost use Rattle.wh_terms.specs.Sight.{LooseBelow, IsTerm};
ghost use Rattle.wh_terms.specs.Measures.{Fits, size as tree_size};
ghost use Rattle.wh_terms.specs.Erase.{tm, rewrite_rules};
ghost use Rattle.wh_terms.specs.Rules.{AreWellMade};
ghost use Rattle.wh_step.specs.Roots.{put_at};
ghost use Rattle.wh_step.specs.Stepping.{Replaces, Takes};

use crate::joining::new_size;
use crate::redex::{build, root_step};
use std::alloc::{AllocError, Global};
use wh_terms::{Rule, Step, Term, subterm_at};

// What a step puts in place of its redex.
#[derive(Drop)]
pub enum Replacement {
    // The contractum, and the size of the whole term with it.
    Part(Term, u64),
    // The step does not apply.
    Nowhere,
    // The result does not fit.
    PastLimit,
}

// The outcome of a step.
#[derive(Drop)]
pub enum Outcome {
    // The step is taken; this is the size of the result.
    Taken(u64),
    // The step does not apply.
    Nowhere,
    // The result does not fit.
    PastLimit,
}

// Puts `value` in place of the part at the path; what stands around it is not touched.
#[tactic(auto, using(crate::proofs::PlaceLemmas::put_here, crate::proofs::PlaceLemmas::put_in_function, crate::proofs::PlaceLemmas::put_in_argument, crate::proofs::PlaceLemmas::put_in_body))]
fn put(term: &mut Term, path: &[u8], value: Term)
    ensures { tm term.new ≡ put_at path.now (tm value) (tm term.old) }
{
    let Some((step, rest)) = path.split_first() else {
        *term = value;
        return;
    };
    match term {
        Term::App(function, argument) => {
            if *step == 0 {
                put(function, rest, value)
            } else {
                put(argument, rest, value)
            }
        }
        Term::Lam(_, body) => put(body, rest, value),
        Term::Bound(_) | Term::Free(_, _) | Term::Fun(_) | Term::Meta(_, _) => {}
    }
}

// What the step puts in place of its redex; what does not fit is not built.
fn replacement_for(
    alloc: Global,
    rules: &[Rule],
    term: &Term,
    total: u64,
    step: &Step,
) -> Result<Replacement, AllocError>
    requires well_made { (S : Symbols) × AreWellMade S (rewrite_rules rules.now) }
    requires fits { Fits (tm term.now) }
    requires shut { LooseBelow 0 (tm term.now) }
    requires plain { IsTerm (tm term.now) }
    requires sized { total ≡ tree_size (tm term.now) }
    ensures { IfOk result (Replaces (rewrite_rules rules.now) step.now (tm term.now)) }
{
    let Some(redex) = subterm_at(term, &step.path) else {
        return Ok(Replacement::Nowhere);
    };
    let Some(contractum) = root_step(alloc, rules, redex, step.rule)? else {
        return Ok(Replacement::Nowhere);
    };
    let path = step.path.as_slice();
    match new_size(alloc, term, total, path, redex, &contractum)? {
        Some(total) => Ok(Replacement::Part(build(alloc, &contractum)?, total)),
        None => Ok(Replacement::PastLimit),
    }
}

/// Takes the step in a term of the size `total`, and answers with the new size. A term whose step does not apply or
/// does not fit, or for which memory is wanting, stays as it was.
pub fn take_step(
    alloc: Global,
    rules: &[Rule],
    term: &mut Term,
    total: u64,
    step: &Step,
) -> Result<Outcome, AllocError>
    requires well_made { (S : Symbols) × AreWellMade S (rewrite_rules rules.now) }
    requires fits { Fits (tm term.old) }
    requires shut { LooseBelow 0 (tm term.old) }
    requires plain { IsTerm (tm term.old) }
    requires sized { total ≡ tree_size (tm term.old) }
    ensures ok { IfOk result (Takes (rewrite_rules rules.now) step.now (tm term.old) (tm term.new)) }
    ensures err { OnErr result (tm term.new ≡ tm term.old) }
{
    match replacement_for(alloc, rules, term, total, step)? {
        Replacement::Part(value, total) => {
            put(term, step.path.as_slice(), value);
            Ok(Outcome::Taken(total))
        }
        Replacement::Nowhere => Ok(Outcome::Nowhere),
        Replacement::PastLimit => Ok(Outcome::PastLimit),
    }
}
