//! The reducts of a term.
//!
//! One walk: the reducts of each part are found once, and then moved up into the term around that part, which is copied
//! once for each of them.

ghost use Rattle.std.specs.Prelude.{◌≡◌, ◌++◌, ℕ, map, IfOk};
ghost use Rattle.wh_types.specs.Erase.{ty};
ghost use Rattle.wh_terms.specs.Typing.{Symbols};
ghost use Rattle.wh_terms.specs.Sight.{LooseBelow, IsTerm};
ghost use Rattle.wh_terms.specs.Measures.{Fits};
ghost use Rattle.wh_terms.specs.Erase.{tm, rewrite_rules};
ghost use Rattle.wh_terms.specs.Rules.{AreWellMade};
ghost use Rattle.wh_step.specs.Reducts.{AreReducts};
ghost use Rattle.wh_step.specs.Contracta.{AreReady, IsPlain, results_of};
ghost use Rattle.wh_step.specs.Enumerations.{Enumerates, IsRootStep, IsStep, around};

use crate::redex::{Contractum, beta_step, build, rule_step};
use std::alloc::{AllocError, Global};
use wh_terms::{Rule, Term, Terms, copy_term};
use wh_types::SimpleType;

/// What stands around a part of a term, one level up.
#[derive(Clone, Copy)]
pub enum Surrounding<'a> {
    /// The part is a function; this is its argument.
    Argument(&'a Term),
    /// The part is an argument; this is the function.
    Function(&'a Term),
    /// The part is the body of an abstraction over a variable of this type.
    Binder(&'a SimpleType),
}

// The term one level up.
fn wrapped(alloc: Global, outside: Surrounding<'_>, part: Term) -> Result<Term, AllocError>
    ensures { IfOk result (λ r. tm r ≡ around outside.entry (tm part)) }
{
    let part = Box::new(alloc, part)?;
    match outside {
        Surrounding::Argument(argument) => Ok(Term::App(
            part,
            Box::new(alloc, copy_term(alloc, argument)?)?,
        )),
        Surrounding::Function(function) => Ok(Term::App(
            Box::new(alloc, copy_term(alloc, function)?)?,
            part,
        )),
        Surrounding::Binder(kind) => Ok(Term::Lam(kind.copy(alloc)?, part)),
    }
}

// The terms found so far, and then each of the parts with what stands around it.
fn with_parts(
    alloc: Global,
    found: Vec<Term>,
    outside: Surrounding<'_>,
    parts: Vec<Term>,
) -> Result<Vec<Term>, AllocError>
    ensures { IfOk result (λ r. map tm r.items ≡ map tm found.items ++ map (around outside.entry) (map tm parts.items)) }
{
    let mut all = found;
    for part in parts {
        all.push(wrapped(alloc, outside, part)?)?;
    }
    Ok(all)
}

// The terms found so far, and then the result of the step, if there is one.
fn with_result(
    alloc: Global,
    found: Vec<Term>,
    step: Option<Contractum<'_>>,
) -> Result<Vec<Term>, AllocError>
    requires { AreReady step }
    ensures { IfOk result (λ r. map tm r.items ≡ map tm found.items ++ results_of step.entry) }
{
    let Some(contractum) = step else {
        return Ok(found);
    };
    let mut all = found;
    all.push(build(alloc, &contractum)?)?;
    Ok(all)
}

// What the term steps to at its root: by beta, and then by the rules in order.
fn root_reducts(alloc: Global, rules: &[Rule], term: &Term) -> Result<Vec<Term>, AllocError>
    requires well_made { (S : Symbols) × AreWellMade S (rewrite_rules rules.now) }
    requires plain { IsPlain (tm term.now) }
    ensures { IfOk result (λ r. Enumerates (IsRootStep (rewrite_rules rules.now) (tm term.now)) (map tm r.items)) }
{
    let mut found = with_result(alloc, Vec::new(alloc), beta_step(term))?;
    for rule in rules {
        found = with_result(alloc, found, rule_step(alloc, rule, term)?)?;
    }
    Ok(found)
}

// The reducts of a part of a term, whose variables may be loose.
fn reducts_below(alloc: Global, rules: &[Rule], term: &Term) -> Result<Vec<Term>, AllocError>
    requires well_made { (S : Symbols) × AreWellMade S (rewrite_rules rules.now) }
    requires plain { IsPlain (tm term.now) }
    ensures { IfOk result (λ r. Enumerates (IsStep (rewrite_rules rules.now) (tm term.now)) (map tm r.items)) }
{
    let found = root_reducts(alloc, rules, term)?;
    match term {
        Term::App(function, argument) => {
            let fronts = reducts_below(alloc, rules, function)?;
            let found = with_parts(alloc, found, Surrounding::Argument(argument), fronts)?;
            let lasts = reducts_below(alloc, rules, argument)?;
            with_parts(alloc, found, Surrounding::Function(function), lasts)
        }
        Term::Lam(kind, body) => {
            let bodies = reducts_below(alloc, rules, body)?;
            with_parts(alloc, found, Surrounding::Binder(kind), bodies)
        }
        Term::Bound(_) | Term::Free(_, _) | Term::Fun(_) | Term::Meta(_, _) => Ok(found),
    }
}

// The terms in the same order.
fn collected(alloc: Global, found: Vec<Term>) -> Result<Terms, AllocError>
    ensures { IfOk result (λ r. map tm r ≡ map tm found.items) }
{
    let mut all = Terms::new(alloc);
    for term in found {
        all.push(term)?;
    }
    Ok(all)
}

/// The reducts of the term in their order: by place in preorder (a term before its parts, a function before its
/// argument), at one place beta before the rules, and the rules by their numbers. A term that is reached in two ways is
/// listed twice.
pub fn reducts(alloc: Global, rules: &[Rule], term: &Term) -> Result<Terms, AllocError>
    requires well_made { (S : Symbols) × AreWellMade S (rewrite_rules rules.now) }
    requires fits { Fits (tm term.now) }
    requires shut { LooseBelow 0 (tm term.now) }
    requires plain { IsTerm (tm term.now) }
    ensures { IfOk result (λ r. AreReducts (rewrite_rules rules.now) (tm term.now) (map tm r)) }
{
    let found = reducts_below(alloc, rules, term)?;
    collected(alloc, found)
}
