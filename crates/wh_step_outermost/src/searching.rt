//! The search for the leftmost-outermost step of a term.
//!
//! The walk goes over the term in the order of its redexes, and stops at the first. It takes memory only for matching
//! and for what it finds.

ghost use Rattle.std.specs.Prelude.{◌≡◌, ◌∷◌, [], ◌<◌, All, reverse, IfOk, MatchOption};
ghost use Rattle.wh_types.specs.Erase.{ty};
ghost use Rattle.wh_terms.specs.Typing.{Symbols};
ghost use Rattle.wh_terms.specs.Sight.{LooseBelow, IsTerm};
ghost use Rattle.wh_terms.specs.Measures.{Fits};
ghost use Rattle.wh_terms.specs.Places.{IsPath};
ghost use Rattle.wh_terms.specs.Erase.{tm, rewrite_rules};
ghost use Rattle.wh_terms.specs.Rules.{AreWellMade};
ghost use Rattle.wh_step.specs.Contracta.{IsPlain};
ghost use Rattle.wh_step_outermost.specs.Leftmost.{IsNormal, StepsFirstBy};
ghost use Rattle.wh_step_outermost.specs.Redexes.{HasNone, IsFirst, NoneLeft, redex_of};

use crate::redexes::first_at_root;
use crate::resuming::next_below;
use std::alloc::{AllocError, Global};
use wh_terms::{Path, Rule, Step, Term};

/// A redex of a part of a term.
#[derive(Drop)]
pub struct Found {
    /// The number of the rule, or `None` for beta.
    pub rule: Option<u32>,
    /// The way to it from the part, last step first.
    pub back: Vec<u8>,
}

/// The redex, seen from one level up.
pub fn one_up(found: Option<Found>, step: u8) -> Result<Option<Found>, AllocError>
    ensures { IfOk result (λ o. MatchOption found (o ≡ None) (λ f. MatchOption o ⊥
        (λ g. (g.rule ≡ f.rule) × (reverse g.back.items ≡ step ∷ reverse f.back.items)))) }
{
    match found {
        Some(mut found) => {
            found.back.push(step)?;
            Ok(Some(found))
        }
        None => Ok(None),
    }
}

/// The first redex of a part of a term, whose variables may be loose.
pub fn first_below(alloc: Global, rules: &[Rule], term: &Term) -> Result<Option<Found>, AllocError>
    requires well_made { (S : Symbols) × AreWellMade S (rewrite_rules rules.now) }
    requires plain { IsPlain (tm term.now) }
    ensures { IfOk result (λ o. MatchOption o (HasNone (rewrite_rules rules.now) (tm term.now))
        (λ f. IsFirst (rewrite_rules rules.now) (tm term.now) (redex_of f))) }
{
    if let Some(rule) = first_at_root(alloc, rules, term)? {
        return Ok(Some(Found {
            rule,
            back: Vec::new(alloc),
        }));
    }
    match term {
        Term::App(function, argument) => match first_below(alloc, rules, function)? {
            Some(found) => one_up(Some(found), 0),
            None => one_up(first_below(alloc, rules, argument)?, 1),
        },
        Term::Lam(_, body) => one_up(first_below(alloc, rules, body)?, 0),
        Term::Bound(_) | Term::Free(_, _) | Term::Fun(_) | Term::Meta(_, _) => Ok(None),
    }
}

// The path of these steps.
fn path_of(alloc: Global, steps: &[u8]) -> Result<Path, AllocError>
    requires { IsPath steps.now }
    ensures { IfOk result (λ path. path ≡ steps.now) }
{
    let mut path = Path::new(alloc);
    for step in steps {
        path.push(*step)?;
    }
    Ok(path)
}

// The redex, as a step.
fn as_step(alloc: Global, found: Found) -> Result<Step, AllocError>
    requires { IsPath (reverse found.back.items) }
    ensures { IfOk result (λ s. (s.rule ≡ found.rule) × (s.path ≡ reverse found.back.items)) }
{
    let mut found = found;
    found.back.reverse();
    let path = path_of(alloc, found.back.as_slice())?;
    Ok(Step {
        rule: found.rule,
        path,
    })
}

/// The leftmost-outermost step of a term that has no redex to the left of the place; `None` exactly where it has no
/// reduct.
pub fn next_step(
    alloc: Global,
    rules: &[Rule],
    term: &Term,
    place: &[u8],
) -> Result<Option<Step>, AllocError>
    requires well_made { (S : Symbols) × AreWellMade S (rewrite_rules rules.now) }
    requires fits { Fits (tm term.now) }
    requires shut { LooseBelow 0 (tm term.now) }
    requires plain { IsTerm (tm term.now) }
    requires none_left { NoneLeft (rewrite_rules rules.now) place.now (tm term.now) }
    ensures { IfOk result (λ o. MatchOption o (IsNormal (rewrite_rules rules.now) (tm term.now))
        (λ s. StepsFirstBy (rewrite_rules rules.now) (tm term.now) s.rule s.path)) }
{
    match next_below(alloc, rules, term, place)? {
        Some(found) => Ok(Some(as_step(alloc, found)?)),
        None => Ok(None),
    }
}

/// The leftmost-outermost step of the term, which leads to the first of its `reducts`; `None` exactly where it has no
/// reduct.
pub fn first_step(alloc: Global, rules: &[Rule], term: &Term) -> Result<Option<Step>, AllocError>
    requires well_made { (S : Symbols) × AreWellMade S (rewrite_rules rules.now) }
    requires fits { Fits (tm term.now) }
    requires shut { LooseBelow 0 (tm term.now) }
    requires plain { IsTerm (tm term.now) }
    ensures { IfOk result (λ o. MatchOption o (IsNormal (rewrite_rules rules.now) (tm term.now))
        (λ s. StepsFirstBy (rewrite_rules rules.now) (tm term.now) s.rule s.path)) }
{
    next_step(alloc, rules, term, &[])
}
