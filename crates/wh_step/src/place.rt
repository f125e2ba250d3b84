//! A step at a position: `step_at` takes it and `replace_at` puts a part in the place of another.

ghost use Rattle.std.specs.Prelude.{◌≡◌, ℕ, IfOk, MatchOption, Some, None};
ghost use Rattle.wh_types.specs.Erase.{ty};
ghost use Rattle.wh_terms.specs.Tree.{Tm};
ghost use Rattle.wh_terms.specs.Typing.{Symbols};
ghost use Rattle.wh_terms.specs.Sight.{LooseBelow, IsTerm};
ghost use Rattle.wh_terms.specs.Measures.{Fits};
ghost use Rattle.wh_terms.specs.Erase.{tm, rewrite_rules};
ghost use Rattle.wh_terms.specs.Rules.{AreWellMade};
ghost use Rattle.wh_step.specs.Replay.{StepAt};
ghost use Rattle.wh_step.specs.Roots.{put_at};

use crate::redex::{build, root_step};
use std::alloc::{AllocError, Global};
use wh_terms::{Path, Rule, Term, copy_term, subterm_at};

/// The term with `value` in place of its part at the path.
#[tactic(auto, using(crate::proofs::PlaceLemmas::put_here, crate::proofs::PlaceLemmas::put_in_function, crate::proofs::PlaceLemmas::put_in_argument, crate::proofs::PlaceLemmas::put_in_body))]
pub fn replace_at(alloc: Global, term: &Term, path: &[u8], value: Term) -> Result<Term, AllocError>
    ensures { IfOk result (λ r. tm r ≡ put_at path.now (tm value) (tm term.now)) }
{
    let Some((step, rest)) = path.split_first() else {
        return Ok(value);
    };
    match term {
        Term::App(function, argument) => {
            if *step == 0 {
                let function = replace_at(alloc, function, rest, value)?;
                Ok(Term::App(
                    Box::new(alloc, function)?,
                    Box::new(alloc, copy_term(alloc, argument)?)?,
                ))
            } else {
                let argument = replace_at(alloc, argument, rest, value)?;
                Ok(Term::App(
                    Box::new(alloc, copy_term(alloc, function)?)?,
                    Box::new(alloc, argument)?,
                ))
            }
        }
        Term::Lam(kind, body) => {
            let kind = kind.copy(alloc)?;
            Ok(Term::Lam(
                kind,
                Box::new(alloc, replace_at(alloc, body, rest, value)?)?,
            ))
        }
        _ => copy_term(alloc, term),
    }
}

/// What the term steps to at the path, by the rule with the number, or by beta where there is none; `None` if there is
/// no such step.
pub fn step_at(
    alloc: Global,
    rules: &[Rule],
    term: &Term,
    path: &Path,
    rule: Option<u32>,
) -> Result<Option<Term>, AllocError>
    requires well_made { (S : Symbols) × AreWellMade S (rewrite_rules rules.now) }
    requires fits { Fits (tm term.now) }
    requires shut { LooseBelow 0 (tm term.now) }
    requires plain { IsTerm (tm term.now) }
    ensures { IfOk result (λ o. MatchOption o ((u : Tm) → StepAt (rewrite_rules rules.now) rule path.now (tm term.now) u → ⊥)
        (λ u. StepAt (rewrite_rules rules.now) rule path.now (tm term.now) (tm u))) }
{
    let Some(redex) = subterm_at(term, path) else {
        return Ok(None);
    };
    match root_step(alloc, rules, redex, rule)? {
        Some(contractum) => {
            let value = build(alloc, &contractum)?;
            Ok(Some(replace_at(alloc, term, path.as_slice(), value)?))
        }
        None => Ok(None),
    }
}
