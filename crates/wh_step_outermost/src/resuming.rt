//! The search for the next redex of a term, from the place of the last step on.
//!
//! A step changes nothing to the left of its place, and there was no redex there. So only what stands above the place,
//! at it and to the right of it is looked at.

ghost use Rattle.std.specs.Prelude.{IfOk, MatchOption};
ghost use Rattle.wh_terms.specs.Typing.{Symbols};
ghost use Rattle.wh_terms.specs.Erase.{tm, rewrite_rules};
ghost use Rattle.wh_terms.specs.Rules.{AreWellMade};
ghost use Rattle.wh_step.specs.Contracta.{IsPlain};
ghost use Rattle.wh_step_outermost.specs.Redexes.{HasNone, IsFirst, NoneLeft, redex_of};

use crate::redexes::first_at_root;
use crate::searching::{Found, first_below, one_up};
use std::alloc::{AllocError, Global};
use wh_terms::{Rule, Term};

/// The first redex of a part of a term; no redex is to the left of the place.
pub fn next_below(
    alloc: Global,
    rules: &[Rule],
    term: &Term,
    place: &[u8],
) -> Result<Option<Found>, AllocError>
    requires well_made { (S : Symbols) × AreWellMade S (rewrite_rules rules.now) }
    requires plain { IsPlain (tm term.now) }
    requires none_left { NoneLeft (rewrite_rules rules.now) place.now (tm term.now) }
    ensures { IfOk result (λ o. MatchOption o (HasNone (rewrite_rules rules.now) (tm term.now))
        (λ f. IsFirst (rewrite_rules rules.now) (tm term.now) (redex_of f))) }
{
    let Some((step, rest)) = place.split_first() else {
        return first_below(alloc, rules, term);
    };
    if let Some(rule) = first_at_root(alloc, rules, term)? {
        let back = Vec::new(alloc);
        return Ok(Some(Found { rule, back }));
    }
    match term {
        Term::App(function, argument) => {
            if *step > 0 {
                return one_up(next_below(alloc, rules, argument, rest)?, 1);
            }
            match next_below(alloc, rules, function, rest)? {
                Some(found) => one_up(Some(found), 0),
                None => one_up(first_below(alloc, rules, argument)?, 1),
            }
        }
        Term::Lam(_, body) => one_up(next_below(alloc, rules, body, rest)?, 0),
        Term::Bound(_) | Term::Free(_, _) | Term::Fun(_) | Term::Meta(_, _) => Ok(None),
    }
}
