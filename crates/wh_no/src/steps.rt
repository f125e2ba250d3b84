//! The steps of a NO certificate, replayed.

ghost use Rattle.std.specs.Prelude.{◌<◌, ◌^◌, length};
ghost use Rattle.wh_types.specs.Outcome.{MatchOr};
ghost use Rattle.wh_terms.specs.Erase.{tm, rewrite_rules};
ghost use Rattle.wh_terms.specs.Measures.{Fits};
ghost use Rattle.wh_terms.specs.Rules.{AreWellMade};
ghost use Rattle.wh_terms.specs.Sight.{IsTerm, LooseBelow};
ghost use Rattle.wh_terms.specs.Typing.{Symbols};
ghost use Rattle.wh_no.specs.Faults.{Arrive, IsStepFault};

use crate::fault::NoFault;
use std::alloc::Global;
use wh_step::{StepFault, replay};
use wh_terms::{Rule, Step, Term};
use wh_types::Or;

/// Where the steps lead. The fault is that there is no step, or the first step that does not apply or whose result does
/// not fit.
pub fn check_steps(
    alloc: Global,
    rules: &[Rule],
    term: &Term,
    steps: &[Step],
) -> Result<Term, Or<NoFault>>
    requires well_made { (S : Symbols) × AreWellMade S (rewrite_rules rules.now) }
    requires fits { Fits (tm term.now) }
    requires shut { LooseBelow 0 (tm term.now) }
    requires plain { IsTerm (tm term.now) }
    requires counted { length steps.now < 2 ^ 32 }
    ensures { MatchOr result (λ last. Arrive (rewrite_rules rules.now) steps.now (tm term.now) (tm last))
        (IsStepFault (rewrite_rules rules.now) steps.now (tm term.now)) }
{
    if steps.is_empty() {
        return Err(Or::Because(NoFault::NoStep));
    }
    match replay(alloc, rules, term, steps)? {
        Ok(last) => Ok(last),
        Err(StepFault::Fails { index }) => Err(Or::Because(NoFault::StepFails { index })),
        Err(StepFault::TooBig { index }) => Err(Or::Because(NoFault::TooBig { index })),
    }
}
