//! Replay of a list of steps.
//!
//! The term is copied once; then each step is taken in that copy, whose size goes along as a number.

ghost use Rattle.std.specs.Prelude.{◌<◌, ◌^◌, length, IfOk};
ghost use Rattle.wh_terms.specs.Typing.{Symbols};
ghost use Rattle.wh_terms.specs.Sight.{LooseBelow, IsTerm};
ghost use Rattle.wh_terms.specs.Measures.{Fits};
ghost use Rattle.wh_terms.specs.Erase.{tm, rewrite_rules};
ghost use Rattle.wh_terms.specs.Rules.{AreWellMade};
ghost use Rattle.wh_step.specs.Replaying.{Replayed};

use crate::stepping::{Outcome, take_step};
use std::alloc::{AllocError, Global};
use wh_terms::{Rule, Step, Term, copy_term, size};

/// Why a replay ends before its last step, with the number of the step, counted from 0.
#[derive(Clone, Copy)]
pub enum StepFault {
    /// The step does not apply.
    Fails { index: u32 },
    /// The step applies, and its result does not fit.
    TooBig { index: u32 },
}

/// The end of the reduction that takes these steps, or the first step that does not apply or whose result does not fit.
/// The result of each step is measured before it is built. The term is copied once; after that a step costs its path,
/// its redex and its contractum.
pub fn replay(
    alloc: Global,
    rules: &[Rule],
    term: &Term,
    steps: &[Step],
) -> Result<Result<Term, StepFault>, AllocError>
    requires well_made { (S : Symbols) × AreWellMade S (rewrite_rules rules.now) }
    requires fits { Fits (tm term.now) }
    requires shut { LooseBelow 0 (tm term.now) }
    requires plain { IsTerm (tm term.now) }
    requires counted { length steps.now < 2 ^ 32 }
    ensures { IfOk result (Replayed (rewrite_rules rules.now) steps.now (tm term.now)) }
{
    let mut total = size(term);
    let mut here = copy_term(alloc, term)?;
    for (i, step) in steps.iter().enumerate() {
        match take_step(alloc, rules, &mut here, total, step)? {
            Outcome::Taken(next) => total = next,
            Outcome::Nowhere => return Ok(Err(StepFault::Fails { index: i as u32 })),
            Outcome::PastLimit => return Ok(Err(StepFault::TooBig { index: i as u32 })),
        }
    }
    Ok(Ok(here))
}
