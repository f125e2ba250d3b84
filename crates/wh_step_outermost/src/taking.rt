//! A step of a term, taken in place.
//!
//! The step is replayed on the term along its path, where one symbol stands for all that is beside the path. That tells
//! all that can pass a limit but the size of the whole, which goes along as a number. So a step costs its path, its
//! redex and its contractum, however large the term is.

ghost use Rattle.std.specs.Prelude.{◌≡◌, IfOk};
ghost use Rattle.wh_terms.specs.Tree.{Tm};
ghost use Rattle.wh_terms.specs.Typing.{Symbols};
ghost use Rattle.wh_terms.specs.Sight.{LooseBelow, IsTerm};
ghost use Rattle.wh_terms.specs.Measures.{Fits, size as tree_size};
ghost use Rattle.wh_terms.specs.Erase.{tm, rewrite_rules};
ghost use Rattle.wh_terms.specs.Rules.{AreWellMade};
ghost use Rattle.wh_step.specs.Replay.{StepAt};
ghost use Rattle.wh_step_outermost.specs.Taking.{Replaces, Takes};

use crate::strands::{part_of, put, strand};
use std::alloc::{AllocError, Global};
use std::slice;
use wh_step::{StepFault, replay};
use wh_terms::{MOST_SIZE, Rule, Step, Term, size};

/// What a step puts in place of its redex.
#[derive(Drop)]
pub struct Replacement {
    /// The contractum.
    pub part: Term,
    /// The size of the whole term with it.
    pub total: u64,
}

// What the step puts in place of its redex in a term of the size `total`, if the result fits.
fn replacement_for(
    alloc: Global,
    rules: &[Rule],
    term: &Term,
    total: u64,
    step: &Step,
) -> Result<Option<Replacement>, AllocError>
    requires well_made { (S : Symbols) × AreWellMade S (rewrite_rules rules.now) }
    requires fits { Fits (tm term.now) }
    requires shut { LooseBelow 0 (tm term.now) }
    requires plain { IsTerm (tm term.now) }
    requires sized { total ≡ tree_size (tm term.now) }
    requires applies { (u : Tm) × StepAt (rewrite_rules rules.now) step.now.rule step.now.path (tm term.now) u }
    ensures { IfOk result (Replaces (rewrite_rules rules.now) step.now (tm term.now)) }
{
    let path = step.path.as_slice();
    let along = strand(alloc, term, path)?;
    let beside = total - size(&along);
    match replay(alloc, rules, &along, slice::from_ref(step))? {
        Ok(next) => {
            let total = beside + size(&next);
            if total > u64::from(MOST_SIZE) {
                return Ok(None);
            }
            Ok(Some(Replacement {
                part: part_of(next, path),
                total,
            }))
        }
        Err(StepFault::TooBig { .. }) => Ok(None),
        Err(StepFault::Fails { .. }) => unreachable!(),
    }
}

/// Takes the step in a term of the size `total`, and answers with the size of the result; `None` if that does not fit.
pub fn take_step(
    alloc: Global,
    rules: &[Rule],
    term: &mut Term,
    total: u64,
    step: &Step,
) -> Result<Option<u64>, AllocError>
    requires well_made { (S : Symbols) × AreWellMade S (rewrite_rules rules.now) }
    requires fits { Fits (tm term.old) }
    requires shut { LooseBelow 0 (tm term.old) }
    requires plain { IsTerm (tm term.old) }
    requires sized { total ≡ tree_size (tm term.old) }
    requires applies { (u : Tm) × StepAt (rewrite_rules rules.now) step.now.rule step.now.path (tm term.old) u }
    ensures { IfOk result (Takes (rewrite_rules rules.now) step.now (tm term.old) (tm term.new)) }
{
    match replacement_for(alloc, rules, term, total, step)? {
        Some(replacement) => {
            put(term, step.path.as_slice(), replacement.part);
            Ok(Some(replacement.total))
        }
        None => Ok(None),
    }
}
