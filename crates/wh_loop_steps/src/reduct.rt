//! One step of a term, if its result fits and is small. The search for loops goes through such terms alone.

ghost use Rattle.std.specs.Prelude.{IfOk};
ghost use Rattle.wh_terms.specs.Typing.{Symbols};
ghost use Rattle.wh_terms.specs.Measures.{Fits};
ghost use Rattle.wh_terms.specs.Sight.{LooseBelow, IsTerm};
ghost use Rattle.wh_terms.specs.Erase.{tm, rewrite_rules};
ghost use Rattle.wh_terms.specs.Rules.{AreWellMade};
ghost use Rattle.wh_loop_steps.specs.Reducts.{IsCopyInSpace, IsIfSmall, Reduces};

use std::alloc::{AllocError, Global};
use std::slice::from_ref;
use wh_step::replay;
use wh_terms::{Rule, Step, Term, copy_term, fits, size};

/// The greatest size of a term on a path.
pub const MOST_SIZE: u64 = 2048;

/// What the step leads to; `None` if it does not apply, or the result does not fit or is not small. The result is
/// measured before it is built.
pub fn reduct_by(
    alloc: Global,
    rules: &[Rule],
    term: &Term,
    step: &Step,
) -> Result<Option<Term>, AllocError>
    requires well_made { (S : Symbols) × AreWellMade S (rewrite_rules rules.now) }
    requires fits { Fits (tm term.now) }
    requires shut { LooseBelow 0 (tm term.now) }
    requires plain { IsTerm (tm term.now) }
    ensures { IfOk result (Reduces (rewrite_rules rules.now) step.now (tm term.now)) }
{
    match replay(alloc, rules, term, from_ref(step))? {
        Ok(reduct) => Ok(if_small(reduct)),
        Err(_) => Ok(None),
    }
}

/// A copy of the term, if it fits and is small.
pub fn copy_in_space(alloc: Global, term: &Term) -> Result<Option<Term>, AllocError>
    ensures { IfOk result (IsCopyInSpace (tm term.now)) }
{
    if !fits(term) {
        return Ok(None);
    }
    if size(term) > MOST_SIZE {
        return Ok(None);
    }
    Ok(Some(copy_term(alloc, term)?))
}

// The term, if it is small.
fn if_small(term: Term) -> Option<Term>
    requires { Fits (tm term) }
    ensures { IsIfSmall term result }
{
    if size(&term) <= MOST_SIZE {
        Some(term)
    } else {
        None
    }
}
