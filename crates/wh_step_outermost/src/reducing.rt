//! Reduction by leftmost-outermost steps: `reduce` goes on until a normal form, a number of steps or a limit is
//! reached.

ghost use Rattle.std.specs.Prelude.{◌≡◌, IfOk};
ghost use Rattle.wh_terms.specs.Typing.{Symbols};
ghost use Rattle.wh_terms.specs.Sight.{LooseBelow, IsTerm};
ghost use Rattle.wh_terms.specs.Measures.{Fits};
ghost use Rattle.wh_terms.specs.Erase.{tm, rewrite_rules};
ghost use Rattle.wh_terms.specs.Rules.{AreWellMade};
ghost use Rattle.wh_step_outermost.specs.Reducing.{EndsBy, Reduces};
ghost use Rattle.wh_step_outermost.specs.Redexes.{NoneLeft};

use crate::searching::next_step;
use crate::taking::take_step;
use std::alloc::{AllocError, Global};
use wh_terms::{Path, Rule, Term, copy_term, size};

/// Why a reduction ends.
#[derive(Clone, Copy)]
pub enum End {
    /// The last term has no reduct.
    Normal,
    /// The last term has a reduct, and as many steps are taken as were asked for.
    Spent,
    /// Fewer steps are taken than were asked for, and the result of the next one does not fit.
    TooBig,
}

/// A reduction by leftmost-outermost steps.
#[derive(Drop)]
pub struct Reduced {
    /// How many steps are taken.
    pub steps: u32,
    /// The term that they lead to.
    pub last: Term,
    /// Why no step more is taken.
    pub end: End,
}

// Why no step is taken from the term after the last that was asked for.
fn end_of(
    alloc: Global,
    rules: &[Rule],
    last: Term,
    place: &[u8],
    steps: u32,
) -> Result<Reduced, AllocError>
    requires well_made { (S : Symbols) × AreWellMade S (rewrite_rules rules.now) }
    requires fits { Fits (tm last) }
    requires shut { LooseBelow 0 (tm last) }
    requires plain { IsTerm (tm last) }
    requires none_left { NoneLeft (rewrite_rules rules.now) place.now (tm last) }
    ensures { IfOk result (λ r. (r.steps ≡ steps) × (tm r.last ≡ tm last)
        × EndsBy (rewrite_rules rules.now) steps steps (tm last) r.end) }
{
    let end = match next_step(alloc, rules, &last, place)? {
        Some(_) => End::Spent,
        None => End::Normal,
    };
    Ok(Reduced { steps, last, end })
}

/// The term reduced by its leftmost-outermost steps, at most as many as are asked for. A step whose result does not fit
/// is not taken, and ends the reduction.
///
/// The term is copied once, and each step is taken in the copy. The next one is looked for from the place of the last:
/// no redex is to the left of it, and those above it are looked at first.
pub fn reduce(alloc: Global, rules: &[Rule], term: &Term, steps: u32) -> Result<Reduced, AllocError>
    requires well_made { (S : Symbols) × AreWellMade S (rewrite_rules rules.now) }
    requires fits { Fits (tm term.now) }
    requires shut { LooseBelow 0 (tm term.now) }
    requires plain { IsTerm (tm term.now) }
    ensures { IfOk result (λ r. Reduces (rewrite_rules rules.now) (tm term.now) steps r.steps (tm r.last) r.end) }
{
    let mut here = copy_term(alloc, term)?;
    let mut total = size(term);
    let mut place = Path::new(alloc);
    for taken in 0..steps {
        let Some(step) = next_step(alloc, rules, &here, place.as_slice())? else {
            return Ok(Reduced {
                steps: taken,
                last: here,
                end: End::Normal,
            });
        };
        match take_step(alloc, rules, &mut here, total, &step)? {
            Some(next) => total = next,
            None => {
                return Ok(Reduced {
                    steps: taken,
                    last: here,
                    end: End::TooBig,
                });
            }
        }
        place = step.path;
    }
    end_of(alloc, rules, here, place.as_slice(), steps)
}
