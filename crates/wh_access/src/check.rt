//! Whether a system is passing under ranks: `check_ranks` is the test that a YES certificate must pass first.

ghost use Rattle.std.specs.Prelude.{◌≡◌, ◌↔◌, ◌<◌, ◌^◌, IsTrue, IfErr, OnOk, length};
ghost use Rattle.wh_access.specs.Passing.{IsFirstBreakIn, IsPassing, Passes};
ghost use Rattle.wh_access.specs.Readings.{readings, readings_of_left};
ghost use Rattle.wh_access.specs.Answered.{IsFirstIn, TellsOpen};
ghost use Rattle.wh_step_laws.specs.Ranks.{rank_of};
ghost use Rattle.wh_system.specs.SystemView.{system_data};
ghost use Rattle.wh_terms.specs.Erase.{rewrite_rule, symbols, tm};
ghost use Rattle.wh_terms.specs.Measures.{nesting};
ghost use Rattle.wh_terms.specs.Sight.{Occurs};

use crate::occurrence::occurs;
use crate::place::{is_accessible, place_after};
use wh_system::System;
use wh_terms::{Rule, Signature, Term};
use wh_types::Ranks;

/// The meta-variable of a rule that is not read on a way of accessible places.
#[derive(Clone, Copy)]
pub struct Inaccessible {
    /// The rule, by its index.
    pub rule: u32,
    /// The meta-variable, by its number.
    pub meta: u32,
}

/// Whether the system is passing under the ranks, of which there is one for each sort: each meta-variable of a right
/// side is read in the left side on a way of accessible places (Fuhs and Kop 2019, accessible function passing).
///
/// # Errors
///
/// The first rule, and in it the least meta-variable by number, of which this is not so.
pub fn check_ranks(system: &System, ranks: &Ranks) -> Result<(), Inaccessible>
    requires { length ranks.now ≡ (system_data system.now).symbols.sorts }
    ensures passing { OnOk result (IsPassing (system_data system.now) ranks.now) }
    ensures first { IfErr result (λ e. IsFirstBreakIn (system_data system.now) ranks.now e.rule e.meta) }
{
    system.is_well_made();
    for (index, rule) in system.rules().iter().enumerate() {
        if let Some(meta) = first_break(system.signature(), ranks, rule) {
            return Err(Inaccessible {
                rule: index as u32,
                meta,
            });
        }
    }
    Ok(())
}

// The least meta-variable of the right side that breaks passing.
fn first_break(signature: &Signature, ranks: &Ranks, rule: &Rule) -> Option<u32>
    requires few { length rule.now.metas < 2 ^ 32 }
    requires declared { (z : _) → Occurs z (tm rule.now.right) → z < length rule.now.metas }
    requires nested { nesting (tm rule.now.left) < 2 ^ 30 }
    ensures { IsFirstIn (Passes (symbols signature.now) (rank_of ranks.now)) (rewrite_rule rule.now) result }
{
    for meta in 0..rule.metas.as_slice().len() as u32 {
        if occurs(meta, &rule.right) && !passes(signature, ranks, &rule.left, meta) {
            return Some(meta);
        }
    }
    None
}

// Whether the left side is read for the meta-variable on a way of accessible places.
fn passes(signature: &Signature, ranks: &Ranks, left: &Term, meta: u32) -> bool
    requires { nesting (tm left.now) < 2 ^ 30 }
    ensures { IsTrue result ↔ Passes (symbols signature.now) (rank_of ranks.now) (tm left.now) meta }
{
    is_open_in_left(signature, ranks, left, meta) == Some(true)
}

// Whether the first reading of the meta-variable in the left side has a way of accessible places; `None` if there is
// none.
fn is_open_in_left(signature: &Signature, ranks: &Ranks, left: &Term, meta: u32) -> Option<bool>
    requires { nesting (tm left.now) < 2 ^ 30 }
    ensures { TellsOpen (symbols signature.now) (rank_of ranks.now) meta (readings_of_left (tm left.now)) result }
{
    match left {
        Term::App(function, argument) => {
            let front = is_open_in_left(signature, ranks, function, meta);
            if front.is_some() {
                return front;
            }
            is_open(signature, ranks, argument, meta)
        }
        _ => None,
    }
}

// Whether the first reading of the meta-variable in a pattern has a way of accessible places; `None` if there is none.
fn is_open(signature: &Signature, ranks: &Ranks, pattern: &Term, meta: u32) -> Option<bool>
    requires { nesting (tm pattern.now) < 2 ^ 30 }
    ensures { TellsOpen (symbols signature.now) (rank_of ranks.now) meta (readings (tm pattern.now)) result }
{
    match pattern {
        Term::Bound(_) | Term::Free(..) | Term::Fun(_) => None,
        Term::Meta(number, _) => { if *number == meta { Some(true) } else { None } }
        Term::Lam(_, body) => is_open(signature, ranks, body, meta),
        Term::App(function, argument) => {
            let front = is_open(signature, ranks, function, meta);
            if front.is_some() {
                return front;
            }
            let open = is_open(signature, ranks, argument, meta)?;
            let place = place_after(function)?;
            Some(open && is_accessible(signature, ranks, place))
        }
    }
}
