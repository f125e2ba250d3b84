//! What the places that are passed demand of the ranks: which sorts must have at most the rank of which others, or
//! less.

ghost use Rattle.std.specs.Prelude.{◌≡◌, ◌↔◌, ◌<◌, ◌^◌, IfOk, IsTrue, length, true};
ghost use Rattle.wh_types.specs.Limits.{most_sorts};
ghost use Rattle.wh_access.specs.Demands.{HasSort, IsAskedAt};
ghost use Rattle.wh_access.specs.Passing.{IsRead};
ghost use Rattle.wh_access.specs.Readings.{readings, readings_of_left};
ghost use Rattle.wh_access.specs.Tables.{Grows, LeadsIn, LeadsStrictlyIn, SortsWithin, TellsAsked, TellsAskedByRule, InTables};
ghost use Rattle.wh_access.specs.Answered.{IsFirstIn};
ghost use Rattle.wh_terms.specs.Erase.{rewrite_rule, symbols, tm};
ghost use Rattle.wh_terms.specs.Measures.{nesting};
ghost use Rattle.wh_terms.specs.Sight.{Occurs};
ghost use Rattle.wh_types.specs.Erase.{ty};
ghost use Rattle.wh_types.specs.Ty.{SortsBelow};

use crate::occurrence::occurs;
use crate::place::{Place, argument_at, place_after};
use crate::relation::Relation;
use std::alloc::{AllocError, Global};
use wh_terms::{Rule, Signature, Term};
use wh_types::SimpleType;

/// Demands on ranks: from which sorts to which, weak ones apart from strict ones.
#[derive(Drop)]
pub struct Demands {
    weak: Relation,
    strict: Relation,
}

impl Demands {
    /// The tables without demands.
    pub fn new(alloc: Global) -> Result<Self, AllocError>
        ensures { IfOk result (λ demands. (d : _) → d.from < most_sorts → d.to < most_sorts → InTables demands d → ⊥) }
    {
        Ok(Demands {
            weak: Relation::new(alloc)?,
            strict: Relation::new(alloc)?,
        })
    }

    /// One more demand.
    pub fn add(&mut self, from: u32, to: u32, strict: bool)
        requires from { from < most_sorts }
        requires to { to < most_sorts }
        ensures { Grows self.old self.new (λ d. (d.from ≡ from) × (d.to ≡ to) × (d.strict ≡ strict)) }
    {
        if strict {
            self.strict.insert(from, to);
        } else {
            self.weak.insert(from, to);
        }
    }

    /// Whether a demand leads from the one sort to the other.
    pub fn leads(&self, from: u32, to: u32) -> bool
        requires from { from < most_sorts }
        requires to { to < most_sorts }
        ensures { IsTrue result ↔ LeadsIn self.now from to }
    {
        self.weak.holds(from, to) || self.strict.holds(from, to)
    }

    /// Whether a strict demand leads from the one sort to the other.
    pub fn leads_strictly(&self, from: u32, to: u32) -> bool
        requires from { from < most_sorts }
        requires to { to < most_sorts }
        ensures { IsTrue result ↔ LeadsStrictlyIn self.now from to }
    {
        self.strict.holds(from, to)
    }
}

/// Adds what is demanded on the way to each meta-variable of the rule's right side. Where the left side does not read
/// some of these, the answer is the least of them.
pub fn ask_rule(signature: &Signature, demands: &mut Demands, rule: &Rule) -> Option<u32>
    requires sorts { SortsWithin most_sorts (symbols signature.now) }
    requires few { length rule.now.metas < 2 ^ 32 }
    requires declared { (z : _) → Occurs z (tm rule.now.right) → z < length rule.now.metas }
    requires nested { nesting (tm rule.now.left) < 2 ^ 30 }
    ensures read { IsFirstIn IsRead (rewrite_rule rule.now) result }
    ensures asked { TellsAskedByRule (symbols signature.now) (rewrite_rule rule.now) demands.old demands.new result }
{
    for meta in 0..rule.metas.as_slice().len() as u32 {
        if occurs(meta, &rule.right) && !ask_left(signature, demands, &rule.left, meta) {
            return Some(meta);
        }
    }
    None
}

// Adds what is demanded on the way to the meta-variable in a left side; false where the left side does not read it.
fn ask_left(signature: &Signature, demands: &mut Demands, left: &Term, meta: u32) -> bool
    requires sorts { SortsWithin most_sorts (symbols signature.now) }
    requires nested { nesting (tm left.now) < 2 ^ 30 }
    ensures { TellsAsked (symbols signature.now) meta (readings_of_left (tm left.now)) demands.old demands.new result }
{
    match left {
        Term::App(function, argument) => {
            ask_left(signature, demands, function, meta)
                || ask_in(signature, demands, argument, meta)
        }
        _ => false,
    }
}

// Adds what is demanded on the way to the meta-variable in a pattern; false where the pattern does not read it.
fn ask_in(signature: &Signature, demands: &mut Demands, pattern: &Term, meta: u32) -> bool
    requires sorts { SortsWithin most_sorts (symbols signature.now) }
    requires nested { nesting (tm pattern.now) < 2 ^ 30 }
    ensures { TellsAsked (symbols signature.now) meta (readings (tm pattern.now)) demands.old demands.new result }
{
    match pattern {
        Term::Bound(_) | Term::Free(..) | Term::Fun(_) => false,
        Term::Meta(number, _) => *number == meta,
        Term::Lam(_, body) => ask_in(signature, demands, body, meta),
        Term::App(function, argument) => {
            if ask_in(signature, demands, function, meta) {
                return true;
            }
            let Some(place) = place_after(function) else {
                return false;
            };
            if !ask_in(signature, demands, argument, meta) {
                return false;
            }
            ask_at(signature, demands, place);
            true
        }
    }
}

// Adds what the place demands.
fn ask_at(signature: &Signature, demands: &mut Demands, place: Place)
    requires { SortsWithin most_sorts (symbols signature.now) }
    ensures { Grows demands.old demands.new (IsAskedAt (symbols signature.now) (record { symbol = place.symbol; index = place.index })) }
{
    let Some(kind) = signature.funs.as_slice().get(place.symbol as usize) else {
        return;
    };
    let Some(argument) = argument_at(kind, place.index) else {
        return;
    };
    match argument {
        SimpleType::Sort(sort) => demands.add(*sort, kind.result_sort(), false),
        SimpleType::Arrow(..) => ask_below(demands, argument, kind.result_sort()),
    }
}

// Adds that each sort in the type is to be below the other one.
fn ask_below(demands: &mut Demands, kind: &SimpleType, to: u32)
    requires sorts { SortsBelow most_sorts (ty kind.now) }
    requires to { to < most_sorts }
    ensures { Grows demands.old demands.new (λ d. HasSort d.from (ty kind.now) × (d.to ≡ to) × (d.strict ≡ true)) }
{
    match kind {
        SimpleType::Sort(sort) => demands.add(*sort, to, true),
        SimpleType::Arrow(argument, rest) => {
            ask_below(demands, argument, to);
            ask_below(demands, rest, to);
        }
    }
}
