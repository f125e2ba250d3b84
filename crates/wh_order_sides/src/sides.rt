//! The sides of rules and of pairs with all their arguments, ready to be filtered for a path order.

ghost use Rattle.std.specs.Prelude.{◌≡◌, ◌<◌, Some, length, map, slice_get};
ghost use Rattle.wh_types.specs.Limits.{greatest_size};
ghost use Rattle.wh_types.specs.Outcome.{MatchOr};
ghost use Rattle.wh_terms.specs.Erase.{declared_metas, rewrite_rule, symbols, tm};
ghost use Rattle.wh_terms.specs.Measures.{size};
ghost use Rattle.wh_terms.specs.Rules.{RewriteRule};
ghost use Rattle.wh_system.specs.CanonicalView.{side_of};
ghost use Rattle.wh_system.specs.SystemView.{system_data};
ghost use Rattle.wh_pairs.specs.PairData.{pair_data};
ghost use Rattle.wh_order_extended.specs.ExtendedSides.{extended_side};
ghost use Rattle.wh_order_sides.specs.RuleSides.{IsWideSide};
ghost use Rattle.wh_order_sides.specs.PairSides.{BuildsCall, list_of_side};

use crate::building::long;
use crate::kinds::kind_of;
use crate::metas::{applied, copy_metas, with_added};
use crate::room::{TooWide, without};
use std::alloc::Global;
use wh_pairs::Pair;
use wh_system::System;
use wh_terms::{MOST_SIZE, MetaDecl, Metas, Rule, Signature, Term, Terms, copy_term};
use wh_types::{Or, counted};

/// A side of a rule with all its arguments, and what it is over.
#[derive(Drop)]
pub struct WideSide {
    /// The meta-variables: those of the rule, and behind them one for each argument that the sides of the rule lack.
    pub metas: Metas,
    /// The side.
    pub term: Term,
}

/// The right side of a rule, or its left side, applied to fresh meta-variables for its missing arguments and extended
/// (Kop 2012).
///
/// `Err` comes exactly where that has more than 65,536 nodes.
pub fn extended_rule(
    alloc: Global,
    system: &System,
    rule: u32,
    right: bool,
) -> Result<WideSide, Or<TooWide>>
    requires { rule < length (system_data system.now).rules }
    ensures { (r : RewriteRule) → slice_get (system_data system.now).rules rule ≡ Some r → MatchOr result
        (IsWideSide (system_data system.now).symbols r (side_of right r))
        (λ _. greatest_size < size (extended_side (system_data system.now).symbols r (side_of right r))) }
{
    let rule = &system.rules()[rule as usize];
    extended_side(alloc, system.signature(), rule, side_of(rule, right))
}

// The right side of a rule, or its left side.
fn side_of(rule: &Rule, right: bool) -> &Term
    ensures { tm result.now ≡ side_of right (rewrite_rule rule.now) }
{
    if right { &rule.right } else { &rule.left }
}

// A side of the rule, extended.
fn extended_side(
    alloc: Global,
    signature: &Signature,
    rule: &Rule,
    side: &Term,
) -> Result<WideSide, Or<TooWide>>
    ensures { MatchOr result (IsWideSide (symbols signature.now) (rewrite_rule rule.now) (tm side.now))
        (λ _. greatest_size < size (extended_side (symbols signature.now) (rewrite_rule rule.now) (tm side.now))) }
{
    let kind = kind_of(alloc, signature, rule.metas.as_slice(), &rule.left)?;
    let metas = with_added(alloc, copy_metas(alloc, &rule.metas)?, &kind)?;
    let first = counted(rule.metas.as_slice().len())?;
    let whole = applied(alloc, copy_term(alloc, side)?, first, &kind)?;
    let built = long(alloc, signature, metas.as_slice(), &whole, MOST_SIZE)?;
    let term = built.term;
    Ok(WideSide { metas, term })
}

/// The arguments of the right side of a pair, or of its left side, extended (Kop 2012).
///
/// `Err` comes exactly where the marked symbol with these arguments has more than 65,536 nodes.
pub fn extended_arguments(
    alloc: Global,
    system: &System,
    pair: &Pair,
    right: bool,
) -> Result<Terms, Or<TooWide>>
    ensures { BuildsCall (system_data system.now).symbols (pair_data pair.now).metas (list_of_side (pair_data pair.now) right) result }
{
    let metas = pair.metas.as_slice();
    if right {
        extended_list(alloc, system.signature(), metas, &pair.right)
    } else {
        extended_list(alloc, system.signature(), metas, &pair.left)
    }
}

// The terms, extended, where they are the arguments of a symbol.
fn extended_list(
    alloc: Global,
    signature: &Signature,
    metas: &[MetaDecl],
    items: &Terms,
) -> Result<Terms, Or<TooWide>>
    ensures { BuildsCall (symbols signature.now) (declared_metas metas.now) (map tm items.now) result }
{
    let mut results = Terms::new(alloc);
    let mut left = without(MOST_SIZE, 1)?;
    for item in items.as_slice() {
        let argument = long(alloc, signature, metas, item, without(left, 1)?)?;
        results.push(argument.term)?;
        left = argument.room;
    }
    Ok(results)
}
