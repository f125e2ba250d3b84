//! Room for occurrences of symbols and meta-variables: what is left of it behind sides, if they are flat and the room
//! is enough. Each walk stops where the room is spent.

ghost use Rattle.std.specs.Prelude.{◌≡◌, ◌≤◌, map};
ghost use Rattle.wh_terms.specs.Budget.{Left};
ghost use Rattle.wh_terms.specs.Erase.{declared_metas, rewrite_rule, symbols, tm, tms};
ghost use Rattle.wh_terms.specs.Rules.{IsWellMade};
ghost use Rattle.wh_terms.specs.Tree.{none, tms_of};
ghost use Rattle.wh_pairs.specs.PairData.{pair_data};
ghost use Rattle.wh_usable_first_order.specs.FirstOrder.{AreFlatTrees, IsFirstOrder, IsFlatTree, IsNullary};
ghost use Rattle.wh_poly_flat.specs.Flat.{IsFlatPair, IsFlatRule, call_occurrences, most_in_side, occurrences, occurrences_in, pair_occurrences, rule_occurrences};

use wh_pairs::Pair;
use wh_terms::{MetaDecl, Rule, Signature, Term, Terms};
use wh_usable_first_order::{is_first_order, is_nullary, is_of_a_sort};

// The greatest number of occurrences of symbols and meta-variables in one side.
const MOST_IN_SIDE: u32 = 60;

/// What is left of the room behind a rule; `None` where the rule is not flat, or the room is spent.
pub fn after_rule(signature: &Signature, rule: &Rule, room: u32) -> Option<u32>
    requires { IsWellMade (symbols signature.now) (rewrite_rule rule.now) }
    ensures { Left room (rule_occurrences (rewrite_rule rule.now))
        (IsFlatRule (symbols signature.now) (rewrite_rule rule.now) × (rule_occurrences (rewrite_rule rule.now) ≤ room)) result }
{
    let metas = rule.metas.as_slice();
    let behind = after_side(signature, metas, &rule.left, room)?;
    let rest = after_side(signature, metas, &rule.right, behind)?;
    if is_of_a_sort(signature, metas, &rule.left) {
        Some(rest)
    } else {
        None
    }
}

// Beyond a side of a rule.
fn after_side(signature: &Signature, metas: &[MetaDecl], side: &Term, room: u32) -> Option<u32>
    ensures { Left room (occurrences (tm side.now))
        (IsFlatTree (symbols signature.now) (declared_metas metas.now) (tm side.now)
        × (occurrences (tm side.now) ≤ most_in_side) × (occurrences (tm side.now) ≤ room)) result }
{
    let most = room.min(MOST_IN_SIDE);
    let rest = after_tree(signature, metas, side, most)?;
    Some(room - (most - rest))
}

/// What is left of the room behind a pair; `None` where the pair is not flat, or the room is spent.
pub fn after_pair(signature: &Signature, pair: &Pair, room: u32) -> Option<u32>
    ensures { Left room (pair_occurrences (pair_data pair.now))
        (IsFlatPair (symbols signature.now) (pair_data pair.now) × (pair_occurrences (pair_data pair.now) ≤ room)) result }
{
    let metas = pair.metas.as_slice();
    let rest = after_call(signature, metas, pair.left_fun, &pair.left, room)?;
    after_call(signature, metas, pair.right_fun, &pair.right, rest)
}

// Beyond a side of a pair: a marked symbol with its arguments.
fn after_call(
    signature: &Signature,
    metas: &[MetaDecl],
    symbol: u32,
    arguments: &Terms,
    room: u32,
) -> Option<u32>
    ensures { Left room (call_occurrences (map tm arguments.now))
        (IsFirstOrder (symbols signature.now) symbol
        × AreFlatTrees (symbols signature.now) (declared_metas metas.now) (map tm arguments.now)
        × (call_occurrences (map tm arguments.now) ≤ most_in_side) × (call_occurrences (map tm arguments.now) ≤ room)) result }
{
    let most = room.min(MOST_IN_SIDE);
    let behind = after_symbol(signature, symbol, most)?;
    let rest = after_trees(signature, metas, arguments, behind)?;
    Some(room - (most - rest))
}

// Beyond trees.
fn after_trees(signature: &Signature, metas: &[MetaDecl], terms: &Terms, room: u32) -> Option<u32>
    ensures { Left room (occurrences_in (tms_of (map tm terms.now)))
        (AreFlatTrees (symbols signature.now) (declared_metas metas.now) (map tm terms.now)
        × (occurrences_in (tms_of (map tm terms.now)) ≤ room)) result }
{
    let mut rest = room;
    for term in terms.as_slice() {
        rest = after_tree(signature, metas, term, rest)?;
    }
    Some(rest)
}

// Beyond a tree.
fn after_tree(signature: &Signature, metas: &[MetaDecl], term: &Term, room: u32) -> Option<u32>
    ensures { Left room (occurrences (tm term.now))
        (IsFlatTree (symbols signature.now) (declared_metas metas.now) (tm term.now) × (occurrences (tm term.now) ≤ room)) result }
{
    match term {
        Term::Fun(symbol) => after_symbol(signature, *symbol, room),
        Term::Meta(meta, items) => after_meta(metas, *meta, items, room),
        Term::App(function, argument) => {
            let rest = after_tree(signature, metas, function, room)?;
            after_tree(signature, metas, argument, rest)
        }
        _ => None,
    }
}

// Beyond a symbol.
fn after_symbol(signature: &Signature, symbol: u32, room: u32) -> Option<u32>
    ensures { Left room 1 (IsFirstOrder (symbols signature.now) symbol × (1 ≤ room)) result }
{
    if is_first_order(signature, symbol) {
        room.checked_sub(1)
    } else {
        None
    }
}

// Beyond a meta-variable, which has to stand without arguments.
fn after_meta(metas: &[MetaDecl], meta: u32, items: &Terms, room: u32) -> Option<u32>
    ensures { Left room 1 ((tms items.now ≡ none) × IsNullary (declared_metas metas.now) meta × (1 ≤ room)) result }
{
    if items.as_slice().is_empty() && is_nullary(metas, meta) {
        room.checked_sub(1)
    } else {
        None
    }
}
