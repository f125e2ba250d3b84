//! The marked symbols of a set of pairs, and the tests of the choices for them.

ghost use Rattle.std.specs.Prelude.{◌≡◌, ◌≢◌, ◌↔◌, ◌<◌, ◌⊎◌, ℕ, All, Contains, IsTrue, MatchOption, length, map};
ghost use Rattle.wh_pairs.specs.PairData.{IsIncreasing, pair_data};
ghost use Rattle.wh_system.specs.SystemView.{system_data};
ghost use Rattle.wh_pairs.specs.Marked.{HeadsASide, IsMarked};
ghost use Rattle.wh_subterm.specs.Projections.{Chosen};
ghost use Rattle.wh_subterm.specs.SubtermRows.{AreForMarked, HasNone, IsFirstOf, IsPlace, NoneIs, chosen, chosen_symbols};

use crate::projection::Choice;
use wh_pairs::Pair;
use wh_system::System;

/// Whether the choices are for the marked symbols of the set, each once and in order.
pub fn are_for_marked(pairs: &[Pair], set: &[u32], args: &[Choice]) -> bool
    requires { All (λ n. n < length pairs.now) set.now }
    ensures { IsTrue result ↔ AreForMarked (map pair_data pairs.now) set.now (map chosen args.now) }
{
    are_in_order(args) && all_marked(pairs, set, args) && all_chosen(pairs, set, args)
}

// Whether the symbols of the choices increase.
fn are_in_order(args: &[Choice]) -> bool
    ensures { IsTrue result ↔ IsIncreasing (chosen_symbols (map chosen args.now)) }
{
    for i in 1..args.len() {
        if args[i - 1].symbol >= args[i].symbol {
            return false;
        }
    }
    true
}

// Whether each choice is for a marked symbol.
fn all_marked(pairs: &[Pair], set: &[u32], args: &[Choice]) -> bool
    requires { All (λ n. n < length pairs.now) set.now }
    ensures { IsTrue result ↔ ((f : ℕ) → Contains (chosen_symbols (map chosen args.now)) f → IsMarked (map pair_data pairs.now) set.now f) }
{
    for choice in args {
        if !is_marked(pairs, set, choice.symbol) {
            return false;
        }
    }
    true
}

// Whether the symbol heads a side of a pair of the set.
fn is_marked(pairs: &[Pair], set: &[u32], symbol: u32) -> bool
    requires { All (λ n. n < length pairs.now) set.now }
    ensures { IsTrue result ↔ IsMarked (map pair_data pairs.now) set.now symbol }
{
    for number in set {
        if heads(&pairs[*number as usize], symbol) {
            return true;
        }
    }
    false
}

// Whether the symbol heads a side of the pair.
fn heads(pair: &Pair, symbol: u32) -> bool
    ensures { IsTrue result ↔ HeadsASide symbol (pair_data pair.now) }
{
    pair.left_fun == symbol || pair.right_fun == symbol
}

// Whether there is a choice for each marked symbol.
fn all_chosen(pairs: &[Pair], set: &[u32], args: &[Choice]) -> bool
    requires { All (λ n. n < length pairs.now) set.now }
    ensures { IsTrue result ↔ ((f : ℕ) → IsMarked (map pair_data pairs.now) set.now f → Contains (chosen_symbols (map chosen args.now)) f) }
{
    for number in set {
        if !has_choices(&pairs[*number as usize], args) {
            return false;
        }
    }
    true
}

// Whether there is a choice for the heads of the pair.
fn has_choices(pair: &Pair, args: &[Choice]) -> bool
    ensures { IsTrue result ↔ ((f : ℕ) → HeadsASide f (pair_data pair.now) → Contains (chosen_symbols (map chosen args.now)) f) }
{
    choice_for(args, pair.left_fun).is_some() && choice_for(args, pair.right_fun).is_some()
}

/// The argument that is chosen first for the symbol.
pub fn choice_for(args: &[Choice], symbol: u32) -> Option<u32>
    ensures { MatchOption result (Contains (chosen_symbols (map chosen args.now)) symbol → ⊥)
        (λ a. Contains (map chosen args.now) (record { symbol = symbol; argument = a })) }
{
    for choice in args {
        if choice.symbol == symbol {
            return Some(choice.argument);
        }
    }
    None
}

/// The symbol of the first choice whose symbol has rules that need no argument.
pub fn first_without_argument(system: &System, args: &[Choice]) -> Option<u32>
    ensures { MatchOption result (NoneIs (HasNone (system_data system.now).rules) (map chosen args.now))
        (IsFirstOf (HasNone (system_data system.now).rules) (map chosen args.now)) }
{
    for choice in args {
        if needs_none(system, choice) {
            return Some(choice.symbol);
        }
    }
    None
}

// Whether the symbol has rules that need no argument.
fn needs_none(system: &System, choice: &Choice) -> bool
    ensures { IsTrue result ↔ HasNone (system_data system.now).rules (chosen choice.now) }
{
    match system.need(choice.symbol) {
        Some(need) => need == 0,
        None => false,
    }
}

/// The symbol of the first choice whose number is none of the arguments that the rules of the symbol need.
pub fn first_out_of_place(system: &System, args: &[Choice]) -> Option<u32>
    ensures { MatchOption result (All (IsPlace (system_data system.now).rules) (map chosen args.now))
        (IsFirstOf (λ c. IsPlace (system_data system.now).rules c → ⊥) (map chosen args.now)) }
{
    for choice in args {
        if !is_place(system, choice) {
            return Some(choice.symbol);
        }
    }
    None
}

// Whether the number is that of an argument which the rules of the symbol need.
fn is_place(system: &System, choice: &Choice) -> bool
    ensures { IsTrue result ↔ IsPlace (system_data system.now).rules (chosen choice.now) }
{
    match system.need(choice.symbol) {
        Some(need) => 0 < choice.argument && choice.argument <= need,
        None => false,
    }
}
