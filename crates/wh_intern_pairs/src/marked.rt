//! The marked symbols of a set of pairs by numbers, and what is chosen for them. The tests of marked symbols stand here
//! a second time, and go other ways: a choice is found by halving, and a symbol of the set is looked for from where the
//! one before it was found.

ghost use Rattle.std.specs.Prelude.{◌≡◌, ◌↔◌, ◌<◌, ◌≤◌, ℕ, All, Contains, IsTrue, MatchOption, length, map};
ghost use Rattle.wh_pairs.specs.PairData.{IsIncreasing};
ghost use Rattle.wh_pairs.specs.Marked.{HeadsASide, IsMarked};
ghost use Rattle.wh_system.specs.SystemView.{system_data};
ghost use Rattle.wh_subterm.specs.SubtermRows.{AreForMarked, HasNone, IsFirstOf, IsPlace, NoneIs, chosen, chosen_symbols};
ghost use Rattle.wh_intern_pairs.specs.Headed.{HeadsAt};
ghost use Rattle.wh_intern_pairs.specs.SidesAsPairs.{heads_of};

use wh_intern::Sides;
use wh_subterm::Choice;
use wh_system::System;

/// Whether the choices are for the marked symbols of the set, each once and in order.
pub fn are_for_marked(sides: &[Sides], set: &[u32], args: &[Choice]) -> bool
    requires { All (λ n. n < length sides.now) set.now }
    ensures { IsTrue result ↔ AreForMarked (map heads_of sides.now) set.now (map chosen args.now) }
{
    if !are_in_order(args) {
        return false;
    }
    all_marked(sides, set, args) && all_chosen(sides, set, args)
}

// Whether the symbols of the choices increase.
fn are_in_order(args: &[Choice]) -> bool
    ensures { IsTrue result ↔ IsIncreasing (chosen_symbols (map chosen args.now)) }
{
    for i in 1..args.len() {
        if args[i - 1].symbol >= args[i].symbol {
            return false;
        }
    }
    true
}

// Whether each choice is for a marked symbol.
fn all_marked(sides: &[Sides], set: &[u32], args: &[Choice]) -> bool
    requires { All (λ n. n < length sides.now) set.now }
    ensures { IsTrue result ↔ ((f : ℕ) → Contains (chosen_symbols (map chosen args.now)) f → IsMarked (map heads_of sides.now) set.now f) }
{
    let mut place = 0;
    for choice in args {
        match marked_at(sides, set, place, choice.symbol) {
            Some(found) => place = found,
            None => return false,
        }
    }
    true
}

// A place in the set of a pair that the symbol heads a side of. Places from the given one on are looked at first: pairs
// mostly stand in the order of their symbols.
fn marked_at(sides: &[Sides], set: &[u32], from: usize, symbol: u32) -> Option<usize>
    requires within { from ≤ length set.now }
    requires set { All (λ n. n < length sides.now) set.now }
    ensures { MatchOption result (IsMarked (map heads_of sides.now) set.now symbol → ⊥)
        (λ place. place < length set.now × IsMarked (map heads_of sides.now) set.now symbol) }
{
    match headed_between(sides, set, from, set.len(), symbol) {
        Some(place) => Some(place),
        None => headed_between(sides, set, 0, from, symbol),
    }
}

// The first place from `from` on and before `to` at which the symbol heads a side of a pair.
fn headed_between(
    sides: &[Sides],
    set: &[u32],
    from: usize,
    to: usize,
    symbol: u32,
) -> Option<usize>
    requires within { to ≤ length set.now }
    requires set { All (λ n. n < length sides.now) set.now }
    ensures { MatchOption result ((k : ℕ) → from ≤ k → k < to → HeadsAt (map heads_of sides.now) set.now symbol k → ⊥)
        (λ place. place < length set.now × HeadsAt (map heads_of sides.now) set.now symbol place) }
{
    for place in from..to {
        let number = set[place] as usize;
        if heads(&sides[number], symbol) {
            return Some(place);
        }
    }
    None
}

// Whether the symbol heads a side of the pair.
fn heads(pair: &Sides, symbol: u32) -> bool
    ensures { IsTrue result ↔ HeadsASide symbol (heads_of pair.now) }
{
    pair.left_fun == symbol || pair.right_fun == symbol
}

// Whether there is a choice for each marked symbol.
fn all_chosen(sides: &[Sides], set: &[u32], args: &[Choice]) -> bool
    requires set { All (λ n. n < length sides.now) set.now }
    requires args { IsIncreasing (chosen_symbols (map chosen args.now)) }
    ensures { IsTrue result ↔ ((f : ℕ) → IsMarked (map heads_of sides.now) set.now f → Contains (chosen_symbols (map chosen args.now)) f) }
{
    for number in set {
        if !has_choices(&sides[*number as usize], args) {
            return false;
        }
    }
    true
}

// Whether there is a choice for the heads of the pair.
fn has_choices(pair: &Sides, args: &[Choice]) -> bool
    requires { IsIncreasing (chosen_symbols (map chosen args.now)) }
    ensures { IsTrue result ↔ ((f : ℕ) → HeadsASide f (heads_of pair.now) → Contains (chosen_symbols (map chosen args.now)) f) }
{
    choice_for(args, pair.left_fun).is_some() && choice_for(args, pair.right_fun).is_some()
}

/// The argument that is chosen for the symbol.
pub fn choice_for(args: &[Choice], symbol: u32) -> Option<u32>
    requires { IsIncreasing (chosen_symbols (map chosen args.now)) }
    ensures { MatchOption result (Contains (chosen_symbols (map chosen args.now)) symbol → ⊥)
        (λ a. Contains (map chosen args.now) (record { symbol = symbol; argument = a })) }
{
    match args.binary_search_by_key(&symbol, |choice| choice.symbol) {
        Ok(place) => Some(args[place].argument),
        Err(_) => None,
    }
}

/// The symbol of the first choice whose symbol has rules that need no argument.
pub fn first_without_argument(system: &System, args: &[Choice]) -> Option<u32>
    ensures { MatchOption result (NoneIs (HasNone (system_data system.now).rules) (map chosen args.now))
        (IsFirstOf (HasNone (system_data system.now).rules) (map chosen args.now)) }
{
    for choice in args {
        if needs_none(system, choice) {
            return Some(choice.symbol);
        }
    }
    None
}

// Whether the symbol has rules that need no argument.
fn needs_none(system: &System, choice: &Choice) -> bool
    ensures { IsTrue result ↔ HasNone (system_data system.now).rules (chosen choice.now) }
{
    match system.need(choice.symbol) {
        Some(need) => need == 0,
        None => false,
    }
}

/// The symbol of the first choice whose number is none of the arguments that the rules of the symbol need.
pub fn first_out_of_place(system: &System, args: &[Choice]) -> Option<u32>
    ensures { MatchOption result (All (IsPlace (system_data system.now).rules) (map chosen args.now))
        (IsFirstOf (λ c. IsPlace (system_data system.now).rules c → ⊥) (map chosen args.now)) }
{
    for choice in args {
        if !is_place(system, choice) {
            return Some(choice.symbol);
        }
    }
    None
}

// Whether the number is that of an argument which the rules of the symbol need.
fn is_place(system: &System, choice: &Choice) -> bool
    ensures { IsTrue result ↔ IsPlace (system_data system.now).rules (chosen choice.now) }
{
    match system.need(choice.symbol) {
        Some(need) => 0 < choice.argument && choice.argument <= need,
        None => false,
    }
}
