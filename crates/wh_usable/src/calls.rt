//! Sides that call only symbols all whose rules are listed. A table says of each symbol whether that is so.

ghost use Rattle.std.specs.Prelude.{◌≡◌, ◌↔◌, ℕ, IsTrue, List, MatchOption, length, map};
ghost use Rattle.wh_terms.specs.Erase.{tm};
ghost use Rattle.wh_terms.specs.Rules.{RewriteRule};
ghost use Rattle.wh_terms.specs.Tree.{fun, head};
ghost use Rattle.wh_terms.specs.Typing.{Declared, Symbols};
ghost use Rattle.wh_pairs.specs.PairData.{IsIncreasing};
ghost use Rattle.wh_system.specs.SystemView.{system_data};
ghost use Rattle.wh_usable_first_order.specs.FirstOrder.{AreFlatTrees, IsFlatTree};
ghost use Rattle.wh_usable.specs.Closed.{ListsRulesIn, ListsRulesInEach, ListsRulesOf};
ghost use Rattle.wh_usable.specs.Tables.{IsCleared, IsTableOf};

use wh_system::System;
use wh_terms::Term;

/// The greatest number of symbols of a system.
pub const MOST_SYMBOLS: usize = 1024;

/// Says of each symbol in the table whether all its rules are listed.
pub fn look_up(table: &mut [bool], system: &System, listed: &[u32])
    requires increasing { IsIncreasing listed.now }
    requires long { length table.old ≡ 1024 }
    ensures { IsTableOf (system_data system.now).rules listed.now table.new }
{
    system.is_well_made();
    table.fill(true);
    for (number, rule) in system.rules().iter().enumerate() {
        if listed.binary_search(&(number as u32)).is_err() {
            clear(table, &rule.left);
        }
    }
}

// Says of the symbol that heads the side that it has a rule that is not listed.
fn clear(table: &mut [bool], side: &Term)
    ensures { IsCleared table.old (tm side.now) table.new }
{
    if let Some(symbol) = head_symbol(side) {
        let place = symbol as usize;
        if place < table.len() {
            table[place] = false;
        }
    }
}

// The symbol that heads the spine, if one does.
fn head_symbol(term: &Term) -> Option<u32>
    ensures { MatchOption result ((f : ℕ) → head (tm term.now) ≡ fun f → ⊥) (λ f. head (tm term.now) ≡ fun f) }
{
    match term {
        Term::Fun(symbol) => Some(*symbol),
        Term::App(function, _) => head_symbol(function),
        _ => None,
    }
}

/// Whether all rules of each symbol in the first-order tree are listed, by the table.
pub fn calls_listed(table: &[bool], term: &Term) -> bool
    ensures { (S : Symbols) (M : List Declared) (rules : List RewriteRule) (listed : List ℕ) → IsFlatTree S M (tm term.now)
        → IsTableOf rules listed table.now → IsTrue result ↔ ListsRulesIn rules listed (tm term.now) }
{
    match term {
        Term::Fun(symbol) => is_listed(table, *symbol),
        Term::App(function, argument) => {
            calls_listed(table, function) && calls_listed(table, argument)
        }
        _ => true,
    }
}

/// Whether each of the trees calls listed rules alone.
pub fn each_calls_listed(table: &[bool], items: &[Term]) -> bool
    ensures { (S : Symbols) (M : List Declared) (rules : List RewriteRule) (listed : List ℕ) → AreFlatTrees S M (map tm items.now)
        → IsTableOf rules listed table.now → IsTrue result ↔ ListsRulesInEach rules listed (map tm items.now) }
{
    for item in items {
        if !calls_listed(table, item) {
            return false;
        }
    }
    true
}

// Whether all rules of the symbol are listed.
fn is_listed(table: &[bool], symbol: u32) -> bool
    ensures { (rules : List RewriteRule) (listed : List ℕ) → IsTableOf rules listed table.now
        → IsTrue result ↔ ListsRulesOf rules listed symbol }
{
    match table.get(symbol as usize) {
        Some(listed) => *listed,
        None => true,
    }
}
